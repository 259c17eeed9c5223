//! Numbers the connections of all listeners, and says when no more are accepted.
ghost use Rattle.std.specs.Prelude.{◌≡◌, ◌≢◌, ◌≤◌, ◌==◌, IfSome};

use std::sync::atomic::{AtomicBool, AtomicU64, Ordering};

/// Counts the connections that come by several listeners, up to a limit. All who accept share it.
#[derive(Drop)]
pub struct Turnstile {
    /// How many may come; 0 is no end.
    most: u64,
    /// How many have come, or tried to.
    came: AtomicU64,
    is_shut: AtomicBool,
}

impl Turnstile {
    /// Makes one by which `most` connections may come; 0 is no end.
    pub fn new(most: u64) -> Turnstile
        ensures { result.most ≡ most }
    {
        Turnstile {
            most,
            came: AtomicU64::new(0),
            is_shut: AtomicBool::new(false),
        }
    }

    /// Numbers a connection, from 1. `None` if as many have come as may.
    pub(crate) fn pass(&self) -> Option<u64>
        ensures from { IfSome result (λ number. 1 ≤ number) }
        ensures within { self.now.most ≢ 0 → IfSome result (λ number. number ≤ self.now.most) }
    {
        let number = self.came.fetch_add(1, Ordering::SeqCst).saturating_add(1);
        if self.most != 0 && number > self.most {
            return None;
        }
        Some(number)
    }

    /// Checks whether the connection of this number is the last that may come.
    pub(crate) fn is_last(&self, number: u64) -> bool
        ensures { result ≡ number == self.now.most }
    {
        number == self.most
    }

    /// Has all who accept end.
    pub(crate) fn shut(&self) {
        self.is_shut.store(true, Ordering::SeqCst);
    }

    /// Checks whether those who accept are to end.
    pub(crate) fn is_shut(&self) -> bool {
        self.is_shut.load(Ordering::SeqCst)
    }
}
