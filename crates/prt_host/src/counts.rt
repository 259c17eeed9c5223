//! What a server counts of its sessions.

use prt_serve::Queued;
use std::sync::atomic::{AtomicU64, AtomicUsize, Ordering};

/// Counts of a server since its start, which any thread adds to.
#[derive(Drop)]
pub(crate) struct Counts {
    /// Commands that were accepted.
    accepted: AtomicU64,
    /// Lines that were refused.
    refused: AtomicU64,
    /// Sessions that workers took.
    begun: AtomicU64,
    /// Those of them that have ended.
    ended: AtomicU64,
    /// Connections in the waiting room, when it was last looked through.
    in_room: AtomicUsize,
    /// Connections that have left it for the workers.
    handed_over: AtomicU64,
}

/// A copy of the counts.
#[derive(Clone, Copy)]
pub(crate) struct Counted {
    /// Commands that were accepted.
    pub(crate) accepted: u64,
    /// Lines that were refused.
    pub(crate) refused: u64,
    /// Sessions that a worker serves.
    pub(crate) active: u64,
    /// Connections that wait for one.
    pub(crate) waiting: u64,
}

/// Adds one to a count.
fn add(count: &AtomicU64) {
    let _before = count.fetch_add(1, Ordering::SeqCst);
}

impl Counts {
    /// Makes counts of nothing.
    pub(crate) fn new() -> Counts {
        Counts {
            accepted: AtomicU64::new(0),
            refused: AtomicU64::new(0),
            begun: AtomicU64::new(0),
            ended: AtomicU64::new(0),
            in_room: AtomicUsize::new(0),
            handed_over: AtomicU64::new(0),
        }
    }

    pub(crate) fn accept(&self) {
        add(&self.accepted);
    }

    pub(crate) fn refuse(&self) {
        add(&self.refused);
    }

    pub(crate) fn begin(&self) {
        add(&self.begun);
    }

    pub(crate) fn end(&self) {
        add(&self.ended);
    }

    /// Notes how many connections are on their way to a worker.
    pub(crate) fn queue(&self, queued: Queued) {
        self.in_room.store(queued.in_room, Ordering::SeqCst);
        self.handed_over.store(queued.handed_over, Ordering::SeqCst);
    }

    /// Copies them. Others may count on meanwhile, so the copies are of nearly one moment.
    pub(crate) fn copy(&self) -> Counted {
        let ended = self.ended.load(Ordering::SeqCst);
        let begun = self.begun.load(Ordering::SeqCst);
        let handed_over = self.handed_over.load(Ordering::SeqCst);
        let in_room = self.in_room.load(Ordering::SeqCst) as u64;
        Counted {
            accepted: self.accepted.load(Ordering::SeqCst),
            refused: self.refused.load(Ordering::SeqCst),
            active: begun.saturating_sub(ended),
            waiting: in_room.saturating_add(handed_over.saturating_sub(begun)),
        }
    }
}
