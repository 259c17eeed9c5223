//! How many connections may follow at once.

use std::sync::{Mutex, Wait};

/// Counts the slots that are free.
#[derive(Drop)]
pub struct FollowerSlots {
    free: Mutex<u64>,
}

/// A slot that was taken. It can't be let go: its holder has to return it.
pub(crate) struct FollowerSlot<'a> {
    slots: &'a FollowerSlots,
}

impl FollowerSlots {
    /// Makes `count` slots, all of them free.
    pub fn new(count: u64) -> FollowerSlots {
        FollowerSlots {
            free: Mutex::new(count),
        }
    }

    /// Takes one, if one is free.
    pub(crate) fn take<H: Wait>(&self, rt: &H) -> Option<FollowerSlot<'_>> {
        let mut free = self.free.lock(rt);
        if *free == 0 {
            return None;
        }
        *free -= 1;
        Some(FollowerSlot { slots: self })
    }
}

impl<'a> FollowerSlot<'a> {
    /// Returns the slot.
    pub(crate) fn leave<H: Wait>(self, rt: &H) {
        let FollowerSlot { slots } = self;
        let mut free = slots.free.lock(rt);
        *free = free.saturating_add(1);
    }
}
