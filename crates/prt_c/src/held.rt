//! What C holds: nothing, or an owner of a version.
ghost use Rattle.std.specs.Prelude.{◌≡◌, None, Some, Option, option_map};
ghost use Rattle.prt_c.specs.declared.owner.Owner.{Owner};
ghost use Rattle.prt_c.specs.Owned.{held_coded, held_owns};

use crate::owner::Owner;
use crate::parts::Parts;
use std::alloc::Global;
use std::marker::Model;

/// Nothing, or a boxed owner of a version.
///
/// Its pointer names no type, since one that an export takes may not lead to an `Arc`.
#[derive(Drop)]
#[repr(C)]
pub struct Held {
    ptr: *mut u8,
    alloc: Global,
    pub ghost home: { Option Owner } by { held_coded },
}

impl Model for Held {
    ghost also_owns = { λ held. held_owns held.alloc held.ptr held.home };
}

impl Held {
    /// Holds nothing.
    pub fn empty(alloc: Global) -> Held
        ensures { result.home ≡ None }
    {
        Held {
            ptr: std::ptr::null_mut(),
            alloc,
        }
    }

    /// Holds the owner whose box was taken apart.
    pub fn of_parts(parts: Parts<Owner, Global>) -> Held
        ensures { result.home ≡ Some parts.value }
    {
        let Parts { ptr, alloc } = parts;
        Held {
            ptr: ptr as *mut u8,
            alloc,
        }
    }

    /// Returns the parts of the owner's box; None if nothing is held.
    pub fn into_parts(self) -> Option<Parts<Owner, Global>>
        ensures { option_map (λ parts. parts.value) result ≡ self.home }
    {
        let Held { ptr, alloc } = self;
        if ptr.is_null() {
            return None;
        }
        let ptr = ptr as *mut Owner;
        Some(Parts { ptr, alloc })
    }
}

unsafe impl Send for Held {}
