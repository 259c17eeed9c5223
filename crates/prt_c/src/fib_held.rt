//! What C holds: nothing, or an owner of a compiled table.
ghost use Rattle.std.specs.Prelude.{◌≡◌, None, Some, Option, option_map};
ghost use Rattle.prt_c.specs.declared.fib_owner.FibOwner.{FibOwner};
ghost use Rattle.prt_c.specs.FibOwned.{fib_coded, fib_owns};

use crate::fib_owner::FibOwner;
use crate::parts::Parts;
use std::alloc::Global;
use std::marker::Model;

/// Nothing, or a boxed owner of a compiled table.
///
/// Its pointer names no type, since one that an export takes may not lead to an `Arc`.
#[derive(Drop)]
#[repr(C)]
pub struct FibHeld {
    ptr: *mut u8,
    alloc: Global,
    pub ghost home: { Option FibOwner } by { fib_coded },
}

impl Model for FibHeld {
    ghost also_owns = { λ held. fib_owns held.alloc held.ptr held.home };
}

impl FibHeld {
    /// Makes a holder that holds nothing.
    pub fn empty(alloc: Global) -> FibHeld
        ensures { result.home ≡ None }
    {
        FibHeld {
            ptr: std::ptr::null_mut(),
            alloc,
        }
    }

    /// Holds the owner whose box was taken apart.
    pub fn of_parts(parts: Parts<FibOwner, Global>) -> FibHeld
        ensures { result.home ≡ Some parts.value }
    {
        let Parts { ptr, alloc } = parts;
        FibHeld {
            ptr: ptr as *mut u8,
            alloc,
        }
    }

    /// Takes the owner's box out, in its parts; `None` if nothing is held.
    pub fn into_parts(self) -> Option<Parts<FibOwner, Global>>
        ensures { option_map (λ parts. parts.value) result ≡ self.home }
    {
        let FibHeld { ptr, alloc } = self;
        if ptr.is_null() {
            return None;
        }
        let ptr = ptr as *mut FibOwner;
        Some(Parts { ptr, alloc })
    }
}

unsafe impl Send for FibHeld {}
