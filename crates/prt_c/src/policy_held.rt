//! What C holds: nothing, or an owner of a policy table.
ghost use Rattle.std.specs.Prelude.{◌≡◌, None, Some, Option, option_map};
ghost use Rattle.prt_c.specs.declared.policy_owner.PolicyOwner.{PolicyOwner};
ghost use Rattle.prt_c.specs.PolicyOwned.{policy_coded, policy_owns};

use crate::parts::Parts;
use crate::policy_owner::PolicyOwner;
use std::alloc::Global;
use std::marker::Model;

/// Nothing, or a boxed owner of a policy table.
///
/// Its pointer names no type, since one that an export takes may not lead to an `Arc`.
#[derive(Drop)]
#[repr(C)]
pub struct PolicyHeld {
    ptr: *mut u8,
    alloc: Global,
    pub ghost home: { Option PolicyOwner } by { policy_coded },
}

impl Model for PolicyHeld {
    ghost also_owns = { λ held. policy_owns held.alloc held.ptr held.home };
}

impl PolicyHeld {
    /// Makes a holder that holds nothing.
    pub fn empty(alloc: Global) -> PolicyHeld
        ensures { result.home ≡ None }
    {
        PolicyHeld {
            ptr: std::ptr::null_mut(),
            alloc,
        }
    }

    /// Holds the owner whose box was taken apart.
    pub fn of_parts(parts: Parts<PolicyOwner, Global>) -> PolicyHeld
        ensures { result.home ≡ Some parts.value }
    {
        let Parts { ptr, alloc } = parts;
        PolicyHeld {
            ptr: ptr as *mut u8,
            alloc,
        }
    }

    /// Takes the owner's box out, in its parts; `None` if nothing is held.
    pub fn into_parts(self) -> Option<Parts<PolicyOwner, Global>>
        ensures { option_map (λ parts. parts.value) result ≡ self.home }
    {
        let PolicyHeld { ptr, alloc } = self;
        if ptr.is_null() {
            return None;
        }
        let ptr = ptr as *mut PolicyOwner;
        Some(Parts { ptr, alloc })
    }
}

unsafe impl Send for PolicyHeld {}
