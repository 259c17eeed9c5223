//! Values with several owners: what versions share, and versions themselves.
ghost use Rattle.std.specs.Prelude.{◌≡◌, IfErr, IfOk};
ghost use Rattle.std.specs.Arc.{arc_value};
ghost use Rattle.prt_refusals.specs.declared.refusal.Refusal.TheVariants.{NoMemory};

use crate::Refusal;
use std::alloc::Global;
use std::sync::Arc;

/// Makes the first owner of the value.
///
/// # Errors
///
/// `NoMemory` if memory is refused; the value is gone.
pub fn first_owner<T: Drop>(alloc: Global, value: T) -> Result<Arc<T>, Refusal>
    ensures value { IfOk result (λ owner. arc_value owner ≡ value) }
    ensures reason { IfErr result (λ reason. reason ≡ NoMemory) }
{
    let owner = Arc::new(alloc, value)?;
    Ok(owner)
}

/// Makes one more owner of the same value.
///
/// # Errors
///
/// `NoMemory` if the value has as many owners as can be counted.
pub fn share<T: Drop>(owner: &Arc<T>) -> Result<Arc<T>, Refusal>
    ensures value { IfOk result (λ other. arc_value other ≡ arc_value owner.now) }
    ensures reason { IfErr result (λ reason. reason ≡ NoMemory) }
{
    let other = Arc::try_clone(owner)?;
    Ok(other)
}
