ghost use Rattle.std.specs.Prelude.{◌≡◌, ◌++◌, IsOkUnless, OnErr, OnOk};
ghost use Rattle.prt_refusals.specs.Refusal.{refusal_text};
ghost use Rattle.prt_refusals.specs.declared.refusal.Refusal.TheVariants.{NoMemory};

use prt_refusals::Refusal;

/// Appends `error`, and the number and the name of a refusal.
///
/// # Errors
///
/// `NoMemory` if memory is refused; `out` is as it was.
pub fn refusal_text(out: &mut Vec<u8>, refusal: &Refusal) -> Result<(), Refusal>
    ensures ok { OnOk result (out.new.items ≡ out.old.items ++ refusal_text refusal.now) }
    ensures err { OnErr result (out.new.items ≡ out.old.items) }
    ensures reason { IsOkUnless result NoMemory }
{
    out.extend_from_slice(refusal.text().as_bytes())?;
    Ok(())
}
