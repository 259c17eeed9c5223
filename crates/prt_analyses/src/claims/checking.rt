//! The claims of a text, one a line.
ghost use Rattle.std.specs.Prelude.{◌≡◌, ◌≢◌, ◌++◌, [], ◌∷◌, IfErr, IfOk, IsOkUnless, OnOk};
ghost use Rattle.prt_refusals.specs.declared.refusal.Refusal.TheVariants.{NoMemory};
ghost use Rattle.prt_partition.specs.Boxes.{IsUndivided};
ghost use Rattle.prt_analyses.specs.Claims.Checking.{Extends, ExtendsBy, IsChecked, IsUnchecked, IsUncheckedLine, breach_line};
ghost use Rattle.prt_analyses.specs.Claims.{rules_of};
ghost use Rattle.prt_analyses.specs.declared.claims.reading.ClaimFault.TheVariants.{Refused};

use super::breach::find_breach;
use super::claim::Claim;
use super::reading::{BadClaim, ClaimFault, read_claim};
use super::text::push_breach;
use prt_import::next_line;
use prt_listing::{Part, Value, push_part, push_text};
use prt_refusals::Refusal;
use prt_rule::Packet;
use prt_version::Version;
use std::alloc::Global;

/// A line that is no claim.
#[derive(Clone, Copy, Debug, PartialEq, Eq)]
pub struct BadLine {
    /// The number of the line, counted from 1.
    pub number: u64,
    /// What is wrong with it.
    pub reason: BadClaim,
}

/// A claim that doesn't hold.
#[derive(Clone, Copy)]
pub struct Breach {
    /// The number of its line, counted from 1.
    pub number: u64,
    /// A packet that the claim takes and that doesn't meet it.
    pub packet: Packet,
}

/// What is found of the claims of a text.
#[derive(Drop)]
pub struct Checked {
    /// The lines that are no claims.
    pub bad: Vec<BadLine>,
    /// The claims that don't hold.
    pub breaches: Vec<Breach>,
}

impl Checked {
    /// Looks for a packet that breaks the claim of a line, and keeps it.
    fn take_claim(
        &mut self,
        alloc: Global,
        version: &Version,
        number: u64,
        claim: &Claim,
    ) -> Result<(), Refusal>
        ensures ok { OnOk result (ExtendsBy version.now number claim.now self.old self.new) }
        ensures reason { IfErr result (IsUndivided (version.now.rules ++ rules_of claim.now.selector)) }
    {
        let found = match find_breach(alloc, version, claim) {
            Ok(found) => found,
            Err(reason) => return Err(reason),
        };
        if let Some(packet) = found {
            self.breaches.push(Breach { number, packet })?;
        }
        Ok(())
    }

    /// Keeps a line that is no claim, unless memory is refused.
    fn take_bad(&mut self, number: u64, reason: BadClaim) -> Result<(), Refusal>
        ensures bad { OnOk result (self.new.bad.items ≡ self.old.bad.items ++ (record { number = number; reason = reason } ∷ [])) }
        ensures breaches { OnOk result (self.new.breaches.items ≡ self.old.breaches.items) }
        ensures known { OnOk result (reason.fault ≢ Refused NoMemory) }
        ensures reason { IsOkUnless result NoMemory }
    {
        if let ClaimFault::Refused(Refusal::NoMemory) = reason.fault {
            return Err(Refusal::NoMemory);
        }
        self.bad.push(BadLine { number, reason })?;
        Ok(())
    }

    /// Checks the claim of a line, if it has one.
    fn take(
        &mut self,
        alloc: Global,
        version: &Version,
        number: u64,
        line: &[u8],
    ) -> Result<(), Refusal>
        ensures ok { OnOk result (Extends version.now number line.now self.old self.new) }
        ensures reason { IfErr result (IsUncheckedLine version.now line.now) }
    {
        match read_claim(alloc, line) {
            Ok(None) => Ok(()),
            Ok(Some(claim)) => self.take_claim(alloc, version, number, &claim),
            Err(reason) => self.take_bad(number, reason),
        }
    }
}

/// Checks the claims of a text over a version: which lines are no claims, and which claims don't hold.
///
/// # Errors
///
/// `Full` if the rules and a claim's selector would divide packets into more than `prt_partition::MOST_BOXES` boxes, and
/// otherwise `NoMemory`. Nothing is found then.
pub fn check_claims(alloc: Global, version: &Version, text: &[u8]) -> Result<Checked, Refusal>
    ensures value { IfOk result (IsChecked version.now text.now) }
    ensures reason { IfErr result (IsUnchecked version.now text.now) }
{
    let mut checked = Checked {
        bad: Vec::new(alloc),
        breaches: Vec::new(alloc),
    };
    let mut number: u64 = 0;
    let mut rest = text;
    while let Some((line, after)) = next_line(rest) {
        number += 1;
        match checked.take(alloc, version, number, line) {
            Ok(()) => rest = after,
            Err(reason) => return Err(reason),
        }
    }
    Ok(checked)
}

/// Appends a line with the packet of a claim that doesn't hold: `line N: PACKET: ANSWER`.
///
/// # Errors
///
/// `NoMemory` alone. A part of the line may have been appended.
pub fn push_breach_line(
    out: &mut Vec<u8>,
    version: &Version,
    breach: &Breach,
) -> Result<(), Refusal>
    ensures ok { OnOk result (out.new.items ≡ out.old.items ++ breach_line version.now breach.now) }
    ensures reason { IsOkUnless result NoMemory }
{
    push_part(out, &Part::Named("line", Value::Number(breach.number)))?;
    push_text(out, ": ")?;
    push_breach(out, version, &breach.packet)?;
    push_text(out, "\n")?;
    Ok(())
}
