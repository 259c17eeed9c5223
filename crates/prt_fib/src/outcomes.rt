//! Outcomes by their numbers, which tables share.
ghost use Rattle.std.specs.Prelude.{◌≡◌, ◌⊎◌, ◌++◌, ◌∷◌, [], ◌<◌, IfErr, IfOk, IfSome, length};
ghost use Rattle.std.specs.Arc.{arc_value};
ghost use Rattle.prt_refusals.specs.declared.refusal.Refusal.TheVariants.{Full, NoMemory};
ghost use Rattle.prt_fib.specs.Fib.{AreDistinct};
ghost use Rattle.prt_fib.specs.Hashes.{IsFound, IsIndex, IsNew, hash_of};
ghost use Rattle.prt_fib.specs.Numbers.{IsLeftOut, IsNumber};

use crate::hashing::{append_outcome, search};
use prt_partition::Outcome;
use prt_refusals::Refusal;
use std::alloc::{AllocError, Global};
use std::marker::Model;
use std::sync::Arc;

/// Different outcomes in the order of their numbers, with an index.
#[derive(Drop)]
pub(crate) struct Outcomes {
    list: Vec<Outcome>,
    /// For each hash the last place of it, counted from 1; 0 if there is none.
    heads: Vec<u32>,
    /// For each place the one of the same hash before it, likewise.
    next: Vec<u32>,
}

impl Model for Outcomes {
    ghost use Rattle.std.specs.Prelude.{List};
    ghost use Rattle.prt_partition.specs.declared.sameness.Outcome.{Outcome as One};
    ghost use Rattle.prt_fib.specs.Hashes.{IsIndex, hash_of};

    ghost Value = { List One };

    ghost view = { λ it. it.list.items };

    ghost invariant = { λ it. IsIndex hash_of it.list.items it.heads.items it.next.items };
}

impl Outcomes {
    /// Takes the outcomes with their index.
    pub(crate) fn of(list: Vec<Outcome>, heads: Vec<u32>, next: Vec<u32>) -> Outcomes
        requires { IsIndex hash_of list.items heads.items next.items }
        ensures { result ≡ list.items }
    {
        Outcomes { list, heads, next }
    }

    /// Returns the outcomes in the order of their numbers.
    pub(crate) fn as_slice(&self) -> &[Outcome]
        ensures value { result.now ≡ self.now }
        ensures distinct { AreDistinct self.now }
    {
        &self.list
    }

    /// Searches for the number of an outcome.
    fn find(&self, outcome: &Outcome) -> Option<usize>
        ensures found { IsFound self.now outcome.now result }
        ensures few { IfSome result (λ place. place < 65536) }
    {
        search(&self.list, &self.heads, &self.next, outcome)
    }

    /// Makes a copy with one more outcome, which isn't there yet.
    fn with(&self, alloc: Global, outcome: &Outcome) -> Result<Outcomes, AllocError>
        requires few { length self.now < 65536 }
        requires absent { IsNew self.now outcome.now }
        ensures { IfOk result (λ more. more ≡ self.now ++ outcome.now ∷ []) }
    {
        let mut list = Vec::from_slice(alloc, &self.list)?;
        let mut heads = Vec::from_slice(alloc, &self.heads)?;
        let mut next = Vec::from_slice(alloc, &self.next)?;
        append_outcome(&mut list, &mut heads, &mut next, outcome)?;
        Ok(Outcomes { list, heads, next })
    }
}

/// Finds the number of an outcome. If it has none, others take the place of the outcomes, in which it is the last.
///
/// # Errors
///
/// `Full` if it has no number and 16 bits count no more. `NoMemory`. The outcomes are as they were then.
pub(crate) fn number_among(
    alloc: Global,
    outcomes: &mut Arc<Outcomes>,
    outcome: &Outcome,
) -> Result<u16, Refusal>
    ensures value { IfOk result (λ number. IsNumber (arc_value outcomes.old) outcome.now number (arc_value outcomes.new)) }
    ensures reason { IfErr result (λ reason. ((reason ≡ Full) × IsLeftOut (arc_value outcomes.old) outcome.now) ⊎ (reason ≡ NoMemory)) }
{
    if let Some(place) = outcomes.find(outcome) {
        return Ok(place as u16);
    }
    let place = outcomes.as_slice().len();
    if place > 0xffff {
        return Err(Refusal::Full);
    }
    let more = outcomes.with(alloc, outcome)?;
    *outcomes = Arc::new(alloc, more)?;
    Ok(place as u16)
}
