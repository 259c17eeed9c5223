ghost use Rattle.std.specs.Prelude.{◌≡◌, [], ◌∷◌, ◌++◌, IsOkUnless, OnErr, OnOk};
ghost use Rattle.prt_refusals.specs.declared.refusal.Refusal.TheVariants.{NoMemory};

use crate::Outcome;
use prt_refusals::Refusal;
use std::alloc::Global;
use std::marker::Model;

/// The outcomes of a run, one for each of its events and in their order.
#[derive(Drop)]
pub struct Trace {
    outcomes: Vec<Outcome>,
}

impl Model for Trace {
    ghost use Rattle.std.specs.Prelude.{List};
    ghost use Rattle.prt_replay.specs.declared.outcome.Outcome.{Outcome};

    ghost Value = { List Outcome };

    ghost view = { λ trace. trace.outcomes.items };
}

impl Trace {
    /// Makes the trace of no event.
    pub fn new(alloc: Global) -> Trace
        ensures { result ≡ [] }
    {
        Trace {
            outcomes: Vec::new(alloc),
        }
    }

    /// Appends the outcome of one more event.
    ///
    /// # Errors
    ///
    /// `NoMemory` if memory is refused; the trace is as it was.
    pub fn push(&mut self, outcome: Outcome) -> Result<(), Refusal>
        ensures ok { OnOk result (self.new ≡ self.old ++ outcome ∷ []) }
        ensures err { OnErr result (self.new ≡ self.old) }
        ensures reason { IsOkUnless result NoMemory }
    {
        self.outcomes.extend_from_slice(&[outcome])?;
        Ok(())
    }

    /// Returns the outcomes, in order.
    pub fn outcomes(&self) -> &[Outcome]
        ensures { result.now ≡ self.now }
    {
        self.outcomes.as_slice()
    }
}
