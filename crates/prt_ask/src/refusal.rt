use prt_diff::LineError;
use prt_dump::DumpError;
use prt_refusals::Refusal;
use std::alloc::AllocError;

/// Why tables don't answer a question.
#[derive(Clone, Copy, Debug, PartialEq, Eq)]
pub enum AnswerError {
    /// No line can express the rule at this place of the listing, from 0 on.
    Rule(usize),
    /// No line can express the route at this place of the listing of all tables, from 0 on.
    Route(usize),
    /// No line can express a change.
    Change,
    /// A change is refused over what was found: there is no room for it.
    Refused(Refusal),
    /// A change of the tables isn't the next one.
    Gap,
    /// Memory was refused.
    NoMemory,
}

impl From<DumpError> for AnswerError {
    ghost use Rattle.std.specs.Prelude.{◌≡◌};
    ghost use Rattle.prt_ask.specs.Answers.{as_answer};

    ghost from_gives = { λ reason given. given ≡ as_answer reason };

    fn from(reason: DumpError) -> AnswerError {
        match reason {
            DumpError::Rule(place) => AnswerError::Rule(place),
            DumpError::Route(place) => AnswerError::Route(place),
            DumpError::NoMemory => AnswerError::NoMemory,
        }
    }
}

impl From<LineError> for AnswerError {
    ghost use Rattle.prt_ask.specs.Answers.{IsOfChange};

    ghost from_gives = { λ _ given. IsOfChange given };

    fn from(reason: LineError) -> AnswerError {
        match reason {
            LineError::NoLine(_) => AnswerError::Change,
            LineError::NoMemory => AnswerError::NoMemory,
        }
    }
}

impl From<AllocError> for AnswerError {
    ghost use Rattle.std.specs.Prelude.{◌≡◌};
    ghost use Rattle.prt_ask.specs.declared.refusal.AnswerError.TheVariants.{NoMemory};

    ghost from_gives = { λ _ given. given ≡ NoMemory };

    fn from(_: AllocError) -> AnswerError {
        AnswerError::NoMemory
    }
}
