//! The tables with which a feed begins.
ghost use Rattle.std.specs.Prelude.{◌≡◌, ◌⊎◌, IfErr, IfOk};
ghost use Rattle.prt_refusals.specs.declared.refusal.Refusal.TheVariants.{Damaged, NoMemory};
ghost use Rattle.prt_feed.specs.Numbered.{numbered_from};
ghost use Rattle.prt_version.specs.RowsSpell.{RowsSpell, RowsSpellNone};

use prt_dump::every_route;
use prt_refusals::Refusal;
use prt_rule::Rule;
use prt_version::Version;
use std::alloc::{AllocError, Global};
use thiserror::Error;

/// The tables with which a feed begins.
#[derive(Drop)]
pub struct Opening {
    /// The number of the server's last command before them.
    pub number: u64,
    /// The tables: the server's routes and, except for ids, its rules. Its own number counts the lines that made it.
    pub version: Version,
}

/// Why no opening was read.
#[derive(Clone, Copy, Debug, Error, PartialEq, Eq)]
pub enum OpeningError {
    /// The stream failed, or ended before `now`.
    #[error("the tables were cut off")]
    CutOff,
    /// It is no feed: its first line is not `state` and a number.
    #[error("this is no feed of prt")]
    NoFeed,
    /// A line was refused; or `TooManyLines` after 1,000,000 of them.
    #[error("a line of the tables was refused: {0}")]
    Refused(Refusal),
    /// Memory was refused.
    #[error("memory was refused")]
    NoMemory,
}

/// Copies the rules, with the numbers from 1 on for ids.
fn numbered(alloc: Global, rules: &[Rule]) -> Result<Vec<Rule>, AllocError>
    ensures { IfOk result (λ rows. rows.items ≡ numbered_from 1 rules.now) }
{
    let mut rows = Vec::new(alloc);
    for rule in rules {
        let id = rows.len() as u64 + 1;
        rows.push(Rule { id, ..*rule })?;
    }
    Ok(rows)
}

impl Opening {
    /// Builds the tables with the server's number, under which they answer. Their rules have the ids 1, 2 and so on.
    ///
    /// # Errors
    ///
    /// `Damaged` if the number is less than what the tables need, which is so of no feed of a server; `NoMemory`.
    pub fn into_version(self, alloc: Global) -> Result<Version, Refusal>
        ensures value { IfOk result (λ version. RowsSpell self.number (numbered_from 1 self.version.rules) self.version.routes version) }
        ensures reason { IfErr result (λ reason.
            ((reason ≡ Damaged) × RowsSpellNone self.number (numbered_from 1 self.version.rules) self.version.routes) ⊎ (reason ≡ NoMemory)) }
    {
        let rules = numbered(alloc, self.version.rules())?;
        let routes = every_route(&self.version)?;
        Version::from_rows(alloc, self.number, rules, routes)
    }
}
