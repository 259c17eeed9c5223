//! The lines of a script that tables accept.
ghost use Rattle.std.specs.Prelude.{◌≡◌, ◌≢◌, ◌++◌, [], ◌∷◌, IfErr, IfOk, OnOk, codes};
ghost use Rattle.std.specs.Option.{unwrap_or};
ghost use Rattle.prt_refusals.specs.declared.refusal.Refusal.TheVariants.{NoMemory};
ghost use Rattle.prt_lines.specs.Lines.{line_refusal, line_state};
ghost use Rattle.prt_import.specs.Accepted.{BeginsAt, Extends, IsAcceptedScript, IsExecuted, IsExecutedOver, accepted_line, refused_line};
ghost use Rattle.prt_import.specs.Told.{numbered, remark};
ghost use Rattle.prt_import.specs.declared.reason.Reason.TheVariants.{Refused};

use crate::draft::push_line;
use crate::lines::next_line;
use crate::omitted_line::{OmittedLine, Source};
use crate::reason::Reason;
use prt_command::Refusal;
use prt_lines::next_version;
use prt_version::Version;
use std::alloc::{AllocError, Global};

/// What tables accept of a script.
#[derive(Drop)]
pub struct Accepted {
    /// The lines that are accepted, each with a newline.
    pub script: Vec<u8>,
    /// The version that they make.
    pub version: Version,
    /// The lines that are refused, with their numbers in the script and `Reason::Refused`.
    pub left: Vec<OmittedLine>,
}

impl Accepted {
    /// Begins over a version, with no lines.
    fn over(alloc: Global, version: &Version) -> Result<Accepted, AllocError>
        ensures { IfOk result (BeginsAt version.now) }
    {
        Ok(Accepted {
            script: Vec::new(alloc),
            version: version.share()?,
            left: Vec::new(alloc),
        })
    }

    /// Takes a line that is accepted, and the version that it makes, if it is another one.
    fn take_accepted(&mut self, line: &[u8], next: Option<Version>) -> Result<(), Refusal>
        ensures ok { OnOk result (Extends self.old self.new (line.now ++ codes "\n") (unwrap_or next self.old.version) []) }
        ensures err { IfErr result (λ refusal. refusal ≡ NoMemory) }
    {
        if let Some(next) = next {
            self.version = next;
        }
        push_line(&mut self.script, line)?;
        Ok(())
    }

    /// Records a line that is refused, unless memory is.
    fn take_refused(
        &mut self,
        alloc: Global,
        source: Source<'_>,
        refusal: Refusal,
    ) -> Result<(), Refusal>
        ensures ok { OnOk result (Extends self.old self.new [] self.old.version (remark (numbered source.entry) [] (Refused refusal) ∷ [])) }
        ensures of_line { OnOk result (refusal ≢ NoMemory) }
        ensures err { IfErr result (λ refusal. refusal ≡ NoMemory) }
    {
        match refusal {
            Refusal::NoMemory => Err(Refusal::NoMemory),
            _ => {
                let left = OmittedLine::new(alloc, source, b"", Reason::Refused(refusal))?;
                self.left.push(left)?;
                Ok(())
            }
        }
    }

    /// Executes a line.
    fn take(&mut self, alloc: Global, source: Source<'_>) -> Result<(), Refusal>
        ensures ok { OnOk result (let refusal = line_refusal self.old.version source.entry.line.now in
            Extends self.old self.new (accepted_line source.entry.line.now refusal) (line_state self.old.version source.entry.line.now)
            (refused_line (numbered source.entry) refusal)) }
        ensures err { IfErr result (λ refusal. refusal ≡ NoMemory) }
    {
        match next_version(&self.version, source.line) {
            Ok(next) => self.take_accepted(source.line, next),
            Err(refusal) => self.take_refused(alloc, source, refusal),
        }
    }
}

/// Executes the lines of a script one after the other over a version, and leaves out each line that is refused. The version
/// itself stays as it is.
///
/// # Errors
///
/// `NoMemory`.
pub fn accept_over(alloc: Global, version: &Version, script: &[u8]) -> Result<Accepted, Refusal>
    ensures ok { IfOk result (λ made. IsExecutedOver version.now made script.now) }
    ensures err { IfErr result (λ refusal. refusal ≡ NoMemory) }
{
    let mut made = Accepted::over(alloc, version)?;
    let mut number: u64 = 0;
    let mut rest = script;
    while let Some((line, after)) = next_line(rest) {
        number += 1;
        made.take(alloc, Source { number, line })?;
        rest = after;
    }
    Ok(made)
}

/// Executes the lines of a script one after the other over a new database, and leaves out each that is refused: if a
/// route or a rule is there already, or there is no room for one more.
///
/// # Errors
///
/// `NoMemory`.
pub fn accept(alloc: Global, script: &[u8]) -> Result<Accepted, Refusal>
    ensures ok { IfOk result (λ made. IsExecuted made script.now) }
    ensures accepted { IfOk result (λ made. IsAcceptedScript made.script.items made.version) }
    ensures err { IfErr result (λ refusal. refusal ≡ NoMemory) }
{
    let opening = Version::opening(alloc)?;
    accept_over(alloc, &opening, script)
}
