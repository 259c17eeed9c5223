//! An atomic script over a service: its commands are made together, in one transaction, or not at all.
ghost use Rattle.std.specs.Prelude.{◌≡◌, Err, None};
ghost use Rattle.prt_published.specs.Line.{Begins};
ghost use Rattle.prt_replies.specs.Written.{Written};
ghost use Rattle.prt_serve.specs.ScriptHeader.{HasDrained};
ghost use Rattle.prt_serve.specs.Resumed.{resumed_remaining};
ghost use Rattle.prt_serve.specs.Together.{Comes, FailsToOpen, ScriptIs, FitsNumbers, ServesTogether, ToldIs, outcome_fault, outcome_refused, outcome_text};
ghost use Rattle.prt_session.specs.Steps.{AreSubmittable};

use crate::context::{ServiceContext, Serving};
use crate::gate::Gate;
use crate::resumed::Resumed;
use crate::script_header::{HeaderError, ScriptHeader, at_text, read_header};
use prt_command::Command;
use prt_replies::{write_bytes, write_reply};
use prt_service::{Looker, SubmitError};
use prt_session::{
    CommandsRead, Observer, Refusal, Reply, ScriptEnd, collect_commands, write_accepted,
};
use std::io::{Read, Write};
use std::net::SocketAddr;

/// How many bytes are discarded at a time.
const BLOCK: usize = 1024;

/// How many of these blocks are discarded at most: 64 MiB.
const MOST_BLOCKS: usize = 65_536;

/// A script that was served.
#[derive(Drop)]
pub struct ScriptServed<R: Read + Drop> {
    /// How it ended: with a refusal or a fault, or well.
    pub end: ScriptEnd,
    /// What its lines were read from.
    pub reader: R,
}

/// The gate, as the observer of a script.
#[derive(Drop)]
struct ScriptGate<'a, G: Gate> {
    gate: &'a G,
    session: u64,
    /// Where the client is.
    client: SocketAddr,
    /// The number of the last line that came; 0 before the first.
    line: u64,
}

impl<'a, G: Gate> Observer for ScriptGate<'a, G> {
    fn before(&mut self, line: u64) {
        self.line = line;
        self.gate.before(self.session, line);
    }

    fn after(&mut self, line: u64, text: &[u8], reply: &Reply) {
        self.gate
            .after(self.session, &self.client, line, text, reply);
    }
}

impl<'a, G: Gate> ScriptGate<'a, G> {
    /// Calls the gate for each of the commands, which were made with numbers up to this one.
    fn made(&self, last: u64, commands: &[Command]) {
        let mut number = last.saturating_sub(commands.len() as u64);
        for command in commands {
            number = number.saturating_add(1);
            self.gate.made(self.session, &self.client, number, command);
        }
    }

    /// Calls the gate for the refusal of the commands.
    fn refused(&self, reason: Refusal) {
        let reply = Reply::Refused(reason);
        self.gate
            .after(self.session, &self.client, self.line, &[], &reply);
    }
}

/// Has the commands of a script made, if there are any, at the expected number, if there is one; the looker learns their
/// receipt. Returns the number of the last. `None` if there is no command.
///
/// # Errors
///
/// Those of `Service::submit_all_at`: no command is made. `Moved` comes for a script without commands too.
fn make<C: Serving>(
    context: &ServiceContext<'_, C>,
    looker: &mut Looker,
    expected: Option<u64>,
    commands: &[Command],
) -> Result<Option<u64>, SubmitError>
    requires of { (looker.old.known.book ≡ C.Brand.book) × (looker.old.known.base ≡ C.Brand.base) }
    requires submittable { AreSubmittable commands.now }
    ensures of { (looker.new.known.book ≡ C.Brand.book) × (looker.new.known.base ≡ C.Brand.base) }
    ensures held { (looker.new.held ≡ looker.old.held) × (looker.new.announced ≡ looker.old.announced) }
    ensures came { Comes expected looker.old.known looker.new.known commands.now result }
    ensures fits { FitsNumbers result }
{
    if commands.is_empty() {
        let Some(expected) = expected else {
            return Ok(None);
        };
        let number = context.service.number(context.rt);
        if number == expected {
            return Ok(None);
        }
        return Err(SubmitError::Moved(number));
    }
    match context
        .service
        .submit_all_at(context.rt, expected, commands)
    {
        Ok(receipt) => {
            let number = receipt.number();
            looker.learn(receipt);
            Ok(Some(number))
        }
        Err(why) => Err(why),
    }
}

/// Returns how an atomic script ended, of whose commands this came.
fn end_of(came: &Result<Option<u64>, SubmitError>) -> ScriptEnd
    ensures refused { result.refused ≡ outcome_refused came.now }
    ensures fault { result.fault ≡ outcome_fault came.now }
{
    match came {
        Ok(_) => ScriptEnd::OPENING,
        Err(SubmitError::Refused(reason)) => {
            ScriptEnd::OPENING.with_reply(&Reply::Refused(*reason))
        }
        Err(SubmitError::Moved(_)) => ScriptEnd {
            refused: true,
            fault: None,
        },
    }
}

/// Writes what came of `count` commands: their numbers, why they were refused, or the number that was met; returns whether
/// all of it went well.
fn write_lines<W: Write>(
    writer: &mut W,
    count: usize,
    came: &Result<Option<u64>, SubmitError>,
) -> bool
    requires { FitsNumbers came.now }
    ensures { Written result (W.contents writer.old) (W.contents writer.new) (outcome_text count came.now) }
{
    match came {
        Ok(None) => true,
        Ok(Some(last)) => write_accepted(writer, last.saturating_sub(count as u64), count),
        Err(SubmitError::Refused(reason)) => write_reply(writer, &Reply::Refused(*reason)),
        Err(SubmitError::Moved(number)) => write_bytes(writer, at_text(*number).as_bytes()),
    }
}

/// Writes the same, and returns how the script ended.
fn write_outcome<W: Write>(
    writer: &mut W,
    count: usize,
    came: &Result<Option<u64>, SubmitError>,
) -> ScriptEnd
    requires { FitsNumbers came.now }
    ensures { ToldIs count came.now (W.contents writer.old) (W.contents writer.new) result }
{
    let end = end_of(came);
    if write_lines(writer, count, came) {
        return end;
    }
    end.with_write_fault()
}

/// Refuses a script of which nothing is made, since not all of it may have come.
fn refuse<G: Gate, W: Write>(gate: &ScriptGate<'_, G>, writer: &mut W, reason: Refusal) -> ScriptEnd
    ensures { ToldIs 0 (Err (SubmitError.Refused reason)) (W.contents writer.old) (W.contents writer.new) result }
{
    let end = write_outcome(writer, 0, &Err(SubmitError::Refused(reason)));
    gate.refused(reason);
    end
}

/// Serves a script after its header.
fn serve_script<C: Serving, R: Read + Drop, W: Write>(
    context: &ServiceContext<'_, C>,
    looker: &mut Looker,
    header: ScriptHeader,
    mut gate: ScriptGate<'_, C::Gate>,
    reader: &mut Resumed<R>,
    writer: &mut W,
) -> ScriptEnd
    requires of { (looker.old.known.book ≡ C.Brand.book) × (looker.old.known.base ≡ C.Brand.base) }
    ensures of { (looker.new.known.book ≡ C.Brand.book) × (looker.new.known.base ≡ C.Brand.base) }
    ensures held { (looker.new.held ≡ looker.old.held) × (looker.new.announced ≡ looker.old.announced) }
    ensures served { ScriptIs header looker.old.known looker.new.known (resumed_remaining R.remaining reader.old) (resumed_remaining R.remaining reader.new)
        (W.contents writer.old) (W.contents writer.new) result }
{
    let CommandsRead { end, commands } = collect_commands(context.alloc, reader, writer, &mut gate);
    if end.refused || end.fault.is_some() {
        return end;
    }
    if header.is_cut_off(commands.len(), reader.ends_with_newline()) {
        return refuse(&gate, writer, Refusal::ReadFault);
    }
    let came = make(context, looker, header.number, commands.as_slice());
    let end = write_outcome(writer, commands.len(), &came);
    match came {
        Ok(Some(last)) => gate.made(last, commands.as_slice()),
        Err(SubmitError::Refused(reason)) => gate.refused(reason),
        Ok(None) | Err(SubmitError::Moved(_)) => {}
    }
    end
}

/// Reads and discards the input, up to its end, a fault or this number of blocks.
fn drain<R: Read>(reader: &mut R, blocks: usize)
    ensures { HasDrained (R.remaining reader.old) (R.remaining reader.new) }
{
    let mut block = [0u8; BLOCK];
    for _ in 0..blocks {
        match reader.read(&mut block) {
            Ok(0) | Err(_) => return,
            Ok(_) => {}
        }
    }
}

/// Refuses an atomic script that is served too late, with `ReadFault`: nothing of it is made. Its input is read up to 64 MiB,
/// and discarded; it counts as one line.
pub(crate) fn turn_away<C: Serving, R: Read + Drop, W: Write>(
    context: &ServiceContext<'_, C>,
    looker: &mut Looker,
    session: u64,
    client: SocketAddr,
    mut reader: R,
    writer: &mut W,
) -> ScriptServed<R>
    requires { (looker.old.known.book ≡ C.Brand.book) × (looker.old.known.base ≡ C.Brand.base) }
    ensures of { (looker.new.known.book ≡ C.Brand.book) × (looker.new.known.base ≡ C.Brand.base) }
    ensures offline { (looker.new.held ≡ None) × (looker.new.announced ≡ None) }
    ensures unmade { FailsToOpen looker.old.known looker.new.known (R.remaining reader) (R.remaining result.reader)
        (W.contents writer.old) (W.contents writer.new) result.end }
{
    looker.rest(context.rt, context.service);
    let mut observer = ScriptGate {
        gate: context.gate,
        session,
        client,
        line: 0,
    };
    observer.before(1);
    let end = refuse(&observer, writer, Refusal::ReadFault);
    // A connection that is closed before all its bytes are read may lose its reply.
    drain(&mut reader, MOST_BLOCKS);
    ScriptServed { end, reader }
}

/// Serves one atomic script: reads its lines to the end, and then makes their commands together, or none of them.
///
/// The lines are read as `collect_commands` says, up to the first that is refused. The commands are made as
/// `Service::submit_all_at` says, in one transaction and one published version. The first refusal, of a line or of the
/// commands, is all that is written; if there is none, `ok N` is written for each command.
///
/// Two lines may come before the script's first, in this order, with numbers as `ok N` writes them:
/// - `at N`: if the published version has another number M then, no command is made, and `at M` is all that is written. So
///   it is without commands too.
/// - `commands K`: if the script has another number of commands, or its last line has no newline, none is made, and the
///   refusal is `ReadFault`. A client that is stopped halfway has ended its input too.
///
/// The looker learns the receipt, and is offline at the end. The gate is called round each line of the script, and then
/// for each command that was made, or once more if they are refused, with the number of the last line. A script that
/// fails before its first line is over counts as one line. After a refusal the rest of the input is read, up to 64 MiB, and
/// discarded.
pub fn serve_atomic<C: Serving, R: Read + Drop, W: Write>(
    context: &ServiceContext<'_, C>,
    looker: &mut Looker,
    session: u64,
    client: SocketAddr,
    reader: R,
    writer: &mut W,
) -> ScriptServed<R>
    requires { (looker.old.known.book ≡ C.Brand.book) × (looker.old.known.base ≡ C.Brand.base) }
    ensures of { (looker.new.known.book ≡ C.Brand.book) × (looker.new.known.base ≡ C.Brand.base) }
    ensures offline { (looker.new.held ≡ None) × (looker.new.announced ≡ None) }
    ensures grows { Begins looker.old.known looker.new.known }
    ensures served { ServesTogether looker.old.known looker.new.known (R.remaining reader) (R.remaining result.reader)
        (W.contents writer.old) (W.contents writer.new) result.end }
{
    looker.rest(context.rt, context.service);
    let mut observer = ScriptGate {
        gate: context.gate,
        session,
        client,
        line: 0,
    };
    let (header, mut file) = match read_header(reader) {
        Ok(opened) => opened,
        Err(HeaderError { reason, reader }) => {
            observer.before(1);
            let end = refuse(&observer, writer, reason);
            return ScriptServed { end, reader };
        }
    };
    let end = serve_script(context, looker, header, observer, &mut file, writer);
    let mut reader = file.into_reader().into_reader();
    // A connection that is closed before all its bytes are read may lose its reply.
    drain(&mut reader, if end.refused { MOST_BLOCKS } else { 0 });
    ScriptServed { end, reader }
}
