//! The two copies of what is shown, under the rule that they are of one front.
ghost use Rattle.std.specs.Prelude.{◌≡◌, IsTrue, MatchBool, IfOk, IfErr};
ghost use Rattle.std.specs.Arc.{arc_value};
ghost use Rattle.left_right.specs.Sides.{view};
ghost use Rattle.prt_version.specs.Accepted.{IsAccepted};
ghost use Rattle.prt_published.specs.Copies.{origin_of};
ghost use Rattle.prt_published.specs.Line.{Begins, line_state};

use crate::known::Known;
use crate::shown::Shown;
use atomic_table::{Join, Split};
use crossbeam_utils::rule::{Outcome, Protocol};
use left_right::reader::Reader;
use left_right::writer::Writer;
use prt_version::{Refusal, Version};
use std::alloc::AllocError;
use std::sync::{Arc, Wait};

/// Which front a place of the copies is of, if its holder knows. No value of it is made.
pub struct Origin {
    pub known: bool,
    pub number: u64,
    pub log_name: u64,
    pub cells_name: u64,
}

/// The copies are of one front.
pub struct OneFront;

impl Protocol<Shown, Origin> for OneFront {
    ghost use Rattle.prt_published.specs.Copies.{AreOfOne, unknown};

    ghost holds = { AreOfOne };

    ghost first = { unknown };
}

/// What a reader enters is of the front that it knows.
pub struct Reads;

impl Outcome<Shown, Origin> for Reads {
    ghost use Rattle.prt_published.specs.Copies.{Finds};

    ghost then = { Finds };
}

/// Anyone who shows something knows its front.
pub struct Shows;

impl Outcome<Shown, Origin> for Shows {
    ghost use Rattle.prt_published.specs.Copies.{Turns};

    ghost then = { Turns };
}

/// A reader that the writer informs knows what the writer knows, too.
pub struct Same;

impl Split<Origin> for Same {
    ghost left = { λ origin. origin };

    ghost right = { λ origin. origin };
}

impl Join<Origin> for Same {
    ghost use Rattle.prt_published.specs.Copies.{unknown};

    ghost both = { λ mine told. told };

    ghost spent = { unknown };
}

pub(crate) type CopyReader = Reader<Shown, Origin, OneFront>;

pub(crate) type CopyWriter = Writer<Shown, Shown, Origin, OneFront>;

/// Makes a reader that knows the writer's front. `Err` if no place is free.
pub(crate) fn reader_of(writer: &mut CopyWriter) -> Result<CopyReader, AllocError>
    requires { view writer.old.desk.place ≡ origin_of writer.old.desk.shown.value.book }
    ensures writer { (writer.new.desk.shown.value ≡ writer.old.desk.shown.value) × (view writer.new.desk.place ≡ view writer.old.desk.place) }
    ensures reader { IfOk result (λ reader. view reader.place ≡ origin_of writer.old.desk.shown.value.book) }
{
    let mut reader = writer.factory().reader()?;
    reader.learn::<Same>(writer.tell::<Same>());
    Ok(reader)
}

/// Takes what is shown, for a reader that knows a prefix of it. `Err` if the reader can't enter, the version can have
/// no more owners, or what is shown is no later than what is known.
pub(crate) fn read(
    reader: CopyReader,
    known: &Known,
) -> (CopyReader, Result<(Arc<Version>, Known), Refusal>)
    requires { view reader.place ≡ origin_of known.now.book }
    ensures place { view result.0.place ≡ view reader.place }
    ensures value { IfOk result.1 (λ r. Begins known.now r.1 × (arc_value r.0 ≡ line_state r.1)) }
    ensures accepted { IfOk result.1 (λ r. IsAccepted r.1.base r.1.list) }
    ensures reason { IfErr result.1 (λ reason. reason ≡ Refusal.NotFetched) }
{
    match reader.enter_as::<Reads>() {
        Err(reader) => (reader, Err(Refusal::NotFetched)),
        Ok(reading) => {
            let shown = reading.get();
            let found = if !known.is_before(shown.known()) {
                Err(Refusal::NotFetched)
            } else {
                match shown.version() {
                    Ok(version) => Ok((version, shown.known().again())),
                    Err(_) => Err(Refusal::NotFetched),
                }
            };
            (reading.leave(), found)
        }
    }
}

/// Shows what is next, and returns whether it did. If it did not, what was shown still is.
pub(crate) fn show<H: Wait>(rt: &H, mut writer: CopyWriter, next: Shown) -> (CopyWriter, bool)
    requires { next.book ≡ writer.desk.shown.value.book }
    ensures shown { MatchBool result.1 (result.0.desk.shown.value ≡ next) (result.0.desk.shown.value ≡ writer.desk.shown.value) }
    ensures knows { IsTrue result.1 → view result.0.desk.place ≡ origin_of next.book }
{
    let Ok(()) = writer.append(next) else {
        return (writer, false);
    };
    let (writer, outcome) = writer.publish_as::<Shows, H>(rt);
    (writer, outcome.is_ok())
}
