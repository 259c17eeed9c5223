//! The readers of a front.
ghost use Rattle.std.specs.Prelude.{◌≡◌, All, length, IfErr, IfSome, MatchResult, OnOk};
ghost use Rattle.std.specs.Arc.{arc_value};
ghost use Rattle.left_right.specs.Sides.{view};
ghost use Rattle.prt_version.specs.Accepted.{IsAccepted};
ghost use Rattle.prt_published.specs.Copies.{origin_of};
ghost use Rattle.prt_published.specs.Line.{Begins, line_state};

use crate::copies::{CopyReader, CopyWriter, read, reader_of};
use crate::{Known, Told};
use core::mem::replace_with;
use prt_version::{Refusal, Version};
use std::alloc::Global;
use std::marker::Model;
use std::sync::Arc;

/// How many readers a front has; none can be added.
pub const READERS: usize = 64;

/// A reader of a front. Contracts see it as the list that it knows.
#[derive(Drop)]
pub struct FrontReader {
    reader: CopyReader,
    known: Known,
}

impl Model for FrontReader {
    ghost use Rattle.std.specs.Prelude.{◌≡◌};
    ghost use Rattle.prt_published.specs.Copies.{origin_of};
    ghost use Rattle.prt_published.specs.Line.{Line};

    ghost Value = { Line };

    ghost view = { λ r. r.known };

    ghost invariant = { λ r. r.reader.place.me.0.client ≡ origin_of r.known.book };
}

impl FrontReader {
    /// Returns the list that it knows: each list that was reported to it, and that of each version that it fetched, is
    /// a prefix of it.
    pub fn known(&self) -> Known
        ensures { result ≡ self.now }
    {
        self.known.again()
    }

    /// Fetches the published version, without a lock and without waiting; its list is known from then on. Err(NotFetched)
    /// if the copy can't be entered, or if the version can have no more owners; then the reader is as it was.
    pub fn fetch(&mut self) -> Result<Arc<Version>, Refusal>
        ensures value { MatchResult result (λ version. Begins self.old self.new × (arc_value version ≡ line_state self.new)) (λ _. self.new ≡ self.old) }
        ensures accepted { OnOk result (IsAccepted self.new.base self.new.list) }
        ensures reason { IfErr result (λ reason. reason ≡ Refusal.NotFetched) }
    {
        let (version, known) = replace_with(&mut self.reader, &self.known, |reader, known| {
            read(reader, known)
        })?;
        self.known = known;
        Ok(version)
    }

    /// Learns a list that is reported to it. From then on it knows the longer one of its own list and the whole list of
    /// which a prefix is reported. Of two lists of one front the shorter is a prefix of the longer.
    pub fn learn(&mut self, told: &Told)
        requires { told.now.book ≡ self.old.book }
        ensures mine { Begins self.old self.new }
        ensures told { Begins told.now self.new }
    {
        let whole = told.known();
        if self.known.is_before(whole) {
            self.known = whole.again();
        }
    }
}

/// Makes all readers, which know the published list. `None` if memory is refused.
pub(crate) fn readers_of(
    alloc: Global,
    writer: &mut CopyWriter,
    known: &Known,
) -> Option<Vec<FrontReader>>
    requires known { writer.old.desk.shown.value ≡ known.now }
    requires knows { view writer.old.desk.place ≡ origin_of known.now.book }
    ensures writer { writer.new.desk.shown.value ≡ writer.old.desk.shown.value }
    ensures readers { IfSome result (λ readers. (length readers.items ≡ 64) × All (λ reader. reader ≡ known.now) readers.items) }
{
    let mut readers = Vec::new(alloc);
    for _ in 0..READERS {
        let reader = reader_of(writer).ok()?;
        let one = FrontReader {
            reader,
            known: known.again(),
        };
        readers.push(one).ok()?;
    }
    Some(readers)
}
