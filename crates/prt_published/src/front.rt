//! The writer of a front.
ghost use Rattle.std.specs.Prelude.{◌≡◌, ◌+◌, ◌≤◌, [], All, length, IfErr, IfOk, MatchResult, None, OnOk};
ghost use Rattle.std.specs.Arc.{arc_value};
ghost use Rattle.prt_version.specs.Accepted.{IsAccepted};
ghost use Rattle.prt_version.specs.Change.{apply, fold, refusal};
ghost use Rattle.prt_published.specs.History.{commands_in};
ghost use Rattle.prt_published.specs.Line.{grown, grown_by, line_state};

use crate::copies::{CopyWriter, show};
use crate::history::{Batch, Length};
use crate::reader::{FrontReader, READERS, readers_of};
use crate::shown::Shown;
use crate::{Known, Told};
use core::mem::replace_with;
use prt_store::Stamp;
use prt_version::{Command, Refusal, Version};
use std::alloc::Global;
use std::marker::Model;
use std::mem::ManuallyDrop;
use std::snapshot::Snapshot;
use std::sync::{Arc, Wait};

/// The writer of a front. Contracts see it as the published list.
///
/// End it by `end`, which waits for readers that are inside. Its drop waits for nobody: readers go on with the version that
/// is published, and the memory of the two copies is never freed.
pub struct Front {
    writer: CopyWriter,
    word: Length,
    known: Known,
    /// Whether the log of the copies has its memory.
    has_room: bool,
}

impl Model for Front {
    ghost use Rattle.std.specs.Prelude.{◌≡◌};
    ghost use Rattle.prt_published.specs.History.{length_of};
    ghost use Rattle.prt_published.specs.Line.{Line};

    ghost Value = { Line };

    ghost view = { λ f. f.known };

    ghost invariant = { λ f. (f.writer.desk.shown.value ≡ f.known) × (f.word ≡ length_of f.known.book) };
}

impl Front {
    /// Publishes a loaded version. Err(NoMemory) if memory is refused.
    pub fn new(alloc: Global, version: Arc<Version>) -> Result<Front, Refusal>
        ensures front { IfOk result (λ front. (front.base ≡ arc_value version) × (front.list ≡ [])) }
        ensures reason { IfErr result (λ reason. reason ≡ Refusal.NoMemory) }
    {
        let (known, word) = Known::open(&version);
        let first = Shown::new(version, known.again());
        let Ok(second) = first.again() else {
            return Err(Refusal::NoMemory);
        };
        match CopyWriter::new(alloc, first, second, READERS) {
            Ok(writer) => Ok(Front {
                writer,
                word,
                known,
                has_room: false,
            }),
            Err(_) => Err(Refusal::NoMemory),
        }
    }

    /// Makes all readers, which know the published list: once. Err(NoMemory) if memory is refused.
    ///
    /// What is published is shown once more, by which the writer learns which front it is of, to inform each reader. It
    /// waits for readers that are inside the other copy; at first there are none.
    pub fn readers<H: Wait>(&mut self, rt: &H, alloc: Global) -> Result<Vec<FrontReader>, Refusal>
        ensures same { self.new ≡ self.old }
        ensures readers { IfOk result (λ readers. (length readers.items ≡ 64) × All (λ reader. reader ≡ self.old) readers.items) }
        ensures reason { IfErr result (λ reason. reason ≡ Refusal.NoMemory) }
    {
        let Ok(again) = self.writer.published().again() else {
            return Err(Refusal::NoMemory);
        };
        let is_shown = replace_with(&mut self.writer, (rt, again), |writer, (rt, again)| {
            show(rt, writer, again)
        });
        if !is_shown {
            return Err(Refusal::NoMemory);
        }
        match readers_of(alloc, &mut self.writer, &self.known) {
            Some(readers) => Ok(readers),
            None => Err(Refusal::NoMemory),
        }
    }

    /// Sees that the log of the copies has its memory: what is published is put there once more. From then on a publication
    /// asks for none. Err(NoMemory) if memory is refused.
    pub fn make_room(&mut self) -> Result<(), Refusal>
        ensures same { self.new ≡ self.old }
        ensures reason { IfErr result (λ reason. reason ≡ Refusal.NoMemory) }
    {
        if !self.has_room {
            let Ok(again) = self.writer.published().again() else {
                return Err(Refusal::NoMemory);
            };
            if self.writer.append(again).is_err() {
                return Err(Refusal::NoMemory);
            }
            self.has_room = true;
        }
        Ok(())
    }

    /// Returns the published list.
    pub fn known(&self) -> Known
        ensures { result ≡ self.now }
    {
        self.known.again()
    }

    /// Publishes a version in one swap: the one after the published one by this command, whose commit gave the stamp.
    /// It waits for readers that are inside the other copy. Returns the list that is published then, to be reported to
    /// readers.
    ///
    /// Err(NotPublished) if the swap is refused; then readers go on with the version that they had.
    pub fn publish<H: Wait>(
        &mut self,
        rt: &H,
        stamp: Stamp,
        command: Snapshot<Command>,
        version: Arc<Version>,
    ) -> Result<Told, Refusal>
        requires stamp { stamp.number ≡ self.old.base.count + length self.old.list + 1 }
        requires accepted { refusal (line_state self.old) command.value ≡ None }
        requires next { arc_value version ≡ apply (line_state self.old) command.value }
        ensures list { MatchResult result (λ told. (self.new ≡ grown self.old command.value) × (told ≡ self.new)) (λ _. self.new ≡ self.old) }
        ensures accepted { OnOk result (IsAccepted self.new.base self.new.list) }
        ensures reason { IfErr result (λ reason. reason ≡ Refusal.NotPublished) }
    {
        self.publish_batch(rt, stamp, Batch::One(command), version)
    }

    /// Publishes a version in one swap: the one after the published one by these commands, whose commit gave the stamp.
    /// It waits for readers that are inside the other copy. Returns the list that is published then, to be reported to
    /// readers.
    ///
    /// Err(NotPublished) if the swap is refused; then readers go on with the version that they had.
    pub fn publish_all<H: Wait>(
        &mut self,
        rt: &H,
        stamp: Stamp,
        commands: Snapshot<Vec<Command>>,
        version: Arc<Version>,
    ) -> Result<Told, Refusal>
        requires some { 1 ≤ length commands.value.items }
        requires stamp { stamp.number ≡ self.old.base.count + length self.old.list + length commands.value.items }
        requires accepted { IsAccepted (line_state self.old) commands.value.items }
        requires next { arc_value version ≡ fold (line_state self.old) commands.value.items }
        ensures list { MatchResult result (λ told. (self.new ≡ grown_by self.old commands.value.items) × (told ≡ self.new)) (λ _. self.new ≡ self.old) }
        ensures accepted { OnOk result (IsAccepted self.new.base self.new.list) }
        ensures reason { IfErr result (λ reason. reason ≡ Refusal.NotPublished) }
    {
        self.publish_batch(rt, stamp, Batch::Several(commands), version)
    }

    /// Publishes the version after a batch, whose commit gave the stamp, as `publish_all` does.
    fn publish_batch<H: Wait>(
        &mut self,
        rt: &H,
        stamp: Stamp,
        batch: Batch,
        version: Arc<Version>,
    ) -> Result<Told, Refusal>
        requires stamp { stamp.number ≡ self.old.base.count + length self.old.list + length (commands_in batch) }
        requires accepted { IsAccepted (line_state self.old) (commands_in batch) }
        requires next { arc_value version ≡ fold (line_state self.old) (commands_in batch) }
        ensures list { MatchResult result (λ told. (self.new ≡ grown_by self.old (commands_in batch)) × (told ≡ self.new)) (λ _. self.new ≡ self.old) }
        ensures accepted { OnOk result (IsAccepted self.new.base self.new.list) }
        ensures reason { IfErr result (λ reason. reason ≡ Refusal.NotPublished) }
    {
        // Recalls that the published commands were accepted one after the other, by which their number is known.
        let published = self.known.again();
        let before = self.writer.published().number();
        let after = stamp.number();
        let added = after - before;
        drop(stamp);
        let Some(next) = published.accept(&self.word, &batch, added) else {
            return Err(Refusal::NotPublished);
        };
        let shown = Shown::new(version, next.again());
        let is_shown = replace_with(&mut self.writer, (rt, shown), |writer, (rt, shown)| {
            show(rt, writer, shown)
        });
        if !is_shown {
            return Err(Refusal::NotPublished);
        }
        let told = Told::whole(&next);
        self.known = next;
        Ok(told)
    }

    /// Ends the front: it waits for readers that are inside, and none can fetch from then on.
    pub fn end<H: Wait>(self, rt: &H) {
        let Self {
            writer,
            word: _,
            known: _,
            has_room: _,
        } = self;
        drop(writer.take(rt));
    }
}

impl Drop for Front {
    fn drop(self) {
        let Self {
            writer,
            word: _,
            known: _,
            has_room: _,
        } = self;
        let _leaked = unsafe { ManuallyDrop::new_unchecked(writer) };
    }
}
