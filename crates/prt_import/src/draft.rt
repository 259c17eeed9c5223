//! The parts of a script, line by line.
ghost use Rattle.std.specs.Prelude.{◌≡◌, List, ◌∷◌, ◌++◌, IfOk, Ok, OnOk, codes, false};
ghost use Rattle.prt_addr.specs.Word.{Word};
ghost use Rattle.prt_command.specs.Reading.{words};
ghost use Rattle.prt_import.specs.Lines.{lines_of};
ghost use Rattle.prt_import.specs.NewLines.{continuation, continuation_of};
ghost use Rattle.prt_import.specs.Script.{added_part, head, left_out, left_route, no_parts, route_by, route_or_more, route_part, rule_by, rule_part};
ghost use Rattle.prt_import.specs.Draft.{Adds, Takes, parts_in};
ghost use Rattle.prt_import.specs.Imported.{IsImported};
ghost use Rattle.prt_import.specs.TableNames.{known_names};
ghost use Rattle.prt_import.specs.Told.{numbered};

use crate::comments::push_comments;
use crate::fault::Fault;
use crate::imported::Imported;
use crate::known::Object;
use crate::lines::next_line;
use crate::names::HostNames;
use crate::omitted_line::{OmittedLine, Source};
use crate::reason::Reason;
use crate::route::{RouteLine, continuation_of, route_line};
use crate::rule::{priority_of, rule_line};
use crate::step::Place;
use crate::told::{is_kernels, push_notes, word_at_fault};
use prt_command::next_word;
use prt_listing::push_text;
use std::alloc::{AllocError, Global};

/// What was made of the lines so far.
#[derive(Drop)]
pub(crate) struct Draft {
    alloc: Global,
    /// The lines that add rules.
    rules: Vec<u8>,
    /// The lines that add routes without a gateway.
    direct: Vec<u8>,
    /// The lines that add routes with a gateway.
    through: Vec<u8>,
    /// Whether there was a rule, also one that is left out.
    has_rules: bool,
    /// Whether the last line is a route's, or goes on with one.
    is_in_route: bool,
    left: Vec<OmittedLine>,
    notes: Vec<OmittedLine>,
}

/// Appends a line and a newline.
pub(crate) fn push_line(out: &mut Vec<u8>, line: &[u8]) -> Result<(), AllocError>
    ensures { OnOk result (out.new.items ≡ out.old.items ++ (line.now ++ codes "\n")) }
{
    out.extend_from_slice(line)?;
    push_text(out, "\n")
}

/// Appends the lines that leave no rule of a new database, if there are others.
fn push_head(out: &mut Vec<u8>, has_rules: bool) -> Result<(), AllocError>
    ensures { OnOk result (out.new.items ≡ out.old.items ++ head has_rules) }
{
    if has_rules {
        push_text(out, "rule flush\nrule del priority 0\n")
    } else {
        Ok(())
    }
}

/// Finds what the first line of a text says of the route in the line before it.
fn continuation(text: &[u8]) -> Option<Reason>
    ensures { result ≡ continuation (lines_of text.now) }
{
    let (line, _) = next_line(text)?;
    let (word, _) = next_word(line)?;
    continuation_of(word)
}

impl Draft {
    /// Begins with no lines.
    pub(crate) fn new(alloc: Global) -> Draft
        ensures parts { parts_in result ≡ no_parts }
        ensures any { result.has_rules ≡ false }
        ensures in_route { result.is_in_route ≡ false }
    {
        Draft {
            alloc,
            rules: Vec::new(alloc),
            direct: Vec::new(alloc),
            through: Vec::new(alloc),
            has_rules: false,
            is_in_route: false,
            left: Vec::new(alloc),
            notes: Vec::new(alloc),
        }
    }

    /// Records a line that is left out.
    fn leave(&mut self, source: Source<'_>, word: &[u8], reason: Reason) -> Result<(), AllocError>
        ensures { OnOk result (Adds self.old self.new (left_out (numbered source.entry) word.now reason)) }
    {
        let left = OmittedLine::new(self.alloc, source, word, reason)?;
        self.left.push(left)?;
        Ok(())
    }

    /// Adds a rule by its line, and records what is left out of these items.
    fn add_rule(
        &mut self,
        names: &HostNames,
        source: Source<'_>,
        items: &[u8],
        added: &[u8],
    ) -> Result<(), AllocError>
        ensures { OnOk result (Adds self.old self.new (rule_by (known_names names.now) (numbered source.entry) (words items.now) (Ok added.now))) }
    {
        push_line(&mut self.rules, added)?;
        let notes = &mut self.notes;
        push_notes(
            self.alloc,
            notes,
            source,
            names,
            Object::Rule,
            Place::Item,
            items,
        )
    }

    /// Takes a rule's line: its priority and its items.
    fn take_rule(
        &mut self,
        names: &HostNames,
        source: Source<'_>,
        priority: &[u8],
        items: &[u8],
    ) -> Result<(), AllocError>
        ensures { OnOk result (Adds self.old self.new (rule_part (known_names names.now) (numbered source.entry) priority.now (words items.now))) }
    {
        match rule_line(self.alloc, names, priority, items) {
            Ok(added) => self.add_rule(names, source, items, &added),
            Err(Fault::Left(reason)) => {
                let word = word_at_fault(names, Object::Rule, Place::Item, items);
                self.leave(source, word, reason)
            }
            Err(Fault::NoMemory) => Err(AllocError),
        }
    }

    /// Appends the line of a route.
    fn push_route(&mut self, added: &RouteLine) -> Result<(), AllocError>
        ensures { OnOk result (Adds self.old self.new (added_part (record { line = added.now.line.items; has_gateway = added.now.has_gateway }))) }
    {
        if added.has_gateway {
            push_line(&mut self.through, &added.line)
        } else {
            push_line(&mut self.direct, &added.line)
        }
    }

    /// Records a route's line that is left out for this reason, or since the kernel makes the route.
    fn leave_route(
        &mut self,
        names: &HostNames,
        source: Source<'_>,
        reason: Reason,
    ) -> Result<(), AllocError>
        ensures { OnOk result (Adds self.old self.new (left_route (known_names names.now) (numbered source.entry) (words source.entry.line.now) reason)) }
    {
        match reason {
            Reason::Type if is_kernels(source.line) => self.leave(source, b"", Reason::Kernel),
            // Its first word may be all of it.
            Reason::Json => self.leave(source, b"", Reason::Json),
            _ => {
                let word = word_at_fault(names, Object::Route, Place::Destination, source.line);
                self.leave(source, word, reason)
            }
        }
    }

    /// Adds a route, and records what is left out of its line.
    fn add_route(
        &mut self,
        names: &HostNames,
        source: Source<'_>,
        added: &RouteLine,
    ) -> Result<(), AllocError>
        ensures { OnOk result (Adds self.old self.new
            (route_by (known_names names.now) (numbered source.entry) (words source.entry.line.now)
            (Ok (record { line = added.now.line.items; has_gateway = added.now.has_gateway })))) }
    {
        self.push_route(added)?;
        let notes = &mut self.notes;
        let text = source.line;
        push_notes(
            self.alloc,
            notes,
            source,
            names,
            Object::Route,
            Place::Destination,
            text,
        )
    }

    /// Takes a route's line, with which no other goes on.
    fn take_route(&mut self, names: &HostNames, source: Source<'_>) -> Result<(), AllocError>
        ensures { OnOk result (Adds self.old self.new (route_part (known_names names.now) (numbered source.entry) (words source.entry.line.now))) }
    {
        match route_line(self.alloc, names, source.line) {
            Ok(added) => self.add_route(names, source, &added),
            Err(Fault::Left(reason)) => self.leave_route(names, source, reason),
            Err(Fault::NoMemory) => Err(AllocError),
        }
    }

    /// Takes a line that begins with this word, and is no rule's: a route's, which the text after it may go on with, or one
    /// that goes on with the route before it.
    fn take_route_or_more(
        &mut self,
        names: &HostNames,
        source: Source<'_>,
        word: &[u8],
        after: &[u8],
    ) -> Result<(), AllocError>
        ensures { (items : List Word) → words source.entry.line.now ≡ word.now ∷ items →
            OnOk result (Adds self.old self.new
            (route_or_more (known_names names.now) self.old.is_in_route (numbered source.entry) word.now items
            (continuation_of word.now) (continuation (lines_of after.now)))) }
    {
        match (continuation_of(word), continuation(after)) {
            (None, None) => self.take_route(names, source),
            (None, Some(reason)) => self.leave(source, b"", reason),
            (Some(_), _) if self.is_in_route => Ok(()),
            (Some(reason), _) => self.leave(source, word, reason),
        }
    }

    /// Takes a line, with the text after it.
    ///
    /// # Errors
    ///
    /// Memory is refused.
    pub(crate) fn take(
        &mut self,
        names: &HostNames,
        source: Source<'_>,
        after: &[u8],
    ) -> Result<(), AllocError>
        ensures { OnOk result (Takes self.old self.new (known_names names.now) (numbered source.entry) (words source.entry.line.now)
            (continuation (lines_of after.now))) }
    {
        let Some((word, items)) = next_word(source.line) else {
            self.is_in_route = false;
            return Ok(());
        };
        if let Some(priority) = priority_of(word) {
            self.has_rules = true;
            self.is_in_route = false;
            return self.take_rule(names, source, priority, items);
        }
        self.take_route_or_more(names, source, word, after)?;
        self.is_in_route = true;
        Ok(())
    }

    /// Puts the script together.
    ///
    /// # Errors
    ///
    /// Memory is refused.
    pub(crate) fn finish(self) -> Result<Imported, AllocError>
        ensures { IfOk result (λ imported. IsImported imported self.has_rules (parts_in self)) }
    {
        let mut script = Vec::new(self.alloc);
        push_comments(&mut script, self.alloc, &self.left)?;
        push_head(&mut script, self.has_rules)?;
        script.extend_from_slice(&self.rules)?;
        script.extend_from_slice(&self.direct)?;
        script.extend_from_slice(&self.through)?;
        Ok(Imported {
            script,
            left: self.left,
            notes: self.notes,
        })
    }
}
