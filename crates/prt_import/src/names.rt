//! Names of tables and of routing protocols.
ghost use Rattle.std.specs.Prelude.{◌≡◌, [], ◌∷◌, ◌++◌, MatchOption, OnOk, option_map};
ghost use Rattle.prt_command.specs.Reading.{line_words};
ghost use Rattle.prt_route.specs.Names.{number_in};
ghost use Rattle.prt_import.specs.Naming.{last_name};
ghost use Rattle.prt_import.specs.TableNames.{entry_of, file_names, known_names, names_of};

use crate::lines::next_line;
use prt_addr::read_number;
use prt_command::{is, line_text, next_word};
use std::alloc::{AllocError, Global};

/// A name and its number.
#[derive(Drop)]
struct Named {
    name: Vec<u8>,
    number: u32,
}

/// Names of tables, or of routing protocols, as files of iproute2 define them: `rt_tables` and `rt_protos`, and those of
/// `rt_tables.d` and `rt_protos.d`.
#[derive(Drop)]
pub struct Names {
    entries: Vec<Named>,
    alloc: Global,
}

/// Reads a line `NUMBER NAME`.
fn read_entry(line: &[u8]) -> Option<(u32, &[u8])>
    ensures { MatchOption result (entry_of (line_words line.now) ≡ []) (λ entry. entry_of (line_words line.now) ≡ (entry.1.now, entry.0) ∷ []) }
{
    let text = line_text(line).ok()?;
    let (number, rest) = next_word(text)?;
    let (name, _) = next_word(rest)?;
    Some((read_number(number).ok()?, name))
}

impl Names {
    /// Begins with no names.
    pub fn new(alloc: Global) -> Names
        ensures { names_of result ≡ [] }
    {
        Names {
            entries: Vec::new(alloc),
            alloc,
        }
    }

    /// Adds a name.
    fn push(&mut self, number: u32, name: &[u8]) -> Result<(), AllocError>
        ensures { OnOk result (names_of self.new ≡ names_of self.old ++ (name.now, number) ∷ []) }
    {
        let name = Vec::from_slice(self.alloc, name)?;
        self.entries.push(Named { name, number })?;
        Ok(())
    }

    /// Adds the name of a line, if it has one.
    fn push_line(&mut self, line: &[u8]) -> Result<(), AllocError>
        ensures { OnOk result (names_of self.new ≡ names_of self.old ++ entry_of (line_words line.now)) }
    {
        match read_entry(line) {
            Some((number, name)) => self.push(number, name),
            None => Ok(()),
        }
    }

    /// Adds the names of a file: of each line that is `NUMBER NAME`. A `#` begins a comment; other lines say nothing.
    ///
    /// # Errors
    ///
    /// Memory is refused; some of the names may have been added.
    pub fn read(&mut self, text: &[u8]) -> Result<(), AllocError>
        ensures { OnOk result (names_of self.new ≡ names_of self.old ++ file_names text.now) }
    {
        let mut rest = text;
        while let Some((line, after)) = next_line(rest) {
            self.push_line(line)?;
            rest = after;
        }
        Ok(())
    }

    /// Finds the number with this name, the first of them if there are several.
    pub fn find(&self, name: &[u8]) -> Option<u32>
        ensures { result ≡ number_in (names_of self.now) name.now }
    {
        for entry in &self.entries {
            if is(name, &entry.name) {
                return Some(entry.number);
            }
        }
        None
    }

    /// Finds the name of this number, the last of them if there are several.
    pub(crate) fn last(&self, number: u32) -> Option<&[u8]>
        ensures { option_map (λ name. name.now) result ≡ last_name (names_of self.now) number }
    {
        let mut last: Option<&[u8]> = None;
        for entry in &self.entries {
            if entry.number == number {
                last = Some(&entry.name);
            }
        }
        last
    }
}

/// The names that a host has.
#[derive(Drop)]
pub struct HostNames {
    /// Those of tables.
    pub tables: Names,
    /// Those of routing protocols. What is named here counts before the names that every host has.
    pub protocols: Names,
}

impl HostNames {
    /// Begins with no names.
    pub fn new(alloc: Global) -> HostNames
        ensures { known_names result ≡ record { tables = []; protocols = [] } }
    {
        HostNames {
            tables: Names::new(alloc),
            protocols: Names::new(alloc),
        }
    }
}
