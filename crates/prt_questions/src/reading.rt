//! Files that are read whole: scripts, listings, and names of tables.
ghost use Rattle.std.specs.Prelude.{◌≡◌, ◌==◌, IfErr, IfOk, OnOk};
ghost use Rattle.prt_questions.specs.Sources.{HasLeft, IsFileOf, IsRead, path_of, rest_after};

use prt_args::{FAULT, Fault, Labels, STANDARD_INPUT, report};
use prt_import::{HostNames, Names};
use prt_machine::{Streams, tell};
use prt_program::{ReadFiles, Refusal, cause_message};
use std::alloc::{AllocError, Global};
use std::fmt::Display;
use std::io::{self, Read, Write};

/// Where iproute2 has names of one kind. Of two names of one number it shows the last one.
struct NameFiles {
    /// The first of these that exists counts.
    files: [&'static str; 2],
    /// Each file of these whose name ends with `.conf` counts. A path ends with a slash.
    folders: [&'static str; 2],
}

/// Names of tables.
const TABLES: NameFiles = NameFiles {
    files: ["/etc/iproute2/rt_tables", "/usr/share/iproute2/rt_tables"],
    folders: [
        "/usr/share/iproute2/rt_tables.d/",
        "/etc/iproute2/rt_tables.d/",
    ],
};

/// Names of routing protocols.
const PROTOCOLS: NameFiles = NameFiles {
    files: ["/etc/iproute2/rt_protos", "/usr/share/iproute2/rt_protos"],
    folders: [
        "/usr/share/iproute2/rt_protos.d/",
        "/etc/iproute2/rt_protos.d/",
    ],
};

/// Checks whether a byte ends a line.
pub(crate) fn is_newline(byte: &u8) -> bool
    ensures { result ≡ (byte.now == 10) }
{
    *byte == b'\n'
}

/// Returns the last line of a text that ends with a newline.
pub(crate) fn last_line(text: &[u8]) -> Option<&[u8]> {
    let lines = text.strip_suffix(b"\n")?;
    lines.rsplit(is_newline).next()
}

/// Reads a file whole.
fn read_file<F: ReadFiles>(files: &F, alloc: Global, path: &str) -> io::Result<Vec<u8>>
    ensures { IfOk result (λ text. IsFileOf F.opens F.Opened.remaining files.now path.now text.items) }
{
    let mut text = Vec::new(alloc);
    files.open_to_read(path)?.read_to_end(&mut text)?;
    Ok(text)
}

/// Reads a file whole, or the input if none is named.
fn read_text<F: ReadFiles, R: Read>(
    files: &F,
    alloc: Global,
    file: Option<&str>,
    input: &mut R,
) -> io::Result<Vec<u8>>
    ensures read { IfOk result (λ text. IsRead (IsFileOf F.opens F.Opened.remaining files.now) (R.remaining input.old) (path_of file.entry) text.items) }
    ensures left { OnOk result (HasLeft (rest_after (path_of file.entry)) (R.remaining input.old) (R.remaining input.new)) }
{
    let Some(path) = file else {
        let mut text = Vec::new(alloc);
        input.read_to_end(&mut text)?;
        return Ok(text);
    };
    read_file(files, alloc, path)
}

/// Reports why a file, or the input if none is named, can't be read, and returns the exit status for it.
pub(crate) fn report_unread<P: Display, W: Write, E: Write>(
    alloc: Global,
    file: Option<&str>,
    reason: &P,
    output: &mut W,
    errors: &mut E,
) -> u8
    ensures status { result ≡ FAULT }
    ensures unwritten { W.contents output.new ≡ W.contents output.old }
{
    let status = report(&Fault::Opening(Refusal::ReadFault), output, errors);
    let place = file.unwrap_or(STANDARD_INPUT);
    tell(cause_message(alloc, &place, reason), errors);
    status
}

/// Reads a file whole, or the input if none is named.
///
/// # Errors
///
/// The exit status, if it can't be read; the cause is reported.
pub(crate) fn read_whole<H: Streams, W: Write>(
    files: &H::Files,
    alloc: Global,
    file: Option<&str>,
    input: &mut H::Input,
    output: &mut W,
    errors: &mut H::Errors,
) -> Result<Vec<u8>, u8>
    ensures read { IfOk result (λ text.
        IsRead (IsFileOf H.Files.opens H.Files.Opened.remaining files.now) (H.Input.remaining input.old) (path_of file.entry) text.items) }
    ensures left { OnOk result (HasLeft (rest_after (path_of file.entry)) (H.Input.remaining input.old) (H.Input.remaining input.new)) }
    ensures fault { IfErr result (λ status. status ≡ FAULT) }
    ensures unwritten { W.contents output.new ≡ W.contents output.old }
{
    match read_text(files, alloc, file, input) {
        Ok(text) => Ok(text),
        Err(error) => Err(report_unread(alloc, file, &error, output, errors)),
    }
}

/// Reports that memory was refused, and returns the exit status for it.
pub(crate) fn report_no_memory<W: Write, E: Write>(output: &mut W, errors: &mut E) -> u8
    ensures status { result ≡ FAULT }
    ensures unwritten { W.contents output.new ≡ W.contents output.old }
{
    report(&Fault::Opening(Refusal::NoMemory), output, errors)
}

/// Adds the names in a file of a folder, if its name ends with `.conf` and it can be read.
fn add_names_of<F: ReadFiles>(
    files: &F,
    alloc: Global,
    folder: &str,
    file: &str,
    names: &mut Names,
) -> Result<(), AllocError> {
    if !file.ends_with(".conf") {
        return Ok(());
    }
    let path = format!(in alloc; "{folder}{file}")?;
    match read_file(files, alloc, path.as_str()) {
        Ok(text) => names.read(&text),
        Err(_) => Ok(()),
    }
}

/// Adds the names in the files of a folder whose names end with `.conf`. A folder that can't be read has none.
fn add_names_in<F: ReadFiles>(
    files: &F,
    alloc: Global,
    folder: &str,
    names: &mut Names,
) -> Result<(), AllocError> {
    let Ok(entries) = files.read_names(alloc, folder) else {
        return Ok(());
    };
    for entry in entries.split(|byte| *byte == 0) {
        let Ok(file) = str::from_utf8(entry) else {
            return Ok(());
        };
        add_names_of(files, alloc, folder, file, names)?;
    }
    Ok(())
}

/// Adds the names in the first of these files that can be read.
fn add_first_names<F: ReadFiles>(
    files: &F,
    alloc: Global,
    paths: &[&'static str],
    names: &mut Names,
) -> Result<(), AllocError> {
    for path in paths {
        if let Ok(text) = read_file(files, alloc, path) {
            return names.read(&text);
        }
    }
    Ok(())
}

/// Reads the names that iproute2 has in these places. A file that can't be read has none.
fn read_names<F: ReadFiles>(
    files: &F,
    alloc: Global,
    places: &NameFiles,
) -> Result<Names, AllocError> {
    let mut names = Names::new(alloc);
    add_first_names(files, alloc, &places.files, &mut names)?;
    for folder in places.folders {
        add_names_in(files, alloc, folder, &mut names)?;
    }
    Ok(names)
}

/// Reads the names of tables and of routing protocols that iproute2 has. A file that can't be read has none.
pub(crate) fn host_names<F: ReadFiles>(files: &F, alloc: Global) -> Result<HostNames, AllocError> {
    Ok(HostNames {
        tables: read_names(files, alloc, &TABLES)?,
        protocols: read_names(files, alloc, &PROTOCOLS)?,
    })
}

/// Returns the names of tables that an answer with these labels needs.
pub(crate) fn names_for<F: ReadFiles>(
    files: &F,
    alloc: Global,
    labels: Labels,
) -> Result<Names, AllocError> {
    match labels {
        Labels::Numbers => Ok(Names::new(alloc)),
        Labels::Names => read_names(files, alloc, &TABLES),
    }
}
