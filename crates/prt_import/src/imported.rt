//! A script of what `ip` prints.
ghost use Rattle.std.specs.Prelude.{◌≡◌, IfErr, IfOk};
ghost use Rattle.prt_refusals.specs.declared.refusal.Refusal.TheVariants.{NoMemory};
ghost use Rattle.prt_import.specs.Imported.{IsImportOf};
ghost use Rattle.prt_import.specs.ScriptLines.{IsScript};
ghost use Rattle.prt_import.specs.TableNames.{known_names};

use crate::draft::Draft;
use crate::lines::next_line;
use crate::names::HostNames;
use crate::omitted_line::{OmittedLine, Source};
use prt_command::Refusal;
use std::alloc::Global;

/// What was read of a listing.
#[derive(Debug, Drop)]
pub struct Imported {
    /// Comments that say what is left out, and then lines that make the rules and the routes, each with a newline.
    pub script: Vec<u8>,
    /// The lines that are left out of it, in order.
    pub left: Vec<OmittedLine>,
    /// What is left out of lines that it has, in order.
    pub notes: Vec<OmittedLine>,
}

/// Reads what `ip -4 route show table all` and `ip -4 rule` print, in any order, one after the other.
///
/// The script makes the rules and routes over a new database. If the text has rules, its commands begin with
/// `rule flush` and `rule del priority 0`. Then there is a `rule add` for each rule in order. Then there is a `route add`
/// for each route, those without a gateway first. Each line is one that [`read_line`](prt_command::read_line) reads as such.
///
/// A line that no line here can say is left out and reported: never in silence, and never as another rule or route. So is a
/// route that is `dead`, which the kernel passes over, and one with `onlink`, which it would refuse without. The script
/// begins with a comment for each such line, `# left out: LINE: why`, and with a count of the routes that the kernel
/// makes itself; [`left_out`](crate::left_out) finds them again. Of a line that is kept, what does not change which route a
/// packet gets is left off, and reported as a note: `linkdown`, the protocol of a rule, and the metrics of a connection, as
/// `mtu`. States such as `offload` and `[detached]` are left off without a note. The scope of a route that drops its packets
/// is in its line, where it counts as global.
///
/// Two lines of the script may ask for the same rule, or for routes with the same table, prefix and metric: the kernel
/// distinguishes such by what is not kept here. [`accept`](crate::accept) leaves the later ones out.
///
/// # Errors
///
/// `NoMemory`.
pub fn import(alloc: Global, names: &HostNames, text: &[u8]) -> Result<Imported, Refusal>
    ensures ok { IfOk result (λ imported. IsImportOf imported (known_names names.now) text.now) }
    ensures read { IfOk result (λ imported. IsScript imported.script.items) }
    ensures err { IfErr result (λ refusal. refusal ≡ NoMemory) }
{
    let mut draft = Draft::new(alloc);
    let mut number: u64 = 0;
    let mut rest = text;
    while let Some((line, after)) = next_line(rest) {
        number += 1;
        draft.take(names, Source { number, line }, after)?;
        rest = after;
    }
    Ok(draft.finish()?)
}
