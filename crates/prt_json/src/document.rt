//! The documents, and how one is appended.
ghost use Rattle.std.specs.Prelude.{◌≡◌, ◌++◌, OnErr, OnOk};
ghost use Rattle.prt_listing.specs.Keeps.{Keeps};
ghost use Rattle.json.specs.Tree.{json_tokens};
ghost use Rattle.prt_json.specs.Appends.{Appends};
ghost use Rattle.prt_json.specs.ExplanationJson.{explanation_json};
ghost use Rattle.prt_json.specs.Fields.{ReadsBack, json_line};
ghost use Rattle.prt_json.specs.Json.{answer_json, routes_json, rules_json, tables_json};
ghost use Rattle.prt_json.specs.Steps.{document_json};

use crate::arrays::{push_answer, push_routes, push_rules};
use crate::explanation::push_explanation;
use crate::route::all_tables;
use json::Writer;
use prt_command::{Packet, Refusal, Selector};
use prt_listing::push_text;
use prt_version::Version;
use std::alloc::{AllocError, Global};
use std::mem;

/// What is shown of a version.
#[derive(Clone, Copy)]
enum Document<'a> {
    Routes(&'a Selector),
    Rules,
    Answer(&'a Packet),
    Explanation(&'a Packet),
    Tables,
}

/// Writes the object of all that a version holds.
fn push_tables(out: &mut Writer, alloc: Global, version: &Version) -> Result<(), AllocError>
    ensures ok { OnOk result (out.new.tokens ≡ out.old.tokens ++ json_tokens (tables_json version.now)) }
    ensures before { out.new.before ≡ out.old.before }
{
    out.begin_object()?;
    out.key("number")?;
    out.u64(version.number())?;
    out.key("rules")?;
    push_rules(out, alloc, version)?;
    out.key("routes")?;
    push_routes(out, alloc, version, &all_tables())?;
    out.end_object()
}

/// Writes a document.
fn push_document(
    out: &mut Writer,
    alloc: Global,
    version: &Version,
    document: &Document,
) -> Result<(), AllocError>
    ensures ok { OnOk result (out.new.tokens ≡ out.old.tokens ++ json_tokens (document_json version.now document.now)) }
    ensures before { out.new.before ≡ out.old.before }
{
    match document {
        Document::Routes(selector) => push_routes(out, alloc, version, selector),
        Document::Rules => push_rules(out, alloc, version),
        Document::Answer(packet) => push_answer(out, alloc, version, packet),
        Document::Explanation(packet) => push_explanation(out, alloc, version, packet),
        Document::Tables => push_tables(out, alloc, version),
    }
}

/// Appends the text of a document, and a newline.
///
/// # Errors
///
/// Memory is refused; a part of the text may follow what `out` had.
fn push_line(out: &mut Vec<u8>, version: &Version, document: &Document) -> Result<(), AllocError>
    ensures ok { OnOk result (out.new.items ≡ out.old.items ++ json_line (document_json version.now document.now)) }
    ensures reads_back { OnOk result (ReadsBack (document_json version.now document.now)) }
    ensures err { OnErr result (Keeps out.old.items out.new.items) }
{
    let alloc = *out.allocator();
    let mut writer = Writer::new(mem::replace(out, Vec::new(alloc)));
    let pushed = push_document(&mut writer, alloc, version, document);
    *out = writer.into_inner();
    pushed?;
    push_text(out, "\n")
}

/// Appends the text of a document and a newline, or nothing.
///
/// # Errors
///
/// `NoMemory` if memory is refused; `out` is as it was.
fn append(out: &mut Vec<u8>, version: &Version, document: &Document) -> Result<(), Refusal>
    ensures { Appends result out.old.items out.new.items (document_json version.now document.now) }
{
    let len = out.len();
    if push_line(out, version, document).is_err() {
        out.truncate(len);
        return Err(Refusal::NoMemory);
    }
    Ok(())
}

/// Appends the routes that the selector takes as `ip -j route show` writes them: an array of objects, and a newline.
///
/// The routes are in the order of listings. What the selector gives, except for the type, is left out of each of them.
///
/// # Errors
///
/// `NoMemory` if memory is refused; `out` is as it was.
pub fn routes_json(out: &mut Vec<u8>, version: &Version, selector: &Selector) -> Result<(), Refusal>
    ensures { Appends result out.old.items out.new.items (routes_json version.now selector.now) }
{
    append(out, version, &Document::Routes(selector))
}

/// Appends the rules as `ip -j rule show` writes them: an array of objects, and a newline.
///
/// # Errors
///
/// `NoMemory` if memory is refused; `out` is as it was.
pub fn rules_json(out: &mut Vec<u8>, version: &Version) -> Result<(), Refusal>
    ensures { Appends result out.old.items out.new.items (rules_json version.now) }
{
    append(out, version, &Document::Rules)
}

/// Appends what becomes of the packet as `ip -j route get` writes it: an array of one object, and a newline.
///
/// No source address is chosen for the packet: `prefsrc` is the one that the route prefers. There is no `uid`. If
/// `ip` fails since the packet is dropped, the object's `type` says how; if no rule decides, the array is empty.
///
/// # Errors
///
/// `NoMemory` if memory is refused; `out` is as it was.
pub fn answer_json(out: &mut Vec<u8>, version: &Version, packet: &Packet) -> Result<(), Refusal>
    ensures { Appends result out.old.items out.new.items (answer_json version.now packet.now) }
{
    append(out, version, &Document::Answer(packet))
}

/// Appends why the packet goes where it goes as one object, and a newline: `packet`, what was asked, `rules`, those that
/// are tried, up to the one that decides, and `answer` as `answer_json` shows it.
///
/// A rule has the fields of `rules_json`, and behind them:
///
/// - `matches`, true or false, and `mismatch`, the first part of its selector that the packet doesn't agree with, if one
///   doesn't. A rule with `not` matches if there is one.
/// - If it matches and finds a route in its table, `found`, the best one, and `runner_up`, the next one, if there is
///   one; both as `routes_json` shows routes of all tables; and `suppressed`, true if the rule says nothing since the
///   best one's prefix is too short. It also says nothing if that is a throw route.
/// - `decides`, true or false.
///
/// # Errors
///
/// `NoMemory` if memory is refused; `out` is as it was.
pub fn explanation_json(
    out: &mut Vec<u8>,
    version: &Version,
    packet: &Packet,
) -> Result<(), Refusal>
    ensures { Appends result out.old.items out.new.items (explanation_json version.now packet.now) }
{
    append(out, version, &Document::Explanation(packet))
}

/// Appends all that the version holds as one object, and a newline: `number`, how many commands were accepted, `rules`
/// as `rules_json` shows them, and `routes`, those of all tables as `routes_json` shows them.
///
/// # Errors
///
/// `NoMemory` if memory is refused; `out` is as it was.
pub fn tables_json(out: &mut Vec<u8>, version: &Version) -> Result<(), Refusal>
    ensures { Appends result out.old.items out.new.items (tables_json version.now) }
{
    append(out, version, &Document::Tables)
}
