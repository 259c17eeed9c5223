//! What becomes of one word of a line.
ghost use Rattle.std.specs.Prelude.{◌≡◌, map};
ghost use Rattle.prt_addr.specs.Word.{is_one_of};
ghost use Rattle.prt_route.specs.Names.{number_in};
ghost use Rattle.prt_import.specs.Steps.{address_value, before, destination_step, dropping_types, ends_item, is_json, is_kept, is_other_family};
ghost use Rattle.prt_import.specs.Steps.{item_step, mark_value, other_protocols, other_types, protocol_value, settles_scope, step_of, table_value};
ghost use Rattle.prt_import.specs.Steps.{value_step};
ghost use Rattle.prt_import.specs.TableNames.{known_names};

use crate::known::{Meaning, Object, Role, meaning_of};
use crate::names::HostNames;
use crate::reason::Reason;
use prt_addr::read_number;
use prt_command::is;
use prt_route::{read_protocol, read_table};

/// What may come next in a line.
#[derive(Clone, Copy)]
pub enum Place {
    /// A type of routes, or the destination.
    Destination,
    /// The first word of an item.
    Item,
    /// The value of an item.
    Value(Role),
}

/// What is written for a word.
#[derive(Clone, Copy)]
pub enum Written {
    Nothing,
    /// The word itself.
    Same,
    /// The word, and the mask of all bits.
    WithMask,
    /// This number in its place.
    Number(u32),
}

/// What becomes of a word.
#[derive(Clone, Copy)]
pub struct Step {
    pub written: Written,
    /// What may come after it.
    pub next: Place,
    /// Whether the scope of a route is implied after it: it is said, or is global here as it is there.
    pub settles_scope: bool,
}

/// The names of routing protocols for which a line has numbers alone (`rt_protos`).
const OTHER_PROTOCOLS: [(&str, u32); 11] = [
    ("unspec", 0),
    ("redirect", 1),
    ("gated", 8),
    ("mrt", 10),
    ("dnrouted", 13),
    ("xorp", 14),
    ("ntk", 15),
    ("keepalived", 18),
    ("babel", 42),
    ("openr", 99),
    ("eigrp", 192),
];

impl Role {
    /// Returns whether the word before the value is kept.
    fn is_kept(self) -> bool
        ensures { result ≡ is_kept self }
    {
        !matches!(self, Role::RuleProtocol | Role::Metric)
    }
}

impl Written {
    /// Begins an item with this, before what may come next.
    fn before(self, next: Place) -> Step
        ensures { result ≡ before next self }
    {
        Step {
            written: self,
            next,
            settles_scope: false,
        }
    }

    /// Ends an item with this.
    fn ends_item(self) -> Step
        ensures { result ≡ ends_item self }
    {
        self.before(Place::Item)
    }

    /// Goes on with what may come next, with the scope implied.
    fn settles_scope(self, next: Place) -> Step
        ensures { result ≡ settles_scope next self }
    {
        Step {
            written: self,
            next,
            settles_scope: true,
        }
    }
}

/// Looks up the number of a name.
fn number_in(names: &[(&'static str, u32)], word: &[u8]) -> Option<u32>
    ensures { result ≡ number_in (map (λ row. (row.0.now, row.1)) names.now) word.now }
{
    for (name, number) in names {
        if is(word, name.as_bytes()) {
            return Some(*number);
        }
    }
    None
}

/// Looks up the number of a protocol that a line does not name.
fn other_protocol(word: &[u8]) -> Option<u32>
    ensures { result ≡ number_in other_protocols word.now }
{
    number_in(&OTHER_PROTOCOLS, word)
}

/// Takes a table: by the names of the host, and else as a line would say it.
fn table_value(names: &HostNames, word: &[u8]) -> Result<Written, Reason>
    ensures { result ≡ table_value (known_names names.now) word.now }
{
    match (names.tables.find(word), read_table(word)) {
        (Some(number), Ok(same)) if same == number => Ok(Written::Same),
        (Some(number), _) => Ok(Written::Number(number)),
        (None, Ok(_)) => Ok(Written::Same),
        (None, Err(_)) if is(word, b"[l3mdev-table]") => Err(Reason::Selector),
        (None, Err(_)) => Err(Reason::UnknownTable),
    }
}

/// Takes a routing protocol: by the names of the host, and else as a line would say it.
fn protocol_value(names: &HostNames, word: &[u8]) -> Result<Written, Reason>
    ensures { result ≡ protocol_value (known_names names.now) word.now }
{
    match (names.protocols.find(word), read_protocol(word)) {
        (Some(number), Ok(same)) if u32::from(same) == number => Ok(Written::Same),
        (Some(number), _) => Ok(Written::Number(number)),
        (None, Ok(_)) => Ok(Written::Same),
        (None, Err(_)) => match other_protocol(word) {
            Some(number) => Ok(Written::Number(number)),
            None => Err(Reason::UnknownProtocol),
        },
    }
}

/// Takes a mark. If `ip` prints 0 alone, each bit of a mark has to be 0; read again, it would say nothing of marks.
fn mark_value(word: &[u8]) -> Written
    ensures { result ≡ mark_value word.now }
{
    match read_number(word) {
        Ok(0) => Written::WithMask,
        _ => Written::Same,
    }
}

/// Checks whether an address is of another family: IPv4 has no `:`, and the other families of gateways are named.
fn is_other_family(word: &[u8]) -> bool
    ensures { result ≡ is_other_family word.now }
{
    is(word, b"inet6") || word.contains(&b':')
}

/// Takes an address or a prefix.
fn address_value(word: &[u8]) -> Result<Written, Reason>
    ensures { result ≡ address_value word.now }
{
    if is_other_family(word) {
        return Err(Reason::Family);
    }
    Ok(Written::Same)
}

/// Takes the value of an item.
fn value_step(names: &HostNames, role: Role, word: &[u8]) -> Result<Step, Reason>
    ensures { result ≡ value_step (known_names names.now) role word.now }
{
    match role {
        Role::Same => Ok(Written::Same.ends_item()),
        Role::Mark => Ok(mark_value(word).ends_item()),
        Role::Address => Ok(address_value(word)?.ends_item()),
        Role::Gateway => Ok(address_value(word)?.settles_scope(Place::Item)),
        Role::Table => Ok(table_value(names, word)?.ends_item()),
        Role::Protocol => Ok(protocol_value(names, word)?.ends_item()),
        Role::Scope => Ok(Written::Same.settles_scope(Place::Item)),
        Role::RuleProtocol => Ok(Written::Nothing.ends_item()),
        Role::Metric if is(word, b"lock") => {
            Ok(Written::Nothing.before(Place::Value(Role::Metric)))
        }
        Role::Metric => Ok(Written::Nothing.ends_item()),
    }
}

/// Takes the first word of an item.
fn item_step(object: Object, word: &[u8]) -> Result<Step, Reason>
    ensures { result ≡ item_step object word.now }
{
    match meaning_of(object, word) {
        Some(Meaning::Alone) => Ok(Written::Same.ends_item()),
        Some(Meaning::Before(role)) if role.is_kept() => {
            Ok(Written::Same.before(Place::Value(role)))
        }
        Some(Meaning::Before(role)) => Ok(Written::Nothing.before(Place::Value(role))),
        Some(Meaning::State | Meaning::Told(_)) => Ok(Written::Nothing.ends_item()),
        Some(Meaning::Out(reason)) => Err(reason),
        None => Err(Reason::UnknownWord),
    }
}

/// Checks whether the word is a type of routes that drop their packets.
pub(crate) fn is_dropping_type(word: &[u8]) -> bool
    ensures { result ≡ is_one_of word.now dropping_types }
{
    is(word, b"blackhole")
        || is(word, b"unreachable")
        || is(word, b"prohibit")
        || is(word, b"throw")
}

/// Checks whether the word is a type of routes that does not exist here.
pub(crate) fn is_other_type(word: &[u8]) -> bool
    ensures { result ≡ is_one_of word.now other_types }
{
    is(word, b"local")
        || is(word, b"broadcast")
        || is(word, b"anycast")
        || is(word, b"multicast")
        || is(word, b"nat")
        || is(word, b"xresolve")
        || is(word, b"unspec")
}

/// Checks whether a line that begins with this word is JSON.
fn is_json(word: &[u8]) -> bool
    ensures { result ≡ is_json word.now }
{
    matches!(word, [b'[' | b']' | b'{' | b'}' | b'"', ..])
}

/// Takes a type of routes, or a destination.
fn destination_step(word: &[u8]) -> Result<Step, Reason>
    ensures { result ≡ destination_step word.now }
{
    if is_dropping_type(word) {
        return Ok(Written::Same.settles_scope(Place::Destination));
    }
    if is(word, b"unicast") {
        return Ok(Written::Same.before(Place::Destination));
    }
    if is_other_type(word) {
        return Err(Reason::Type);
    }
    if is_json(word) {
        return Err(Reason::Json);
    }
    Ok(address_value(word)?.ends_item())
}

/// Decides what becomes of a word at this place of a line, or why the line has to be left out.
pub(crate) fn step_of(
    names: &HostNames,
    object: Object,
    place: Place,
    word: &[u8],
) -> Result<Step, Reason>
    ensures { result ≡ step_of (known_names names.now) object place word.now }
{
    match place {
        Place::Destination => destination_step(word),
        Place::Item => item_step(object, word),
        Place::Value(role) => value_step(names, role, word),
    }
}
