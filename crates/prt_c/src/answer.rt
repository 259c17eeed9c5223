ghost use Rattle.std.specs.Prelude.{◌≡◌};
ghost use Rattle.prt_c.specs.Answer.{action_number, addr_number, answer_of, by_route, has, kind_number, name_bytes, without_route, zero_ended};
ghost use Rattle.prt_version.specs.Found.{verdict_in};

use crate::packet::NAME_BYTES;
use prt_route::{Addr, Dev, Kind, Route};
use prt_rule::Action;
use prt_version::{Answer, Found};

/// What becomes of a packet, as C reads it.
///
/// An address is a number whose highest byte is the first of the four dotted parts.
#[repr(C)]
#[derive(Clone, Copy)]
pub struct AnswerC {
    /// The number of commands that had been accepted.
    pub number: u64,
    /// What becomes of it: 0 if no rule decides, 1 for a unicast route, 2 to 4 if it is dropped.
    pub kind: u32,
    /// The table whose route decides; 0 if a rule decides without one, or none does.
    pub table: u32,
    /// The priority of the rule that decides; 0 if none does.
    pub priority: u32,
    /// The address of the route's prefix; 0 if no route decides.
    pub destination: u32,
    /// The length of the route's prefix, 0 to 32; 0 if no route decides.
    pub prefix_length: u32,
    /// The route's metric; 0 if no route decides.
    pub metric: u32,
    /// 1 if the route has a gateway, and 0 otherwise.
    pub has_gateway: u32,
    /// The route's gateway; 0 if it has none.
    pub gateway: u32,
    /// 1 if the route has a source to prefer, and 0 otherwise.
    pub has_source: u32,
    /// The source to prefer; 0 if there is none.
    pub source: u32,
    /// The name of the route's interface, with zeros after it; all zeros if it has none.
    pub device: [u8; NAME_BYTES],
}

/// Numbers what a route does with a packet.
pub(crate) fn kind_number(kind: Kind) -> u32
    ensures { result ≡ kind_number kind }
{
    match kind {
        Kind::Unicast => 1,
        Kind::Blackhole => 2,
        Kind::Unreachable => 3,
        Kind::Prohibit => 4,
        Kind::Throw => 5,
    }
}

/// Numbers what a rule does with a packet by itself; a lookup has no number.
fn action_number(action: Action) -> u32
    ensures { result ≡ action_number action }
{
    match action {
        Action::Lookup(_) => 0,
        Action::Blackhole => 2,
        Action::Unreachable => 3,
        Action::Prohibit => 4,
    }
}

/// Returns 1 if there is an address, and 0 otherwise.
pub(crate) fn has(addr: Option<Addr>) -> u32
    ensures { result ≡ has addr }
{
    match addr {
        Some(_) => 1,
        None => 0,
    }
}

/// Returns the number of an address; 0 if there is none.
pub(crate) fn addr_number(addr: Option<Addr>) -> u32
    ensures { result ≡ addr_number addr }
{
    match addr {
        Some(Addr(bits)) => bits,
        None => 0,
    }
}

/// Writes a name with zeros after it, at least one.
fn write_zero_ended(name: &[u8], bytes: &mut [u8; NAME_BYTES])
    ensures { bytes.new ≡ zero_ended name.now }
{
    *bytes = [0; NAME_BYTES];
    let len = if name.len() < NAME_BYTES {
        name.len()
    } else {
        NAME_BYTES - 1
    };
    bytes[..len].copy_from_slice(&name[..len]);
}

/// Writes the bytes of an interface's name, with zeros after it.
// Out of line and by value: a copy of a length that is not known keeps the compiler from taking a route apart.
#[inline(never)]
fn write_dev(dev: Dev, bytes: &mut [u8; NAME_BYTES])
    ensures { bytes.new ≡ zero_ended dev }
{
    write_zero_ended(dev.as_bytes(), bytes);
}

/// Writes the bytes of an interface's name; all zeros if there is none.
pub(crate) fn write_name(dev: Option<Dev>, bytes: &mut [u8; NAME_BYTES])
    ensures { bytes.new ≡ name_bytes dev }
{
    match dev {
        Some(dev) => write_dev(dev, bytes),
        None => *bytes = [0; NAME_BYTES],
    }
}

/// Writes an answer in which no route decides.
fn write_without_route(number: u64, kind: u32, priority: u32, answer: &mut AnswerC)
    ensures { answer.new ≡ without_route number kind priority }
{
    answer.number = number;
    answer.kind = kind;
    answer.table = 0;
    answer.priority = priority;
    answer.destination = 0;
    answer.prefix_length = 0;
    answer.metric = 0;
    answer.has_gateway = 0;
    answer.gateway = 0;
    answer.has_source = 0;
    answer.source = 0;
    answer.device = [0; NAME_BYTES];
}

/// Writes an answer in which this route decides.
fn write_by_route(number: u64, priority: u32, route: &Route, answer: &mut AnswerC)
    ensures { answer.new ≡ by_route number priority route.now }
{
    answer.number = number;
    answer.kind = kind_number(route.kind);
    answer.table = route.table;
    answer.priority = priority;
    answer.destination = route.prefix.bits();
    answer.prefix_length = u32::from(route.prefix.len());
    answer.metric = route.metric;
    answer.has_gateway = has(route.via);
    answer.gateway = addr_number(route.via);
    answer.has_source = has(route.src);
    answer.source = addr_number(route.src);
    write_name(route.dev, &mut answer.device);
}

/// Writes what was found after this many commands in the form that C reads.
// Field by field into C's own memory: a copy that was made of a whole answer would wait until its fields are written.
pub(crate) fn write_found(number: u64, found: &Found, answer: &mut AnswerC)
    ensures { answer.new ≡ answer_of number (verdict_in found.now) }
{
    match found {
        Found::Route(priority, route) => write_by_route(number, *priority, route, answer),
        Found::RuleSays(priority, action) => {
            write_without_route(number, action_number(*action), *priority, answer);
        }
        Found::NoRoute => write_without_route(number, 0, 0, answer),
    }
}

/// Writes an answer in the form that C reads.
pub(crate) fn write_answer(told: &Answer, answer: &mut AnswerC)
    ensures { answer.new ≡ answer_of told.now.number told.now.verdict }
{
    write_found(told.number, &told.verdict.lend(), answer);
}
