ghost use Rattle.std.specs.Prelude.{◌≡◌};
ghost use Rattle.prt_c.specs.Outcome.{outcome_in_c, outcome_kind};

use crate::answer::{addr_number, has, kind_number, write_name};
use crate::packet::NAME_BYTES;
use prt_fib::Outcome;
use prt_route::Kind;

/// What becomes of packets, as C reads it, whichever rule and route decide.
///
/// An address is a number whose highest byte is the first of the four dotted parts.
#[repr(C)]
#[derive(Clone, Copy)]
pub struct OutcomeC {
    /// What becomes of them: 0 if no rule decides, 1 for a unicast route, 2 to 4 if they are dropped.
    pub kind: u32,
    /// 1 if the route has a gateway, and 0 otherwise.
    pub has_gateway: u32,
    /// The route's gateway; 0 if it has none.
    pub gateway: u32,
    /// 1 if the route has a source to prefer, and 0 otherwise.
    pub has_source: u32,
    /// The source to prefer; 0 if there is none.
    pub source: u32,
    /// The name of the route's interface, with zeros after it; all zeros if it has none.
    pub device: [u8; NAME_BYTES],
}

/// Numbers the kind of an outcome; 0 if no rule decides.
fn outcome_kind(kind: Option<Kind>) -> u32
    ensures { result ≡ outcome_kind kind }
{
    match kind {
        Some(kind) => kind_number(kind),
        None => 0,
    }
}

/// Writes an outcome in the form that C reads.
pub(crate) fn write_outcome(found: &Outcome, outcome: &mut OutcomeC)
    ensures { outcome.new ≡ outcome_in_c found.now }
{
    outcome.kind = outcome_kind(found.kind);
    outcome.has_gateway = has(found.via);
    outcome.gateway = addr_number(found.via);
    outcome.has_source = has(found.src);
    outcome.source = addr_number(found.src);
    write_name(found.dev, &mut outcome.device);
}
