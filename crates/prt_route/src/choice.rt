ghost use Rattle.std.specs.Prelude.{◌≡◌};
ghost use Rattle.prt_addr.specs.Given.{agrees};
ghost use Rattle.prt_route.specs.RouteChoice.{in_range, is_chosen, is_same_kind, is_selected, takes_metric};

use crate::{Addr, Dev, Kind, Prefix, Route};
use prt_addr::{agrees, agrees_there};

/// Which prefixes a command on several routes takes (`ip-route(8)`, `show`).
#[derive(Clone, Copy, PartialEq)]
pub enum Range {
    /// Each prefix.
    All,
    /// `root`: the prefixes within this one, and it itself.
    Root(Prefix),
    /// `match`: the prefixes that this one is within, and it itself.
    Covering(Prefix),
    /// `exact`: this prefix alone.
    Exact(Prefix),
}

impl Range {
    /// Checks whether the prefix is one of the range.
    fn takes(&self, prefix: &Prefix) -> bool
        ensures { result ≡ in_range self.now prefix.now }
    {
        match self {
            Range::All => true,
            Range::Root(block) => prefix.within(block),
            Range::Covering(block) => block.within(prefix),
            Range::Exact(block) => block == prefix,
        }
    }
}

/// The routes that `show` and `flush` are about: all that agree with what is given (`ip-route(8)`).
///
/// With None a part is not given.
#[derive(Clone, Copy, PartialEq)]
pub struct Selector {
    /// The number of the table, from 1 on; None for all tables.
    pub table: Option<u32>,
    /// Which prefixes.
    pub range: Range,
    /// What becomes of the packets.
    pub kind: Option<Kind>,
    /// The number of the protocol.
    pub proto: Option<u8>,
    /// The number of the scope.
    pub scope: Option<u8>,
    /// The interface to send through.
    pub dev: Option<Dev>,
}

/// What `del` says of the route that it removes: its table and prefix, and what else is given (`ip-route(8)`).
///
/// With None a part is not given.
#[derive(Clone, Copy, PartialEq)]
pub struct RouteChoice {
    /// The number of the table, from 1 on.
    pub table: u32,
    /// The destinations.
    pub prefix: Prefix,
    /// The metric; 0 counts as not given.
    pub metric: Option<u32>,
    /// What becomes of the packets.
    pub kind: Option<Kind>,
    /// The gateway.
    pub via: Option<Addr>,
    /// The interface to send through.
    pub dev: Option<Dev>,
    /// The source address to prefer.
    pub src: Option<Addr>,
    /// The number of the protocol.
    pub proto: Option<u8>,
    /// The number of the scope.
    pub scope: Option<u8>,
}

/// Checks whether the kind is the one that is given, if one is.
// A function of its own, since the proof of `RouteChoice::takes` gives up if it has to compare the kinds too.
fn agrees_in_kind(given: &Option<Kind>, kind: &Kind) -> bool
    ensures { result ≡ agrees is_same_kind given.now kind.now }
{
    agrees(given, kind)
}

/// Checks whether the metric is the one that is given; 0 counts as not given.
fn takes_metric(given: Option<u32>, metric: u32) -> bool
    ensures { result ≡ takes_metric given metric }
{
    match given {
        Some(given) => given == 0 || given == metric,
        None => true,
    }
}

impl Selector {
    /// Checks whether the route agrees with all that is given (`ip-route(8)`, `show`).
    pub fn takes(&self, route: &Route) -> bool
        ensures { result ≡ is_selected self.now route.now }
    {
        agrees(&self.table, &route.table)
            && self.range.takes(&route.prefix)
            && agrees_in_kind(&self.kind, &route.kind)
            && agrees(&self.proto, &route.proto)
            && agrees(&self.scope, &route.scope)
            && agrees_there(&self.dev, &route.dev)
    }
}

impl RouteChoice {
    /// Checks whether the route agrees with all that is given (`ip-route(8)`, `delete`).
    pub fn takes(&self, route: &Route) -> bool
        ensures { result ≡ is_chosen self.now route.now }
    {
        self.table == route.table
            && self.prefix == route.prefix
            && takes_metric(self.metric, route.metric)
            && agrees_in_kind(&self.kind, &route.kind)
            && agrees_there(&self.via, &route.via)
            && agrees_there(&self.dev, &route.dev)
            && agrees_there(&self.src, &route.src)
            && agrees(&self.proto, &route.proto)
            && agrees(&self.scope, &route.scope)
    }
}
