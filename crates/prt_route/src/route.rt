ghost use Rattle.std.specs.Prelude.{◌≡◌};
ghost use Rattle.prt_route.specs.Route.{key_of, is_better};
ghost use Rattle.prt_route.specs.Storable.{is_storable_route};

use crate::{Addr, Dev, GLOBAL_SCOPE, Kind, Prefix};

/// What distinguishes a route from the others: no two routes have the same key.
#[derive(Clone, Copy, Debug, PartialEq, Eq)]
pub struct RouteKey {
    /// The number of the table, from 1 on.
    pub table: u32,
    /// The destinations.
    pub prefix: Prefix,
    /// The lower, the better.
    pub metric: u32,
}

/// A route of one table (`ip-route(8)`).
#[derive(Clone, Copy, Debug, PartialEq, Eq)]
pub struct Route {
    /// The number of the table, from 1 on.
    pub table: u32,
    /// The destinations.
    pub prefix: Prefix,
    /// The lower, the better.
    pub metric: u32,
    /// What becomes of the packets.
    pub kind: Kind,
    /// The gateway.
    pub via: Option<Addr>,
    /// The interface to send through.
    pub dev: Option<Dev>,
    /// The source address to prefer.
    pub src: Option<Addr>,
    /// The number of the protocol that the route comes from.
    pub proto: u8,
    /// The number of the scope.
    pub scope: u8,
}

impl Route {
    /// The key of the route.
    pub fn key(&self) -> RouteKey
        ensures { result ≡ key_of self.now }
    {
        RouteKey {
            table: self.table,
            prefix: self.prefix,
            metric: self.metric,
        }
    }

    /// Returns what listings compare: the table, the address and the length of the prefix, and the metric.
    ///
    /// The route with the lower one is listed first. Two routes have the same one exactly when they have the same key.
    pub fn listing_key(&self) -> (u32, u32, u8, u32)
        ensures { result ≡ (self.now.table, self.now.prefix.bits, self.now.prefix.len, self.now.metric) }
    {
        (
            self.table,
            self.prefix.bits(),
            self.prefix.len(),
            self.metric,
        )
    }

    /// Checks whether a table may hold the route (`ip-route(8)`).
    ///
    /// Its table is one from 1 on. A unicast route has a gateway or an interface; a route of another kind has neither, no
    /// source and scope global.
    pub fn is_storable(&self) -> bool
        ensures { result ≡ is_storable_route self.now }
    {
        let suits = match self.kind {
            Kind::Unicast => self.via.is_some() || self.dev.is_some(),
            Kind::Blackhole | Kind::Unreachable | Kind::Prohibit | Kind::Throw => {
                let is_bare = self.via.is_none() && self.dev.is_none() && self.src.is_none();
                is_bare && self.scope == GLOBAL_SCOPE
            }
        };
        self.table > 0 && suits
    }

    /// Checks whether this route is better than the other one of its table for an address in both.
    ///
    /// The longer prefix is better, and of equal lengths the lower metric (RFC 1812, section 5.2.4.3).
    pub fn better(&self, other: &Route) -> bool
        ensures { result ≡ is_better self.now other.now }
    {
        let (len, other_len) = (self.prefix.len(), other.prefix.len());
        len > other_len || len == other_len && self.metric < other.metric
    }
}
