//! Which rules and routes may be changed.
ghost use Rattle.std.specs.Prelude.{◌≡◌, ◌&&◌, ◌++◌, ◌∷◌, [], not, OnOk, false, true};
ghost use Rattle.prt_route.specs.Route.{is_same_key};
ghost use Rattle.prt_diff.specs.Held.{is_unread_route, is_unread_rule};
ghost use Rattle.prt_diff.specs.Fence.{has_number, is_allowed, is_in_fence, is_kernels, is_named, is_route_within, is_rule_within, is_safe_route};
ghost use Rattle.prt_diff.specs.Fence.{is_safe_rule, is_unread_key, is_unread_priority, names_route, names_routes, names_rule};

use crate::names::is_plain_name;
use prt_route::{LOCAL_TABLE, MAIN_TABLE, Route, RouteKey};
use prt_rule::Rule;
use std::alloc::{AllocError, Global};

/// The protocol of routes that the kernel makes.
const KERNEL_PROTOCOL: u8 = 2;

/// The numbers from the first to the last one, both included. There are none if the last is less than the first.
#[derive(Clone, Copy, Debug, PartialEq, Eq)]
pub struct NumberRange {
    /// The first number.
    pub first: u32,
    /// The last number.
    pub last: u32,
}

impl NumberRange {
    /// Checks whether the range has the number.
    fn has(&self, number: u32) -> bool
        ensures { result ≡ has_number number self.now }
    {
        self.first <= number && number <= self.last
    }
}

/// Checks whether one of these ranges has the number.
fn is_named(number: u32, ranges: &[NumberRange]) -> bool
    ensures { result ≡ is_named number ranges.now }
{
    ranges.iter().any(|range| range.has(number))
}

/// Checks whether the number is named, or none is.
fn is_allowed(number: u32, ranges: &[NumberRange]) -> bool
    ensures { result ≡ is_allowed number ranges.now }
{
    ranges.is_empty() || is_named(number, ranges)
}

/// Checks whether the kernel makes the route itself.
pub(crate) fn is_kernels(route: &Route) -> bool
    ensures { result ≡ is_kernels route.now }
{
    route.table == LOCAL_TABLE || (route.table == MAIN_TABLE && route.proto == KERNEL_PROTOCOL)
}

/// Checks whether the keys are the same.
fn is_same_key(key: &RouteKey, other: &RouteKey) -> bool
    ensures { result ≡ is_same_key key.now other.now }
{
    key == other
}

/// What of the rules and routes may be compared and changed.
///
/// Routes of table local, and those of protocol kernel in table main, stay out of every fence. So do rules of an unread
/// priority, routes of an unread key, and interfaces whose names `ip -batch` can't read.
#[derive(Debug, Drop)]
pub struct Fence {
    /// Whether the fence has everything.
    pub all: bool,
    /// The tables that are named.
    pub tables: Vec<NumberRange>,
    /// The protocols of routes that are named.
    pub protocols: Vec<NumberRange>,
    /// The priorities of rules that are named.
    pub priorities: Vec<NumberRange>,
    /// The priorities of rules of the listing that can't be kept.
    pub unread_priorities: Vec<NumberRange>,
    /// The keys of its routes that can't be kept.
    pub unread_keys: Vec<RouteKey>,
}

impl Fence {
    /// Makes the fence that has everything.
    pub fn all(alloc: Global) -> Fence
        ensures all { result.all ≡ true }
        ensures unread_priorities { result.unread_priorities.items ≡ [] }
        ensures unread_keys { result.unread_keys.items ≡ [] }
    {
        Fence {
            all: true,
            tables: Vec::new(alloc),
            protocols: Vec::new(alloc),
            priorities: Vec::new(alloc),
            unread_priorities: Vec::new(alloc),
            unread_keys: Vec::new(alloc),
        }
    }

    /// Makes the fence that names nothing yet.
    pub fn nothing(alloc: Global) -> Fence
        ensures all { result.all ≡ false }
        ensures tables { result.tables.items ≡ [] }
        ensures protocols { result.protocols.items ≡ [] }
        ensures priorities { result.priorities.items ≡ [] }
        ensures unread_priorities { result.unread_priorities.items ≡ [] }
        ensures unread_keys { result.unread_keys.items ≡ [] }
    {
        Fence {
            all: false,
            tables: Vec::new(alloc),
            protocols: Vec::new(alloc),
            priorities: Vec::new(alloc),
            unread_priorities: Vec::new(alloc),
            unread_keys: Vec::new(alloc),
        }
    }

    /// Names the tables from the first to the last one.
    ///
    /// # Errors
    ///
    /// Memory is refused; the fence is as it was.
    pub fn add_tables(&mut self, first: u32, last: u32) -> Result<(), AllocError>
        ensures { OnOk result (self.new.tables.items ≡ self.old.tables.items ++ (record { first = first; last = last }) ∷ []) }
    {
        self.tables.push(NumberRange { first, last })?;
        Ok(())
    }

    /// Names a protocol of routes.
    ///
    /// # Errors
    ///
    /// Memory is refused; the fence is as it was.
    pub fn add_protocol(&mut self, protocol: u8) -> Result<(), AllocError>
        ensures { OnOk result (self.new.protocols.items ≡ self.old.protocols.items ++ (record { first = protocol; last = protocol }) ∷ []) }
    {
        let number = u32::from(protocol);
        self.protocols.push(NumberRange {
            first: number,
            last: number,
        })?;
        Ok(())
    }

    /// Names the priorities of rules from the first to the last one.
    ///
    /// # Errors
    ///
    /// Memory is refused; the fence is as it was.
    pub fn add_priorities(&mut self, first: u32, last: u32) -> Result<(), AllocError>
        ensures { OnOk result (self.new.priorities.items ≡ self.old.priorities.items ++ (record { first = first; last = last }) ∷ []) }
    {
        self.priorities.push(NumberRange { first, last })?;
        Ok(())
    }

    /// Keeps rules of this priority out: one of the listing can't be kept, and words for another might take it.
    ///
    /// # Errors
    ///
    /// Memory is refused; the fence is as it was.
    pub fn add_unread_priority(&mut self, priority: u32) -> Result<(), AllocError>
        ensures { OnOk result (self.new.unread_priorities.items ≡ self.old.unread_priorities.items ++ (record { first = priority; last = priority }) ∷ []) }
    {
        self.unread_priorities.push(NumberRange {
            first: priority,
            last: priority,
        })?;
        Ok(())
    }

    /// Keeps routes of this key out: one of the listing can't be kept, and another would replace it.
    ///
    /// # Errors
    ///
    /// Memory is refused; the fence is as it was.
    pub fn add_unread_key(&mut self, key: RouteKey) -> Result<(), AllocError>
        ensures { OnOk result (self.new.unread_keys.items ≡ self.old.unread_keys.items ++ key ∷ []) }
    {
        self.unread_keys.push(key)?;
        Ok(())
    }

    /// Checks whether rules of this priority are kept out.
    fn is_unread_priority(&self, priority: u32) -> bool
        ensures { result ≡ is_unread_priority self.now priority }
    {
        is_named(priority, &self.unread_priorities)
    }

    /// Checks whether routes of this key are kept out.
    fn is_unread_key(&self, key: &RouteKey) -> bool
        ensures { result ≡ is_unread_key self.now key.now }
    {
        self.unread_keys.iter().any(|other| is_same_key(key, other))
    }

    /// Checks whether a line names the rule, and no other by the same words.
    fn is_safe_rule(&self, rule: &Rule) -> bool
        ensures { result ≡ is_safe_rule self.now rule.now }
    {
        !self.is_unread_priority(rule.priority) && is_plain_name(rule.iif)
    }

    /// Checks whether a line names the route, and no other by the same key.
    fn is_safe_route(&self, route: &Route) -> bool
        ensures { result ≡ is_safe_route self.now route.now }
    {
        !self.is_unread_key(&route.key()) && is_plain_name(route.dev)
    }

    /// Checks whether the fence names tables or protocols.
    fn names_routes(&self) -> bool
        ensures { result ≡ names_routes self.now }
    {
        !(self.tables.is_empty() && self.protocols.is_empty())
    }

    /// Checks whether the fence names everything, or the route's table and its protocol.
    pub(crate) fn names_route(&self, route: &Route) -> bool
        ensures { result ≡ names_route self.now route.now }
    {
        self.all
            || (self.names_routes()
                && is_allowed(route.table, &self.tables)
                && is_allowed(u32::from(route.proto), &self.protocols))
    }

    /// Checks whether the fence has the route, if the kernel doesn't make it.
    pub(crate) fn has_route(&self, route: &Route) -> bool
        ensures { result ≡ is_in_fence self.now route.now }
    {
        self.names_route(route) && self.is_safe_route(route)
    }

    /// Checks whether the route may be changed.
    pub fn is_route_within(&self, route: &Route) -> bool
        ensures { result ≡ is_route_within self.now route.now }
    {
        !is_kernels(route) && self.has_route(route)
    }

    /// Checks whether a line that can't be kept has the key of the route, which the fence would have without it.
    pub(crate) fn is_unread_route(&self, route: &Route) -> bool
        ensures { result ≡ is_unread_route self.now route.now }
    {
        self.is_unread_key(&route.key())
            && !is_kernels(route)
            && self.names_route(route)
            && is_plain_name(route.dev)
    }

    /// Checks whether the fence names everything, or the rule's priority.
    pub(crate) fn names_rule(&self, rule: &Rule) -> bool
        ensures { result ≡ names_rule self.now rule.now }
    {
        self.all || is_named(rule.priority, &self.priorities)
    }

    /// Checks whether the rule may be changed.
    pub fn is_rule_within(&self, rule: &Rule) -> bool
        ensures { result ≡ is_rule_within self.now rule.now }
    {
        self.names_rule(rule) && self.is_safe_rule(rule)
    }

    /// Checks whether a line that can't be kept has the priority of the rule, which the fence would have without it.
    pub(crate) fn is_unread_rule(&self, rule: &Rule) -> bool
        ensures { result ≡ is_unread_rule self.now rule.now }
    {
        self.is_unread_priority(rule.priority) && self.names_rule(rule) && is_plain_name(rule.iif)
    }
}
