use prt_route::{Dev, Prefix, Route, RouteChoice, Selector};
use prt_rule::{Action, Mark, Packet, RuleChoice};

/// A rule to be added, which gets its id, and if it names none its priority, when it is.
#[derive(Clone, Copy, PartialEq)]
pub struct NewRule {
    /// The lower, the earlier it is tried; if none is named, that of the second rule less one, or 0.
    pub priority: Option<u32>,
    /// Whether it matches the packets that its selector does not.
    pub inverted: bool,
    /// The sources; 0.0.0.0/0 for any.
    pub from: Prefix,
    /// The destinations; 0.0.0.0/0 for any.
    pub to: Prefix,
    /// The incoming interface, if it matters.
    pub iif: Option<Dev>,
    /// The mark, if it matters.
    pub mark: Option<Mark>,
    pub action: Action,
    /// The length up to which prefixes are suppressed, 0 to 32, if some are.
    pub suppress: Option<u8>,
}

/// A change that a line asks for.
#[derive(Clone, Copy, PartialEq)]
pub enum Command {
    /// `route add`: a route whose key is not there yet.
    RouteAdd(Route),
    /// `route change`: a route in the place of the one with its key, which is there.
    RouteChange(Route),
    /// `route replace`: a route, in the place of the one with its key if that is there.
    RouteReplace(Route),
    /// `route del`: without the route of lowest metric among those that agree.
    RouteDel(RouteChoice),
    /// `route flush`: without the routes that the selector takes.
    RouteFlush(Selector),
    /// `rule add`: a rule that is not there yet.
    RuleAdd(NewRule),
    /// `rule del`: without the first rule in order that agrees.
    RuleDel(RuleChoice),
    /// `rule flush`: without the rules whose priority is not 0.
    RuleFlush,
}

/// A question that a line asks.
#[derive(Clone, Copy, PartialEq)]
pub enum Query {
    /// `route show`: the routes that the selector takes.
    RouteShow(Selector),
    /// `rule show`: all rules.
    RuleShow,
    /// `route get`: what becomes of such a packet.
    Get(Packet),
}

/// What a line asks for.
#[derive(Clone, Copy, PartialEq)]
pub enum Request {
    Command(Command),
    Query(Query),
}
