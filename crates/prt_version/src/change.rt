use prt_route::{Route, RouteEdit};
use prt_rule::Rule;

/// A command made exact.
#[derive(Clone, Copy)]
pub enum Change {
    /// This edit of the routes.
    Route(RouteEdit),
    /// This route beside the others, none of which has its key.
    RouteAdd(Route),
    /// One more rule, with its id and priority, at its place in the order.
    RulePut(Rule),
    /// Without the rule that has this id.
    RuleDrop(u64),
    /// Without the rules whose priority is not 0.
    RuleFlush,
}
