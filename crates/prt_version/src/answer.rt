ghost use Rattle.std.specs.Prelude.{◌≡◌};
ghost use Rattle.prt_version.specs.Found.{verdict_in};

use prt_route::Route;
use prt_rule::Action;

/// What becomes of a packet (`ip-rule(8)`).
#[derive(Clone, Copy)]
pub enum Verdict {
    /// The rule of this priority found this route for it.
    Route(u32, Route),
    /// The rule of this priority ends the lookup by this action, which looks up no table.
    RuleSays(u32, Action),
    /// No rule decides.
    NoRoute,
}

impl Verdict {
    /// Lends the verdict.
    pub fn lend(&self) -> Found<'_>
        ensures { verdict_in result ≡ self.now }
    {
        match self {
            Verdict::Route(priority, route) => Found::Route(*priority, route),
            Verdict::RuleSays(priority, action) => Found::RuleSays(*priority, *action),
            Verdict::NoRoute => Found::NoRoute,
        }
    }
}

/// What becomes of a packet, with the route where the version has it (`ip-rule(8)`).
#[derive(Clone, Copy)]
pub enum Found<'a> {
    /// The rule of this priority found this route for it.
    Route(u32, &'a Route),
    /// The rule of this priority ends the lookup by this action, which looks up no table.
    RuleSays(u32, Action),
    /// No rule decides.
    NoRoute,
}

impl Found<'_> {
    /// Makes the verdict, with a copy of the route.
    pub fn verdict(&self) -> Verdict
        ensures { result ≡ verdict_in self.now }
    {
        match self {
            Found::Route(priority, route) => Verdict::Route(*priority, **route),
            Found::RuleSays(priority, action) => Verdict::RuleSays(*priority, *action),
            Found::NoRoute => Verdict::NoRoute,
        }
    }
}

/// A verdict, and the number of commands that had been accepted when it was given.
#[derive(Clone, Copy)]
pub struct Answer {
    /// The number of commands that had been accepted.
    pub number: u64,
    /// What becomes of the packet.
    pub verdict: Verdict,
}
