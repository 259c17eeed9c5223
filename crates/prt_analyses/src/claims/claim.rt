//! Claims, and what meets one.
ghost use Rattle.std.specs.Prelude.{◌≡◌};
ghost use Rattle.std.specs.List.{list_any};
ghost use Rattle.prt_analyses.specs.Claims.{is_met, is_of_table, is_outcome, takes};

use super::selector::PacketSelector;
use prt_addr::Addr;
use prt_partition::outcome_of;
use prt_route::{Dev, Kind};
use prt_rule::Packet;
use prt_version::Verdict;

/// An outcome that a claim names.
#[derive(Clone, Copy, Debug, PartialEq, Eq)]
pub enum Expected {
    /// The packet leaves through this interface.
    Dev(Dev),
    /// It goes to this gateway.
    Via(Addr),
    /// A route of this table, 1 or more, is found for it.
    Table(u32),
    /// A route of this kind is found for it, or a rule does the same with it.
    Kind(Kind),
    /// No rule decides.
    NoRoute,
}

/// Says of every packet of a selector that it has one of these outcomes, or none of them.
#[derive(Drop)]
pub struct Claim {
    /// The packets that the claim takes.
    pub selector: PacketSelector,
    /// Whether they have none of the outcomes.
    pub is_negated: bool,
    /// The outcomes; [`read_claim`](crate::claims::read_claim) returns at least one.
    pub outcomes: Vec<Expected>,
}

/// Checks whether the verdict is a route of the table.
fn is_of_table(verdict: &Verdict, table: u32) -> bool
    ensures { result ≡ is_of_table verdict.now table }
{
    match verdict {
        Verdict::Route(_, route) => route.table == table,
        _ => false,
    }
}

/// Checks whether the verdict has the outcome.
fn is_outcome(verdict: &Verdict, expected: &Expected) -> bool
    ensures { result ≡ is_outcome verdict.now expected.now }
{
    match expected {
        Expected::Dev(name) => outcome_of(verdict).dev == Some(*name),
        Expected::Via(addr) => outcome_of(verdict).via == Some(*addr),
        Expected::Table(table) => is_of_table(verdict, *table),
        Expected::Kind(kind) => outcome_of(verdict).kind == Some(*kind),
        Expected::NoRoute => matches!(verdict, Verdict::NoRoute),
    }
}

/// Checks whether the verdict has one of the outcomes.
fn has_outcome(verdict: &Verdict, outcomes: &[Expected]) -> bool
    ensures { result ≡ list_any (is_outcome verdict.now) outcomes.now }
{
    outcomes
        .iter()
        .any(|expected| is_outcome(verdict, expected))
}

impl Claim {
    /// Checks whether the claim is about the packet.
    pub fn takes(&self, packet: &Packet) -> bool
        ensures { result ≡ takes self.now packet.now }
    {
        self.selector.selects(packet)
    }

    /// Checks whether a packet of this verdict meets the claim.
    pub fn is_met(&self, verdict: &Verdict) -> bool
        ensures { result ≡ is_met self.now verdict.now }
    {
        has_outcome(verdict, &self.outcomes) != self.is_negated
    }
}
