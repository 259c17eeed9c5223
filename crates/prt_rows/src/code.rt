//! The numbers that are in a row for a kind of route and for an action of a rule (`FILE-FORMAT.md`).

ghost use Rattle.std.specs.Prelude.{◌≡◌, [], ◌∷◌, ⊤};
ghost use Rattle.prt_rows.specs.Cell.{number};
ghost use Rattle.prt_rows.specs.Decodes.{Decodes};
ghost use Rattle.prt_rows.specs.RouteRow.{kind_code};
ghost use Rattle.prt_rows.specs.RuleRow.{IsAction, action_cells, action_code, action_table};

use prt_route::Kind;
use prt_rule::Action;

/// The number that stands for a kind.
pub(crate) fn kind_code(kind: Kind) -> u32
    ensures { result ≡ kind_code kind }
{
    match kind {
        Kind::Unicast => 1,
        Kind::Blackhole => 6,
        Kind::Unreachable => 7,
        Kind::Prohibit => 8,
        Kind::Throw => 9,
    }
}

/// The kind that a number stands for, if it stands for one.
pub(crate) fn kind_of_code(code: u32) -> Option<Kind>
    ensures { Decodes kind_code (λ _. ⊤) code result }
{
    match code {
        1 => Some(Kind::Unicast),
        6 => Some(Kind::Blackhole),
        7 => Some(Kind::Unreachable),
        8 => Some(Kind::Prohibit),
        9 => Some(Kind::Throw),
        _ => None,
    }
}

/// The numbers that stand for an action: its code, and the table to look up or 0.
pub(crate) fn action_codes(action: Action) -> (u32, u32)
    ensures code { result.0 ≡ action_code action }
    ensures table { result.1 ≡ action_table action }
    ensures action { IsAction action }
{
    match action {
        Action::Lookup(table) => (1, table),
        Action::Blackhole => (6, 0),
        Action::Unreachable => (7, 0),
        Action::Prohibit => (8, 0),
    }
}

/// The action that a code and a table stand for, if they stand for one: the table is 0 if none is looked up.
pub(crate) fn action_of_codes(code: u32, table: u32) -> Option<Action>
    ensures { Decodes action_cells IsAction (number code ∷ number table ∷ []) result }
{
    match (code, table) {
        (1, table) => Some(Action::Lookup(table)),
        (6, 0) => Some(Action::Blackhole),
        (7, 0) => Some(Action::Unreachable),
        (8, 0) => Some(Action::Prohibit),
        _ => None,
    }
}
