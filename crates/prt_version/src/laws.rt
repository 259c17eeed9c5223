//! Laws of the definitions, which no program calls.
ghost use Rattle.std.specs.Prelude.{◌≡◌, ◌↔◌, ℕ, List, None, Some, false, length};
ghost use Rattle.std.specs.List.{Contains};
ghost use Rattle.prt_refusals.specs.declared.refusal.Refusal.TheVariants.{Full};
ghost use Rattle.prt_route.specs.Edit.{has_key};
ghost use Rattle.prt_route.specs.Route.{key_of};
ghost use Rattle.prt_route.specs.declared.route.Route.{Route};
ghost use Rattle.prt_rule.specs.declared.rule.Rule.{Rule};
ghost use Rattle.prt_command.specs.declared.request.Command.TheVariants.{RouteAdd};
ghost use Rattle.prt_version.specs.Change.{refusal};
ghost use Rattle.prt_version.specs.RowsSpell.{RowsSpell};
ghost use Rattle.prt_version.specs.Sound.{IsSound};
ghost use Rattle.prt_version.specs.State.{State};
ghost use Rattle.prt_version.specs.declared.limits.TheConstants.{MOST_COMMANDS, MOST_ROUTES, MOST_RULES};

/// A state has one form: two of the same count that have the same rules and the same routes are equal.
pub fn one_form()
    ensures { (state other : State) → IsSound state → IsSound other → state.count ≡ other.count →
        ((rule : Rule) → Contains state.rules rule ↔ Contains other.rules rule) →
        ((route : Route) → Contains state.routes route ↔ Contains other.routes route) →
        state ≡ other }
{}

/// Rows encode one state at most.
pub fn spelled_once()
    ensures { (number : ℕ) (rules : List Rule) (routes : List Route) (state other : State) →
        RowsSpell number rules routes state → RowsSpell number rules routes other → state ≡ other }
{}

/// The hundred-thousand-and-first route is refused as one too many, and the one before it is not.
pub fn route_limit()
    ensures full { (state : State) (route : Route) → has_key (key_of route) state.routes ≡ false → length state.routes ≡ 100000 →
        refusal state (RouteAdd route) ≡ Some Full }
    ensures last { (state : State) (route : Route) → has_key (key_of route) state.routes ≡ false → length state.routes ≡ 99999 →
        state.count ≡ 99999 → refusal state (RouteAdd route) ≡ None }
{}

/// A database holds 1,000 rules and 100,000 routes at most, and accepts 1,000,000,000,000,000 commands.
pub fn limits()
    ensures rules { MOST_RULES ≡ 1000 }
    ensures routes { MOST_ROUTES ≡ 100000 }
    ensures commands { MOST_COMMANDS ≡ 1000000000000000 }
{}
