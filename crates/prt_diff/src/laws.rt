//! Laws of the definitions, which no program calls.
ghost use Rattle.std.specs.Prelude.{◌≡◌, ◌⊎◌, List, [], true};
ghost use Rattle.std.specs.List.{Contains};
ghost use Rattle.prt_route.specs.Edit.{has_key};
ghost use Rattle.prt_route.specs.Route.{key_of};
ghost use Rattle.prt_route.specs.declared.route.Route.{Route};
ghost use Rattle.prt_rule.specs.declared.rule.Rule.{Rule};
ghost use Rattle.prt_version.specs.Accepted.{IsAccepted};
ghost use Rattle.prt_version.specs.Change.{has_rule};
ghost use Rattle.prt_version.specs.Sound.{IsSound};
ghost use Rattle.prt_version.specs.State.{State};
ghost use Rattle.prt_diff.specs.Between.{CanBring, EachState, IsBetween, IsBrought, end_of};
ghost use Rattle.prt_diff.specs.Fence.{rules_within};
ghost use Rattle.prt_diff.specs.Held.{blocked_routes, hindered_routes, hindered_rules, is_meant_route, is_meant_rule, staying_routes, staying_rules};
ghost use Rattle.prt_diff.specs.Plan.{changes, plan};
ghost use Rattle.prt_diff.specs.Routes.{managed_routes, wanted_routes};
ghost use Rattle.prt_diff.specs.Serving.{has_serving};
ghost use Rattle.prt_diff.specs.declared.fence.Fence.{Fence};

/// The changes are each accepted over the state that was found. Before and after each of them, all that both ends have
/// is there, except rules that move, and nothing that neither end has.
pub fn no_gap_opens()
    ensures accepted { (fence : Fence) (found wanted : State) → CanBring fence found wanted → IsAccepted found (changes fence found wanted) }
    ensures between { (fence : Fence) (found wanted : State) → CanBring fence found wanted →
        EachState (IsBetween found (end_of fence found wanted) (plan fence found wanted).moved) found (changes fence found wanted) }
{}

/// The changes leave what is outside the fence, and bring what is wanted inside it, except for rules that are left.
/// If none is left, nothing differs any more.
pub fn changes_bring()
    ensures brought { (fence : Fence) (found wanted : State) → CanBring fence found wanted →
        IsBrought fence found wanted (end_of fence found wanted) (plan fence found wanted).left }
    ensures settled { (fence : Fence) (found wanted : State) → CanBring fence found wanted → (plan fence found wanted).left ≡ [] →
        changes fence (end_of fence found wanted) wanted ≡ [] }
{}

/// A state needs no changes to become itself. If there are none, the state that was found has all that they would bring.
pub fn no_changes_where_same()
    ensures itself { (fence : Fence) (state : State) → IsSound state → changes fence state state ≡ [] }
    ensures only_where_same { (fence : Fence) (found wanted : State) → CanBring fence found wanted → changes fence found wanted ≡ [] →
        IsBrought fence found wanted found (plan fence found wanted).left }
{}

/// Nothing is passed over that the fence names and `ip -batch` can read. What is wanted is brought, is there, or is held back.
/// What is found may go, is wanted, or is held back.
pub fn nothing_is_passed_over()
    ensures wanted_routes { (fence : Fence) (found wanted : List Route) (route : Route) → Contains wanted route → is_meant_route fence route ≡ true
        → Contains (wanted_routes fence found wanted) route
        ⊎ ((has_serving route found ≡ true)
        ⊎ (Contains (blocked_routes fence found wanted) route ⊎ Contains (hindered_routes fence found wanted) route)) }
    ensures found_routes { (fence : Fence) (found wanted : List Route) (route : Route) → Contains found route → is_meant_route fence route ≡ true
        → Contains (managed_routes fence found) route ⊎ ((has_key (key_of route) wanted ≡ true) ⊎ Contains (staying_routes fence found wanted) route) }
    ensures wanted_rules { (fence : Fence) (found wanted : List Rule) (rule : Rule) → Contains wanted rule → is_meant_rule fence rule ≡ true
        → Contains (rules_within fence wanted) rule ⊎ ((has_rule rule found ≡ true) ⊎ Contains (hindered_rules fence found wanted) rule) }
    ensures found_rules { (fence : Fence) (found wanted : List Rule) (rule : Rule) → Contains found rule → is_meant_rule fence rule ≡ true
        → Contains (rules_within fence found) rule ⊎ ((has_rule rule wanted ≡ true) ⊎ Contains (staying_rules fence found wanted) rule) }
{}
