//! Laws of the definitions, which no program calls.
ghost use Rattle.std.specs.Prelude.{◌≡◌, []};
ghost use Rattle.prt_version.specs.Accepted.{IsAccepted};
ghost use Rattle.prt_version.specs.Change.{fold};
ghost use Rattle.prt_version.specs.Sound.{IsSound};
ghost use Rattle.prt_version.specs.State.{State};
ghost use Rattle.prt_diff.specs.Between.{EachState};
ghost use Rattle.prt_diff.specs.Apply.Brings.{AreAlike, CanBring, IsBetween};
ghost use Rattle.prt_diff.specs.Apply.Plan.{plan};

/// Each command of the plan is accepted, and after them the tables are exactly those that are wanted, except for ids.
pub fn plan_brings()
    ensures accepted { (found wanted : State) → CanBring found wanted → IsAccepted found (plan found wanted) }
    ensures brought { (found wanted : State) → CanBring found wanted → AreAlike (fold found (plan found wanted)) wanted }
{}

/// There is no command if both have the same tables already, except for ids.
pub fn plan_is_empty()
    ensures { (found wanted : State) → AreAlike found wanted → plan found wanted ≡ [] }
{}

/// Before and after each command of the plan, each key of a route that both ends have is there, and no route that neither
/// has.
pub fn plan_keeps_routes()
    ensures { (found wanted : State) → CanBring found wanted → EachState (IsBetween found wanted) found (plan found wanted) }
{}

/// After commands of the plan that were all accepted, the tables are exactly those that are wanted, except for ids.
pub fn accepted_plan_brings()
    ensures { (found wanted : State) → IsSound found → IsSound wanted → IsAccepted found (plan found wanted) →
        AreAlike (fold found (plan found wanted)) wanted }
{}
