//! Laws of the definitions, which no program calls.
ghost use Rattle.std.specs.Prelude.{◌≡◌, ◌↔◌, ℕ, ◌++◌, [], List, Some, codes, if◌then◌else◌, is_none, is_some, true, false, IsTrue};
ghost use Rattle.std.specs.List.{Contains};
ghost use Rattle.prt_addr.specs.declared.addr.Addr.{Addr};
ghost use Rattle.prt_route.specs.Best.{best, candidates};
ghost use Rattle.prt_route.specs.Route.{is_better};
ghost use Rattle.prt_route.specs.declared.route.Route.{Route};
ghost use Rattle.prt_rule.specs.Rule.{matches};
ghost use Rattle.prt_rule.specs.declared.packet.Packet.{Packet};
ghost use Rattle.prt_rule.specs.declared.rule.Action.TheVariants.{Lookup};
ghost use Rattle.prt_rule.specs.declared.rule.Rule.{Rule};
ghost use Rattle.prt_command.specs.declared.request.Query.TheVariants.{Get};
ghost use Rattle.prt_listing.specs.QueryText.{query_text};
ghost use Rattle.prt_version.specs.Select.{decider, decision};
ghost use Rattle.prt_version.specs.Sound.{IsSound};
ghost use Rattle.prt_version.specs.State.{State};
ghost use Rattle.prt_explain.specs.Asked.{AreAsked};
ghost use Rattle.prt_explain.specs.Explanation.{asked_rules, explanation_text, first_mismatch, packet_text, runner_up, silence_notes};
ghost use Rattle.prt_explain.specs.Steps.{asked_text};

/// An explanation ends with what `route get` answers. Before that come the packet's line and those of the rules that are
/// tried.
pub fn ends_with_answer()
    ensures { (state : State) (packet : Packet) →
        explanation_text state packet ≡ packet_text packet ++ codes "\n" ++ asked_text state.rules state.routes packet
        ++ query_text state (Get packet) }
{}

/// The rules that are reported are those up to the one that decides, and that one; or all of them if none decides.
pub fn asks_up_to_decider()
    ensures { (state : State) (packet : Packet) → IsSound state →
        AreAsked (decider state.rules state.routes packet) (asked_rules state.rules state.routes packet) state.rules }
{}

/// A rule matches exactly if no part of its selector is reported to differ, and an inverted one exactly if one is.
pub fn mismatch_is_told()
    ensures { (rule : Rule) (packet : Packet) →
        matches rule packet ≡ (if rule.inverted then is_some (first_mismatch rule packet) else is_none (first_mismatch rule packet)) }
{}

/// A matching rule that finds a route in its table decides exactly if nothing is reported of why it says nothing.
pub fn silence_is_told()
    ensures { (rule : Rule) (table : ℕ) (routes : List Route) (packet : Packet) (route : Route) →
        rule.action ≡ Lookup table → matches rule packet ≡ true → best routes table packet.dst ≡ Some route →
        IsTrue (is_some (decision rule routes packet)) ↔ (silence_notes rule.suppress route ≡ []) }
{}

/// The runner-up is a candidate that the best route is better than, and no candidate lies between the two.
pub fn runner_up_is_next()
    ensures candidate { (route : Route) (routes : List Route) (table : ℕ) (addr : Addr) (other : Route) →
        runner_up route routes table addr ≡ Some other → Contains (candidates routes table addr) other }
    ensures worse { (route : Route) (routes : List Route) (table : ℕ) (addr : Addr) (other : Route) →
        runner_up route routes table addr ≡ Some other → is_better route other ≡ true }
    ensures none_between { (route : Route) (routes : List Route) (table : ℕ) (addr : Addr) (other between : Route) →
        runner_up route routes table addr ≡ Some other → Contains (candidates routes table addr) between →
        is_better route between ≡ true → is_better between other ≡ false }
{}
