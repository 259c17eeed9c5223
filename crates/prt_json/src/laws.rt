//! Laws of the definitions, which no program calls.
ghost use Rattle.std.specs.Prelude.{◌≡◌, [], ◌∷◌, ◌++◌, List, false};
ghost use Rattle.std.specs.List.{list_any};
ghost use Rattle.prt_route.specs.declared.route.Route.{Route};
ghost use Rattle.prt_rule.specs.declared.packet.Packet.{Packet};
ghost use Rattle.prt_rule.specs.declared.rule.Rule.{Rule};
ghost use Rattle.prt_explain.specs.Explanation.{asked_rules};
ghost use Rattle.prt_json.specs.ExplanationJson.{decides};

/// The last rule that is reported decides exactly if a rule does, and no other one that is reported does.
pub fn last_decides()
    ensures last { (rules : List Rule) (routes : List Route) (packet : Packet) (before : List Rule) (rule : Rule) →
        asked_rules rules routes packet ≡ before ++ rule ∷ [] →
        decides routes packet rule ≡ list_any (decides routes packet) rules }
    ensures others { (rules : List Rule) (routes : List Route) (packet : Packet) (before after : List Rule) (rule next : Rule) →
        asked_rules rules routes packet ≡ before ++ rule ∷ next ∷ after →
        decides routes packet rule ≡ false }
{}
