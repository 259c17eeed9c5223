//! Laws of the definitions, which no program calls.
ghost use Rattle.std.specs.Prelude.{◌≡◌, ◌↔◌, IsTrue};
ghost use Rattle.prt_rule.specs.Same.{is_same_rule};
ghost use Rattle.prt_rule.specs.declared.rule.Rule.{Rule};

/// Two rules are the same exactly when they are equal once one has the other's id.
pub fn same_but_for_ids()
    ensures { (a b : Rule) → IsTrue (is_same_rule a b) ↔ (record a { id = b.id } ≡ b) }
{}
