//! The limits of a database, computed with the definitions alone.
ghost use Rattle.std.specs.Prelude.{◌≡◌, None, Some};
ghost use Rattle.prt_refusals.specs.declared.refusal.Refusal.TheVariants.{CountFull, Exists, Full};
ghost use Rattle.prt_rule.specs.declared.rule.Action.TheVariants.{Lookup};
ghost use Rattle.prt_command.specs.declared.request.Command.TheVariants.{RuleAdd, RuleFlush};
ghost use Rattle.prt_version.specs.Change.{refusal};
ghost use Rattle.prt_version.specs.Example.{after_count, full_of_rules, rule_for_all};
ghost use Rattle.prt_version.specs.State.{opening_state};

/// The thousand-and-first rule is refused as one too many, and a rule that is there as being there.
pub fn rule_limit()
    ensures full { refusal full_of_rules (RuleAdd (rule_for_all (Some 998) (Lookup 7))) ≡ Some Full }
    ensures there { refusal full_of_rules (RuleAdd (rule_for_all (Some 500) (Lookup 7))) ≡ Some Exists }
{}

/// No command is accepted after 1,000,000,000,000,000, and every other reason to refuse one comes first.
pub fn count_limit()
    ensures last { refusal (after_count 999999999999999 opening_state) RuleFlush ≡ None }
    ensures counted { refusal (after_count 1000000000000000 opening_state) RuleFlush ≡ Some CountFull }
    ensures full { refusal (after_count 1000000000000000 full_of_rules) (RuleAdd (rule_for_all (Some 998) (Lookup 7))) ≡ Some Full }
{}
