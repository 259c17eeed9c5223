//! The commands so far, and what is reported of them.
ghost use Rattle.std.specs.Prelude.{◌≡◌, IfOk, OnOk};
ghost use Rattle.prt_addr.specs.Rising.{IsRising};
ghost use Rattle.prt_route.specs.Route.{is_listed_before};
ghost use Rattle.prt_diff.specs.Plan.{added, bring_all, brought, clear_all, cleared, delete_routes, deleted, deleted_early, left, moved};
ghost use Rattle.prt_diff.specs.Plan.{moved_or_left, nothing_yet, plan_of, remove_all, removed, replace_routes};
ghost use Rattle.prt_diff.specs.Routes.{in_turn, unwanted_routes};
ghost use Rattle.prt_diff.specs.Rules.{going_rules};

use crate::commands::{add_rule, delete_rule};
use crate::fence::Fence;
use crate::held::Held;
use crate::routes::{push_in_turn, push_unwanted_routes};
use crate::rules::{going_rules, has_rule, insert_rule, is_first_taken, remove_rule};
use prt_command::Command;
use prt_route::Route;
use prt_rule::Rule;
use std::alloc::{AllocError, Global};

/// The commands that bring one version to another, and what has to be reported of them.
#[derive(Drop)]
pub struct Changes {
    /// The commands, in order.
    pub commands: Vec<Command>,
    /// The rules after the commands, whose ids mean nothing.
    pub rules: Vec<Rule>,
    /// The rules that are deleted and added again, since they have to move behind another of their priority.
    pub moved: Vec<Rule>,
    /// The rules that go or move no further: words that name them would take another rule.
    pub left: Vec<Rule>,
    /// The rules that go before others come, since the kernel would refuse those beside them.
    pub early: Vec<Rule>,
    /// What is left as it is, though the fence names it.
    pub held: Held,
}

impl Changes {
    /// Begins with the rules that are found, and no command.
    pub(crate) fn over(alloc: Global, rules: &[Rule]) -> Result<Changes, AllocError>
        ensures { IfOk result (λ changes. plan_of changes ≡ nothing_yet rules.now) }
    {
        Ok(Changes {
            commands: Vec::new(alloc),
            rules: Vec::from_slice(alloc, rules)?,
            moved: Vec::new(alloc),
            left: Vec::new(alloc),
            early: Vec::new(alloc),
            held: Held::nothing(alloc),
        })
    }

    /// Puts the routes, each in its turn.
    pub(crate) fn replace_routes(&mut self, routes: &[Route]) -> Result<(), AllocError>
        ensures { OnOk result (plan_of self.new ≡ replace_routes (in_turn routes.now) (plan_of self.old)) }
    {
        push_in_turn(&mut self.commands, routes)
    }

    /// Collects the rules that go now.
    pub(crate) fn going(
        &self,
        alloc: Global,
        fence: &Fence,
        wanted: &[Rule],
    ) -> Result<Vec<Rule>, AllocError>
        ensures { IfOk result (λ rules. rules.items ≡ going_rules fence.now (plan_of self.now).rules wanted.now) }
    {
        going_rules(alloc, fence, &self.rules, wanted)
    }

    /// Deletes the routes whose key no wanted one has.
    pub(crate) fn delete_unwanted(
        &mut self,
        fence: &Fence,
        found: &[Route],
        wanted: &[Route],
    ) -> Result<(), AllocError>
        requires found { IsRising is_listed_before found.now }
        requires wanted { IsRising is_listed_before wanted.now }
        ensures { OnOk result (plan_of self.new ≡ delete_routes (unwanted_routes fence.now found.now wanted.now) (plan_of self.old)) }
    {
        push_unwanted_routes(&mut self.commands, fence, found, wanted)
    }

    /// Adds the rule.
    fn add(&mut self, rule: &Rule) -> Result<(), AllocError>
        ensures { OnOk result (plan_of self.new ≡ added rule.now (plan_of self.old)) }
    {
        self.commands.extend_from_slice(&[add_rule(rule)])?;
        insert_rule(&mut self.rules, rule)
    }

    /// Deletes the rule.
    fn delete(&mut self, rule: &Rule) -> Result<(), AllocError>
        ensures { OnOk result (plan_of self.new ≡ deleted rule.now (plan_of self.old)) }
    {
        self.commands.extend_from_slice(&[delete_rule(rule)])?;
        remove_rule(&mut self.rules, rule);
        Ok(())
    }

    /// Moves the rule behind the others of its priority.
    fn shift(&mut self, rule: &Rule) -> Result<(), AllocError>
        ensures { OnOk result (plan_of self.new ≡ moved rule.now (plan_of self.old)) }
    {
        self.delete(rule)?;
        self.add(rule)?;
        self.moved.extend_from_slice(&[*rule])
    }

    /// Leaves the rule.
    fn leave(&mut self, rule: &Rule) -> Result<(), AllocError>
        ensures { OnOk result (plan_of self.new ≡ left rule.now (plan_of self.old)) }
    {
        self.left.extend_from_slice(&[*rule])
    }

    /// Moves the rule, if the words that name it take it.
    fn shift_or_leave(&mut self, rule: &Rule) -> Result<(), AllocError>
        ensures { OnOk result (plan_of self.new ≡ moved_or_left rule.now (plan_of self.old)) }
    {
        if is_first_taken(rule, &self.rules) {
            self.shift(rule)
        } else {
            self.leave(rule)
        }
    }

    /// Brings a rule that comes or moves.
    fn bring(&mut self, rule: &Rule) -> Result<(), AllocError>
        ensures { OnOk result (plan_of self.new ≡ brought rule.now (plan_of self.old)) }
    {
        if has_rule(rule, &self.rules) {
            self.shift_or_leave(rule)
        } else {
            self.add(rule)
        }
    }

    /// Brings the rules that come or move.
    pub(crate) fn bring_all(&mut self, rules: &[Rule]) -> Result<(), AllocError>
        ensures { OnOk result (plan_of self.new ≡ bring_all rules.now (plan_of self.old)) }
    {
        for rule in rules {
            self.bring(rule)?;
        }
        Ok(())
    }

    /// Deletes a rule before others come.
    fn delete_early(&mut self, rule: &Rule) -> Result<(), AllocError>
        ensures { OnOk result (plan_of self.new ≡ deleted_early rule.now (plan_of self.old)) }
    {
        self.delete(rule)?;
        self.early.extend_from_slice(&[*rule])
    }

    /// Deletes a rule that bars one that comes, if the words that name it take it now.
    fn clear(&mut self, rule: &Rule) -> Result<(), AllocError>
        ensures { OnOk result (plan_of self.new ≡ cleared rule.now (plan_of self.old)) }
    {
        if is_first_taken(rule, &self.rules) {
            self.delete_early(rule)
        } else {
            Ok(())
        }
    }

    /// Deletes the rules that bar others, which come next.
    pub(crate) fn clear_all(&mut self, rules: &[Rule]) -> Result<(), AllocError>
        ensures { OnOk result (plan_of self.new ≡ clear_all rules.now (plan_of self.old)) }
    {
        for rule in rules {
            self.clear(rule)?;
        }
        Ok(())
    }

    /// Removes a rule that goes, if the words that name it take it.
    fn remove(&mut self, rule: &Rule) -> Result<(), AllocError>
        ensures { OnOk result (plan_of self.new ≡ removed rule.now (plan_of self.old)) }
    {
        if is_first_taken(rule, &self.rules) {
            self.delete(rule)
        } else {
            self.leave(rule)
        }
    }

    /// Removes the rules that go.
    pub(crate) fn remove_all(&mut self, rules: &[Rule]) -> Result<(), AllocError>
        ensures { OnOk result (plan_of self.new ≡ remove_all rules.now (plan_of self.old)) }
    {
        for rule in rules {
            self.remove(rule)?;
        }
        Ok(())
    }
}
