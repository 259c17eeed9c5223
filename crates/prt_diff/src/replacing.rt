//! The lines that put a version back on a host that has made some of its routes already.
ghost use Rattle.std.specs.Prelude.{◌≡◌, ◌++◌, All, IfErr, IfOk, OnOk, filter, map};
ghost use Rattle.prt_spelling.specs.declared.form.NameForm.TheVariants.{ByNumber};
ghost use Rattle.prt_diff.specs.Replacing.{AreLeftOut, clearing, direct_routes, first_local, first_rule, gateway_routes, is_put_back, plain_rules};
ghost use Rattle.prt_diff.specs.Replacing.{replacing_commands, replacing_text, spare_rule};
ghost use Rattle.prt_diff.specs.Routes.{replace_route};
ghost use Rattle.prt_diff.specs.Rules.{add_rule};
ghost use Rattle.prt_diff.specs.Text.{IsAskedFor, IsWhyNotWritten};
ghost use Rattle.prt_diff.specs.Unreadable.{is_unreadable_route, is_unreadable_rule};

use crate::commands::{add_rule, replace_route};
use crate::diff::every_route;
use crate::fence::is_kernels;
use crate::held::Held;
use crate::names::is_plain_name;
use crate::refusal::LineError;
use crate::text::batch_text;
use crate::unreadable::{Unreadable, is_unreadable_route, is_unreadable_rule};
use prt_command::Command;
use prt_route::{LOCAL_TABLE, Prefix, Route};
use prt_rule::{Action, Rule, RuleChoice};
use prt_version::Version;
use std::alloc::{AllocError, Global};

/// Makes a rule that looks up local, at this priority.
fn spare_rule(priority: u32) -> Rule
    ensures { result ≡ spare_rule priority }
{
    Rule {
        id: 0,
        priority,
        inverted: false,
        from: Prefix::masked(0, 0),
        to: Prefix::masked(0, 0),
        iif: None,
        mark: None,
        action: Action::Lookup(LOCAL_TABLE),
        suppress: None,
    }
}

/// Chooses the first rule that looks up local.
fn first_local() -> RuleChoice
    ensures { result ≡ first_local }
{
    RuleChoice {
        priority: None,
        inverted: false,
        from: None,
        to: None,
        iif: None,
        mark: None,
        action: Some(Action::Lookup(LOCAL_TABLE)),
        suppress: None,
    }
}

/// Chooses the first rule, since the kernel compares no `from all`.
fn first_rule() -> RuleChoice
    ensures { result ≡ first_rule }
{
    RuleChoice {
        priority: None,
        inverted: false,
        from: Some(Prefix::masked(0, 0)),
        to: None,
        iif: None,
        mark: None,
        action: None,
        suppress: None,
    }
}

/// Lists the commands that delete each rule of a host, none of which fails (`ip-rule(8)`, `flush`).
///
/// A flush leaves the rules of priority 0. Of these local and one more are deleted. If they aren't there, a deletion takes one
/// of the two that were added.
fn clearing() -> [Command; 6]
    ensures { result ≡ clearing }
{
    [
        Command::RuleFlush,
        add_rule(&spare_rule(1)),
        add_rule(&spare_rule(2)),
        Command::RuleDel(first_local()),
        Command::RuleDel(first_rule()),
        Command::RuleFlush,
    ]
}

/// Checks whether the route is put back: `ip -batch` can read it, and the kernel doesn't make it itself.
fn is_put_back(route: &Route) -> bool
    ensures { result ≡ is_put_back route.now }
{
    !is_kernels(route) && is_plain_name(route.dev)
}

/// Appends the commands that add the rules that `ip -batch` can read.
fn push_rules(commands: &mut Vec<Command>, rules: &[Rule]) -> Result<(), AllocError>
    ensures { OnOk result (commands.new.items ≡ commands.old.items ++ map add_rule (plain_rules rules.now)) }
{
    for rule in rules {
        if is_plain_name(rule.iif) {
            commands.extend_from_slice(&[add_rule(rule)])?;
        }
    }
    Ok(())
}

/// Appends the commands that put the routes without a gateway.
fn push_direct_routes(commands: &mut Vec<Command>, routes: &[Route]) -> Result<(), AllocError>
    ensures { OnOk result (commands.new.items ≡ commands.old.items ++ map replace_route (direct_routes routes.now)) }
{
    for route in routes {
        if is_put_back(route) && route.via.is_none() {
            commands.extend_from_slice(&[replace_route(route)])?;
        }
    }
    Ok(())
}

/// Appends the commands that put the routes by a gateway.
fn push_gateway_routes(commands: &mut Vec<Command>, routes: &[Route]) -> Result<(), AllocError>
    ensures { OnOk result (commands.new.items ≡ commands.old.items ++ map replace_route (gateway_routes routes.now)) }
{
    for route in routes {
        if is_put_back(route) && route.via.is_some() {
            commands.extend_from_slice(&[replace_route(route)])?;
        }
    }
    Ok(())
}

/// Lists the commands that put the version back.
fn replacing_commands(alloc: Global, version: &Version) -> Result<Vec<Command>, AllocError>
    ensures { IfOk result (λ commands. commands.items ≡ replacing_commands version.now) }
{
    let routes = every_route(version)?;
    let mut commands = Vec::new(alloc);
    commands.extend_from_slice(&clearing())?;
    push_rules(&mut commands, version.rules())?;
    push_direct_routes(&mut commands, &routes)?;
    push_gateway_routes(&mut commands, &routes)?;
    Ok(commands)
}

/// Writes the lines that put the version back on a host whose addresses have made some of its routes already.
///
/// First come six lines that delete each rule of the host, and don't fail if it has no rule of priority 0. Of priority 0 they
/// delete local and one rule more. Then comes each rule with its priority, and each route in the place of one of its key, those
/// by a gateway last. Left out are routes that the kernel makes itself, and what [`left_out_of_replacing`] finds. Each line asks
/// for its command, and ends with a newline.
///
/// # Errors
///
/// `NoLine` with the first command that no line asks for: of a rule or a route that a table may not hold. `NoMemory` may
/// come instead.
pub fn replacing_text(alloc: Global, version: &Version) -> Result<Vec<u8>, LineError>
    ensures text { IfOk result (λ text. text.items ≡ replacing_text version.now) }
    ensures read { IfOk result (λ text. All (IsAskedFor ByNumber) (replacing_commands version.now)) }
    ensures reason { IfErr result (λ reason. IsWhyNotWritten (replacing_commands version.now) reason) }
{
    let Ok(commands) = replacing_commands(alloc, version) else {
        return Err(LineError::NoMemory);
    };
    batch_text(alloc, &commands)
}

/// Finds the rules that `ip -batch` can't read.
fn unreadable_rules(alloc: Global, rules: &[Rule]) -> Result<Vec<Rule>, AllocError>
    ensures { IfOk result (λ left. left.items ≡ filter is_unreadable_rule rules.now) }
{
    rules
        .iter()
        .filter(|rule| is_unreadable_rule(rule))
        .copied()
        .collect(alloc)
}

/// Finds the routes that `ip -batch` can't read, without those that the kernel makes.
fn unreadable_routes(alloc: Global, routes: &[Route]) -> Result<Vec<Route>, AllocError>
    ensures { IfOk result (λ left. left.items ≡ filter is_unreadable_route routes.now) }
{
    routes
        .iter()
        .filter(|route| is_unreadable_route(route))
        .copied()
        .collect(alloc)
}

/// Finds what the lines of [`replacing_text`] leave out, since `ip -batch` can't read the name of its interface.
///
/// # Errors
///
/// Memory is refused.
pub fn left_out_of_replacing(alloc: Global, version: &Version) -> Result<Held, AllocError>
    ensures { IfOk result (AreLeftOut version.now) }
{
    let routes = every_route(version)?;
    let unreadable = Unreadable {
        missing_rules: unreadable_rules(alloc, version.rules())?,
        missing_routes: unreadable_routes(alloc, &routes)?,
        staying_rules: Vec::new(alloc),
        staying_routes: Vec::new(alloc),
    };
    Ok(Held {
        blocked_routes: Vec::new(alloc),
        hindered_routes: Vec::new(alloc),
        staying_routes: Vec::new(alloc),
        hindered_rules: Vec::new(alloc),
        staying_rules: Vec::new(alloc),
        unreadable,
    })
}
