//! The commands that make the tables of one version those of another.
ghost use Rattle.std.specs.Prelude.{◌≡◌, All, IfOk, true};
ghost use Rattle.prt_command.specs.Storable.{IsStorable};
ghost use Rattle.prt_diff.specs.Apply.Plan.{is_storable, plan};

use super::routes::{push_missing_routes, push_unwanted_routes};
use super::rules::push_rule_changes;
use crate::diff::every_route;
use prt_command::Command;
use prt_version::Version;
use std::alloc::{AllocError, Global};

/// Plans the commands that make the tables of one version those of another.
///
/// First `route replace` comes for each wanted route that is not found exactly so. Then come the rules, priority by
/// priority in rising order. At each priority at which the rules differ, all that are found are deleted, and all that are
/// wanted are added, each with its priority. At last `route del` comes for each found route whose key no wanted one has.
/// So a route is there before a rule leads to it. If nothing differs, there are no commands.
///
/// # Errors
///
/// Memory is refused.
pub fn plan(alloc: Global, found: &Version, wanted: &Version) -> Result<Vec<Command>, AllocError>
    ensures commands { IfOk result (λ commands. commands.items ≡ plan found.now wanted.now) }
    ensures storable { is_storable wanted.now ≡ true → IfOk result (λ commands. All IsStorable commands.items) }
{
    // Each version's contract says that its rules and its routes are in order.
    let _numbers = (found.number(), wanted.number());
    let found_routes = every_route(found)?;
    let wanted_routes = every_route(wanted)?;
    let mut commands = Vec::new(alloc);
    push_missing_routes(&mut commands, &found_routes, &wanted_routes)?;
    push_rule_changes(&mut commands, found.rules(), wanted.rules())?;
    push_unwanted_routes(&mut commands, &found_routes, &wanted_routes)?;
    Ok(commands)
}
