//! The calls of a version with one route, of the table that has it, and of that table's pieces.

use crate::service::packet;
use prt_command::Command;
use prt_trie::{Table, Tree};
use prt_version::{Verdict, Version};

/// Checks whether a tree finds its one route for the packet, holds its key, and chooses it for this command.
fn finds_in_tree(tree: &Tree, remove: &Command) -> bool {
    match (tree.find(packet().dst), remove) {
        (Some(route), Command::RouteDel(choice)) => {
            let key = route.key();
            tree.len() == 1 && tree.holds(&key) && tree.choose(choice) == Some(key)
        }
        _ => false,
    }
}

/// Checks whether a table does the same.
fn finds_in_table(table: &Table, remove: &Command) -> bool {
    match (table.find(packet().dst), remove) {
        (Some(route), Command::RouteDel(choice)) => {
            let key = route.key();
            table.len() == 1 && table.holds(&key) && table.choose(choice) == Some(key)
        }
        _ => false,
    }
}

/// Checks whether a table finds its route, and one of its pieces.
fn finds(table: &Table, remove: &Command) -> bool {
    let mut is_found = false;
    for tree in table.pieces() {
        is_found = is_found || finds_in_tree(tree, remove);
    }
    is_found && finds_in_table(table, remove)
}

/// Checks whether the main table of a version finds the route that this command removes.
pub(crate) fn finds_route(version: &Version, remove: &Command) -> bool {
    match version.shared_routes().shared_table(254) {
        Some(table) => finds(table, remove),
        None => false,
    }
}

/// Checks whether a version answers with a route, by its three rules.
pub(crate) fn selects_route(version: &Version) -> bool {
    let answer = version.select(&packet());
    matches!(answer.verdict, Verdict::Route(32766, _)) && version.rules().len() == 3
}
