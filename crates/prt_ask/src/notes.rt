//! What is reported of an answer beside its text.
ghost use Rattle.std.specs.Prelude.{◌≡◌, []};
ghost use Rattle.prt_ask.specs.Answers.{AreNone, is_whole_change};

use prt_addr::prefix_text;
use prt_diff::{Held, Outside, Unreadable};
use prt_listing::is_everything;
use prt_route::{Prefix, Route, table_name};
use prt_rule::Rule;
use std::alloc::{AllocError, Global};
use std::fmt::Write;

/// What is reported of a difference, or of a dump whose commands replace, beside its lines. Of any other answer nothing is.
#[derive(Drop)]
pub struct Notes {
    /// The rules that go before others come, since the kernel would refuse those beside them.
    pub early: Vec<Rule>,
    /// The rules that are deleted and added again, behind others of their priority.
    pub moved: Vec<Rule>,
    /// The rules that can't go or move: `ip` would take another rule for them.
    pub left: Vec<Rule>,
    /// What is held back, though the fence names it.
    pub held: Held,
    /// What the tables have outside the fence.
    pub outside: Outside,
}

impl Notes {
    /// Makes those that tell nothing.
    pub(crate) fn none(alloc: Global) -> Notes
        ensures { AreNone result }
    {
        Notes {
            early: Vec::new(alloc),
            moved: Vec::new(alloc),
            left: Vec::new(alloc),
            held: Held::nothing(alloc),
            outside: Outside {
                rules: 0,
                routes: 0,
            },
        }
    }

    /// Checks whether the lines bring all that the fence names: no rule is left, and nothing is held back.
    pub fn is_whole_change(&self) -> bool
        ensures { result ≡ is_whole_change self.now }
    {
        self.left.is_empty() && self.held.is_nothing()
    }

    /// Makes the messages of them for a person, each with its newline; of what is outside the fence only if asked.
    ///
    /// # Errors
    ///
    /// Memory is refused.
    pub fn messages(&self, with_outside: bool) -> Result<String, AllocError> {
        let mut text = self.steps()?;
        push_rest(&mut text, self)?;
        if with_outside {
            push_outside(&mut text, self.outside)?;
        }
        Ok(text)
    }

    /// Makes the messages of what the lines do to rules out of their order.
    ///
    /// # Errors
    ///
    /// Memory is refused.
    pub(crate) fn steps(&self) -> Result<String, AllocError> {
        let mut text = String::new(*self.left.allocator());
        let first = "goes first, since the kernel refuses a new one beside it";
        push_rules(&mut text, &self.early, first)?;
        let again = "is deleted and added again, to stand behind another one";
        push_rules(&mut text, &self.moved, again)?;
        Ok(text)
    }

    /// Makes the messages of what stays and of what isn't brought.
    ///
    /// # Errors
    ///
    /// Memory is refused.
    pub fn rest(&self) -> Result<String, AllocError> {
        let mut text = String::new(*self.left.allocator());
        push_rest(&mut text, self)?;
        Ok(text)
    }
}

/// Appends the messages of what stays and of what isn't brought.
fn push_rest(text: &mut String, notes: &Notes) -> Result<(), AllocError> {
    let taken = "stays, since `ip` would delete another one in its place";
    push_rules(text, &notes.left, taken)?;
    push_held_rules(text, &notes.held)?;
    push_held_routes(text, &notes.held)?;
    push_unreadable(text, &notes.held.unreadable)
}

/// Appends the messages of the rules that are held back.
fn push_held_rules(text: &mut String, held: &Held) -> Result<(), AllocError> {
    let stays = "stays, since a line that can't be kept has this priority";
    push_rules(text, &held.staying_rules, stays)?;
    let hindered = "isn't brought, since a line that can't be kept has this priority";
    push_rules(text, &held.hindered_rules, hindered)
}

/// Appends the messages of the routes that are held back.
fn push_held_routes(text: &mut String, held: &Held) -> Result<(), AllocError> {
    let blocked = "isn't brought, since one outside of what is compared is in its place";
    push_routes(text, &held.blocked_routes, blocked)?;
    let hindered = "isn't brought, since a line that can't be kept is in its place";
    push_routes(text, &held.hindered_routes, hindered)?;
    let stays = "stays, since a line that can't be kept is in the same place";
    push_routes(text, &held.staying_routes, stays)
}

/// Appends the messages of what `ip -batch` can't read.
fn push_unreadable(text: &mut String, unreadable: &Unreadable) -> Result<(), AllocError> {
    let left_out = "is left out, since `ip -batch` can't read its interface's name";
    push_rules(text, &unreadable.missing_rules, left_out)?;
    push_routes(text, &unreadable.missing_routes, left_out)?;
    let stays = "stays, since `ip -batch` can't read its interface's name";
    push_rules(text, &unreadable.staying_rules, stays)?;
    push_routes(text, &unreadable.staying_routes, stays)
}

/// Appends a message for each rule.
fn push_rules(text: &mut String, rules: &[Rule], what: &str) -> Result<(), AllocError> {
    for rule in rules {
        let priority = rule.priority;
        writeln!(text, "prt: a rule of priority {priority} {what}")?;
    }
    Ok(())
}

/// Appends a message for each route.
fn push_routes(text: &mut String, routes: &[Route], what: &str) -> Result<(), AllocError> {
    for route in routes {
        push_place(text, route)?;
        writeln!(text, " {what}")?;
    }
    Ok(())
}

/// Appends what a message calls a route: its destination, its table and its metric, if that isn't 0.
fn push_place(text: &mut String, route: &Route) -> Result<(), AllocError> {
    write!(text, "prt: the route ")?;
    push_destination(text, &route.prefix)?;
    match table_name(route.table) {
        Some(name) => write!(text, " table {name}")?,
        None => write!(text, " table {}", route.table)?,
    }
    if route.metric != 0 {
        write!(text, " metric {}", route.metric)?;
    }
    Ok(())
}

/// Appends a destination, that of all packets by the word for it.
fn push_destination(text: &mut String, prefix: &Prefix) -> Result<(), AllocError> {
    if is_everything(prefix) {
        write!(text, "default")?;
    } else {
        write!(text, "{}", prefix_text(prefix).as_str())?;
    }
    Ok(())
}

/// Appends how much is outside the fence, if anything is.
fn push_outside(text: &mut String, outside: Outside) -> Result<(), AllocError> {
    let Outside { rules, routes } = outside;
    if rules == 0 && routes == 0 {
        return Ok(());
    }
    writeln!(
        text,
        "prt: left alone, outside of what is compared: rules {rules}, routes {routes}"
    )?;
    Ok(())
}
