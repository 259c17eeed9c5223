//! Which commands a line can ask for.
ghost use Rattle.std.specs.Prelude.{◌≡◌};
ghost use Rattle.std.specs.List.{list_all};
ghost use Rattle.prt_route.specs.Name.{is_name};
ghost use Rattle.prt_rule.specs.Storable.{is_length, is_storable_rule};
ghost use Rattle.prt_spelling.specs.Plain.{is_plain_byte, is_plain_name};
ghost use Rattle.prt_spelling.specs.Spelled.{gives_some, is_from_one, is_spelled, is_spelled_action, is_spelled_choice, is_spelled_route};
ghost use Rattle.prt_spelling.specs.Spelled.{is_spelled_rule, is_spelled_rule_choice, is_spelled_selector};

use prt_command::{Command, NewRule};
use prt_route::{Dev, Route, RouteChoice, Selector, read_dev};
use prt_rule::{Action, RuleChoice};

/// The longest prefix, in bits.
const LONGEST: u8 = 32;

/// Checks whether the byte occurs in a word of a line: it is one from `!` to `~`, and no `#`.
fn is_plain_byte(byte: u8) -> bool
    ensures { result ≡ is_plain_byte byte }
{
    byte >= b'!' && byte <= b'~' && byte != b'#'
}

/// Checks whether the word is the name of an interface.
fn is_name(word: &[u8]) -> bool
    ensures { result ≡ is_name word.now }
{
    read_dev(word).is_ok()
}

/// Checks whether each byte of the word occurs in a word of a line.
fn has_plain_bytes(word: &[u8]) -> bool
    ensures { result ≡ list_all is_plain_byte word.now }
{
    word.iter().all(|byte| is_plain_byte(*byte))
}

/// Checks whether a line can express the name, if there is one.
fn is_plain_name(name: Option<Dev>) -> bool
    ensures { result ≡ is_plain_name name }
{
    match name {
        Some(name) => is_name(name.as_bytes()) && has_plain_bytes(name.as_bytes()),
        None => true,
    }
}

/// Checks whether the number is from 1 on, if there is one.
fn is_from_one(number: Option<u32>) -> bool
    ensures { result ≡ is_from_one number }
{
    match number {
        Some(number) => number >= 1,
        None => true,
    }
}

/// Checks whether a line can ask for the route to be put.
fn is_spelled_route(route: &Route) -> bool
    ensures { result ≡ is_spelled_route route.now }
{
    route.is_storable() && is_plain_name(route.dev)
}

/// Checks whether a line can ask for the route to be deleted.
fn is_spelled_choice(choice: &RouteChoice) -> bool
    ensures { result ≡ is_spelled_choice choice.now }
{
    choice.table >= 1 && is_from_one(choice.metric) && is_plain_name(choice.dev)
}

/// Checks whether a line can ask for the routes to be flushed.
fn is_spelled_selector(selector: &Selector) -> bool
    ensures { result ≡ is_spelled_selector selector.now }
{
    is_from_one(selector.table) && is_plain_name(selector.dev)
}

/// Checks whether the length is one of a prefix, if there is one.
fn is_length(len: Option<u8>) -> bool
    ensures { result ≡ is_length len }
{
    match len {
        Some(len) => len <= LONGEST,
        None => true,
    }
}

/// Checks whether a table may hold a rule of this action that suppresses prefixes up to this length.
fn is_storable_rule(action: Action, suppress: Option<u8>) -> bool
    ensures { result ≡ is_storable_rule action suppress }
{
    match action {
        Action::Lookup(table) => table >= 1 && is_length(suppress),
        _ => suppress.is_none(),
    }
}

/// Checks whether a line can ask for the rule to be added.
fn is_spelled_rule(rule: &NewRule) -> bool
    ensures { result ≡ is_spelled_rule rule.now }
{
    is_storable_rule(rule.action, rule.suppress) && is_plain_name(rule.iif)
}

/// Checks whether something is given of the rule to be deleted.
fn gives_some(choice: &RuleChoice) -> bool
    ensures { result ≡ gives_some choice.now }
{
    choice.iif.is_some()
        || choice.inverted
        || choice.from.is_some()
        || choice.to.is_some()
        || choice.mark.is_some()
        || choice.priority.is_some()
        || choice.action.is_some()
        || choice.suppress.is_some()
}

/// Checks whether the table is one from 1 on, if the action looks one up.
fn is_spelled_action(action: Option<Action>) -> bool
    ensures { result ≡ is_spelled_action action }
{
    match action {
        Some(Action::Lookup(table)) => table >= 1,
        _ => true,
    }
}

/// Checks whether a line can ask for the rule to be deleted.
fn is_spelled_rule_choice(choice: &RuleChoice) -> bool
    ensures { result ≡ is_spelled_rule_choice choice.now }
{
    gives_some(choice)
        && is_spelled_action(choice.action)
        && is_length(choice.suppress)
        && is_plain_name(choice.iif)
}

/// Checks whether a line can ask for the command.
pub fn is_spelled(command: &Command) -> bool
    ensures { result ≡ is_spelled command.now }
{
    match command {
        Command::RouteAdd(route) | Command::RouteChange(route) | Command::RouteReplace(route) => {
            is_spelled_route(route)
        }
        Command::RouteDel(choice) => is_spelled_choice(choice),
        Command::RouteFlush(selector) => is_spelled_selector(selector),
        Command::RuleAdd(rule) => is_spelled_rule(rule),
        Command::RuleDel(choice) => is_spelled_rule_choice(choice),
        Command::RuleFlush => true,
    }
}
