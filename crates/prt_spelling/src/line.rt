//! Lines, written part by part.
ghost use Rattle.std.specs.Prelude.{◌≡◌, ◌++◌, IfErr, IfOk, Ok, OnOk, Some, map};
ghost use Rattle.prt_command.specs.Reading.{reading};
ghost use Rattle.prt_command.specs.declared.request.Request.TheVariants as requests;
ghost use Rattle.prt_listing.specs.Steps.{part_of};
ghost use Rattle.prt_spelling.specs.Line.{command_line, command_parts, line_by, verb_words};
ghost use Rattle.prt_spelling.specs.Parts.{new_route_parts};
ghost use Rattle.prt_spelling.specs.Spelled.{IsWhyNotSpelled};
ghost use Rattle.prt_spelling.specs.Steps.{after_space, after_spaces};

use crate::fits::recall_command;
use crate::form::NameForm;
use crate::parts::{
    given_of, given_of_route, global_part, route_choice_parts, rule_choice_parts, selector_parts,
};
use crate::refusal::SpellingError;
use crate::spelled::is_spelled;
use prt_command::Command;
use prt_listing::{Part, push_part, push_text};
use prt_route::Route;
use std::alloc::{AllocError, Global};

/// Appends a space and the part, if it is there.
fn push_if_there(out: &mut Vec<u8>, part: &Option<Part>) -> Result<(), AllocError>
    ensures { OnOk result (out.new.items ≡ out.old.items ++ after_space (part_of part.now)) }
{
    match part {
        Some(part) => {
            push_text(out, " ")?;
            push_part(out, part)
        }
        None => Ok(()),
    }
}

/// Appends a space and the part, for each that is there.
fn push_all(out: &mut Vec<u8>, parts: &[Option<Part>]) -> Result<(), AllocError>
    ensures { OnOk result (out.new.items ≡ out.old.items ++ after_spaces (map part_of parts.now)) }
{
    for part in parts {
        push_if_there(out, part)?;
    }
    Ok(())
}

/// Appends what a line says of a route to be put.
fn push_new_route(out: &mut Vec<u8>, form: NameForm, route: &Route) -> Result<(), AllocError>
    ensures { OnOk result (out.new.items ≡ out.old.items ++ after_spaces (new_route_parts form route.now)) }
{
    push_all(out, &route_choice_parts(form, &given_of_route(route)))?;
    push_all(out, &[global_part(form, route)])
}

/// Returns the object and the verb of the command.
fn verb_words(command: &Command) -> &'static str
    ensures { result.now ≡ verb_words command.now }
{
    match command {
        Command::RouteAdd(_) => "route add",
        Command::RouteChange(_) => "route change",
        Command::RouteReplace(_) => "route replace",
        Command::RouteDel(_) => "route del",
        Command::RouteFlush(_) => "route flush",
        Command::RuleAdd(_) => "rule add",
        Command::RuleDel(_) => "rule del",
        Command::RuleFlush => "rule flush",
    }
}

/// Appends what the line says after its verb.
fn push_command(out: &mut Vec<u8>, form: NameForm, command: &Command) -> Result<(), AllocError>
    ensures { OnOk result (out.new.items ≡ out.old.items ++ after_spaces (command_parts form command.now)) }
{
    match command {
        Command::RouteAdd(route) | Command::RouteChange(route) | Command::RouteReplace(route) => {
            push_new_route(out, form, route)
        }
        Command::RouteDel(choice) => push_all(out, &route_choice_parts(form, choice)),
        Command::RouteFlush(selector) => push_all(out, &selector_parts(form, selector)),
        Command::RuleAdd(rule) => push_all(out, &rule_choice_parts(&given_of(rule))),
        Command::RuleDel(choice) => push_all(out, &rule_choice_parts(choice)),
        Command::RuleFlush => Ok(()),
    }
}

/// Appends the line of the command, with protocols and scopes in this form, and without a newline.
fn push_line_by(out: &mut Vec<u8>, form: NameForm, command: &Command) -> Result<(), AllocError>
    ensures { OnOk result (out.new.items ≡ out.old.items ++ line_by form command.now) }
{
    push_text(out, verb_words(command))?;
    push_command(out, form, command)
}

/// Appends the line of the command, with the names of protocols and scopes, and without a newline. It asks for the command if
/// `is_spelled` is true of it.
///
/// # Errors
///
/// Memory is refused; a part of the line may follow what `out` had.
pub fn push_line(out: &mut Vec<u8>, command: &Command) -> Result<(), AllocError>
    ensures { OnOk result (out.new.items ≡ out.old.items ++ command_line command.now) }
{
    push_line_by(out, NameForm::ByName, command)
}

/// Builds the line that asks for the command, with protocols and scopes in this form, and without a newline.
///
/// # Errors
///
/// `NoLine` if no line asks for it: an interface has a name with `#`, a control byte or a byte above 0x7e; a table may
/// not hold the route or the rule; or of what is to be deleted or flushed a table or a metric is 0, a length is above 32,
/// or nothing is given. `NoMemory` if memory is refused.
pub fn line_by(alloc: Global, form: NameForm, command: &Command) -> Result<Vec<u8>, SpellingError>
    ensures text { IfOk result (λ line. line.items ≡ line_by form command.now) }
    ensures read { IfOk result (λ line. reading line.items ≡ Ok (Some (requests.Command command.now))) }
    ensures reason { IfErr result (λ reason. IsWhyNotSpelled command.now reason) }
{
    if !is_spelled(command) {
        return Err(SpellingError::NoLine);
    }
    recall_command(command);
    let mut line = Vec::new(alloc);
    let Ok(()) = push_line_by(&mut line, form, command) else {
        return Err(SpellingError::NoMemory);
    };
    Ok(line)
}

/// Builds the line that asks for the command, with the names of protocols and scopes, and without a newline.
///
/// # Errors
///
/// Those of [`line_by`].
pub fn command_line(alloc: Global, command: &Command) -> Result<Vec<u8>, SpellingError>
    ensures text { IfOk result (λ line. line.items ≡ command_line command.now) }
    ensures read { IfOk result (λ line. reading line.items ≡ Ok (Some (requests.Command command.now))) }
    ensures reason { IfErr result (λ reason. IsWhyNotSpelled command.now reason) }
{
    line_by(alloc, NameForm::ByName, command)
}
