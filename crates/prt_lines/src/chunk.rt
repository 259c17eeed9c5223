//! Texts of many lines.
ghost use Rattle.std.specs.Prelude.{◌≡◌, ◌==◌, false, length, MatchOption, position};
ghost use Rattle.std.specs.Arc.{arc_value};
ghost use Rattle.prt_lines.specs.Chunk.{IsCut, IsRun, has_newline};

use crate::step::advance;
use prt_version::{Refusal, Version};
use std::alloc::Global;
use std::sync::Arc;

/// How much of a text was executed.
#[derive(Clone, Copy)]
pub struct Executed {
    /// The bytes of the lines that were executed, with their newlines.
    pub bytes: usize,
    /// Why the line after them was refused; None if no whole line is left.
    pub refused: Option<Refusal>,
}

/// Finds the first newline.
fn first_newline(text: &[u8]) -> Option<usize>
    ensures { result ≡ position (λ b. b == 10) text.now }
{
    text.iter().position(|byte| *byte == b'\n')
}

/// Cuts a text at its first newline: the line before it, and what comes after it.
fn first_line(text: &[u8]) -> Option<(&[u8], &[u8])>
    ensures { MatchOption result (has_newline text.now ≡ false) (λ cut. IsCut text.now cut.0.now cut.1.now) }
{
    match first_newline(text) {
        Some(at) => Some((&text[..at], &text[at + 1..])),
        None => None,
    }
}

/// Executes the lines of a text that a newline ends, one after the other, up to the first that is refused. The owner owns
/// the version after the last that was executed.
///
/// A refusal is that of [`advance`] for the line. What comes after the last newline is not executed.
pub fn advance_all(alloc: Global, owner: &mut Arc<Version>, text: &[u8]) -> Executed
    ensures { IsRun (arc_value owner.old) text.now (arc_value owner.new) result }
{
    let mut rest = text;
    while let Some((line, after)) = first_line(rest) {
        if let Err(reason) = advance(alloc, owner, line) {
            return Executed {
                bytes: text.len() - rest.len(),
                refused: Some(reason),
            };
        }
        rest = after;
    }
    Executed {
        bytes: text.len() - rest.len(),
        refused: None,
    }
}
