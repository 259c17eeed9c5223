//! What a line claims.
ghost use Rattle.std.specs.Prelude.{◌≡◌, ◌⊎◌, ◌++◌, Err, IfErr, IfOk, MatchResult, Ok, OnOk, option_map};
ghost use Rattle.std.specs.Option.{option_to_list};
ghost use Rattle.prt_refusals.specs.declared.refusal.Refusal.TheVariants.{NoMemory};
ghost use Rattle.prt_command.specs.Reading.{words};
ghost use Rattle.prt_analyses.specs.Claims.Reading.{bad_word, claim_of, ending, reading, stated, word_of};
ghost use Rattle.prt_analyses.specs.declared.claims.reading.ClaimFault.TheVariants.{Refused};

use super::claim::{Claim, Expected};
use super::draft::{Draft, Place, word_step};
use prt_command::{line_text, next_word};
use prt_refusals::Refusal;
use std::alloc::{AllocError, Global};

/// What is wrong with a claim.
#[derive(Clone, Copy, Debug, PartialEq, Eq)]
pub enum ClaimFault {
    /// A fault that lines of the command language have too, or `NoMemory`.
    Refused(Refusal),
    /// The line ends before the colon, or where an outcome has to follow.
    NoOutcome,
}

/// Why a line is no claim.
#[derive(Clone, Copy, Debug, PartialEq, Eq)]
pub struct BadClaim {
    /// The number of the word that is wrong, counted from 1. If something is missing at the end, it is one more than there
    /// are words. It is 0 if the fault is about no word.
    pub word: usize,
    /// What is wrong.
    pub fault: ClaimFault,
}

/// Refuses the word of this number.
fn refused(word: usize, refusal: Refusal) -> BadClaim
    ensures { result ≡ record { word = word; fault = Refused refusal } }
{
    BadClaim {
        word,
        fault: ClaimFault::Refused(refusal),
    }
}

/// Appends the outcome, if there is one.
fn push_outcome(outcomes: &mut Vec<Expected>, outcome: Option<Expected>) -> Result<(), AllocError>
    ensures { OnOk result (outcomes.new.items ≡ outcomes.old.items ++ option_to_list outcome) }
{
    if let Some(outcome) = outcome {
        outcomes.push(outcome)?;
    }
    Ok(())
}

/// Ends a claim after the last word. The number is that of a next one.
fn end(word: usize, draft: Draft, outcomes: Vec<Expected>) -> Result<Claim, BadClaim>
    ensures { MatchResult result
        (λ claim. ending word draft.place draft outcomes.items ≡ Ok (stated claim))
        (λ bad. ending word draft.place draft outcomes.items ≡ Err bad) }
{
    match draft.place {
        Place::Joint => Ok(Claim {
            selector: draft.selector,
            is_negated: draft.is_negated,
            outcomes,
        }),
        Place::NotItem | Place::ItemValue(_) | Place::OutcomeValue(_) => {
            Err(refused(word, Refusal::MissingValue))
        }
        Place::Item | Place::FirstOutcome | Place::Outcome => Err(BadClaim {
            word,
            fault: ClaimFault::NoOutcome,
        }),
    }
}

/// Reads the words of a text.
fn read_words(alloc: Global, text: &[u8]) -> Result<Claim, BadClaim>
    ensures value { IfOk result (λ claim. claim_of (words text.now) ≡ Ok (stated claim)) }
    ensures fault { IfErr result (λ bad. (claim_of (words text.now) ≡ Err bad) ⊎ (bad.fault ≡ Refused NoMemory)) }
{
    let mut draft = Draft::new();
    let mut outcomes = Vec::new(alloc);
    let mut number = 1;
    let mut rest = text;
    while let Some((word, after)) = next_word(rest) {
        match word_step(draft, word) {
            Ok((next, outcome)) => {
                draft = next;
                if push_outcome(&mut outcomes, outcome).is_err() {
                    return Err(refused(number, Refusal::NoMemory));
                }
            }
            Err(refusal) => return Err(refused(number, refusal)),
        }
        number += 1;
        rest = after;
    }
    end(number, draft, outcomes)
}

/// Reads a claim from a line without its newline; `None` if that is blank or a comment.
///
/// A claim is `[to PREFIX] [from PREFIX] [iif NAME] [mark MARK[/MASK]] [not mark MARK[/MASK]] : [not] OUTCOME [or OUTCOME ..]`.
/// An outcome is `dev NAME`, `via ADDR`, `table TABLE`, `kind KIND` or `none`. The items come in any order, each at most
/// once; `fwmark` is another word for `mark`. The colon is a word of its own, or ends the word before it.
///
/// Values are read as in lines of the command language. A prefix has no host bits, as that of a route.
///
/// # Errors
///
/// The first fault of the line, from left to right. `NoMemory` has the number of the word at which memory was refused.
pub fn read_claim(alloc: Global, line: &[u8]) -> Result<Option<Claim>, BadClaim>
    ensures value { IfOk result (λ claim. reading line.now ≡ Ok (option_map stated claim)) }
    ensures fault { IfErr result (λ bad. (reading line.now ≡ Err bad) ⊎ (bad.fault ≡ Refused NoMemory)) }
{
    let text = match line_text(line) {
        Ok(text) => text,
        Err(refusal) => return Err(refused(0, refusal)),
    };
    if next_word(text).is_none() {
        return Ok(None);
    }
    Ok(Some(read_words(alloc, text)?))
}

/// Finds the word of this number in a text.
fn word_of(number: usize, text: &[u8]) -> Option<&[u8]>
    ensures { option_map (λ word. word.now) result ≡ word_of number (words text.now) }
{
    let mut left = number;
    let mut rest = text;
    while let Some((word, after)) = next_word(rest) {
        if left == 1 {
            return Some(word);
        }
        left = left.saturating_sub(1);
        rest = after;
    }
    None
}

/// Finds the word that is wrong in the line. `None` if the fault is about no word, or something is missing at the end.
pub fn bad_word<'a>(line: &'a [u8], bad: &BadClaim) -> Option<&'a [u8]>
    ensures { option_map (λ word. word.now) result ≡ bad_word line.now bad.now }
{
    word_of(bad.word, line_text(line).ok()?)
}
