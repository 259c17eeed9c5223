//! A claim that is read word by word.
ghost use Rattle.std.specs.Prelude.{◌≡◌, Some};
ghost use Rattle.prt_analyses.specs.Claims.Reading.{colon_step, ends_in_colon, goes_on, item_step, item_step_by, nothing_read, outcome_step};
ghost use Rattle.prt_analyses.specs.Claims.Reading.{step, step_at, word_step};
ghost use Rattle.prt_analyses.specs.declared.claims.draft.Place.TheVariants.{FirstOutcome, ItemValue, Joint, NotItem, OutcomeValue};

use super::claim::Expected;
use super::selector::PacketSelector;
use super::values::{
    ItemWord, OutcomeWord, has_item, item_word, outcome_of, outcome_word, with_item,
};
use prt_command::is;
use prt_refusals::Refusal;

/// The place of the next word.
#[derive(Clone, Copy)]
pub(crate) enum Place {
    /// That of the colon, or of the first word of an item.
    Item,
    /// That of the item after `not`.
    NotItem,
    /// That of the value of this item.
    ItemValue(ItemWord),
    /// That of `not`, or of the first word of an outcome.
    FirstOutcome,
    /// That of the first word of an outcome.
    Outcome,
    /// That of the value of this outcome.
    OutcomeValue(OutcomeWord),
    /// That of `or`, or the end of the line.
    Joint,
}

/// What is read of a claim, apart from its outcomes.
#[derive(Clone, Copy)]
pub(crate) struct Draft {
    /// The place of the next word.
    pub place: Place,
    pub selector: PacketSelector,
    pub is_negated: bool,
}

/// A draft after a word, and the outcome that the word ends.
type Step = (Draft, Option<Expected>);

impl Draft {
    /// Begins at the first word of a line.
    pub(crate) fn new() -> Draft
        ensures { result ≡ nothing_read }
    {
        Draft {
            place: Place::Item,
            selector: PacketSelector::all(),
            is_negated: false,
        }
    }
}

/// Goes on at this place.
fn goes_on(place: Place, draft: Draft) -> Result<Step, Refusal>
    ensures { result ≡ goes_on place draft }
{
    Ok((Draft { place, ..draft }, None))
}

/// Begins an item, by its first word.
fn begin_item(draft: Draft, item: Option<ItemWord>) -> Result<Step, Refusal>
    ensures { result ≡ item_step_by item draft }
{
    match item {
        None => Err(Refusal::UnknownWord),
        Some(item) if has_item(item, draft.selector) => Err(Refusal::Repeated),
        Some(item) => goes_on(Place::ItemValue(item), draft),
    }
}

/// Takes the colon, `not`, or the first word of another item.
fn item_step(draft: Draft, word: &[u8]) -> Result<Step, Refusal>
    ensures { result ≡ item_step draft word.now }
{
    if is(word, b":") {
        goes_on(Place::FirstOutcome, draft)
    } else if is(word, b"not") {
        goes_on(Place::NotItem, draft)
    } else {
        begin_item(draft, item_word(word))
    }
}

/// Takes the word after `not`.
fn not_item_step(draft: Draft, word: &[u8]) -> Result<Step, Refusal>
    ensures { result ≡ step_at NotItem draft word.now }
{
    match item_word(word) {
        Some(ItemWord::Mark) => begin_item(draft, Some(ItemWord::NotMark)),
        _ => Err(Refusal::UnknownWord),
    }
}

/// Takes the value of an item.
fn item_value_step(draft: Draft, item: ItemWord, word: &[u8]) -> Result<Step, Refusal>
    ensures { result ≡ step_at (ItemValue item) draft word.now }
{
    let selector = with_item(item, draft.selector, word)?;
    let next = Draft {
        place: Place::Item,
        selector,
        is_negated: draft.is_negated,
    };
    Ok((next, None))
}

/// Goes on after a whole outcome.
fn after_outcome(draft: Draft, outcome: Expected) -> Step
    ensures { result ≡ (record draft { place = Joint }, Some outcome) }
{
    let next = Draft {
        place: Place::Joint,
        ..draft
    };
    (next, Some(outcome))
}

/// Takes `none`, or the first word of an outcome.
fn outcome_step(draft: Draft, word: &[u8]) -> Result<Step, Refusal>
    ensures { result ≡ outcome_step draft word.now }
{
    if is(word, b"none") {
        return Ok(after_outcome(draft, Expected::NoRoute));
    }
    match outcome_word(word) {
        None => Err(Refusal::UnknownWord),
        Some(outcome) => goes_on(Place::OutcomeValue(outcome), draft),
    }
}

/// Takes `not`, or the first word of an outcome.
fn first_outcome_step(draft: Draft, word: &[u8]) -> Result<Step, Refusal>
    ensures { result ≡ step_at FirstOutcome draft word.now }
{
    if !is(word, b"not") {
        return outcome_step(draft, word);
    }
    let next = Draft {
        place: Place::Outcome,
        selector: draft.selector,
        is_negated: true,
    };
    Ok((next, None))
}

/// Takes the value of an outcome.
fn outcome_value_step(draft: Draft, outcome: OutcomeWord, word: &[u8]) -> Result<Step, Refusal>
    ensures { result ≡ step_at (OutcomeValue outcome) draft word.now }
{
    let expected = outcome_of(outcome, word)?;
    Ok(after_outcome(draft, expected))
}

/// Takes `or`.
fn joint_step(draft: Draft, word: &[u8]) -> Result<Step, Refusal>
    ensures { result ≡ step_at Joint draft word.now }
{
    if is(word, b"or") {
        goes_on(Place::Outcome, draft)
    } else {
        Err(Refusal::UnknownWord)
    }
}

/// Takes a word.
fn step(draft: Draft, word: &[u8]) -> Result<Step, Refusal>
    ensures { result ≡ step draft word.now }
{
    match draft.place {
        Place::Item => item_step(draft, word),
        Place::NotItem => not_item_step(draft, word),
        Place::ItemValue(item) => item_value_step(draft, item, word),
        Place::FirstOutcome => first_outcome_step(draft, word),
        Place::Outcome => outcome_step(draft, word),
        Place::OutcomeValue(outcome) => outcome_value_step(draft, outcome, word),
        Place::Joint => joint_step(draft, word),
    }
}

/// Checks whether a colon ends the word, after other bytes.
fn ends_in_colon(word: &[u8]) -> bool
    ensures { result ≡ ends_in_colon word.now }
{
    word.len() > 1 && word[word.len() - 1] == b':'
}

/// Takes the colon that ends a word, after the rest of that word.
fn colon_step(before: Result<Step, Refusal>) -> Result<Step, Refusal>
    ensures { result ≡ colon_step before }
{
    let (draft, outcome) = before?;
    let (next, _) = step(draft, b":")?;
    Ok((next, outcome))
}

/// Takes a word of the line: a colon that ends it counts as a word of its own.
pub(crate) fn word_step(draft: Draft, word: &[u8]) -> Result<Step, Refusal>
    ensures { result ≡ word_step draft word.now }
{
    if ends_in_colon(word) {
        colon_step(step(draft, &word[..word.len() - 1]))
    } else {
        step(draft, word)
    }
}
