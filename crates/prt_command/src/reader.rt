//! The items of a line, one after another, and what they ask for.
ghost use Rattle.std.specs.Prelude.{◌≡◌, ◌<◌, ◌≤◌, List, ◌∷◌, false, length, IfOk, IfErr, MatchResult, Some, Ok, Err};
ghost use Rattle.prt_addr.specs.Word.{Word};
ghost use Rattle.prt_command.specs.LineKinds.{LineKind};
ghost use Rattle.prt_command.specs.Reading.{items_request, meaning_of, words};
ghost use Rattle.prt_command.specs.Scan.{Scanned, items_of, one_more, plain_from, plain_item, value_item, what_follows, word_item};
ghost use Rattle.prt_command.specs.Steps.{and_items};

use crate::value::value;
use crate::verb::ObjectVerb;
use crate::words::{is, next_word};
use crate::{ItemWord, Items, PrefixWord, Request, Slot};
use prt_route::Refusal;

/// Takes the value after a word that something must follow: the value, and the text after it.
fn value_after(given: bool, rest: &[u8]) -> Result<(&[u8], &[u8]), Refusal>
    ensures value { IfOk result (λ x. (reads : Word → List Word → Scanned) →
        what_follows given reads (words rest.now) ≡ one_more (reads x.0.now (words x.1.now))) }
    ensures words { IfOk result (λ x. words rest.now ≡ x.0.now ∷ words x.1.now) }
    ensures shorter { IfOk result (λ x. length x.1.now < length rest.now) }
    ensures new { IfOk result (λ x. given ≡ false) }
    ensures fault { IfErr result (λ e. (reads : Word → List Word → Scanned) → what_follows given reads (words rest.now) ≡ Err e) }
{
    match next_word(rest) {
        None => Err(Refusal::MissingValue),
        Some(_) if given => Err(Refusal::Repeated),
        Some((value, after)) => Ok((value, after)),
    }
}

/// Reads the value after the word of an item, or after a word before its prefix, and adds the item: the text after it.
fn read_value<'a>(
    items: &mut Items,
    slot: Slot,
    before: Option<PrefixWord>,
    rest: &'a [u8],
) -> Result<&'a [u8], Refusal>
    ensures items { IfOk result (λ after. (line : LineKind) →
        and_items line items.old (value_item slot before items.old (words rest.now)) (words rest.now) ≡ items_of line items.new (words after.now)) }
    ensures shorter { IfOk result (λ after. length after.now ≤ length rest.now) }
    ensures fault { IfErr result (λ e. value_item slot before items.old (words rest.now) ≡ Err e) }
{
    let (word, after) = value_after(items.has(slot), rest)?;
    match value(slot, before, word) {
        Ok(item) => {
            items.put(item);
            Ok(after)
        }
        Err(refusal) => Err(refusal),
    }
}

/// Reads a value before whose prefix a word may come, from this word on, and adds the item: the text after it.
fn read_qualified<'a>(
    items: &mut Items,
    slot: Slot,
    word: &[u8],
    rest: &'a [u8],
) -> Result<&'a [u8], Refusal>
    ensures items { IfOk result (λ after. (line : LineKind) →
        and_items line items.old (plain_from slot items.old word.now (words rest.now)) (words rest.now) ≡ items_of line items.new (words after.now)) }
    ensures shorter { IfOk result (λ after. length after.now ≤ length rest.now) }
    ensures fault { IfErr result (λ e. plain_from slot items.old word.now (words rest.now) ≡ Err e) }
{
    match slot.prefix_word(word) {
        Some(before) => read_value(items, slot, Some(before), rest),
        None if items.has(slot) => Err(Refusal::UnknownWord),
        None => match value(slot, None, word) {
            Ok(item) => {
                items.put(item);
                Ok(rest)
            }
            Err(refusal) => Err(refusal),
        },
    }
}

/// Reads the item that needs no word of its own, from this word on, and adds it: the text after it.
fn read_plain<'a>(
    items: &mut Items,
    slot: Slot,
    word: &[u8],
    rest: &'a [u8],
) -> Result<&'a [u8], Refusal>
    ensures items { IfOk result (λ after. (line : LineKind) →
        and_items line items.old (plain_item (Some slot) items.old word.now (words rest.now)) (words rest.now)
        ≡ items_of line items.new (words after.now)) }
    ensures shorter { IfOk result (λ after. length after.now ≤ length rest.now) }
    ensures fault { IfErr result (λ e. plain_item (Some slot) items.old word.now (words rest.now) ≡ Err e) }
{
    if is(word, b"to") {
        let (word, after) = value_after(items.has(slot), rest)?;
        return read_qualified(items, slot, word, after);
    }
    read_qualified(items, slot, word, rest)
}

/// Reads the item that a word begins, and adds it: the text after it.
fn read_word_item<'a>(
    items: &mut Items,
    item: ItemWord,
    rest: &'a [u8],
) -> Result<&'a [u8], Refusal>
    ensures items { IfOk result (λ after. (line : LineKind) →
        and_items line items.old (word_item item items.old (words rest.now)) (words rest.now) ≡ items_of line items.new (words after.now)) }
    ensures shorter { IfOk result (λ after. length after.now ≤ length rest.now) }
    ensures fault { IfErr result (λ e. word_item item items.old (words rest.now) ≡ Err e) }
{
    match item {
        ItemWord::Keyword(slot) => read_value(items, slot, None, rest),
        ItemWord::Alone(item) if items.has(item.slot()) => Err(Refusal::Repeated),
        ItemWord::Alone(item) => {
            items.put(item);
            Ok(rest)
        }
    }
}

/// Reads the item that begins at this word, and adds it: the text after it.
fn read_item<'a>(
    verb: ObjectVerb,
    items: &mut Items,
    word: &[u8],
    rest: &'a [u8],
) -> Result<&'a [u8], Refusal>
    ensures items { IfOk result (λ after.
        items_of (meaning_of verb).line items.old (word.now ∷ words rest.now) ≡ items_of (meaning_of verb).line items.new (words after.now)) }
    ensures shorter { IfOk result (λ after. length after.now ≤ length rest.now) }
    ensures fault { IfErr result (λ e. items_of (meaning_of verb).line items.old (word.now ∷ words rest.now) ≡ Err e) }
{
    match verb.item_word(word) {
        Some(item) => read_word_item(items, item, rest),
        None => match verb.plain_slot() {
            Some(slot) => read_plain(items, slot, word, rest),
            None => Err(Refusal::UnknownWord),
        },
    }
}

/// Reads the items of a text, and adds them to those that were given.
///
/// # Errors
///
/// The first fault of the text, which leaves the items read so far.
fn read_items(verb: ObjectVerb, items: &mut Items, text: &[u8]) -> Result<(), Refusal>
    ensures { MatchResult result
        (λ _. items_of (meaning_of verb).line items.old (words text.now) ≡ Ok items.new)
        (λ e. items_of (meaning_of verb).line items.old (words text.now) ≡ Err e) }
{
    let mut rest = text;
    'items: while let Some((word, after)) = next_word(rest) {
        rest = read_item(verb, items, word, after)?;
    }
    Ok(())
}

/// Reads the items after a verb, and asks for what they say.
pub(crate) fn read_request(verb: ObjectVerb, text: &[u8]) -> Result<Request, Refusal>
    ensures { result ≡ items_request (meaning_of verb) (words text.now) }
{
    let mut items = Items::new();
    read_items(verb, &mut items, text)?;
    verb.request(&items)
}
