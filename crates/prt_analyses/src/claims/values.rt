//! The words of items and outcomes, and their values.
ghost use Rattle.std.specs.Prelude.{◌≡◌, position};
ghost use Rattle.prt_command.specs.Mark.{is_slash, mark};
ghost use Rattle.prt_command.specs.Values.{kind_of};
ghost use Rattle.prt_analyses.specs.Claims.Reading.{has_item, item_word, outcome_of, outcome_word, with_item};

use super::claim::Expected;
use super::selector::PacketSelector;
use prt_addr::{read_addr, read_number, read_prefix};
use prt_command::is;
use prt_refusals::Refusal;
use prt_route::{Kind, read_dev, read_table};
use prt_rule::Mark;

/// An item of a selector.
#[derive(Clone, Copy)]
pub(crate) enum ItemWord {
    To,
    From,
    Iif,
    Mark,
    /// `not`, and a mark.
    NotMark,
}

/// An outcome that has a value.
#[derive(Clone, Copy)]
pub(crate) enum OutcomeWord {
    Dev,
    Via,
    Table,
    Kind,
}

/// Reads the first word of an item.
pub(crate) fn item_word(word: &[u8]) -> Option<ItemWord>
    ensures { result ≡ item_word word.now }
{
    if is(word, b"to") {
        Some(ItemWord::To)
    } else if is(word, b"from") {
        Some(ItemWord::From)
    } else if is(word, b"iif") {
        Some(ItemWord::Iif)
    } else if is(word, b"mark") || is(word, b"fwmark") {
        Some(ItemWord::Mark)
    } else {
        None
    }
}

/// Checks whether the item was given.
pub(crate) fn has_item(item: ItemWord, selector: PacketSelector) -> bool
    ensures { result ≡ has_item item selector }
{
    match item {
        ItemWord::To => selector.to.is_some(),
        ItemWord::From => selector.from.is_some(),
        ItemWord::Iif => selector.iif.is_some(),
        ItemWord::Mark => selector.mark.is_some(),
        ItemWord::NotMark => selector.not_mark.is_some(),
    }
}

/// Finds the first `/`.
fn slash_place(word: &[u8]) -> Option<usize>
    ensures { result ≡ position is_slash word.now }
{
    word.iter().position(|byte| *byte == b'/')
}

/// Reads a mark, as the command language does: a number, or a number, `/` and a mask. A missing mask has all bits.
fn read_mark(word: &[u8]) -> Result<Mark, Refusal>
    ensures { result ≡ mark word.now }
{
    let (mark, mask) = match slash_place(word) {
        Some(place) => (
            read_number(&word[..place])?,
            read_number(&word[place + 1..])?,
        ),
        None => (read_number(word)?, u32::MAX),
    };
    Ok(Mark { mark, mask })
}

/// Adds the item with this word as its value to the selector.
pub(crate) fn with_item(
    item: ItemWord,
    selector: PacketSelector,
    word: &[u8],
) -> Result<PacketSelector, Refusal>
    ensures { result ≡ with_item item selector word.now }
{
    match item {
        ItemWord::To => Ok(PacketSelector {
            to: Some(read_prefix(word)?),
            ..selector
        }),
        ItemWord::From => Ok(PacketSelector {
            from: Some(read_prefix(word)?),
            ..selector
        }),
        ItemWord::Iif => Ok(PacketSelector {
            iif: Some(read_dev(word)?),
            ..selector
        }),
        ItemWord::Mark => Ok(PacketSelector {
            mark: Some(read_mark(word)?),
            ..selector
        }),
        ItemWord::NotMark => Ok(PacketSelector {
            not_mark: Some(read_mark(word)?),
            ..selector
        }),
    }
}

/// Reads the first word of an outcome that has a value.
pub(crate) fn outcome_word(word: &[u8]) -> Option<OutcomeWord>
    ensures { result ≡ outcome_word word.now }
{
    if is(word, b"dev") {
        Some(OutcomeWord::Dev)
    } else if is(word, b"via") {
        Some(OutcomeWord::Via)
    } else if is(word, b"table") {
        Some(OutcomeWord::Table)
    } else if is(word, b"kind") {
        Some(OutcomeWord::Kind)
    } else {
        None
    }
}

/// Reads a kind of routes by its name (`ip-route(8)`).
fn kind_of(word: &[u8]) -> Option<Kind>
    ensures { result ≡ kind_of word.now }
{
    if is(word, b"unicast") {
        Some(Kind::Unicast)
    } else if is(word, b"blackhole") {
        Some(Kind::Blackhole)
    } else if is(word, b"unreachable") {
        Some(Kind::Unreachable)
    } else if is(word, b"prohibit") {
        Some(Kind::Prohibit)
    } else if is(word, b"throw") {
        Some(Kind::Throw)
    } else {
        None
    }
}

/// Reads the value of an outcome.
pub(crate) fn outcome_of(outcome: OutcomeWord, word: &[u8]) -> Result<Expected, Refusal>
    ensures { result ≡ outcome_of outcome word.now }
{
    match outcome {
        OutcomeWord::Dev => Ok(Expected::Dev(read_dev(word)?)),
        OutcomeWord::Via => Ok(Expected::Via(read_addr(word)?)),
        OutcomeWord::Table => Ok(Expected::Table(read_table(word)?)),
        OutcomeWord::Kind => Ok(Expected::Kind(kind_of(word).ok_or(Refusal::UnknownWord)?)),
    }
}
