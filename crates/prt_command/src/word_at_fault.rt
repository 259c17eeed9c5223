//! The word that the first fault of a line is about.
ghost use Rattle.std.specs.Prelude.{◌≡◌, ◌≤◌, ◌<◌, ◌↔◌, Bool, false, List, [], ◌∷◌, IfSome, MatchOption, None, Some, drop, length};
ghost use Rattle.prt_addr.specs.Word.{Word};
ghost use Rattle.prt_command.specs.FaultWord.{IsAbout, IsIn, bytes_at, fault_word, items_fault, line_fault, object_fault, role_of, plain_role, step};
ghost use Rattle.prt_command.specs.FaultWord.{verb_fault, words_fault, words_from};
ghost use Rattle.prt_command.specs.Items.{no_items};
ghost use Rattle.prt_command.specs.Reading.{before_comment, meaning_of, skip_word, words};
ghost use Rattle.prt_command.specs.declared.word_at_fault.Place.TheVariants.{Start};

use crate::line::LONGEST_LINE;
use crate::value::value;
use crate::verb::{Object, ObjectVerb};
use crate::words::{is, text_of, white_len, word_len};
use crate::{Item, ItemWord, Items, PrefixWord, Slot};

/// The place of a word in a line: its bytes from `start` up to `end`, without the one at `end`.
#[derive(Clone, Copy)]
pub struct WordPlace {
    pub start: usize,
    pub end: usize,
}

/// Where a word is in an item.
#[derive(Clone, Copy)]
pub enum Place {
    /// At the start of one.
    Start,
    /// After `to`.
    AfterTo(Slot),
    /// Where a value has to come, after the word before its prefix if there is one.
    AtValue(Slot, Option<PrefixWord>),
}

/// What a word is in an item.
#[derive(Clone, Copy)]
pub enum WordRole {
    /// A word of this item that something must follow, which comes at this place.
    Opens(Slot, Place),
    /// The value of this item, after the word before its prefix if there is one.
    Ends(Slot, Option<PrefixWord>),
    /// A word that says an item alone.
    Says(Item),
    /// None of the line's words.
    Unknown,
}

/// Determines what a word is that needs no word of its item's own before it.
fn plain_role(slot: Slot, word: &[u8]) -> WordRole
    ensures { result ≡ plain_role slot word.now }
{
    match slot.prefix_word(word) {
        Some(before) => WordRole::Opens(slot, Place::AtValue(slot, Some(before))),
        None => WordRole::Ends(slot, None),
    }
}

/// Determines what a word is at the start of an item.
fn first_role(verb: ObjectVerb, word: &[u8]) -> WordRole
    ensures { result ≡ role_of (meaning_of verb).line Start word.now }
{
    match verb.item_word(word) {
        Some(ItemWord::Keyword(slot)) => WordRole::Opens(slot, Place::AtValue(slot, None)),
        Some(ItemWord::Alone(item)) => WordRole::Says(item),
        None => match verb.plain_slot() {
            Some(slot) if is(word, b"to") => WordRole::Opens(slot, Place::AfterTo(slot)),
            Some(slot) => plain_role(slot, word),
            None => WordRole::Unknown,
        },
    }
}

/// Determines what a word is at its place.
fn role_of(verb: ObjectVerb, place: Place, word: &[u8]) -> WordRole
    ensures { result ≡ role_of (meaning_of verb).line place word.now }
{
    match place {
        Place::Start => first_role(verb, word),
        Place::AfterTo(slot) => plain_role(slot, word),
        Place::AtValue(slot, before) => WordRole::Ends(slot, before),
    }
}

/// Takes a word, and adds the item that it ends. Returns the place of the next word, or None if the first fault is about this
/// one.
fn step(items: &mut Items, word: &[u8], is_last: bool, role: WordRole) -> Option<Place>
    ensures { MatchOption result (step items.old word.now is_last role ≡ None)
        (λ next. step items.old word.now is_last role ≡ Some (next, items.new)) }
{
    match role {
        WordRole::Opens(slot, _) if is_last || items.has(slot) => None,
        WordRole::Opens(_, next) => Some(next),
        WordRole::Ends(slot, _) if items.has(slot) => None,
        WordRole::Ends(slot, before) => {
            let item = value(slot, before, word).ok()?;
            items.put(item);
            Some(Place::Start)
        }
        WordRole::Says(item) if items.has(item.slot()) => None,
        WordRole::Says(item) => {
            items.put(item);
            Some(Place::Start)
        }
        WordRole::Unknown => None,
    }
}

/// Finds the first word of a text from a byte on.
fn word_from(text: &[u8], from: usize) -> Option<WordPlace>
    requires { from ≤ length text.now }
    ensures words { words (drop from text.now) ≡ words_from text.now result }
    ensures place { IfSome result (IsIn text.now) }
{
    let rest = &text[from..];
    let start = from + white_len(rest);
    let tail = &text[start..];
    if tail.is_empty() {
        return None;
    }
    Some(WordPlace {
        start,
        end: start + word_len(tail),
    })
}

/// Takes the bytes at a place.
fn bytes_at(text: &[u8], at: WordPlace) -> &[u8]
    requires { IsIn text.now at }
    ensures { result.now ≡ bytes_at text.now at }
{
    &text[at.start..at.end]
}

/// Finds the word of items, from a byte on, that their first fault is about.
fn fault_in_items(verb: ObjectVerb, text: &[u8], from: usize) -> Option<WordPlace>
    requires { from ≤ length text.now }
    ensures words { words_from text.now result ≡ items_fault (meaning_of verb).line Start no_items (words (drop from text.now)) }
    ensures place { IfSome result (IsIn text.now) }
{
    let mut items = Items::new();
    let mut place = Place::Start;
    let mut found = word_from(text, from);
    'words: while let Some(at) = found {
        let word = bytes_at(text, at);
        let next = word_from(text, at.end);
        match step(&mut items, word, next.is_none(), role_of(verb, place, word)) {
            Some(further) => place = further,
            None => return Some(at),
        }
        found = next;
    }
    None
}

/// Finds the word after an object that the first fault is about, from a byte on.
fn fault_after_object(object: Object, text: &[u8], from: usize) -> Option<WordPlace>
    requires { from ≤ length text.now }
    ensures words { words_from text.now result ≡ verb_fault object (words (drop from text.now)) }
    ensures place { IfSome result (IsIn text.now) }
{
    let at = word_from(text, from)?;
    match object.verb_of(bytes_at(text, at)) {
        Some(verb) => fault_in_items(verb, text, at.end),
        None => Some(at),
    }
}

/// Skips one optional word: the place of the next.
fn skip_word(text: &[u8], skipped: &[u8], at: WordPlace) -> Option<WordPlace>
    requires { IsIn text.now at }
    ensures words { words_from text.now result ≡ skip_word skipped.now (words_from text.now (Some at)) }
    ensures place { IfSome result (IsIn text.now) }
{
    if is(bytes_at(text, at), skipped) {
        word_from(text, at.end)
    } else {
        Some(at)
    }
}

/// Finds the word of a text that its first fault is about.
fn fault_in_text(text: &[u8]) -> Option<WordPlace>
    ensures words { words_from text.now result ≡ words_fault (words text.now) }
    ensures place { IfSome result (IsIn text.now) }
{
    let at = word_from(text, 0)?;
    let at = skip_word(text, b"ip", at)?;
    let at = skip_word(text, b"-4", at)?;
    match Object::object_of(bytes_at(text, at)) {
        Some(object) => fault_after_object(object, text, at.end),
        None => Some(at),
    }
}

/// Finds the word of a line that its first fault is about, by its text before the comment.
fn fault_in_line(line: &[u8]) -> Option<WordPlace>
    ensures words { words_from (before_comment line.now) result ≡ line_fault line.now }
    ensures place { IfSome result (IsIn (before_comment line.now)) }
{
    if line.len() > LONGEST_LINE {
        return None;
    }
    fault_in_text(text_of(line)?)
}

/// Finds the word that the first fault of a line is about.
///
/// None if the line has no fault, or one that is about no word. A fault is about no word if the line is too long, or has a
/// byte that is no text. The same holds if it has no words except `ip` and `-4`, or its items lack something together.
pub fn fault_word(line: &[u8]) -> Option<WordPlace>
    ensures words { words_from (before_comment line.now) result ≡ line_fault line.now }
    ensures place { IfSome result (IsIn line.now) }
    ensures word { MatchOption result (fault_word line.now ≡ None) (λ at. fault_word line.now ≡ Some (bytes_at line.now at)) }
{
    fault_in_line(line)
}

/// A law of the definitions, which no program calls: the word that [`fault_word`] finds is the one that the first fault
/// of the grammar is about.
pub fn fault_words()
    ensures { (ws left : List Word) (w : Word) → (words_fault ws ≡ w ∷ left) ↔ IsAbout ws (w ∷ left) }
{}
