//! The words that begin the lines of events.
ghost use Rattle.std.specs.Prelude.{◌≡◌, map};
ghost use Rattle.prt_replay.specs.EventWords.{event_word, word_in};

use prt_command::is;

/// The first word of an event's line.
#[derive(Clone, Copy)]
pub enum EventWord {
    Submit,
    SubmitAll,
    Call,
    Fail,
    Publish,
    PublishFail,
    Note,
    Ack,
    Online,
    Fetch,
    Announce,
    Offline,
    Look,
    Reclaim,
    Stop,
    Reopen,
}

const EVENT_WORDS: [(&str, EventWord); 16] = [
    ("submit", EventWord::Submit),
    ("submitall", EventWord::SubmitAll),
    ("call", EventWord::Call),
    ("fail", EventWord::Fail),
    ("publish", EventWord::Publish),
    ("publishfail", EventWord::PublishFail),
    ("note", EventWord::Note),
    ("ack", EventWord::Ack),
    ("online", EventWord::Online),
    ("fetch", EventWord::Fetch),
    ("announce", EventWord::Announce),
    ("offline", EventWord::Offline),
    ("look", EventWord::Look),
    ("reclaim", EventWord::Reclaim),
    ("stop", EventWord::Stop),
    ("reopen", EventWord::Reopen),
];

/// Looks up a word.
fn word_in(words: &[(&str, EventWord)], word: &[u8]) -> Option<EventWord>
    ensures { result ≡ word_in (map (λ row. (row.0.now, row.1)) words.now) word.now }
{
    for (text, first) in words {
        if is(word, text.as_bytes()) {
            return Some(*first);
        }
    }
    None
}

/// Reads an event word.
pub(crate) fn event_word(word: &[u8]) -> Option<EventWord>
    ensures { result ≡ event_word word.now }
{
    word_in(&EVENT_WORDS, word)
}
