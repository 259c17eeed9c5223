//! The parts of a text that are documents.
ghost use Rattle.std.specs.Prelude.{◌≡◌, ◌<◌, ◌≤◌, ◌+◌, ◌^◌, [], ◌∷◌, length, MatchOption};
ghost use Rattle.prt_import.specs.IpJson.Documents.{closes, depth_after, ends, mode_after, opens, parts};

/// The place that a text has reached.
#[derive(Clone, Copy)]
pub(crate) enum Mode {
    /// Outside of strings.
    Between,
    InString,
    /// In a string, after a backslash.
    AfterBackslash,
}

/// Checks whether a byte opens an array or an object.
pub(crate) fn opens(byte: u8) -> bool
    ensures { result ≡ opens byte }
{
    byte == b'[' || byte == b'{'
}

/// Checks whether a byte closes an array or an object.
fn closes(byte: u8) -> bool
    ensures { result ≡ closes byte }
{
    byte == b']' || byte == b'}'
}

/// Checks whether a byte closes the first of the brackets that are open.
fn ends(depth: u64, mode: Mode, byte: u8) -> bool
    ensures { result ≡ ends depth mode byte }
{
    match mode {
        Mode::Between => depth <= 1 && closes(byte),
        Mode::InString | Mode::AfterBackslash => false,
    }
}

/// Counts the brackets that are open after a byte.
fn depth_after(depth: u64, mode: Mode, byte: u8) -> u64
    requires { depth + 1 < 2 ^ 64 }
    ensures value { result ≡ depth_after depth mode byte }
    ensures within { result ≤ depth + 1 }
{
    match mode {
        Mode::Between if opens(byte) => depth + 1,
        Mode::Between if closes(byte) => depth.saturating_sub(1),
        _ => depth,
    }
}

/// Finds the place that a text has reached after a byte.
fn mode_after(mode: Mode, byte: u8) -> Mode
    ensures { result ≡ mode_after mode byte }
{
    match (mode, byte) {
        (Mode::Between, b'"') => Mode::InString,
        (Mode::Between, _) => Mode::Between,
        (Mode::InString, b'"') => Mode::Between,
        (Mode::InString, b'\\') => Mode::AfterBackslash,
        (Mode::InString, _) | (Mode::AfterBackslash, _) => Mode::InString,
    }
}

/// Takes the first part of a text, up to the bracket that closes its first one, or all of it: the part, and the text after it.
pub(crate) fn next_part(text: &[u8]) -> Option<(&[u8], &[u8])>
    ensures { MatchOption result (text.now ≡ [])
        (λ next. (parts text.now ≡ next.0.now ∷ parts next.1.now) × (length next.1.now < length text.now)) }
{
    if text.is_empty() {
        return None;
    }
    let mut depth: u64 = 0;
    let mut mode = Mode::Between;
    for at in 0..text.len() {
        let byte = text[at];
        if ends(depth, mode, byte) {
            return Some((&text[..at + 1], &text[at + 1..]));
        }
        depth = depth_after(depth, mode, byte);
        mode = mode_after(mode, byte);
    }
    Some((text, &text[text.len()..]))
}
