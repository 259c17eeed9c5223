ghost use Rattle.std.specs.Prelude.{◌≡◌, ◌<◌, [], ◌∷◌, length, false, true, not, ◌&&◌, ◌==◌, MatchOption, bytes_eq, position, unwrap_or};
ghost use Rattle.std.specs.List.{list_all};
ghost use Rattle.prt_addr.specs.Word.{is_white};
ghost use Rattle.prt_command.specs.Reading.{before_comment, is_text_byte, words};

/// Checks whether the byte is white space: space, tab or carriage return.
fn is_white(byte: u8) -> bool
    ensures { result ≡ is_white byte }
{
    byte == b' ' || byte == b'\t' || byte == b'\r'
}

/// Checks whether the byte may come before a comment: white space or a printable ASCII character.
fn is_text(byte: u8) -> bool
    ensures { result ≡ is_text_byte byte }
{
    byte == b'\t' || byte == b'\r' || (b' '..=b'~').contains(&byte)
}

/// Checks whether a text has only white space and printable ASCII characters.
fn is_ascii_text(text: &[u8]) -> bool
    ensures { result ≡ list_all is_text_byte text.now }
{
    text.iter().all(|byte| is_text(*byte))
}

/// Checks whether a line is such a text and has no comment.
///
/// The loop has no early end, so that it can look at many bytes at once.
fn is_plain(line: &[u8]) -> bool
    ensures { result ≡ list_all (λ b. is_text_byte b && not (b == 35)) line.now }
{
    let mut is_plain = true;
    for byte in line {
        is_plain &= is_text(*byte) && *byte != b'#';
    }
    is_plain
}

/// Finds the first `#`.
fn first_hash(line: &[u8]) -> Option<usize>
    ensures { result ≡ position (λ b. b == 35) line.now }
{
    line.iter().position(|byte| *byte == b'#')
}

/// Cuts a line at its first `#`.
fn before_comment(line: &[u8]) -> &[u8]
    ensures { result.now ≡ before_comment line.now }
{
    match first_hash(line) {
        Some(at) => &line[..at],
        None => line,
    }
}

/// Takes the text of a line before its comment; None if that has a byte which is neither white space nor printable
/// ASCII.
pub fn text_of(line: &[u8]) -> Option<&[u8]>
    ensures { MatchOption result (list_all is_text_byte (before_comment line.now) ≡ false)
        (λ text. (text.now ≡ before_comment line.now) × (list_all is_text_byte (before_comment line.now) ≡ true)) }
{
    if is_plain(line) {
        return Some(line);
    }
    let text = before_comment(line);
    if is_ascii_text(text) {
        Some(text)
    } else {
        None
    }
}

/// Checks whether the word is this text.
pub fn is(word: &[u8], text: &[u8]) -> bool
    ensures { result ≡ bytes_eq text.now word.now }
{
    text == word
}

/// Finds the first byte that is not white space.
fn first_byte(text: &[u8]) -> Option<usize>
    ensures { result ≡ position (λ b. not (is_white b)) text.now }
{
    text.iter().position(|byte| !is_white(*byte))
}

/// Finds the first white space.
fn first_white(text: &[u8]) -> Option<usize>
    ensures { result ≡ position is_white text.now }
{
    text.iter().position(|byte| is_white(*byte))
}

/// Counts the bytes of white space in front.
pub(crate) fn white_len(text: &[u8]) -> usize
    ensures { result ≡ unwrap_or (position (λ b. not (is_white b)) text.now) (length text.now) }
{
    first_byte(text).unwrap_or(text.len())
}

/// Counts the bytes before the first white space.
pub(crate) fn word_len(text: &[u8]) -> usize
    ensures { result ≡ unwrap_or (position is_white text.now) (length text.now) }
{
    first_white(text).unwrap_or(text.len())
}

/// Takes the first word of a text: the word, and the text after it.
#[tactic(auto, using(crate::proofs::Splitting::next_of_words, crate::proofs::Splitting::some_of))]
pub fn next_word(text: &[u8]) -> Option<(&[u8], &[u8])>
    ensures { MatchOption result (words text.now ≡ [])
        (λ next. (words text.now ≡ next.0.now ∷ words next.1.now) × (length next.1.now < length text.now)) }
{
    let rest = &text[white_len(text)..];
    if rest.is_empty() {
        return None;
    }
    let len = word_len(rest);
    Some((&rest[..len], &rest[len..]))
}
