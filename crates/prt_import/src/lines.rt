//! Lines of a text.
ghost use Rattle.std.specs.Prelude.{◌≡◌, ◌<◌, ◌==◌, [], ◌∷◌, length, MatchOption, position};
ghost use Rattle.prt_import.specs.Lines.{lines_of};

/// Finds the first newline.
fn first_newline(text: &[u8]) -> Option<usize>
    ensures { result ≡ position (λ b. b == 10) text.now }
{
    text.iter().position(|byte| *byte == b'\n')
}

/// Takes the first line of a text, which a newline or the end of the text ends: the line, and the text after it.
pub fn next_line(text: &[u8]) -> Option<(&[u8], &[u8])>
    ensures { MatchOption result (text.now ≡ [])
        (λ next. (lines_of text.now ≡ next.0.now ∷ lines_of next.1.now) × (length next.1.now < length text.now)) }
{
    if text.is_empty() {
        return None;
    }
    match first_newline(text) {
        Some(at) => Some((&text[..at], &text[at + 1..])),
        None => Some((text, &text[text.len()..])),
    }
}
