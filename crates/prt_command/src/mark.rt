ghost use Rattle.std.specs.Prelude.{◌≡◌, position};
ghost use Rattle.prt_command.specs.Mark.{is_slash, mark};

use prt_addr::read_number;
use prt_route::Refusal;
use prt_rule::Mark;

/// Finds the first `/`.
fn slash_place(word: &[u8]) -> Option<usize>
    ensures { result ≡ position is_slash word.now }
{
    word.iter().position(|byte| *byte == b'/')
}

/// Reads a mark: a number, or a number, `/` and a mask. A missing mask has all bits.
///
/// Bits of the mark outside the mask stay as they are written.
///
/// # Errors
///
/// `BadNumber` if the word is not a mark.
pub(crate) fn read_mark(word: &[u8]) -> Result<Mark, Refusal>
    ensures { result ≡ mark word.now }
{
    let (mark, mask) = match slash_place(word) {
        Some(place) => (
            read_number(&word[..place])?,
            read_number(&word[place + 1..])?,
        ),
        None => (read_number(word)?, u32::MAX),
    };
    Ok(Mark { mark, mask })
}
