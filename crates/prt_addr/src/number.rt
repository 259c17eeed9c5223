ghost use Rattle.std.specs.Prelude.{◌≡◌, ◌<◌, IfSome};
ghost use Rattle.std.specs.Option.{ok_or};
ghost use Rattle.prt_addr.specs.Decimal.{at_most};
ghost use Rattle.prt_addr.specs.Number.{hex_digit_of, hex_value, number};
ghost use Rattle.prt_refusals.specs.declared.refusal.Refusal.TheVariants.{BadNumber};

use crate::decimal;
use prt_refusals::Refusal;

/// Reads a number of 0 to 2^32 - 1, in decimal digits, or in hexadecimal ones of either case after `0x` or `0X`.
///
/// A decimal number of two digits or more does not begin with 0. Hexadecimal digits may.
///
/// # Errors
///
/// `BadNumber` if the word is not such a number.
pub fn read_number(word: &[u8]) -> Result<u32, Refusal>
    ensures { result ≡ ok_or (number word.now) BadNumber }
{
    let number = match word {
        [b'0', b'x' | b'X', digits @ ..] => read_hex(digits),
        _ => decimal::read_number(word, word.len(), u32::MAX),
    };
    number.ok_or(Refusal::BadNumber)
}

/// Reads one or more hexadecimal digits, if their number is at most 2^32 - 1.
fn read_hex(digits: &[u8]) -> Option<u32>
    ensures { result ≡ at_most 4294967295 (hex_value digits.now) }
{
    if digits.is_empty() {
        return None;
    }
    let mut number = 0u64;
    for byte in digits {
        let digit = hex_digit(*byte)?;
        number = number * 16 + u64::from(digit);
        if number > u64::from(u32::MAX) {
            return None;
        }
    }
    Some(number as u32)
}

/// Computes the value of a hexadecimal digit of either case.
fn hex_digit(byte: u8) -> Option<u8>
    ensures value { result ≡ hex_digit_of byte }
    ensures below { IfSome result (λ digit. digit < 16) }
{
    match byte {
        b'0'..=b'9' => Some(byte - b'0'),
        b'a'..=b'f' => Some(byte - b'a' + 10),
        b'A'..=b'F' => Some(byte - b'A' + 10),
        _ => None,
    }
}
