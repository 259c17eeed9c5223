ghost use Rattle.std.specs.Prelude.{◌≡◌, ◌≤◌};
ghost use Rattle.prt_addr.specs.Decimal.{decimal_within};

/// Reads a number of at most `digits` decimal digits, if it is at most `limit`.
///
/// A number of two digits or more does not begin with 0.
pub(crate) fn read_decimal(word: &[u8], digits: usize, limit: u8) -> Option<u8>
    ensures { result ≡ decimal_within digits limit word.now }
{
    let number = read_number(word, digits, u32::from(limit))?;
    Some(number as u8)
}

/// Reads a number as `read_decimal` does, if it is at most a `limit` of up to 2^32 - 1.
pub(crate) fn read_number(word: &[u8], digits: usize, limit: u32) -> Option<u32>
    ensures { result ≡ decimal_within digits limit word.now }
{
    let begins_with_zero = word.len() > 1 && word[0] == b'0';
    if word.is_empty() || word.len() > digits || begins_with_zero {
        return None;
    }
    let mut number = 0u64;
    for byte in word {
        if !byte.is_ascii_digit() {
            return None;
        }
        number = number * 10 + u64::from(*byte - b'0');
        if number > u64::from(limit) {
            return None;
        }
    }
    Some(number as u32)
}
