ghost use Rattle.std.specs.Prelude.{◌≡◌, ◌<◌, ◌≤◌, drop, false};
ghost use Rattle.std.specs.Fmt.{digit_glyph, digits};

/// How many hexadecimal digits a number has at most.
pub(crate) const MOST_DIGITS: usize = 8;

/// Writes a number in lower-case hexadecimal digits, without leading zeros, so that they end where `buffer` ends.
///
/// Returns where they begin.
pub(crate) fn write_hexadecimal(number: u32, buffer: &mut [u8; MOST_DIGITS]) -> usize
    ensures value { drop result buffer.new ≡ digits 16 false number }
    ensures within { result ≤ 8 }
{
    let mut start = MOST_DIGITS;
    let mut rest = number;
    loop {
        start -= 1;
        buffer[start] = hex_digit((rest % 16) as u8);
        rest /= 16;
        if rest == 0 {
            return start;
        }
    }
}

/// Returns the digit of a number below 16.
fn hex_digit(number: u8) -> u8
    requires { number < 16 }
    ensures { result ≡ digit_glyph false number }
{
    if number < 10 {
        b'0' + number
    } else {
        b'a' + (number - 10)
    }
}
