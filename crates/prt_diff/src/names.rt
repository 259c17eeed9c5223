//! Names of interfaces that `ip -batch` can read.
ghost use Rattle.std.specs.Prelude.{◌≡◌};
ghost use Rattle.std.specs.List.{list_all};
ghost use Rattle.prt_diff.specs.Names.{is_option, is_plain_byte, is_plain_name, is_quoting};

use prt_route::Dev;

/// Checks whether the byte quotes what follows, or hides the rest of the line.
fn is_quoting(byte: u8) -> bool
    ensures { result ≡ is_quoting byte }
{
    matches!(byte, b'"' | b'\'' | b'\\' | b'#')
}

/// Checks whether the byte means itself in a word of a line.
fn is_plain_byte(byte: u8) -> bool
    ensures { result ≡ is_plain_byte byte }
{
    byte >= b'!' && byte <= b'~' && !is_quoting(byte)
}

/// Checks whether the word begins an option.
fn is_option(word: &[u8]) -> bool
    ensures { result ≡ is_option word.now }
{
    match word {
        [first, ..] => *first == b'-',
        [] => false,
    }
}

/// Checks whether each byte of the word means itself.
fn has_plain_bytes(word: &[u8]) -> bool
    ensures { result ≡ list_all is_plain_byte word.now }
{
    word.iter().all(|byte| is_plain_byte(*byte))
}

/// Checks whether `ip -batch` can read the name, if there is one.
pub(crate) fn is_plain_name(name: Option<Dev>) -> bool
    ensures { result ≡ is_plain_name name }
{
    match name {
        Some(name) => !is_option(name.as_bytes()) && has_plain_bytes(name.as_bytes()),
        None => true,
    }
}
