ghost use Rattle.std.specs.Prelude.{◌≡◌, [], ◌∷◌, codes};
ghost use Rattle.std.specs.List.{list_any};
ghost use Rattle.std.specs.Option.{ok_or};
ghost use Rattle.prt_addr.specs.Word.{is_one_of};
ghost use Rattle.prt_route.specs.Dev.{device};
ghost use Rattle.prt_route.specs.Name.{is_barred, is_name};
ghost use Rattle.prt_refusals.specs.declared.refusal.Refusal.TheVariants.{BadName};

use crate::Refusal;
use std::marker::Model;

/// The most bytes that the name of an interface has.
const LONGEST: usize = 15;

/// The name of a network interface, kept in the value itself.
///
/// It has 1 to 15 bytes, among them no `/`, no `:` and no white space, and is neither `.` nor `..`.
#[derive(Clone, Copy, Debug, Eq)]
pub struct Dev {
    bytes: [u8; LONGEST],
    len: u8,
}

impl Model for Dev {
    ghost use Rattle.std.specs.Prelude.{ℕ, List, ◌-◌, ◌++◌, length, replicate, take};
    ghost use Rattle.prt_route.specs.Sound.{IsPadded};

    ghost Value = { List ℕ };

    ghost view = { λ d. take d.len d.bytes };

    ghost invariant = { λ d. IsPadded d.len d.bytes };

    ghost inverse = { λ name. record { bytes = name ++ replicate (15 - length name) 0; len = length name } };

    ghost inverse_ok = { λ d h i. record { bytes = h.zeros i; len = h.whole i } };
}

// Not derived: the specs compare the names, and a derived `eq` also says how the zeros after them compare.
impl PartialEq for Dev {
    ghost use Rattle.std.specs.Prelude.{bytes_eq};
    ghost use Rattle.std.proofs.Common.{rules};

    ghost eq = { bytes_eq };

    ghost laws = { Prim.search rules };

    fn eq(&self, other: &Dev) -> bool {
        self.as_bytes() == other.as_bytes()
    }
}

impl Dev {
    /// The loopback interface, `lo`.
    pub fn loopback() -> Dev
        ensures { result ≡ codes "lo" }
    {
        let mut bytes = [0u8; LONGEST];
        bytes[0] = b'l';
        bytes[1] = b'o';
        Dev { bytes, len: 2 }
    }

    /// Returns the bytes of the name, 1 to 15.
    pub fn as_bytes(&self) -> &[u8]
        ensures { result.now ≡ self.now }
    {
        &self.bytes[..usize::from(self.len)]
    }
}

/// Reads the name of an interface.
///
/// # Errors
///
/// `BadName` if the word is not such a name.
pub fn read_dev(word: &[u8]) -> Result<Dev, Refusal>
    ensures { result ≡ ok_or (device word.now) BadName }
{
    if !is_name(word) {
        return Err(Refusal::BadName);
    }
    let mut bytes = [0u8; LONGEST];
    bytes[..word.len()].copy_from_slice(word);
    Ok(Dev {
        bytes,
        len: word.len() as u8,
    })
}

/// Checks whether the byte is barred from names.
fn is_barred(byte: u8) -> bool
    ensures { result ≡ is_barred byte }
{
    matches!(byte, b'/' | b':' | b' ' | b'\t' | b'\r')
}

/// Checks whether the word is the name of a folder in itself or of the one above it.
fn is_dots(word: &[u8]) -> bool
    ensures { result ≡ is_one_of word.now (codes "." ∷ codes ".." ∷ []) }
{
    word == b".".as_slice() || word == b"..".as_slice()
}

/// Checks whether a byte of the word is barred from names.
fn has_barred(word: &[u8]) -> bool
    ensures { result ≡ list_any is_barred word.now }
{
    word.iter().any(|byte| is_barred(*byte))
}

/// Checks whether the word is a name.
fn is_name(word: &[u8]) -> bool
    ensures { result ≡ is_name word.now }
{
    if word.is_empty() || word.len() > LONGEST {
        return false;
    }
    !has_barred(word) && !is_dots(word)
}
