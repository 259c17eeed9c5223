ghost use Rattle.std.specs.Prelude.{◌≡◌, ◌∷◌, ◌==◌, bytes_eq, option_map, position};
ghost use Rattle.prt_addr.specs.Word.{parts_at};
ghost use Rattle.prt_addr.specs.Steps.{parts_of_rest};

/// Checks whether the word is this one.
pub(crate) fn is(word: &[u8], name: &str) -> bool
    ensures { result ≡ bytes_eq name.now word.now }
{
    name.as_bytes() == word
}

/// Finds the place of the first byte that is the separator.
fn separator_place(word: &[u8], separator: u8) -> Option<usize>
    ensures { result ≡ position (λ b. b == separator) word.now }
{
    word.iter().position(|byte| *byte == separator)
}

/// Splits the word at the first separator: the part before it and, if there is one, what comes after it.
#[tactic(auto, using(crate::proofs::Words::parts_around, crate::proofs::Words::one_part))]
pub(crate) fn split_first_part(word: &[u8], separator: u8) -> (&[u8], Option<&[u8]>)
    ensures { parts_at separator word.now ≡ result.0.now ∷ parts_of_rest separator (option_map (λ rest. rest.now) result.1) }
{
    match separator_place(word, separator) {
        Some(place) => (&word[..place], Some(&word[place + 1..])),
        None => (word, None),
    }
}
