//! What holds back retired versions.
ghost use Rattle.std.specs.Prelude.{◌≡◌, IfSome, position};
ghost use Rattle.prt_grace.specs.Registry.{has_announced};

use crate::PlaceState;

/// How many versions are retired, and which looker holds them back.
#[derive(Clone, Copy)]
pub struct Retention {
    /// How many versions are retired and not given up yet.
    pub retired: usize,
    /// The lowest number that an online looker has announced: `None` if none is online.
    pub lowest: Option<u64>,
    /// The first place, from 0, whose looker has announced that number: `None` if none is online.
    pub holder: Option<usize>,
}

/// Finds the first place that has announced this number.
fn first_with(places: &[PlaceState], number: u64) -> Option<usize>
    ensures { result ≡ position (has_announced number) places.now }
{
    places.iter().position(|place| place.has_announced(number))
}

/// Finds the first place that has announced this number, if there is a number.
pub(crate) fn holder_of(places: &[PlaceState], lowest: Option<u64>) -> Option<usize>
    ensures { IfSome lowest (λ number. result ≡ position (has_announced number) places.now) }
{
    match lowest {
        Some(number) => first_with(places, number),
        None => None,
    }
}
