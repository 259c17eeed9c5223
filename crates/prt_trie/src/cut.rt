//! How routes are divided into pieces: by an octet of their prefixes.
ghost use Rattle.std.specs.Prelude.{◌≡◌, ◌<◌};
ghost use Rattle.prt_trie.specs.Cut.{long_of, number_for, number_in};

use prt_route::{Addr, Prefix};

/// How many pieces there are: one of the prefixes that are too short, and one for each value of the octet.
pub(crate) const PIECES: usize = 257;

/// The octet that distinguishes pieces. The prefixes that are too short to have it whole are in one piece.
#[derive(Clone, Copy)]
pub(crate) enum Cut {
    FirstOctet,
    SecondOctet,
    ThirdOctet,
}

impl Cut {
    /// Returns the shortest length of the prefixes that have the octet whole.
    fn long(self) -> u8
        ensures { result ≡ long_of self }
    {
        match self {
            Cut::FirstOctet => 8,
            Cut::SecondOctet => 16,
            Cut::ThirdOctet => 24,
        }
    }

    /// Returns the octet before this one, and the first for itself.
    pub fn before(self) -> Cut {
        match self {
            Cut::FirstOctet | Cut::SecondOctet => Cut::FirstOctet,
            Cut::ThirdOctet => Cut::SecondOctet,
        }
    }

    /// Computes the number of the piece of the prefixes with the octet of the address, from 1 to 256.
    pub fn number_for(self, addr: Addr) -> usize
        ensures value { result ≡ number_for self addr }
        ensures within { result < 257 }
    {
        let octet = match self {
            Cut::FirstOctet => addr.0 >> 24,
            Cut::SecondOctet => (addr.0 >> 16) % 256,
            Cut::ThirdOctet => (addr.0 >> 8) % 256,
        };
        octet as usize + 1
    }

    /// Computes the number of the piece of the prefix: 0 if it is too short, otherwise one more than its octet.
    pub fn number_of(self, prefix: &Prefix) -> usize
        ensures value { result ≡ number_in self prefix.now }
        ensures within { result < 257 }
    {
        if prefix.len() < self.long() {
            0
        } else {
            self.number_for(Addr(prefix.bits()))
        }
    }
}
