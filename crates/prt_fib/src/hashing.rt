//! An index of outcomes.
ghost use Rattle.std.specs.Prelude.{◌≡◌, ◌++◌, ◌∷◌, [], ◌<◌, ◌^◌, length, OnOk};
ghost use Rattle.prt_partition.specs.Sameness.{is_same_outcome};
ghost use Rattle.prt_fib.specs.Hashes.{IsFound, IsIndex, IsNew, bits_of, dev_hash, hash_of};

use prt_addr::Addr;
use prt_partition::Outcome;
use prt_route::Dev;
use std::alloc::AllocError;

/// How many hashes there are: 0 to 8,190.
pub(crate) const HASHES: usize = 8_191;

/// Gets the bits of an address; 0 if there is none.
fn bits_of(addr: Option<Addr>) -> u64
    ensures value { result ≡ bits_of addr }
    ensures fits { result < 2 ^ 32 }
{
    match addr {
        Some(Addr(bits)) => u64::from(bits),
        None => 0,
    }
}

/// Computes a number below 8,191 from the bytes of a name; 0 if there is none.
fn dev_hash(dev: &Option<Dev>) -> u64
    ensures value { result ≡ dev_hash dev.now }
    ensures small { result < 8191 }
{
    let Some(dev) = dev else {
        return 0;
    };
    let mut hash = 0;
    for byte in dev.as_bytes() {
        hash = (hash * 31 + u64::from(*byte)) % 8_191;
    }
    hash
}

/// Computes the hash of an outcome.
#[tactic(auto, unfolding(crate::specs::Hashes::hash_of))]
fn hash_of(outcome: &Outcome) -> usize
    ensures value { result ≡ hash_of outcome.now }
    ensures small { result < 8191 }
{
    let via = bits_of(outcome.via);
    let src = bits_of(outcome.src);
    let dev = dev_hash(&outcome.dev);
    ((via * 31 + src * 7 + dev) % 8_191) as usize
}

/// Tests whether the outcomes are equal in every part.
fn is_same(outcome: &Outcome, other: &Outcome) -> bool
    ensures { result ≡ is_same_outcome outcome.now other.now }
{
    outcome.kind == other.kind
        && outcome.via == other.via
        && outcome.dev == other.dev
        && outcome.src == other.src
}

/// Searches for the place of an outcome.
pub(crate) fn search(
    outcomes: &[Outcome],
    heads: &[u32],
    next: &[u32],
    outcome: &Outcome,
) -> Option<usize>
    requires { IsIndex hash_of outcomes.now heads.now next.now }
    ensures { IsFound outcomes.now outcome.now result }
{
    let mut last = heads[hash_of(outcome)] as usize;
    while last > 0 {
        let place = last - 1;
        if is_same(&outcomes[place], outcome) {
            return Some(place);
        }
        last = next[place] as usize;
    }
    None
}

/// Appends an outcome.
// As a slice of one: rattle has no proof of `push` for a struct of options of another crate.
fn push_outcome(outcomes: &mut Vec<Outcome>, outcome: &Outcome) -> Result<(), AllocError>
    ensures { OnOk result (outcomes.new.items ≡ outcomes.old.items ++ outcome.now ∷ []) }
{
    outcomes.extend_from_slice(&[*outcome])
}

/// Appends an outcome that isn't there yet, and links it with those of its hash.
pub(crate) fn append_outcome(
    outcomes: &mut Vec<Outcome>,
    heads: &mut Vec<u32>,
    next: &mut Vec<u32>,
    outcome: &Outcome,
) -> Result<(), AllocError>
    requires index { IsIndex hash_of outcomes.old.items heads.old.items next.old.items }
    requires few { length outcomes.old.items < 65536 }
    requires absent { IsNew outcomes.old.items outcome.now }
    ensures value { OnOk result (outcomes.new.items ≡ outcomes.old.items ++ outcome.now ∷ []) }
    ensures index { OnOk result (IsIndex hash_of outcomes.new.items heads.new.items next.new.items) }
{
    let hash = hash_of(outcome);
    next.push(heads[hash])?;
    push_outcome(outcomes, outcome)?;
    heads[hash] = outcomes.len() as u32;
    Ok(())
}
