//! A disk of which one call fails, for tests.
ghost use Rattle.std.specs.Prelude.{◌≡◌, ◌+◌, ◌-◌, ◌&&◌, ◌↔◌, not, true, false, IsErr, IsOk};
ghost use Rattle.sqlite_disk.specs.Disk.{CountsFault};
ghost use Rattle.sqlite_disk.specs.Refusal.{finds_no_room};

pub use sqlite_disk::Disk;
use sqlite_disk::Tally;
use std::io;

/// A disk that passes so many calls on, fails one, and passes each later one on.
#[derive(Drop)]
pub struct FailOnce<V: Disk> {
    inner: V,
    calls_left: u64,
    has_failed: bool,
    refused: u64,
    sync_refused: bool,
}

impl<V: Disk> FailOnce<V> {
    ghost use Rattle.prt_store.specs.FailOnce.{inner_of, calls_left, has_failed, IsFresh};

    /// Makes a disk that fails after so many calls.
    pub fn new(inner: V, calls: u64) -> FailOnce<V>
        ensures inner { inner_of result ≡ inner }
        ensures calls { calls_left result ≡ calls }
        ensures fresh { IsFresh result }
    {
        FailOnce {
            inner,
            calls_left: calls,
            has_failed: false,
            refused: 0,
            sync_refused: false,
        }
    }

    /// Returns the disk that calls are passed on to.
    pub fn inner(&self) -> &V
        ensures { result.now ≡ inner_of self.now }
    {
        &self.inner
    }

    /// Returns how many calls are still passed on before the one that fails.
    pub fn calls_left(&self) -> u64
        ensures { result ≡ calls_left self.now }
    {
        self.calls_left
    }

    /// Returns whether that call has come.
    pub fn has_failed(&self) -> bool
        ensures { result ≡ has_failed self.now }
    {
        self.has_failed
    }
}

/// Counts a call, and fails the one that is due.
fn spend(calls_left: &mut u64, has_failed: &mut bool, refused: &mut u64) -> io::Result<()>
    ensures faults { CountsFault result refused.old refused.new }
    ensures kind { finds_no_room result ≡ false }
    ensures due { IsErr result ↔ ((has_failed.old ≡ false) × (calls_left.old ≡ 0)) }
    ensures failed { IsErr result → has_failed.new ≡ true }
    ensures passed { IsOk result → has_failed.new ≡ has_failed.old }
    ensures spent { has_failed.old ≡ false → calls_left.new ≡ calls_left.old - 1 }
{
    if *has_failed {
        return Ok(());
    }
    if *calls_left == 0 {
        *has_failed = true;
        *refused = refused.saturating_add(1);
        return Err(io::Error::other("this call fails"));
    }
    *calls_left -= 1;
    Ok(())
}

impl<V: Disk> Disk for FailOnce<V> {
    ghost seen = { λ f. V.Disk.seen f.inner };

    ghost may_leave = { λ f. V.Disk.may_leave f.inner };

    ghost is_usable = { λ f. V.Disk.is_usable f.inner && not f.sync_refused };

    ghost faults = { λ f. V.Disk.faults f.inner + f.refused };

    ghost tally_of = { λ f. V.Disk.tally_of f.inner };

    ghost is_rotten = { λ f. V.Disk.is_rotten f.inner };

    ghost key_of = { λ f. V.Disk.key_of f.inner };

    ghost is_clean = { λ f. V.Disk.is_clean f.inner };

    ghost is_fair = { λ f. V.Disk.is_fair f.inner };

    ghost fair_if_clean = { λ f. V.Disk.fair_if_clean f.inner };

    ghost seen_may_stay = { λ f. V.Disk.seen_may_stay f.inner };

    ghost is_mixing = { λ f. V.Disk.is_mixing f.inner };

    fn mixes(&self) -> bool {
        self.inner.mixes()
    }

    fn key(&self) -> u64 {
        self.inner.key()
    }

    fn tally(&self) -> Tally {
        self.inner.tally()
    }

    fn may_be_used(&self) -> bool {
        self.inner.may_be_used() && !self.sync_refused
    }

    fn len(&mut self) -> io::Result<usize> {
        spend(
            &mut self.calls_left,
            &mut self.has_failed,
            &mut self.refused,
        )?;
        self.inner.len()
    }

    fn read_at(&mut self, at: usize, buf: &mut [u8]) -> io::Result<()> {
        spend(
            &mut self.calls_left,
            &mut self.has_failed,
            &mut self.refused,
        )?;
        self.inner.read_at(at, buf)
    }

    fn read_checked(&mut self, key: u64, want: u64, at: usize, buf: &mut [u8]) -> io::Result<()> {
        spend(
            &mut self.calls_left,
            &mut self.has_failed,
            &mut self.refused,
        )?;
        self.inner.read_checked(key, want, at, buf)
    }

    fn write_at(&mut self, at: usize, bytes: &[u8]) -> io::Result<()> {
        spend(
            &mut self.calls_left,
            &mut self.has_failed,
            &mut self.refused,
        )?;
        self.inner.write_at(at, bytes)
    }

    fn set_len(&mut self, len: usize) -> io::Result<()> {
        spend(
            &mut self.calls_left,
            &mut self.has_failed,
            &mut self.refused,
        )?;
        self.inner.set_len(len)
    }

    fn sync(&mut self) -> io::Result<()> {
        if let Err(error) = spend(
            &mut self.calls_left,
            &mut self.has_failed,
            &mut self.refused,
        ) {
            self.sync_refused = true;
            return Err(error);
        }
        self.inner.sync()
    }
}
