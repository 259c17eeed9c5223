//! Tokens of what is known of the published list.
ghost use Rattle.std.specs.Prelude.{◌≡◌, [], length, IfSome, MatchBool};
ghost use Rattle.prt_version.specs.Accepted.{IsAccepted};
ghost use Rattle.prt_published.specs.History.{commands_in, length_of};
ghost use Rattle.prt_published.specs.Line.{Begins, grown_by, line_state};

use crate::history::{Add, Batch, Entry, HistoryRule, Length, Load, NoGain};
use logbook::{Offer, Seen, Start};
use prt_version::Version;
use std::marker::Model;

/// A prefix of the published list. Contracts see it as a line; of its list it keeps the length alone.
#[derive(Drop)]
pub struct Known {
    count: u64,
    seen: Seen<Entry, u64, HistoryRule>,
}

impl Model for Known {
    ghost use Rattle.std.specs.Prelude.{◌≡◌, length};
    ghost use Rattle.prt_version.specs.Accepted.{IsAccepted};
    ghost use Rattle.prt_published.specs.History.{entries, line_of};
    ghost use Rattle.prt_published.specs.Line.{Line};

    ghost Value = { Line };

    ghost view = { λ k. line_of k.seen.book k.seen.log };

    ghost invariant = { λ k. let l =
        line_of k.seen.book k.seen.log in (k.seen.log ≡ entries l.base l.list) × (k.count ≡ length l.list) × IsAccepted l.base l.list };
}

impl Known {
    /// Begins a history with a loaded version. Returns the empty list since then, and the word of its length.
    pub(crate) fn open(version: &Version) -> (Known, Length)
        ensures known { (result.0.base ≡ version.now) × (result.0.list ≡ []) }
        ensures word { result.1 ≡ length_of result.0.book }
    {
        let (seen, mut pens) = Seen::open_row::<Version, Load>(version, Start::alone(), 1);
        let mut pen = pens.take();
        let word = Length::tracked(0, &mut pen);
        (Known { count: 0, seen }, word)
    }

    /// Returns how many commands it has.
    pub fn count(&self) -> u64
        ensures { result ≡ length self.now.list }
    {
        self.count
    }

    /// Returns the same knowledge once more.
    pub fn again(&self) -> Known
        ensures same { result ≡ self.now }
        ensures accepted { IsAccepted result.base result.list }
    {
        Known {
            count: self.count,
            seen: self.seen.again(),
        }
    }

    /// Checks whether this list is a prefix of the other. Otherwise the other is a prefix of this one: both are of one
    /// front.
    pub fn is_before(&self, other: &Known) -> bool
        requires { self.now.book ≡ other.now.book }
        ensures { MatchBool result (Begins self.now other.now) (Begins other.now self.now) }
    {
        let mut both = self.seen.again();
        both.learn(&other.seen);
        self.count <= other.count
    }

    /// Adds commands, as many as are named, to the history of which this is all. `None` if the history has another
    /// command there, and then it stays as it was.
    pub(crate) fn accept(&self, word: &Length, batch: &Batch, added: u64) -> Option<Known>
        requires word { word.now ≡ length_of self.now.book }
        requires added { added ≡ length (commands_in batch.now) }
        requires accepted { IsAccepted (line_state self.now) (commands_in batch.now) }
        ensures { IfSome result (λ k. k ≡ grown_by self.now (commands_in batch.now)) }
    {
        let mut seen = self.seen.again();
        let mut offer: Offer<Entry, u64, HistoryRule, NoGain> = seen.plain::<NoGain, Batch, Add>(
            batch,
        );
        let mut pen = seen.no_pen();
        let count = self.count;
        let count_after = count + added;
        let found = word.compare_exchange::<Add, NoGain>(
            count,
            count_after,
            &mut seen,
            &mut offer,
            &mut pen,
        );
        if found == count {
            Some(Known {
                count: count_after,
                seen,
            })
        } else {
            None
        }
    }
}
