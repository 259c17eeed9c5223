//! What readers take from a copy.
ghost use Rattle.std.specs.Prelude.{◌≡◌, IfOk};
ghost use Rattle.std.specs.Arc.{arc_value};
ghost use Rattle.prt_published.specs.Line.{line_state};

use crate::known::Known;
use left_right::Absorb;
use prt_version::Version;
use std::alloc::AllocError;
use std::marker::Model;
use std::sync::Arc;

/// A version, with the list that led to it. Contracts see it as this list.
#[derive(Drop)]
pub(crate) struct Shown {
    version: Arc<Version>,
    known: Known,
}

impl Model for Shown {
    ghost use Rattle.std.specs.Prelude.{◌≡◌};
    ghost use Rattle.std.specs.Arc.{arc_value};
    ghost use Rattle.prt_published.specs.Line.{Line, line_state};

    ghost Value = { Line };

    ghost view = { λ s. s.known };

    ghost invariant = { λ s. arc_value s.version ≡ line_state s.known };
}

impl Shown {
    pub(crate) fn new(version: Arc<Version>, known: Known) -> Shown
        requires { arc_value version ≡ line_state known }
        ensures { result ≡ known }
    {
        Shown { version, known }
    }

    /// Returns the list.
    pub(crate) fn known(&self) -> &Known
        ensures { result.now ≡ self.now }
    {
        &self.known
    }

    /// Returns the number of the version.
    pub(crate) fn number(&self) -> u64
        ensures { result ≡ (line_state self.now).count }
    {
        self.version.number()
    }

    /// Returns one more owner of the version. `Err` if an `Arc` can count no more.
    pub(crate) fn version(&self) -> Result<Arc<Version>, AllocError>
        ensures { IfOk result (λ version. arc_value version ≡ line_state self.now) }
    {
        Arc::try_clone(&self.version)
    }

    /// Returns the same once more, for the other copy. `Err` if an `Arc` can count no more.
    pub(crate) fn again(&self) -> Result<Shown, AllocError>
        ensures { IfOk result (λ shown. shown ≡ self.now) }
    {
        let version = self.version()?;
        Ok(Shown {
            version,
            known: self.known.again(),
        })
    }
}

/// An operation puts what is shown next in the place of what is there.
impl Absorb<Shown> for Shown {
    type State = Shown;

    ghost state = { λ shown. shown };

    ghost applied = { λ shown next. next };

    fn absorb_first(&mut self, next: &Shown, _other: &Shown) -> Result<(), AllocError> {
        *self = next.again()?;
        Ok(())
    }

    fn absorb_second(&mut self, next: Shown, _other: &Shown) -> Result<(), Shown> {
        *self = next;
        Ok(())
    }
}
