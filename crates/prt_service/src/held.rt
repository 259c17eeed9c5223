//! What a looker holds while it is online.
ghost use Rattle.std.specs.Prelude.{◌≡◌};
ghost use Rattle.std.specs.Arc.{arc_value};
ghost use Rattle.prt_published.specs.Line.{line_state};

use prt_published::Known;
use prt_version::Version;
use std::marker::Model;
use std::sync::Arc;

/// A published version that is held, with the list that led to it. Contracts see it as this list.
#[derive(Drop)]
pub(crate) struct HeldVersion {
    version: Arc<Version>,
    known: Known,
}

impl Model for HeldVersion {
    ghost use Rattle.std.specs.Prelude.{◌≡◌};
    ghost use Rattle.std.specs.Arc.{arc_value};
    ghost use Rattle.prt_published.specs.Line.{Line, line_state};

    ghost Value = { Line };

    ghost view = { λ h. h.known };

    ghost invariant = { λ h. arc_value h.version ≡ line_state h.known };
}

impl HeldVersion {
    pub(crate) fn new(version: Arc<Version>, known: Known) -> HeldVersion
        requires { arc_value version ≡ line_state known }
        ensures { result ≡ known }
    {
        HeldVersion { version, known }
    }

    /// Returns the version.
    pub(crate) fn version(&self) -> &Version
        ensures { result.now ≡ line_state self.now }
    {
        &self.version
    }

    /// Returns the version, and lets the list go.
    pub(crate) fn into_version(self) -> Arc<Version>
        ensures { arc_value result ≡ line_state self }
    {
        self.version
    }
}
