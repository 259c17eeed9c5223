//! The keeper of a registry.
ghost use Rattle.std.specs.Prelude.{◌≡◌, ◌<◌};
ghost use Rattle.std.specs.Arc.{arc_value};
ghost use Rattle.prt_grace.specs.Registry.{noted_by};

use crate::{LockedRegistry, Version};
use std::sync::Arc;

/// The right to note versions, of which a domain has one. Only [`Domain::new`] makes one.
///
/// [`Domain::new`]: crate::Domain::new
#[derive(Drop)]
pub struct Keeper {
    pub(crate) noted: u64,
}

impl Keeper {
    /// Returns the number of the version that it noted last, and at first that of the loaded one.
    pub fn noted(&self) -> u64
        ensures { result ≡ self.now.noted }
    {
        self.noted
    }

    /// Notes a version in the locked registry. If this has no room, or has noted a later version, it stays as it was.
    pub fn note(&mut self, registry: &mut LockedRegistry, version: Arc<Version>)
        requires { self.old.noted < (arc_value version).count }
        ensures keeper { self.new.noted ≡ (arc_value version).count }
        ensures registry { registry.new ≡ noted_by registry.old (arc_value version) }
    {
        self.noted = version.number();
        registry.registry.note_later(version);
    }
}
