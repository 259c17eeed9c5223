ghost use Rattle.std.specs.Prelude.{◌≡◌, IfOk};
ghost use Rattle.sqlite.specs.Held.{state};
ghost use Rattle.sqlite.specs.State.{HasCleanDisk};
ghost use Rattle.prt_command.specs.Storable.{IsStorable};
ghost use Rattle.prt_version.specs.Change.{apply};
ghost use Rattle.prt_store.specs.Stored.{Stores};

use prt_store::Store;
use prt_version::{Command, Refusal, Version};
use sqlite::Alter;

/// Commits the command to the store whose tables encode this version, and returns the version after it.
///
/// # Errors
///
/// Why the command is refused, `NoMemory`, or `StoreFailed` with the call that failed.
pub fn submit<S: Alter + Drop>(
    store: &mut Store<S>,
    version: &Version,
    command: &Command,
) -> Result<Version, Refusal>
    requires { IsStorable command.now }
    ensures next { IfOk result (λ next. next ≡ apply version.now command.now) }
    ensures stored { HasCleanDisk (state S.Store store.new.conn) → Stores (state S.Store store.old.conn).now version.now →
        IfOk result (Stores (state S.Store store.new.conn).now) }
{
    let number = version.number() + 1;
    let change = version.check(command)?;
    let next = version.next(&change)?;
    let _stamp = store.commit(&change, number)?;
    Ok(next)
}
