//! Tables: lines change them, and versions are taken of them.
ghost use Rattle.std.specs.Prelude.{◌≡◌, ◌⊎◌, IfErr, IfOk, None, Option, Some};
ghost use Rattle.std.specs.Arc.{arc_value};
ghost use Rattle.prt_refusals.specs.declared.refusal.Refusal.TheVariants.{NoMemory};
ghost use Rattle.prt_c.specs.Calls.{AreLinesOf, AreMade, IsLineOf, IsOwned, Puts};
ghost use Rattle.prt_c.specs.States.{held_state};
ghost use Rattle.prt_version.specs.State.{opening_state};

use crate::held::Held;
use crate::owner::Owner;
use crate::parts::Parts;
use crate::status::{DONE, EMPTY};
use prt_lines::{advance, advance_all};
use prt_version::owners::{first_owner, share};
use prt_version::{Refusal, Version};
use std::alloc::Global;
use std::mem::replace;
use std::sync::Arc;

/// Boxes an owner, and holds it.
fn hold(alloc: Global, version: Arc<Version>) -> Result<Held, Refusal>
    ensures value { IfOk result (λ held. held.home ≡ Some (record { version = version })) }
    ensures reason { IfErr result (λ reason. reason ≡ NoMemory) }
{
    Ok(Held::of_parts(Parts::of(Box::new(alloc, Owner { version })?)))
}

/// Makes the version of a new database, and holds an owner of it.
fn hold_opening(alloc: Global) -> Result<Held, Refusal>
    ensures value { IfOk result (λ held. held_state held.home ≡ Some opening_state) }
    ensures reason { IfErr result (λ reason. reason ≡ NoMemory) }
{
    hold(alloc, first_owner(alloc, Version::opening(alloc)?)?)
}

/// Lets an owner go; the last one of a version frees it.
fn release(held: Held) {
    if let Some(parts) = held.into_parts() {
        drop(parts.into_box());
    }
}

/// Puts what was made in the place of what is held, which is released; returns the status.
fn put(held: &mut Held, made: Result<Held, Refusal>) -> u32
    ensures { Puts held.old.home made held.new.home result }
{
    match made {
        Ok(next) => {
            release(replace(held, next));
            DONE
        }
        Err(reason) => reason.code(),
    }
}

/// Makes tables of a new database: no routes, and the rules for local, main and default.
///
/// What `tables` held is released. Returns 0, or 26 if memory is refused; `tables` then holds what it did.
#[unsafe(no_mangle)]
pub extern "C" fn prt_tables_new(alloc: Global, tables: &mut Held) -> u32
    ensures { AreMade tables.old.home tables.new.home result }
{
    put(tables, hold_opening(alloc))
}

/// Executes a line of the command language, which comes without its newline. A blank line, a comment and a question
/// change nothing.
///
/// Returns 0, and `number` is the number of commands that were accepted so far. Otherwise the tables and `number` are as
/// they were. Then it returns 1 to 18 for the line's first fault, and 21 to 24 for what the tables refuse the command for.
/// If memory is refused that is 26, and 100 if `tables` holds nothing.
#[unsafe(no_mangle)]
pub extern "C" fn prt_tables_line(
    alloc: Global,
    tables: &mut Held,
    line: &[u8],
    number: &mut u64,
) -> u32
    ensures { IsLineOf tables.old.home line.now tables.new.home number.old number.new result }
{
    let Some(parts) = replace(tables, Held::empty(alloc)).into_parts() else {
        return EMPTY;
    };
    let mut owner = parts.into_box();
    let done = advance(alloc, &mut owner.version, line);
    let count = owner.version.number();
    *tables = Held::of_parts(Parts::of(owner));
    match done {
        Ok(()) => {
            *number = count;
            DONE
        }
        Err(reason) => reason.code(),
    }
}

/// Executes the lines of a text that a newline ends, one after the other, up to the first that is refused.
///
/// `bytes` is how many bytes they have with their newlines, and `number` how many commands were accepted so far. Returns 0
/// if no whole line is left. Otherwise it returns what `prt_tables_line` does for the line after them, which changed
/// nothing. If `tables` holds nothing, that is 100, and all is as it was.
#[unsafe(no_mangle)]
pub extern "C" fn prt_tables_lines(
    alloc: Global,
    tables: &mut Held,
    text: &[u8],
    bytes: &mut usize,
    number: &mut u64,
) -> u32
    ensures { AreLinesOf tables.old.home text.now tables.new.home bytes.old bytes.new number.old number.new result }
{
    let Some(parts) = replace(tables, Held::empty(alloc)).into_parts() else {
        return EMPTY;
    };
    let mut owner = parts.into_box();
    let executed = advance_all(alloc, &mut owner.version, text);
    *bytes = executed.bytes;
    *number = owner.version.number();
    *tables = Held::of_parts(Parts::of(owner));
    match executed.refused {
        Some(reason) => reason.code(),
        None => DONE,
    }
}

/// Makes one more owner of the version that the tables are at. Later lines leave that version as it is.
///
/// What `version` held is released. Returns 0, 26 if memory is refused, or 100 if `tables` holds nothing; `version`
/// then holds what it did. `tables` holds the same afterwards.
#[unsafe(no_mangle)]
pub extern "C" fn prt_tables_version(alloc: Global, tables: &mut Held, version: &mut Held) -> u32
    ensures same { tables.new.home ≡ tables.old.home }
    ensures owned { IsOwned tables.old.home version.old.home version.new.home result }
{
    let Some(parts) = replace(tables, Held::empty(alloc)).into_parts() else {
        return EMPTY;
    };
    let owner = parts.into_box();
    let shared = share(&owner.version);
    *tables = Held::of_parts(Parts::of(owner));
    let held = match shared {
        Ok(other) => hold(alloc, other),
        Err(reason) => Err(reason),
    };
    put(version, held)
}

/// Releases the tables, and leaves the holder empty. Versions that were taken of them stay.
#[unsafe(no_mangle)]
pub extern "C" fn prt_tables_release(alloc: Global, tables: &mut Held)
    ensures { tables.new.home ≡ None }
{
    release(replace(tables, Held::empty(alloc)));
}

/// Releases a version, and leaves the holder empty. The last owner of a version frees it.
#[unsafe(no_mangle)]
pub extern "C" fn prt_version_release(alloc: Global, version: &mut Held)
    ensures { version.new.home ≡ None }
{
    release(replace(version, Held::empty(alloc)));
}
