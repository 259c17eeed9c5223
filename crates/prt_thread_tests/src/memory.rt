//! Two commands, of which one may be refused for want of memory.
//!
//! Its test holds whichever request for memory is refused.
ghost use Rattle.std.specs.Prelude.{◌≡◌};
ghost use Rattle.prt_publisher.specs.Standing.{IsQuiet};

use crate::caller::{adopted, stored_number, submit_to_publisher};
use prt_command::Refusal;
use prt_grace::Domain;
use prt_publisher::{Phase, Publisher};
use prt_refusals::StoreCall;
use sqlite::{Alter, Connection};
use std::alloc::Global;
use std::sync::Wait;
use std::test::Fail;

/// How two commands ended.
#[derive(Debug, Drop, PartialEq)]
struct Ending {
    /// Why one of them was refused, if one was.
    refused: Option<Refusal>,
    phase: Phase,
    /// The number of the published state, and of the one that is stored. `None` if the tables can't be adopted again.
    published: u64,
    stored: Option<u64>,
}

impl Ending {
    /// Checks whether it is as promised. Refused before its commit, a command goes through when it is submitted again.
    /// Refused within, it closes the publisher, and it may be stored only if the call was the commit. Refused within
    /// the publication, it is stored.
    fn is_as_promised(&self) -> bool {
        let unpublished = Some(self.published.saturating_add(1));
        let is_one_stored = self.stored == Some(self.published);
        match self.refused {
            None => self.phase == Phase::Ready && self.published == 2,
            Some(Refusal::NoMemory) => {
                self.phase == Phase::Ready && self.published == 2 && is_one_stored
            }
            Some(Refusal::StoreFailed(StoreCall::Commit)) => {
                self.phase == Phase::Closed && (is_one_stored || self.stored == unpublished)
            }
            Some(Refusal::StoreFailed(_)) => self.phase == Phase::Closed && is_one_stored,
            Some(Refusal::NotPublished) => {
                self.phase == Phase::Closed && self.stored == unpublished
            }
            Some(_) => false,
        }
    }
}

/// Submits two commands, and one once more if memory is refused before its commit. Returns why one was refused.
fn submit_two<S: Alter + Drop, H: Wait>(
    rt: &H,
    publisher: &mut Publisher<S>,
    domain: &Domain,
) -> Option<Refusal>
    requires { IsQuiet publisher.old.phase }
{
    let mut refused = None;
    for _ in 0..3 {
        match submit_to_publisher(rt, publisher, domain) {
            Ok(1) => {}
            Ok(_) => break,
            Err(Refusal::NoMemory) => refused = Some(Refusal::NoMemory),
            Err(reason) => return Some(reason),
        }
    }
    refused
}

/// Submits two commands to a publisher over the database of a connection, and adopts its tables again.
///
/// # Errors
///
/// Those of `Publisher::adopt`: then there is no publisher.
fn submit_and_adopt<S: Alter + Drop, H: Wait + Copy + Drop>(
    rt: H,
    alloc: Global,
    connection: Connection<S>,
) -> Result<Ending, Refusal> {
    let (mut publisher, domain) = adopted(alloc, connection)?;
    let refused = submit_two(&rt, &mut publisher, &domain);
    let phase = publisher.phase();
    let published = publisher.published().number();
    let stored = match stored_number(alloc, publisher.end(&rt)) {
        Ok((number, _)) => Some(number),
        Err(_) => None,
    };
    Ok(Ending {
        refused,
        phase,
        published,
        stored,
    })
}

#[test]
fn refused_memory_loses_nothing(rt: HostRuntime) -> Result<(), Fail> {
    let alloc = rt.alloc();
    if let Ok(connection) = Connection::open_in_memory(alloc) {
        match submit_and_adopt(rt, alloc, connection) {
            Ok(ending) => {
                assert!(rt; ending.is_as_promised());
                println!(rt; "{:?}", ending.refused)?;
            }
            Err(reason) => println!(rt; "no publisher: {reason:?}")?,
        }
    }
    Ok(())
}
