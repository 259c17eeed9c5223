//! A store and a publisher over a file. What has the type of a file is in the test alone, since each such function is dear to
//! prove.

use super::database::spells;
use super::steps::OPENING;
use prt_publisher::{Domain, Phase, Publisher};
use prt_store::Store;
use prt_version::Refusal;
use sqlite::{Alter, Connection, Error};
use std::alloc::Global;
use std::fs;
use std::test::Fail;

/// The folder of the database that the store makes.
const FOLDER: &str = "prt_store_tests_files";

/// The database that the store makes.
const PATH: &str = "prt_store_tests_files/routes.db";

/// The folder of the database that the publisher makes.
const PUBLISHED: &str = "prt_store_tests_published";

/// The database that the publisher makes.
const PUBLISHED_PATH: &str = "prt_store_tests_published/routes.db";

/// Checks whether the store that was opened encodes the opening state.
fn is_new<S: Alter + Drop>(
    alloc: Global,
    opened: Result<Store<S>, (Refusal, Option<Connection<S>>)>,
) -> Result<bool, Refusal> {
    match opened {
        Ok(store) => Ok(spells(alloc, store.release(), &OPENING)?.0),
        Err((reason, _connection)) => Err(reason),
    }
}

/// Checks whether the publisher that was opened is ready, and encodes the opening state.
fn is_ready<S: Alter + Drop>(
    alloc: Global,
    opened: Result<(Publisher<S>, Domain), (Refusal, Result<Connection<S>, Error>)>,
) -> Result<bool, Refusal> {
    match opened {
        Ok((publisher, _domain)) => {
            let is_ready = publisher.phase() == Phase::Ready;
            let is_new = spells(alloc, publisher.release(), &OPENING)?.0;
            Ok(is_ready && is_new)
        }
        Err((reason, _cause)) => Err(reason),
    }
}

#[test]
fn opens_a_file(rt: HostRuntime) -> Result<(), Fail> {
    let _ = fs::remove_dir_all(&rt, FOLDER);
    for want in [Err(Refusal::OpenFailed), Ok(true), Ok(true)] {
        let found = is_new(rt.alloc(), Store::open(&rt, PATH));
        assert_eq!(rt; found, want);
        let _ = fs::create_dir(&rt, FOLDER);
    }
    fs::remove_dir_all(&rt, FOLDER)?;
    Ok(())
}

#[test]
fn opens_a_publisher(rt: HostRuntime) -> Result<(), Fail> {
    let _ = fs::remove_dir_all(&rt, PUBLISHED);
    for want in [Err(Refusal::OpenFailed), Ok(true), Ok(true)] {
        let alloc = rt.alloc();
        let found = is_ready(alloc, Publisher::open(&rt, alloc, PUBLISHED_PATH));
        assert_eq!(rt; found, want);
        let _ = fs::create_dir(&rt, PUBLISHED);
    }
    fs::remove_dir_all(&rt, PUBLISHED)?;
    Ok(())
}
