//! Commands that are committed one after the other, and what the tables then encode.

use super::caller::submit;
use super::database::{Contents, OPENING_RULES, adopted, loaded, spells};
use prt_command::{Refusal, Request, read_line};
use sqlite::{Alter, Connection};
use std::alloc::Global;
use std::test::Fail;

/// What a new database encodes.
pub const OPENING: Contents = Contents {
    number: 0,
    rules: OPENING_RULES,
    routes: "end 0\n",
};

/// One command for each statement, and a second route beside the first; with each, what the tables then encode.
pub const STEPS: [(&str, Contents); 8] = [
    (
        "route add 10.1/16 via 192.0.2.1 dev eth0 src 192.0.2.10 metric 5",
        Contents {
            number: 1,
            rules: OPENING_RULES,
            routes: "10.1.0.0/16 via 192.0.2.1 dev eth0 src 192.0.2.10 metric 5\nend 1\n",
        },
    ),
    (
        "route add throw 10/8 table 7",
        Contents {
            number: 2,
            rules: OPENING_RULES,
            routes: "throw 10.0.0.0/8 table 7\n10.1.0.0/16 via 192.0.2.1 dev eth0 src 192.0.2.10 metric 5\nend 2\n",
        },
    ),
    (
        "route replace 10.1/16 dev eth1 metric 5",
        Contents {
            number: 3,
            rules: OPENING_RULES,
            routes: "throw 10.0.0.0/8 table 7\n10.1.0.0/16 dev eth1 scope link metric 5\nend 2\n",
        },
    ),
    (
        "route del 10.1/16",
        Contents {
            number: 4,
            rules: OPENING_RULES,
            routes: "throw 10.0.0.0/8 table 7\nend 1\n",
        },
    ),
    (
        "rule add not from 10/8 iif eth0 fwmark 7/0xff priority 5 table 100 suppress_prefixlength 8",
        Contents {
            number: 5,
            rules: "0:\tfrom all lookup local\n5:\tnot from 10.0.0.0/8 fwmark 0x7/0xff iif eth0 lookup 100 suppress_prefixlength 8\n32766:\tfrom all lookup main\n32767:\tfrom all lookup default\nend 4\n",
            routes: "throw 10.0.0.0/8 table 7\nend 1\n",
        },
    ),
    (
        "rule del priority 5",
        Contents {
            number: 6,
            rules: OPENING_RULES,
            routes: "throw 10.0.0.0/8 table 7\nend 1\n",
        },
    ),
    (
        "rule flush",
        Contents {
            number: 7,
            rules: "0:\tfrom all lookup local\nend 1\n",
            routes: "throw 10.0.0.0/8 table 7\nend 1\n",
        },
    ),
    (
        "route flush table 7",
        Contents {
            number: 8,
            rules: "0:\tfrom all lookup local\nend 1\n",
            routes: "end 0\n",
        },
    ),
];

/// Returns the connection after the command of a line was committed.
pub fn committed<S: Alter + Drop>(
    alloc: Global,
    connection: Connection<S>,
    line: &str,
) -> Result<Connection<S>, Refusal> {
    let mut store = adopted(connection)?;
    let version = loaded(alloc, &mut store)?;
    match read_line(line.as_bytes())? {
        Some(Request::Command(command)) => submit(&mut store, &version, &command)?,
        _ => return Err(Refusal::UnknownVerb),
    };
    Ok(store.release())
}

/// Finds the first command after which the tables of a new database encode something else.
fn misstored_line<S: Alter + Drop>(
    alloc: Global,
    connection: Connection<S>,
) -> Result<Option<&'static str>, Refusal> {
    let (is_new, mut connection) = spells(alloc, connection, &OPENING)?;
    if !is_new {
        return Ok(Some("the opening state"));
    }
    for (line, contents) in &STEPS {
        let after = committed(alloc, connection, line)?;
        let (is_same, same) = spells(alloc, after, contents)?;
        if !is_same {
            return Ok(Some(line));
        }
        connection = same;
    }
    Ok(None)
}

#[test]
fn stores_what_each_command_leaves(rt: HostRuntime) -> Result<(), Fail> {
    let connection = Connection::open_in_memory(rt.alloc())?;
    assert_eq!(rt; misstored_line(rt.alloc(), connection)?, None);
    Ok(())
}
