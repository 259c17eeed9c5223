use prt_command::{Refusal, Request, read_line};
use prt_dump::dump_text;
use prt_version::Version;
use std::alloc::Global;
use std::test::Fail;

const SCRIPT: &str = "route add default via 192.0.2.1 metric 10
route add 192.0.2.0/24 dev eth0 proto kernel scope link src 192.0.2.10
route add 10.1.2.3 dev wg0 scope global table 7
route add throw 10/8 table 100
rule del priority 0
rule add priority 500 not from 10/8 fwmark 7 iif eth0 table 100 suppress_prefixlength 0
rule add priority 500 to 10.1/16 prohibit";

const DUMP: &str = "rule flush
rule del priority 0
rule add priority 500 not from 10.0.0.0/8 fwmark 0x7 iif eth0 lookup 100 suppress_prefixlength 0
rule add priority 500 from all to 10.1.0.0/16 prohibit
rule add priority 32766 from all lookup main
rule add priority 32767 from all lookup default
route add 10.1.2.3 dev wg0 table 7 scope global
route add throw 10.0.0.0/8 table 100
route add 192.0.2.0/24 dev eth0 proto kernel scope link src 192.0.2.10
route add default via 192.0.2.1 metric 10
";

/// Returns the version after the command of this line.
fn next_version(version: &Version, line: &str) -> Result<Version, Refusal> {
    match read_line(line.as_bytes())? {
        Some(Request::Command(command)) => match version.check(&command) {
            Ok(change) => version.next(&change),
            Err(reason) => Err(reason),
        },
        _ => Err(Refusal::UnknownVerb),
    }
}

/// Returns the dump of a new database after the commands of this script.
fn dump_after(alloc: Global, script: &str) -> Result<Vec<u8>, Fail> {
    let mut version = Version::opening(alloc)?;
    for line in script.lines() {
        version = next_version(&version, line)?;
    }
    match dump_text(alloc, &version) {
        Ok(text) => Ok(text),
        Err(_) => Err(Fail::from(Refusal::NoMemory)),
    }
}

#[test]
fn dumps(rt: HostRuntime) -> Result<(), Fail> {
    assert_eq!(rt; dump_after(rt.alloc(), SCRIPT)?.as_slice(), DUMP.as_bytes());
    Ok(())
}
