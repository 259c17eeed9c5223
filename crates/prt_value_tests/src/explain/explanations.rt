use prt_command::{Command, Query, Refusal, Request, read_line};
use prt_explain::explanation_text;
use prt_version::Version;
use std::alloc::Global;
use std::test::Fail;

/// `wg-quick` sends a machine's packets through its tunnel like this.
const TUNNEL: &str = "route add 192.0.2.0/24 dev eth0
route add default via 192.0.2.1 dev eth0
rule add not fwmark 51820 table 51820
rule add table main suppress_prefixlength 0
route add default dev wg0 table 51820";

const TUNNEL_TO_A_NETWORK: &str = "packet to 192.0.2.7 from 0.0.0.0 iif lo mark 0x0
0:\tfrom all lookup local
\ttable local: no route
32764:\tfrom all lookup main suppress_prefixlength 0
\ttable main: 192.0.2.0/24 dev eth0 scope link
\tbefore default via 192.0.2.1 dev eth0: longer prefix
answer 5 rule 32764 table main 192.0.2.0/24 dev eth0 scope link
";

const TUNNEL_TO_ALL_ELSE: &str = "packet to 198.51.100.7 from 0.0.0.0 iif lo mark 0x0
0:\tfrom all lookup local
\ttable local: no route
32764:\tfrom all lookup main suppress_prefixlength 0
\ttable main: default via 192.0.2.1 dev eth0
\tsuppressed: its prefix length is 0
32765:\tnot from all fwmark 0xca6c lookup 51820
\tyes: not fwmark 0xca6c
\ttable 51820: default dev wg0 scope link
answer 5 rule 32765 table 51820 default dev wg0 scope link
";

const TUNNEL_OF_THE_TUNNEL: &str = "packet to 198.51.100.7 from 0.0.0.0 iif lo mark 0xca6c
0:\tfrom all lookup local
\ttable local: no route
32764:\tfrom all lookup main suppress_prefixlength 0
\ttable main: default via 192.0.2.1 dev eth0
\tsuppressed: its prefix length is 0
32765:\tnot from all fwmark 0xca6c lookup 51820
\tno: all of it holds, and 'not' turns that round
32766:\tfrom all lookup main
\ttable main: default via 192.0.2.1 dev eth0
answer 5 rule 32766 table main default via 192.0.2.1 dev eth0
";

/// Packets leave where their source belongs, and all others by the first uplink.
const UPLINKS: &str = "route add default via 192.0.2.1 dev eth0 table 100
route add default via 198.51.100.1 dev eth1 table 200
rule add from 192.0.2.10 table 100 priority 100
rule add from 198.51.100.10 table 200 priority 200
route add default via 192.0.2.1 dev eth0 metric 10
route add default via 198.51.100.1 dev eth1 metric 20";

const UPLINKS_WITHOUT_SOURCE: &str = "packet to 203.0.113.5 from 0.0.0.0 iif lo mark 0x0
0:\tfrom all lookup local
\ttable local: no route
100:\tfrom 192.0.2.10 lookup 100
\tno: from 192.0.2.10
200:\tfrom 198.51.100.10 lookup 200
\tno: from 198.51.100.10
32766:\tfrom all lookup main
\ttable main: default via 192.0.2.1 dev eth0 metric 10
\tbefore default via 198.51.100.1 dev eth1 metric 20: lower metric
answer 6 rule 32766 table main default via 192.0.2.1 dev eth0 metric 10
";

const UPLINKS_WITH_SOURCE: &str = "packet to 203.0.113.5 from 198.51.100.10 iif lo mark 0x0
0:\tfrom all lookup local
\ttable local: no route
100:\tfrom 192.0.2.10 lookup 100
\tno: from 192.0.2.10
200:\tfrom 198.51.100.10 lookup 200
\ttable 200: default via 198.51.100.1 dev eth1
answer 6 rule 200 table 200 default via 198.51.100.1 dev eth1
";

const THROW: &str = "route add throw 10.0.0.0/8 table 100
rule add priority 500 table 100
route add default via 192.0.2.1";

const THROW_FALLS_THROUGH: &str = "packet to 10.1.2.3 from 0.0.0.0 iif lo mark 0x0
0:\tfrom all lookup local
\ttable local: no route
500:\tfrom all lookup 100
\ttable 100: throw 10.0.0.0/8
\tthrow: the lookup ends here, and the rule says nothing
32766:\tfrom all lookup main
\ttable main: default via 192.0.2.1
answer 3 rule 32766 table main default via 192.0.2.1
";

const FAILURES: &str = "route add blackhole 10.0.0.0/8
route add prohibit 10.2.0.0/16
rule add priority 10 from 192.0.2.0/24 blackhole
rule add priority 11 iif eth1 unreachable";

const FAILURE_OF_A_ROUTE: &str = "packet to 10.2.0.1 from 0.0.0.0 iif lo mark 0x0
0:\tfrom all lookup local
\ttable local: no route
10:\tfrom 192.0.2.0/24 blackhole
\tno: from 192.0.2.0/24
11:\tfrom all iif eth1 unreachable
\tno: iif eth1
32766:\tfrom all lookup main
\ttable main: prohibit 10.2.0.0/16
\tbefore blackhole 10.0.0.0/8: longer prefix
answer 4 rule 32766 table main prohibit 10.2.0.0/16
";

const FAILURE_OF_A_RULE: &str = "packet to 10.3.0.1 from 0.0.0.0 iif eth1 mark 0x0
0:\tfrom all lookup local
\ttable local: no route
10:\tfrom 192.0.2.0/24 blackhole
\tno: from 192.0.2.0/24
11:\tfrom all iif eth1 unreachable
\tthe rule itself decides
answer 4 rule 11 unreachable
";

const SELECTORS: &str = "rule add priority 5 from 10.0.0.1/8 table 100
rule add priority 6 to 10/8 iif a fwmark 0x10/0xF0 prohibit";

const SELECTORS_FAIL: &str = "packet to 11.0.0.1 from 10.0.0.1 iif a mark 0x1f
0:\tfrom all lookup local
\ttable local: no route
5:\tfrom 10.0.0.0/8 lookup 100
\ttable 100: no route
6:\tfrom all to 10.0.0.0/8 fwmark 0x10/0xf0 iif a prohibit
\tno: to 10.0.0.0/8
32766:\tfrom all lookup main
\ttable main: no route
32767:\tfrom all lookup default
\ttable default: no route
answer 2 none
";

const MARK_FAILS: &str = "packet to 10.0.0.1 from 0.0.0.0 iif b mark 0x2f
0:\tfrom all lookup local
\ttable local: no route
5:\tfrom 10.0.0.0/8 lookup 100
\tno: from 10.0.0.0/8
6:\tfrom all to 10.0.0.0/8 fwmark 0x10/0xf0 iif a prohibit
\tno: fwmark 0x10/0xf0
32766:\tfrom all lookup main
\ttable main: no route
32767:\tfrom all lookup default
\ttable default: no route
answer 2 none
";

/// Returns the version after the command.
fn version_with(version: &Version, command: &Command) -> Result<Version, Refusal> {
    match version.check(command) {
        Ok(change) => version.next(&change),
        Err(refusal) => Err(refusal),
    }
}

/// Returns the version after the command of this line.
fn next_version(version: &Version, line: &str) -> Result<Version, Refusal> {
    match read_line(line.as_bytes())? {
        Some(Request::Command(command)) => version_with(version, &command),
        _ => Err(Refusal::UnknownVerb),
    }
}

/// Returns the version of a new database after the commands of this script.
fn version_after(alloc: Global, script: &str) -> Result<Version, Refusal> {
    let mut version = Version::opening(alloc)?;
    for line in script.lines() {
        version = next_version(&version, line)?;
    }
    Ok(version)
}

/// Explains the answer to this line, on a new database after the commands of this script.
fn explanation(alloc: Global, script: &str, line: &str) -> Result<Vec<u8>, Fail> {
    let version = version_after(alloc, script)?;
    let mut text = Vec::new(alloc);
    match read_line(line.as_bytes())? {
        Some(Request::Query(Query::Get(packet))) => {
            explanation_text(&mut text, &version, &packet)?;
        }
        _ => return Err(Fail::from(Refusal::UnknownVerb)),
    }
    Ok(text)
}

#[test]
fn explains(rt: HostRuntime) -> Result<(), Fail> {
    for (script, line, text) in [
        (TUNNEL, "route get 192.0.2.7", TUNNEL_TO_A_NETWORK),
        (TUNNEL, "route get 198.51.100.7", TUNNEL_TO_ALL_ELSE),
        (
            TUNNEL,
            "route get 198.51.100.7 mark 51820",
            TUNNEL_OF_THE_TUNNEL,
        ),
        (UPLINKS, "route get 203.0.113.5", UPLINKS_WITHOUT_SOURCE),
        (
            UPLINKS,
            "route get 203.0.113.5 from 198.51.100.10",
            UPLINKS_WITH_SOURCE,
        ),
        (THROW, "route get 10.1.2.3", THROW_FALLS_THROUGH),
        (FAILURES, "route get 10.2.0.1", FAILURE_OF_A_ROUTE),
        (FAILURES, "route get 10.3.0.1 iif eth1", FAILURE_OF_A_RULE),
        (
            SELECTORS,
            "route get 11.0.0.1 from 10.0.0.1 iif a mark 0x1f",
            SELECTORS_FAIL,
        ),
        (SELECTORS, "route get 10.0.0.1 iif b mark 0x2f", MARK_FAILS),
    ] {
        assert_eq!(rt;
            explanation(rt.alloc(), script, line)?.as_slice(),
            text.as_bytes(),
            "at {line}"
        );
    }
    Ok(())
}
