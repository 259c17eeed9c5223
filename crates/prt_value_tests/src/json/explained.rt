use super::script::{joined, version_after};
use prt_command::{Query, Refusal, Request, read_line};
use prt_json::explanation_json;
use prt_version::Version;
use std::alloc::Global;
use std::test::Fail;

// The rules, the routes and the answers are written as `ip -j` prints such ones. What comes after a rule says what the
// lines under it say in the text of an explanation.

/// `wg-quick` sends a machine's packets through its tunnel like this.
const TUNNEL: &str = "route add 192.0.2.0/24 dev eth0
route add default via 192.0.2.1 dev eth0
rule add not fwmark 51820 table 51820
rule add table main suppress_prefixlength 0
route add default dev wg0 table 51820";

const OF_THE_TUNNEL: [(&str, &str); 3] = [
    (
        "route get 192.0.2.7",
        r#"{"packet":{"dst":"192.0.2.7","src":"0.0.0.0","iif":"lo","mark":0},
"rules":[{"priority":0,"src":"all","table":"local","matches":true,"decides":false},
{"priority":32764,"src":"all","table":"main","suppress_prefixlen":0,"matches":true,
"found":{"dst":"192.0.2.0/24","dev":"eth0","scope":"link","flags":[]},
"runner_up":{"dst":"default","gateway":"192.0.2.1","dev":"eth0","flags":[]},
"suppressed":false,"decides":true}],
"answer":[{"dst":"192.0.2.7","dev":"eth0","flags":[],"cache":[]}]}"#,
    ),
    (
        "route get 198.51.100.7",
        r#"{"packet":{"dst":"198.51.100.7","src":"0.0.0.0","iif":"lo","mark":0},
"rules":[{"priority":0,"src":"all","table":"local","matches":true,"decides":false},
{"priority":32764,"src":"all","table":"main","suppress_prefixlen":0,"matches":true,
"found":{"dst":"default","gateway":"192.0.2.1","dev":"eth0","flags":[]},
"suppressed":true,"decides":false},
{"priority":32765,"not":null,"src":"all","fwmark":"0xca6c","table":"51820","matches":true,"mismatch":"fwmark 0xca6c",
"found":{"dst":"default","dev":"wg0","table":"51820","scope":"link","flags":[]},
"suppressed":false,"decides":true}],
"answer":[{"dst":"198.51.100.7","dev":"wg0","table":"51820","flags":[],"cache":[]}]}"#,
    ),
    (
        "route get 198.51.100.7 mark 51820",
        r#"{"packet":{"dst":"198.51.100.7","src":"0.0.0.0","iif":"lo","mark":51820},
"rules":[{"priority":0,"src":"all","table":"local","matches":true,"decides":false},
{"priority":32764,"src":"all","table":"main","suppress_prefixlen":0,"matches":true,
"found":{"dst":"default","gateway":"192.0.2.1","dev":"eth0","flags":[]},
"suppressed":true,"decides":false},
{"priority":32765,"not":null,"src":"all","fwmark":"0xca6c","table":"51820","matches":false,"decides":false},
{"priority":32766,"src":"all","table":"main","matches":true,
"found":{"dst":"default","gateway":"192.0.2.1","dev":"eth0","flags":[]},
"suppressed":false,"decides":true}],
"answer":[{"dst":"198.51.100.7","gateway":"192.0.2.1","dev":"eth0","flags":[],"mark":51820,"cache":[]}]}"#,
    ),
];

/// Packets leave where their source belongs, and all others by the first uplink.
const UPLINKS: &str = "route add default via 192.0.2.1 dev eth0 table 100
route add default via 198.51.100.1 dev eth1 table 200
rule add from 192.0.2.10 table 100 priority 100
rule add from 198.51.100.10 table 200 priority 200
route add default via 192.0.2.1 dev eth0 metric 10
route add default via 198.51.100.1 dev eth1 metric 20";

const OF_UPLINKS: [(&str, &str); 2] = [
    (
        "route get 203.0.113.5",
        r#"{"packet":{"dst":"203.0.113.5","src":"0.0.0.0","iif":"lo","mark":0},
"rules":[{"priority":0,"src":"all","table":"local","matches":true,"decides":false},
{"priority":100,"src":"192.0.2.10","table":"100","matches":false,"mismatch":"from 192.0.2.10","decides":false},
{"priority":200,"src":"198.51.100.10","table":"200","matches":false,"mismatch":"from 198.51.100.10","decides":false},
{"priority":32766,"src":"all","table":"main","matches":true,
"found":{"dst":"default","gateway":"192.0.2.1","dev":"eth0","metric":10,"flags":[]},
"runner_up":{"dst":"default","gateway":"198.51.100.1","dev":"eth1","metric":20,"flags":[]},
"suppressed":false,"decides":true}],
"answer":[{"dst":"203.0.113.5","gateway":"192.0.2.1","dev":"eth0","flags":[],"cache":[]}]}"#,
    ),
    (
        "route get 203.0.113.5 from 198.51.100.10",
        r#"{"packet":{"dst":"203.0.113.5","src":"198.51.100.10","iif":"lo","mark":0},
"rules":[{"priority":0,"src":"all","table":"local","matches":true,"decides":false},
{"priority":100,"src":"192.0.2.10","table":"100","matches":false,"mismatch":"from 192.0.2.10","decides":false},
{"priority":200,"src":"198.51.100.10","table":"200","matches":true,
"found":{"dst":"default","gateway":"198.51.100.1","dev":"eth1","table":"200","flags":[]},
"suppressed":false,"decides":true}],
"answer":[{"dst":"203.0.113.5","from":"198.51.100.10","gateway":"198.51.100.1","dev":"eth1","table":"200","flags":[],"cache":[]}]}"#,
    ),
];

const THROW: &str = "route add throw 10.0.0.0/8 table 100
rule add priority 500 table 100
route add default via 192.0.2.1";

const OF_THROW: [(&str, &str); 1] = [(
    "route get 10.1.2.3",
    r#"{"packet":{"dst":"10.1.2.3","src":"0.0.0.0","iif":"lo","mark":0},
"rules":[{"priority":0,"src":"all","table":"local","matches":true,"decides":false},
{"priority":500,"src":"all","table":"100","matches":true,
"found":{"type":"throw","dst":"10.0.0.0/8","table":"100","flags":[]},
"suppressed":false,"decides":false},
{"priority":32766,"src":"all","table":"main","matches":true,
"found":{"dst":"default","gateway":"192.0.2.1","flags":[]},
"suppressed":false,"decides":true}],
"answer":[{"dst":"10.1.2.3","gateway":"192.0.2.1","flags":[],"cache":[]}]}"#,
)];

const FAILURES: &str = "route add blackhole 10.0.0.0/8
route add prohibit 10.2.0.0/16
rule add priority 10 from 192.0.2.0/24 blackhole
rule add priority 11 iif eth1 unreachable";

const OF_FAILURES: [(&str, &str); 2] = [
    (
        "route get 10.2.0.1",
        r#"{"packet":{"dst":"10.2.0.1","src":"0.0.0.0","iif":"lo","mark":0},
"rules":[{"priority":0,"src":"all","table":"local","matches":true,"decides":false},
{"priority":10,"src":"192.0.2.0","srclen":24,"action":"blackhole","matches":false,"mismatch":"from 192.0.2.0/24","decides":false},
{"priority":11,"src":"all","iif":"eth1","action":"unreachable","matches":false,"mismatch":"iif eth1","decides":false},
{"priority":32766,"src":"all","table":"main","matches":true,
"found":{"type":"prohibit","dst":"10.2.0.0/16","flags":[]},
"runner_up":{"type":"blackhole","dst":"10.0.0.0/8","flags":[]},
"suppressed":false,"decides":true}],
"answer":[{"type":"prohibit","dst":"10.2.0.1","flags":[],"cache":[]}]}"#,
    ),
    (
        "route get 10.3.0.1 iif eth1",
        r#"{"packet":{"dst":"10.3.0.1","src":"0.0.0.0","iif":"eth1","mark":0},
"rules":[{"priority":0,"src":"all","table":"local","matches":true,"decides":false},
{"priority":10,"src":"192.0.2.0","srclen":24,"action":"blackhole","matches":false,"mismatch":"from 192.0.2.0/24","decides":false},
{"priority":11,"src":"all","iif":"eth1","action":"unreachable","matches":true,"decides":true}],
"answer":[{"type":"unreachable","dst":"10.3.0.1","flags":[],"cache":[],"iif":"eth1"}]}"#,
    ),
];

const SELECTORS: &str = "rule add priority 5 from 10.0.0.1/8 table 100
rule add priority 6 to 10/8 iif a fwmark 0x10/0xF0 prohibit";

const OF_SELECTORS: [(&str, &str); 1] = [(
    "route get 10.0.0.1 iif b mark 0x2f",
    r#"{"packet":{"dst":"10.0.0.1","src":"0.0.0.0","iif":"b","mark":47},
"rules":[{"priority":0,"src":"all","table":"local","matches":true,"decides":false},
{"priority":5,"src":"10.0.0.0","srclen":8,"table":"100","matches":false,"mismatch":"from 10.0.0.0/8","decides":false},
{"priority":6,"src":"all","dst":"10.0.0.0","dstlen":8,"fwmark":"0x10","fwmask":"0xf0","iif":"a","action":"prohibit","matches":false,"mismatch":"fwmark 0x10/0xf0","decides":false},
{"priority":32766,"src":"all","table":"main","matches":true,"decides":false},
{"priority":32767,"src":"all","table":"default","matches":true,"decides":false}],
"answer":[]}"#,
)];

/// Explains the answer to this line.
fn explanation(alloc: Global, version: &Version, line: &str) -> Result<Vec<u8>, Fail> {
    let mut out = Vec::new(alloc);
    match read_line(line.as_bytes())? {
        Some(Request::Query(Query::Get(packet))) => explanation_json(&mut out, version, &packet)?,
        _ => return Err(Fail::from(Refusal::UnknownVerb)),
    }
    Ok(out)
}

/// Checks whether each line is explained as expected, on a new database after the commands of this script.
fn is_explained(alloc: Global, script: &str, rows: &[(&str, &str)]) -> Result<bool, Fail> {
    let version = version_after(alloc, script)?;
    for (line, expected) in rows {
        let expected = joined(alloc, expected)?;
        if explanation(alloc, &version, line)?.as_slice() != expected.as_slice() {
            return Ok(false);
        }
    }
    Ok(true)
}

#[test]
fn suppressed_and_inverted(rt: HostRuntime) -> Result<(), Fail> {
    assert!(rt; is_explained(rt.alloc(), TUNNEL, &OF_THE_TUNNEL)?);
    Ok(())
}

#[test]
fn runners_up(rt: HostRuntime) -> Result<(), Fail> {
    assert!(rt; is_explained(rt.alloc(), UPLINKS, &OF_UPLINKS)?);
    Ok(())
}

#[test]
fn throw_routes(rt: HostRuntime) -> Result<(), Fail> {
    assert!(rt; is_explained(rt.alloc(), THROW, &OF_THROW)?);
    Ok(())
}

#[test]
fn failures(rt: HostRuntime) -> Result<(), Fail> {
    assert!(rt; is_explained(rt.alloc(), FAILURES, &OF_FAILURES)?);
    Ok(())
}

#[test]
fn nothing_decides(rt: HostRuntime) -> Result<(), Fail> {
    assert!(rt; is_explained(rt.alloc(), SELECTORS, &OF_SELECTORS)?);
    Ok(())
}
