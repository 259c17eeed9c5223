use super::script::{joined, version_after};
use prt_addr::read_addr;
use prt_command::{Packet, Query, Refusal, Request, read_line};
use prt_json::{answer_json, routes_json, rules_json, tables_json};
use prt_route::read_dev;
use prt_version::Version;
use std::alloc::Global;
use std::test::Fail;

// What is expected here was printed by `ip -j` of iproute2 6.1.0, in a network namespace with these routes and rules.
// What the kernel adds to table local, `uid`, and `iif_detached` are left out. Routes are in the order of listings.

const ROUTES: &str = "route add 192.0.2.0/24 dev eth0 proto kernel scope link src 192.0.2.10
route add 198.51.100.0/24 dev eth1 proto kernel scope link src 198.51.100.10
route add 0.0.0.0/1 dev wg0
route add blackhole 0.0.0.0/32
route add default via 192.0.2.1 dev eth0
route add default via 198.51.100.1 dev eth1 metric 20
route add 10.0.0.0/8 via 192.0.2.1 dev eth0 proto static src 192.0.2.10 metric 4294967295
route add 10.1.2.3 dev wg0 proto bgp scope global
route add 10.2.0.0/16 dev wg0 proto 17 scope 77
route add 10.3.0.0/16 dev wg0 proto dhcp scope host
route add 10.4.0.0/16 dev wg0 scope site
route add throw 172.16.0.0/12
route add unreachable 172.17.0.0/16 metric 5
route add prohibit 172.18.0.0/16 proto static
route add throw default table 100
route add 10.5.0.0/16 dev wg0 table 100
route add 10.6.0.0/16 via 198.51.100.1 dev eth1 proto static src 198.51.100.10 metric 20 table 100
route add blackhole 10.7.0.0/16 table 100
route add 172.30.0.0/16 via 192.0.2.1 dev eth0 table default
route add 172.31.1.0/24 via 192.0.2.1 dev eth0 table 4294967295";

const RULES: &str = "rule add from 10.0.0.0/24 to 10.1.0.0/16 lookup main priority 104
rule add not from 10.0.0.1 table 4294967295 priority 105
rule add to 10.9.0.1 blackhole priority 106
rule add to 0.0.0.0/1 fwmark 0x7/0xff iif eth0 table 12345 priority 107
rule add not fwmark 7 table 253 priority 108
rule add fwmark 0/0xff table 100 priority 109
rule add fwmark 0/0 table 100 priority 110
rule add fwmark 4294967295 table 100 priority 111
rule add fwmark 7/0 table 100 priority 112
rule add table main suppress_prefixlength 0 priority 117
rule add from 10.2.0.0/16 unreachable priority 120
rule add from 0.0.0.0/32 to 10.8.0.0/16 prohibit priority 121
rule add not from 10.0.0.0/24 to 10.1.0.1 fwmark 0x10/0xf0 iif eth0 table 12345 suppress_prefixlength 8 priority 122
rule add from 0.0.0.0/1 table local priority 125
rule add iif a\"b\\ table 100 priority 131";

const SHOWN_ROUTES: [(&str, &str); 8] = [
    (
        "route show table all",
        r#"[{"type":"throw","dst":"default","table":"100","flags":[]},
{"dst":"10.5.0.0/16","dev":"wg0","table":"100","scope":"link","flags":[]},
{"dst":"10.6.0.0/16","gateway":"198.51.100.1","dev":"eth1","table":"100","protocol":"static","prefsrc":"198.51.100.10","metric":20,"flags":[]},
{"type":"blackhole","dst":"10.7.0.0/16","table":"100","flags":[]},
{"dst":"172.30.0.0/16","gateway":"192.0.2.1","dev":"eth0","table":"default","flags":[]},
{"dst":"default","gateway":"192.0.2.1","dev":"eth0","flags":[]},
{"dst":"default","gateway":"198.51.100.1","dev":"eth1","metric":20,"flags":[]},
{"dst":"0.0.0.0/1","dev":"wg0","scope":"link","flags":[]},
{"type":"blackhole","dst":"0.0.0.0","flags":[]},
{"dst":"10.0.0.0/8","gateway":"192.0.2.1","dev":"eth0","protocol":"static","prefsrc":"192.0.2.10","metric":4294967295,"flags":[]},
{"dst":"10.1.2.3","dev":"wg0","protocol":"bgp","flags":[]},
{"dst":"10.2.0.0/16","dev":"wg0","protocol":"17","scope":"77","flags":[]},
{"dst":"10.3.0.0/16","dev":"wg0","protocol":"dhcp","scope":"host","flags":[]},
{"dst":"10.4.0.0/16","dev":"wg0","scope":"site","flags":[]},
{"type":"throw","dst":"172.16.0.0/12","flags":[]},
{"type":"unreachable","dst":"172.17.0.0/16","metric":5,"flags":[]},
{"type":"prohibit","dst":"172.18.0.0/16","protocol":"static","flags":[]},
{"dst":"192.0.2.0/24","dev":"eth0","protocol":"kernel","scope":"link","prefsrc":"192.0.2.10","flags":[]},
{"dst":"198.51.100.0/24","dev":"eth1","protocol":"kernel","scope":"link","prefsrc":"198.51.100.10","flags":[]},
{"dst":"172.31.1.0/24","gateway":"192.0.2.1","dev":"eth0","table":"4294967295","flags":[]}]"#,
    ),
    (
        "route show table 100",
        r#"[{"type":"throw","dst":"default","flags":[]},
{"dst":"10.5.0.0/16","dev":"wg0","scope":"link","flags":[]},
{"dst":"10.6.0.0/16","gateway":"198.51.100.1","dev":"eth1","protocol":"static","prefsrc":"198.51.100.10","metric":20,"flags":[]},
{"type":"blackhole","dst":"10.7.0.0/16","flags":[]}]"#,
    ),
    (
        "route show dev wg0",
        r#"[{"dst":"0.0.0.0/1","scope":"link","flags":[]},
{"dst":"10.1.2.3","protocol":"bgp","flags":[]},
{"dst":"10.2.0.0/16","protocol":"17","scope":"77","flags":[]},
{"dst":"10.3.0.0/16","protocol":"dhcp","scope":"host","flags":[]},
{"dst":"10.4.0.0/16","scope":"site","flags":[]}]"#,
    ),
    (
        "route show table all proto static",
        r#"[{"dst":"10.6.0.0/16","gateway":"198.51.100.1","dev":"eth1","table":"100","prefsrc":"198.51.100.10","metric":20,"flags":[]},
{"dst":"10.0.0.0/8","gateway":"192.0.2.1","dev":"eth0","prefsrc":"192.0.2.10","metric":4294967295,"flags":[]},
{"type":"prohibit","dst":"172.18.0.0/16","flags":[]}]"#,
    ),
    (
        "route show scope host dev wg0 proto dhcp",
        r#"[{"dst":"10.3.0.0/16","flags":[]}]"#,
    ),
    (
        "route show scope link",
        r#"[{"dst":"0.0.0.0/1","dev":"wg0","flags":[]},
{"dst":"192.0.2.0/24","dev":"eth0","protocol":"kernel","prefsrc":"192.0.2.10","flags":[]},
{"dst":"198.51.100.0/24","dev":"eth1","protocol":"kernel","prefsrc":"198.51.100.10","flags":[]}]"#,
    ),
    (
        "route show root 172.16.0.0/12",
        r#"[{"type":"throw","dst":"172.16.0.0/12","flags":[]},
{"type":"unreachable","dst":"172.17.0.0/16","metric":5,"flags":[]},
{"type":"prohibit","dst":"172.18.0.0/16","protocol":"static","flags":[]}]"#,
    ),
    ("route show root 203.0.113.0/24", "[]"),
];

const SHOWN_RULES: &str = r#"[{"priority":0,"src":"all","table":"local"},
{"priority":104,"src":"10.0.0.0","srclen":24,"dst":"10.1.0.0","dstlen":16,"table":"main"},
{"priority":105,"not":null,"src":"10.0.0.1","table":"4294967295"},
{"priority":106,"src":"all","dst":"10.9.0.1","action":"blackhole"},
{"priority":107,"src":"all","dst":"0.0.0.0","dstlen":1,"fwmark":"0x7","fwmask":"0xff","iif":"eth0","table":"12345"},
{"priority":108,"not":null,"src":"all","fwmark":"0x7","table":"default"},
{"priority":109,"src":"all","fwmark":"0","fwmask":"0xff","table":"100"},
{"priority":110,"src":"all","table":"100"},
{"priority":111,"src":"all","fwmark":"0xffffffff","table":"100"},
{"priority":112,"src":"all","fwmark":"0x7","fwmask":"0","table":"100"},
{"priority":117,"src":"all","table":"main","suppress_prefixlen":0},
{"priority":120,"src":"10.2.0.0","srclen":16,"action":"unreachable"},
{"priority":121,"src":"0.0.0.0","dst":"10.8.0.0","dstlen":16,"action":"prohibit"},
{"priority":122,"not":null,"src":"10.0.0.0","srclen":24,"dst":"10.1.0.1","fwmark":"0x10","fwmask":"0xf0","iif":"eth0","table":"12345","suppress_prefixlen":8},
{"priority":125,"src":"0.0.0.0","srclen":1,"table":"local"},
{"priority":131,"src":"all","iif":"a\"b\\","table":"100"},
{"priority":32766,"src":"all","table":"main"},
{"priority":32767,"src":"all","table":"default"}]"#;

const POLICY: &str =
    "route add 10.0.0.0/8 via 192.0.2.1 dev eth0 proto static src 192.0.2.10 metric 7
route add 10.5.0.0/16 dev wg0 table 100
route add 10.6.0.0/16 via 198.51.100.1 dev eth1 proto static src 198.51.100.10 metric 20 table 100
route add blackhole 10.7.0.0/16 table 100
route add 10.8.0.0/16 via 192.0.2.1 dev eth0 table default
rule add table 100 priority 100
rule add to 10.9.0.0/16 prohibit priority 101
rule add iif eth1 fwmark 5 table default priority 102";

const ANSWERS: [(&str, &str); 7] = [
    (
        "route get 10.0.0.5",
        r#"[{"dst":"10.0.0.5","gateway":"192.0.2.1","dev":"eth0","prefsrc":"192.0.2.10","flags":[],"cache":[]}]"#,
    ),
    (
        "route get 10.6.0.1",
        r#"[{"dst":"10.6.0.1","gateway":"198.51.100.1","dev":"eth1","table":"100","prefsrc":"198.51.100.10","flags":[],"cache":[]}]"#,
    ),
    (
        "route get 10.6.0.1 mark 7",
        r#"[{"dst":"10.6.0.1","gateway":"198.51.100.1","dev":"eth1","table":"100","prefsrc":"198.51.100.10","flags":[],"mark":7,"cache":[]}]"#,
    ),
    (
        "route get 10.6.0.1 from 192.0.2.10",
        r#"[{"dst":"10.6.0.1","from":"192.0.2.10","gateway":"198.51.100.1","dev":"eth1","table":"100","flags":[],"cache":[]}]"#,
    ),
    (
        "route get 10.6.0.1 from 203.0.113.5 iif eth0 mark 4294967295",
        r#"[{"dst":"10.6.0.1","from":"203.0.113.5","gateway":"198.51.100.1","dev":"eth1","table":"100","flags":[],"mark":4294967295,"cache":[],"iif":"eth0"}]"#,
    ),
    (
        "route get 10.5.0.1 from 192.0.2.10",
        r#"[{"dst":"10.5.0.1","from":"192.0.2.10","dev":"wg0","table":"100","flags":[],"cache":[]}]"#,
    ),
    (
        "route get 10.8.0.1 from 203.0.113.5 iif eth1 mark 5",
        r#"[{"dst":"10.8.0.1","from":"203.0.113.5","gateway":"192.0.2.1","dev":"eth0","table":"default","flags":[],"mark":5,"cache":[],"iif":"eth1"}]"#,
    ),
];

// `ip` prints no JSON for these, and fails.
const DROPPED: [(&str, &str); 3] = [
    (
        "route get 10.7.0.1 mark 9",
        r#"[{"type":"blackhole","dst":"10.7.0.1","table":"100","flags":[],"mark":9,"cache":[]}]"#,
    ),
    (
        "route get 10.9.0.1 from 192.0.2.10",
        r#"[{"type":"prohibit","dst":"10.9.0.1","from":"192.0.2.10","flags":[],"cache":[]}]"#,
    ),
    ("route get 11.0.0.1", "[]"),
];

/// Returns what the query of this line shows.
fn shown(alloc: Global, version: &Version, line: &str) -> Result<Vec<u8>, Fail> {
    let mut out = Vec::new(alloc);
    match read_line(line.as_bytes())? {
        Some(Request::Query(Query::RouteShow(selector))) => {
            routes_json(&mut out, version, &selector)?
        }
        Some(Request::Query(Query::RuleShow)) => rules_json(&mut out, version)?,
        Some(Request::Query(Query::Get(packet))) => answer_json(&mut out, version, &packet)?,
        _ => return Err(Fail::from(Refusal::UnknownVerb)),
    }
    Ok(out)
}

/// Checks whether the query of each line shows what is expected.
fn is_shown(alloc: Global, version: &Version, rows: &[(&str, &str)]) -> Result<bool, Fail> {
    for (line, expected) in rows {
        let expected = joined(alloc, expected)?;
        if shown(alloc, version, line)?.as_slice() != expected.as_slice() {
            return Ok(false);
        }
    }
    Ok(true)
}

#[test]
fn routes(rt: HostRuntime) -> Result<(), Fail> {
    let version = version_after(rt.alloc(), ROUTES)?;
    assert!(rt; is_shown(rt.alloc(), &version, &SHOWN_ROUTES)?);
    Ok(())
}

#[test]
fn rules(rt: HostRuntime) -> Result<(), Fail> {
    let version = version_after(rt.alloc(), RULES)?;
    assert!(rt; is_shown(rt.alloc(), &version, &[("rule show", SHOWN_RULES)])?);
    Ok(())
}

#[test]
fn answers(rt: HostRuntime) -> Result<(), Fail> {
    let version = version_after(rt.alloc(), POLICY)?;
    assert!(rt; is_shown(rt.alloc(), &version, &ANSWERS)?);
    assert!(rt; is_shown(rt.alloc(), &version, &DROPPED)?);
    Ok(())
}

const FEW: &str = "rule flush
route add blackhole 10.7.0.0/16 table 100
rule add from 10.2.0.0/16 unreachable priority 120
route add 10.1.2.3 dev wg0 proto bgp scope global";

// The objects are those that `ip` printed.
const TABLES: &str = r#"{"number":4,"rules":[{"priority":0,"src":"all","table":"local"},
{"priority":120,"src":"10.2.0.0","srclen":16,"action":"unreachable"}],
"routes":[{"type":"blackhole","dst":"10.7.0.0/16","table":"100","flags":[]},
{"dst":"10.1.2.3","dev":"wg0","protocol":"bgp","flags":[]}]}"#;

#[test]
fn tables_after_text(rt: HostRuntime) -> Result<(), Fail> {
    let version = version_after(rt.alloc(), FEW)?;
    let mut out = Vec::from_slice(rt.alloc(), b"before ")?;
    tables_json(&mut out, &version)?;
    let expected = joined(rt.alloc(), TABLES)?;
    assert!(rt; out.as_slice().strip_prefix(b"before ") == Some(expected.as_slice()));
    Ok(())
}

// `ip` writes the byte as it is, which is no JSON: here U+FFFD is in its place.
const REPLACED: &str =
    r#"[{"type":"blackhole","dst":"10.1.2.3","flags":[],"cache":[],"iif":"a�b"}]"#;

#[test]
fn name_that_is_no_text(rt: HostRuntime) -> Result<(), Fail> {
    let version = version_after(rt.alloc(), "rule add blackhole priority 7")?;
    let packet = Packet {
        dst: read_addr(b"10.1.2.3")?,
        src: read_addr(b"0.0.0.0")?,
        iif: read_dev(b"a\xffb")?,
        mark: 0,
    };
    let mut out = Vec::new(rt.alloc());
    answer_json(&mut out, &version, &packet)?;
    assert!(rt; out.as_slice() == joined(rt.alloc(), REPLACED)?.as_slice());
    Ok(())
}
