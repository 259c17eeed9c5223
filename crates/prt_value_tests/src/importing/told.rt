//! What is reported of lines: each thing that `ip` prints and no line here can say.
use prt_import::{HostNames, OmittedLine, accept, import};
use std::alloc::Global;
use std::test::Fail;

/// What `ip -4 rule` and `ip -4 route show table all` of iproute2 6.1 printed, and a few lines by hand.
const LISTING: &str = "16:\tfrom all oif eth0 lookup 7
17:\tfrom all ipproto tcp sport 80 dport 100-200 lookup 7
18:\tfrom all tun_id 5 lookup 7
19:\tfrom all uidrange 0-100 lookup 7
20:\tfrom all goto 32766
21:\tfrom all nop
22:\tfrom all lookup [l3mdev-table]
23:\tfrom all lookup 7 realms 3/4
24:\tfrom all lookup 7 suppress_ifgroup 5
25:\tfrom all tos 0x10 lookup 7
27:\tfrom all goto 50000 [unresolved]
29:\tfrom 10.1.2.3 lookup 7 masquerade
46:\tfrom all to 10.0.0.0/8 throw
47:\tfrom 2001:db8::/32 lookup 7
48:\tfrom all lookup elsewhere
49:\tfrom all sport 80 lookup 7
50:\tfrom all iif a#b lookup 7
51:\tfrom all blackhole suppress_prefixlength 8
local 10.17.0.0/16 dev lo table 100 scope host 
10.2.0.0/16 proto static 
\tnexthop via 192.0.2.7 dev eth0 weight 1 
\tnexthop via 198.51.100.1 dev eth1 weight 2 dead onlink linkdown 
10.7.0.0/16 nhid 5 via 192.0.2.8 dev eth0 
10.9.0.0/16  encap ip id 10 src 0.0.0.0 dst 10.1.1.1 ttl 0 tos 0 via 192.0.2.7 dev eth0 
10.10.0.0/16 via inet6 fe80::1 dev eth0 
10.12.0.0/16 tos 0x10 via 192.0.2.7 dev eth0 
multicast 239.0.0.0/8 dev eth0 scope link 
broadcast 10.18.0.255 dev eth0 table local scope link 
local 192.0.2.5 dev eth0 table local proto kernel scope host src 192.0.2.5 
10.20.0.0/16 dev eth0 proto other scope link 
10.20.0.0/16 dev eth0 table elsewhere scope link 
10.20.0.0/16 dev eth0 pref medium 
10.20.0.1/16 dev eth0 scope link 
10.20.0.0/16 dev a#b scope link 
10.20.0.0/16 dev \u{e9} scope link 
fe80::/64 dev eth0 proto kernel metric 256 pref medium
10.20.0.2 via 192.0.2.7 dev eth0 
    cache expires 300sec mtu 1400
[{\"dst\":\"default\",\"gateway\":\"192.0.2.1\",\"dev\":\"eth0\",\"flags\":[]}]
7:\tfrom all lookup 7
\tnexthop via 192.0.2.7 dev eth0 weight 1 
10.26.0.0/16 via 203.0.113.1 dev wg0 onlink 
10.1.0.0/24 dev d1 proto kernel scope link src 10.1.0.5 dead linkdown 
";

const LEFT: &str = "line 1: oif: no such selector of rules: 16:\tfrom all oif eth0 lookup 7
line 2: ipproto: no such selector of rules: 17:\tfrom all ipproto tcp sport 80 dport 100-200 lookup 7
line 3: tun_id: no such selector of rules: 18:\tfrom all tun_id 5 lookup 7
line 4: uidrange: no such selector of rules: 19:\tfrom all uidrange 0-100 lookup 7
line 5: goto: no such action of rules: 20:\tfrom all goto 32766
line 6: nop: no such action of rules: 21:\tfrom all nop
line 7: [l3mdev-table]: no such selector of rules: 22:\tfrom all lookup [l3mdev-table]
line 8: realms: no such selector of rules: 23:\tfrom all lookup 7 realms 3/4
line 9: suppress_ifgroup: no such selector of rules: 24:\tfrom all lookup 7 suppress_ifgroup 5
line 10: tos: no such selector of rules: 25:\tfrom all tos 0x10 lookup 7
line 11: goto: no such action of rules: 27:\tfrom all goto 50000 [unresolved]
line 12: masquerade: no such action of rules: 29:\tfrom 10.1.2.3 lookup 7 masquerade
line 13: throw: no such action of rules: 46:\tfrom all to 10.0.0.0/8 throw
line 14: 2001:db8::/32: another family of addresses: 47:\tfrom 2001:db8::/32 lookup 7
line 15: elsewhere: unknown name of a table: 48:\tfrom all lookup elsewhere
line 16: sport: no such selector of rules: 49:\tfrom all sport 80 lookup 7
line 17: '#' would begin a comment: 50:\tfrom all iif a#b lookup 7
line 18: SuppressNotAllowed: 51:\tfrom all blackhole suppress_prefixlength 8
line 19: local: no such type of routes: local 10.17.0.0/16 dev lo table 100 scope host
line 20: several next hops: 10.2.0.0/16 proto static
line 23: nhid: a next hop object: 10.7.0.0/16 nhid 5 via 192.0.2.8 dev eth0
line 24: encap: encapsulation: 10.9.0.0/16  encap ip id 10 src 0.0.0.0 dst 10.1.1.1 ttl 0 tos 0 via 192.0.2.7 dev eth0
line 25: inet6: another family of addresses: 10.10.0.0/16 via inet6 fe80::1 dev eth0
line 26: tos: a type of service: 10.12.0.0/16 tos 0x10 via 192.0.2.7 dev eth0
line 27: multicast: no such type of routes: multicast 239.0.0.0/8 dev eth0 scope link
line 28: broadcast: no such type of routes: broadcast 10.18.0.255 dev eth0 table local scope link
line 29: the kernel makes it itself: local 192.0.2.5 dev eth0 table local proto kernel scope host src 192.0.2.5
line 30: other: unknown name of a protocol: 10.20.0.0/16 dev eth0 proto other scope link
line 31: elsewhere: unknown name of a table: 10.20.0.0/16 dev eth0 table elsewhere scope link
line 32: pref: unknown word: 10.20.0.0/16 dev eth0 pref medium
line 33: HostBits: 10.20.0.1/16 dev eth0 scope link
line 34: '#' would begin a comment: 10.20.0.0/16 dev a#b scope link
line 35: NotAscii: 10.20.0.0/16 dev ?? scope link
line 36: fe80::/64: another family of addresses: fe80::/64 dev eth0 proto kernel metric 256 pref medium
line 37: a cached route: 10.20.0.2 via 192.0.2.7 dev eth0
line 39: JSON is not read: [{\"dst\":\"default\",\"gateway\":\"192.0.2.1\",\"dev\":\"eth0\",\"flags\":[]}]
line 41: nexthop: several next hops: nexthop via 192.0.2.7 dev eth0 weight 1
line 42: onlink: a gateway that need not be on the link: 10.26.0.0/16 via 203.0.113.1 dev wg0 onlink
line 43: dead: the kernel passes over it: 10.1.0.0/24 dev d1 proto kernel scope link src 10.1.0.5 dead linkdown
";

/// What `ip -4 route show table all` printed of routes with metrics and flags.
const METRICS: &str =
    "10.0.0.0/8 via 192.0.2.7 dev eth0 proto static mtu 1400 rtt 100ms advmss 1300 initcwnd 10 initrwnd 20 quickack 1 congctl cubic 
10.8.0.0/16 via 203.0.113.1 dev wg0 linkdown 
10.11.0.0/16 via 192.0.2.7 dev eth0 proto bgp metric 20 realms 3/4 
10.19.0.0/16 dev eth0 scope link features ecn 
10.20.0.0/16 dev eth0 scope link mtu lock 1400 window 6000 rttvar 3ms ssthresh 5 cwnd 5 reordering 4 hoplimit 5 rto_min lock 5ms fastopen_no_cookie 1 
";

const METRIC_SCRIPT: &str = "route add 10.19.0.0/16 dev eth0 scope link
route add 10.20.0.0/16 dev eth0 scope link
route add 10.0.0.0/8 via 192.0.2.7 dev eth0 proto static
route add 10.8.0.0/16 via 203.0.113.1 dev wg0
route add 10.11.0.0/16 via 192.0.2.7 dev eth0 proto bgp metric 20
";

/// What is reported as a note of a line: its number and the words.
const NOTES: [(u64, &str); 19] = [
    (1, "mtu"),
    (1, "rtt"),
    (1, "advmss"),
    (1, "initcwnd"),
    (1, "initrwnd"),
    (1, "quickack"),
    (1, "congctl"),
    (2, "linkdown"),
    (3, "realms"),
    (4, "features"),
    (5, "mtu"),
    (5, "window"),
    (5, "rttvar"),
    (5, "ssthresh"),
    (5, "cwnd"),
    (5, "reordering"),
    (5, "hoplimit"),
    (5, "rto_min"),
    (5, "fastopen_no_cookie"),
];

/// Formats a line for each of these.
fn shown(alloc: Global, left: &[OmittedLine]) -> Result<String, Fail> {
    let mut text = String::new(alloc);
    for one in left {
        writeln!(text, "{one}")?;
    }
    Ok(text)
}

#[test]
fn tells_what_is_left_out(rt: HostRuntime) -> Result<(), Fail> {
    let alloc = rt.alloc();
    let read = import(alloc, &HostNames::new(alloc), LISTING.as_bytes())?;
    assert_eq!(rt; shown(alloc, &read.left)?.as_str(), LEFT);
    let script = "rule flush\nrule del priority 0\nrule add priority 7 from all lookup 7\n";
    let first = "# left out: 16: from all oif eth0 lookup 7: no such selector of rules\n";
    assert!(rt; read.script.starts_with(first.as_bytes()));
    assert!(rt; read.script.ends_with(script.as_bytes()));
    assert!(rt; read.notes.is_empty());
    Ok(())
}

#[test]
fn tells_metrics(rt: HostRuntime) -> Result<(), Fail> {
    let alloc = rt.alloc();
    let read = import(alloc, &HostNames::new(alloc), METRICS.as_bytes())?;
    assert_eq!(rt; read.script.as_slice(), METRIC_SCRIPT.as_bytes());
    assert!(rt; read.left.is_empty());
    assert_eq!(rt; read.notes.len(), NOTES.len());
    for (note, (line, word)) in read.notes.iter().zip(&NOTES) {
        assert_eq!(rt; note.line, *line);
        assert_eq!(rt; note.word.as_slice(), word.as_bytes());
    }
    Ok(())
}

#[test]
fn shows_notes(rt: HostRuntime) -> Result<(), Fail> {
    let alloc = rt.alloc();
    let text =
        b"10.8.0.0/16 via 203.0.113.1 dev wg0 linkdown \n28:\tfrom all lookup 7 proto zebra\n";
    let read = import(alloc, &HostNames::new(alloc), text)?;
    let wanted = "line 1: linkdown: kept without it: 10.8.0.0/16 via 203.0.113.1 dev wg0 linkdown
line 2: proto: kept without it: 28:\tfrom all lookup 7 proto zebra\n";
    assert_eq!(rt; shown(alloc, &read.notes)?.as_str(), wanted);
    Ok(())
}

/// What `ip -4 rule` and `ip -4 route show table all` printed of rules that differ by protocol, and of a route that was
/// appended.
const TWICE: &str = "40:\tfrom all lookup 7
40:\tfrom all lookup 7 proto static
10.5.0.0/16 via 192.0.2.7 dev eth0 table 5 
10.5.0.0/16 via 192.0.2.8 dev eth0 table 5 
0.0.0.0/1 dev eth0 scope link 
";

const ONCE: &str = "rule flush
rule del priority 0
rule add priority 40 from all lookup 7
route add 0.0.0.0/1 dev eth0 scope link
route add 10.5.0.0/16 via 192.0.2.7 dev eth0 table 5
";

const REFUSED: &str = "line 4: Exists: rule add priority 40 from all lookup 7
line 7: Exists: route add 10.5.0.0/16 via 192.0.2.8 dev eth0 table 5
";

#[test]
fn accepts_each_once(rt: HostRuntime) -> Result<(), Fail> {
    let alloc = rt.alloc();
    let read = import(alloc, &HostNames::new(alloc), TWICE.as_bytes())?;
    assert!(rt; read.left.is_empty());
    let made = accept(alloc, &read.script)?;
    assert_eq!(rt; made.script.as_slice(), ONCE.as_bytes());
    assert_eq!(rt; shown(alloc, &made.left)?.as_str(), REFUSED);
    assert_eq!(rt; made.version.number(), 5);
    Ok(())
}
