//! What `ip -j` of iproute2 6.1 printed in a network namespace, and what `ip` printed there without `-j`.
use prt_import::ip_json::{ListingError, is_json, listing_of};
use std::test::Fail;

/// What `ip -j -4 rule` printed.
const RULES_JSON: &str = r#"[{"priority":0,"src":"all","table":"local"},
{"priority":40,"src":"all","goto":60},
{"priority":41,"src":"all","nop":null},
{"priority":42,"src":"all","goto":70,"unresolved":null},
{"priority":43,"src":"all","tos":"0x10","table":"100"},
{"priority":45,"src":"all","tun_id":77,"table":"9"},
{"priority":46,"src":"all","table":"100","suppress_ifgroup":"3"},
{"priority":47,"src":"all","table":"100","flow_from":"3","flow_to":"4"},
{"priority":48,"src":"all","table":"100","protocol":"openr"},
{"priority":49,"src":"all","dst":"10.3.0.0","dstlen":16,"action":"blackhole"},
{"priority":49,"src":"all","fwmark":"0","fwmask":"0xf","table":"100"},
{"priority":50,"src":"10.1.2.3","dst":"10.2.0.0","dstlen":24,"fwmark":"0x7","fwmask":"0xff","iif":"d0","table":"200","suppress_prefixlen":0},
{"priority":51,"not":null,"src":"10.1.2.4","fwmark":"0x8","oif":"d1","table":"300"},
{"priority":60,"src":"10.3.0.0","srclen":17,"action":"prohibit"},
{"priority":61,"src":"all","iif":"nosuch","iif_detached":null,"action":"unreachable"},
{"priority":62,"src":"all","dst":"10.0.0.0","dstlen":8,"table":"local"},
{"priority":1000,"src":"all","l3mdev":null},
{"priority":32765,"src":"10.1.0.0","srclen":16,"table":"100"},
{"priority":32766,"src":"all","table":"main"},
{"priority":32767,"src":"all","table":"default"}]
"#;

/// What `ip -4 rule` printed, with a space in place of each tab.
const RULES: &str = "0: from all lookup local
40: from all goto 60
41: from all nop
42: from all goto 70 [unresolved]
43: from all tos 0x10 lookup 100
45: from all tun_id 77 lookup 9
46: from all lookup 100 suppress_ifgroup 3
47: from all lookup 100 realms 3/4
48: from all lookup 100 proto openr
49: from all to 10.3.0.0/16 blackhole
49: from all fwmark 0/0xf lookup 100
50: from 10.1.2.3 to 10.2.0.0/24 fwmark 0x7/0xff iif d0 lookup 200 suppress_prefixlength 0
51: not from 10.1.2.4 fwmark 0x8 oif d1 lookup 300
60: from 10.3.0.0/17 prohibit
61: from all iif nosuch [detached] unreachable
62: from all to 10.0.0.0/8 lookup local
1000: from all lookup [l3mdev-table]
32765: from 10.1.0.0/16 lookup 100
32766: from all lookup main
32767: from all lookup default
";

/// What `ip -j -4 route show table all` printed.
const ROUTES_JSON: &str = r#"[{"type":"unreachable","dst":"10.8.0.0/16","table":"100","flags":[]},
{"type":"throw","dst":"10.10.0.0/16","table":"100","flags":[]},
{"dst":"10.20.0.0/16","dev":"d0","table":"5000","protocol":"bird","scope":"link","flags":["linkdown"]},
{"dst":"default","gateway":"10.0.0.254","dev":"d0","protocol":"static","metric":100,"flags":["linkdown"]},
{"dst":"10.0.0.0/24","dev":"d0","protocol":"kernel","scope":"link","prefsrc":"10.0.0.1","flags":["linkdown"]},
{"type":"blackhole","dst":"10.7.0.0/16","flags":[]},
{"type":"prohibit","dst":"10.9.0.0/16","metric":5,"flags":[]},
{"dst":"10.11.0.0/16","flags":["linkdown"],"nexthops":[{"gateway":"10.0.0.2","dev":"d0","weight":2,"flags":["linkdown"]},
{"gateway":"192.0.2.3","dev":"d1","weight":3,"flags":["onlink","linkdown"]}]},
{"dst":"10.12.0.0/16","gateway":"10.99.0.1","dev":"d0","flags":["onlink","linkdown"]},
{"dst":"10.13.0.0/16","via":{"family":"inet6","host":"fe80::1"},"dev":"d0","flags":[]},
{"dst":"10.14.0.0/16","tos":"0x10","dev":"d0","scope":"link","flags":["linkdown"]},
{"type":"blackhole","dst":"10.16.0.0/16","nhid":8,"dev":"lo","flags":[]},
{"dst":"10.19.0.0/16","dev":"d0","scope":"link","flags":["linkdown"],"flow":{"from":"3","to":"4"}},
{"dst":"10.21.0.1","dev":"d0","protocol":"200","scope":"link","flags":["linkdown"]},
{"dst":"10.24.0.0/16","dev":"d0","scope":"link","flags":["linkdown"]},
{"dst":"10.25.0.0/16","encap":"ip","id":100,"src":"0.0.0.0","dst":"10.0.0.7","ttl":3,"tos":0,"dev":"d0","scope":"link","flags":["linkdown"]},
{"dst":"10.26.0.0/16","dev":"d0","scope":"link","flags":["linkdown"],"metrics":[{"fastopen_no_cookie":1}]},
{"dst":"192.0.2.0/24","dev":"d1","protocol":"kernel","scope":"link","prefsrc":"192.0.2.1","flags":["linkdown"]},
{"type":"multicast","dst":"224.0.0.0/4","dev":"d0","scope":"link","flags":["linkdown"]},
{"type":"local","dst":"10.0.0.1","dev":"d0","table":"local","protocol":"kernel","scope":"host","prefsrc":"10.0.0.1","flags":[]},
{"type":"broadcast","dst":"10.0.0.255","dev":"d0","table":"local","protocol":"kernel","scope":"link","prefsrc":"10.0.0.1","flags":["linkdown"]},
{"type":"local","dst":"10.22.0.0/16","dev":"lo","table":"local","scope":"host","flags":[]},
{"type":"local","dst":"127.0.0.0/8","dev":"lo","table":"local","protocol":"kernel","scope":"host","prefsrc":"127.0.0.1","flags":[]},
{"type":"local","dst":"127.0.0.1","dev":"lo","table":"local","protocol":"kernel","scope":"host","prefsrc":"127.0.0.1","flags":[]},
{"type":"broadcast","dst":"127.255.255.255","dev":"lo","table":"local","protocol":"kernel","scope":"link","prefsrc":"127.0.0.1","flags":[]},
{"type":"local","dst":"192.0.2.1","dev":"d1","table":"local","protocol":"kernel","scope":"host","prefsrc":"192.0.2.1","flags":[]},
{"type":"broadcast","dst":"192.0.2.255","dev":"d1","table":"local","protocol":"kernel","scope":"link","prefsrc":"192.0.2.1","flags":["linkdown"]}]
"#;

/// What `ip -4 route show table all` printed, without the spaces at the ends of lines and one that occurred twice.
const ROUTES: &str = "unreachable 10.8.0.0/16 table 100
throw 10.10.0.0/16 table 100
10.20.0.0/16 dev d0 table 5000 proto bird scope link linkdown
default via 10.0.0.254 dev d0 proto static metric 100 linkdown
10.0.0.0/24 dev d0 proto kernel scope link src 10.0.0.1 linkdown
blackhole 10.7.0.0/16
prohibit 10.9.0.0/16 metric 5
10.11.0.0/16 linkdown
\tnexthop via 10.0.0.2 dev d0 weight 2 linkdown
\tnexthop via 192.0.2.3 dev d1 weight 3 onlink linkdown
10.12.0.0/16 via 10.99.0.1 dev d0 onlink linkdown
10.13.0.0/16 via inet6 fe80::1 dev d0
10.14.0.0/16 tos 0x10 dev d0 scope link linkdown
blackhole 10.16.0.0/16 nhid 8 dev lo
10.19.0.0/16 dev d0 scope link linkdown realms 3/4
10.21.0.1 dev d0 proto 200 scope link linkdown
10.24.0.0/16 dev d0 scope link linkdown
10.25.0.0/16 encap ip id 100 src 0.0.0.0 dst 10.0.0.7 ttl 3 tos 0 dev d0 scope link linkdown
10.26.0.0/16 dev d0 scope link linkdown fastopen_no_cookie 1
192.0.2.0/24 dev d1 proto kernel scope link src 192.0.2.1 linkdown
multicast 224.0.0.0/4 dev d0 scope link linkdown
local 10.0.0.1 dev d0 table local proto kernel scope host src 10.0.0.1
broadcast 10.0.0.255 dev d0 table local proto kernel scope link src 10.0.0.1 linkdown
local 10.22.0.0/16 dev lo table local scope host
local 127.0.0.0/8 dev lo table local proto kernel scope host src 127.0.0.1
local 127.0.0.1 dev lo table local proto kernel scope host src 127.0.0.1
broadcast 127.255.255.255 dev lo table local proto kernel scope link src 127.0.0.1
local 192.0.2.1 dev d1 table local proto kernel scope host src 192.0.2.1
broadcast 192.0.2.255 dev d1 table local proto kernel scope link src 192.0.2.1 linkdown
";

/// What `ip -p -j -4 rule` and `ip -p -j -4 route show table all` printed, cut to a rule and two routes.
const PRETTY: &str = r#"[ {
        "priority": 51,
        "not": null,
        "src": "10.1.2.4",
        "fwmark": "0x8",
        "table": "300"
    } ]
[ {
        "dst": "default",
        "gateway": "10.0.0.254",
        "dev": "d0",
        "protocol": "static",
        "metric": 100,
        "flags": [ "linkdown" ]
    },{
        "dst": "10.5.0.0/16",
        "dev": "d0",
        "scope": "link",
        "prefsrc": "10.0.0.1",
        "flags": [ ],
        "metrics": [ {
                "mtu": 1400,
                "advmss": 1300,
                "ecn": null,
                "congestion": "cubic"
            } ]
    } ]
"#;

const PRETTY_LINES: &str = "51: not from 10.1.2.4 fwmark 0x8 lookup 300
default via 10.0.0.254 dev d0 proto static metric 100 linkdown
10.5.0.0/16 dev d0 scope link src 10.0.0.1 mtu 1400 advmss 1300 features ecn congctl cubic
";

/// Members and values that `ip` does not print.
const UNKNOWN: &str =
    r#"{"dst":"10.0.0.0/8","dev":"a b","colour":"red","deep":[[1],{"x":true}],"dev":null,"white space":""}
[5, {}, {"priority":7,"src":"10.0.0.0","srclen":8,"flags":[],"dev":"eth0\nvia"}] "text"
"#;

const UNKNOWN_LINES: &str =
    "10.0.0.0/8 dev {} {} colour red deep 1 {} {} x true {} {} dev {} {} {} {} {} {}
{} {}

7: from 10.0.0.0/8 flags {} {} dev {} {}
{} {}
";

#[test]
fn lists_rules(rt: HostRuntime) -> Result<(), Fail> {
    let lines = listing_of(rt.alloc(), RULES_JSON.as_bytes())?;
    assert_eq!(rt; lines.as_slice(), RULES.as_bytes());
    Ok(())
}

#[test]
fn lists_routes(rt: HostRuntime) -> Result<(), Fail> {
    let lines = listing_of(rt.alloc(), ROUTES_JSON.as_bytes())?;
    assert_eq!(rt; lines.as_slice(), ROUTES.as_bytes());
    Ok(())
}

#[test]
fn lists_several_pretty_documents(rt: HostRuntime) -> Result<(), Fail> {
    let lines = listing_of(rt.alloc(), PRETTY.as_bytes())?;
    assert_eq!(rt; lines.as_slice(), PRETTY_LINES.as_bytes());
    Ok(())
}

#[test]
fn keeps_what_it_does_not_know(rt: HostRuntime) -> Result<(), Fail> {
    let lines = listing_of(rt.alloc(), UNKNOWN.as_bytes())?;
    assert_eq!(rt; lines.as_slice(), UNKNOWN_LINES.as_bytes());
    Ok(())
}

#[test]
fn refuses_what_is_no_json(rt: HostRuntime) {
    let alloc = rt.alloc();
    assert!(rt; matches!(listing_of(alloc, b"[{]"), Err(ListingError::NoJson)));
    assert!(rt; matches!(listing_of(alloc, b"[] ]"), Err(ListingError::NoJson)));
    assert!(rt; matches!(listing_of(alloc, b"[\"\xff\"]"), Err(ListingError::NoJson)));
}

#[test]
fn tells_json_from_lines(rt: HostRuntime) {
    assert!(rt; is_json(b" \n[{}]"));
    assert!(rt; is_json(b"{}"));
    assert!(rt; !is_json(b"0:\tfrom all lookup local\n"));
    assert!(rt; !is_json(b"default via 192.0.2.1 dev eth0 \n"));
    assert!(rt; !is_json(b""));
}
