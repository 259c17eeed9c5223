//! Listings of other forms, and those that programs leave. What `ip` printed is of iproute2 6.1 in a network namespace. The
//! text of busybox and those of programs are by hand, after what they do.
use prt_addr::Addr;
use prt_import::{
    HostNames, NoListing, check_listing, import, kernel_routes, left_out, route_key, rule_priority,
};
use prt_route::RouteKey;
use std::alloc::Global;
use std::test::Fail;

/// What wg-quick leaves of a tunnel for all traffic, beside the routes of dhclient.
const TUNNEL: &str = "0:\tfrom all lookup local
32764:\tfrom all lookup main suppress_prefixlength 0
32765:\tnot from all fwmark 0xca6c lookup 51820
32766:\tfrom all lookup main
32767:\tfrom all lookup default
default dev wg0 table 51820 scope link 
default via 192.0.2.1 dev eth0 
192.0.2.0/24 dev eth0 proto kernel scope link src 192.0.2.10 
local 192.0.2.10 dev eth0 table local proto kernel scope host src 192.0.2.10 
broadcast 192.0.2.255 dev eth0 table local proto kernel scope link src 192.0.2.10 
";

/// What networkd leaves of two uplinks, one of which has no carrier.
const UPLINKS: &str = "0:\tfrom all lookup local
100:\tfrom 198.51.100.7 lookup 101 proto static
32766:\tfrom all lookup main
32767:\tfrom all lookup default
default via 198.51.100.1 dev eth1 table 101 proto static 
default via 192.0.2.1 dev eth0 proto dhcp src 192.0.2.10 metric 100 
default via 198.51.100.1 dev eth1 proto dhcp src 198.51.100.7 metric 200 linkdown 
";

/// What FRR leaves of static routes and of a policy.
const ROUTED: &str = "0:\tfrom all lookup local
300:\tfrom 10.1.0.0/16 lookup 10000 proto zebra
32766:\tfrom all lookup main
default nhid 14 via 192.0.2.1 dev eth0 proto 196 metric 20 
10.20.0.0/16 nhid 15 proto bgp metric 20 
\tnexthop via 192.0.2.1 dev eth0 weight 1 
\tnexthop via 192.0.2.2 dev eth0 weight 1 
";

/// What busybox prints of the rules of the tunnel.
const BUSYBOX: &str = "0:\tfrom all lookup local 
32764:\tfrom all lookup main suppress_prefixlength 0 
32765:\tfrom all fwmark 0xca6c lookup 51820 
32766:\tfrom all lookup main 
default via 192.0.2.1 dev eth0 
192.0.2.0/24 dev eth0 scope link  src 192.0.2.10 
";

/// What iproute2 4.9 prints of the rules of the tunnel.
const OLD: &str = "0:\tfrom all lookup local 
32764:\tfrom all lookup main suppress_prefixlength 0
32765:\tnot from all fwmark 0xca6c lookup 51820 
32766:\tfrom all lookup main 
default via 192.0.2.1 dev eth0 
192.0.2.0/24 dev eth0  proto kernel  scope link  src 192.0.2.10 
";

/// Texts, and why each is not taken.
const REFUSED: [(&str, NoListing); 20] = [
    ("", NoListing::Empty),
    ("\n \t\r\n", NoListing::Empty),
    ("0:\tfrom all lookup local\n10.0.0.0/2", NoListing::Cut),
    ("hello world\n", NoListing::NoLine),
    ("<html>\n<body>\n", NoListing::NoLine),
    ("0:\tfrom all lookup 255\n", NoListing::Numeric),
    ("6 10.9.0.0/16 \n", NoListing::Numeric),
    (
        "2 10.1.0.5 dev d1 table 255 proto 2 scope 254 src 10.1.0.5 \n",
        NoListing::Numeric,
    ),
    (
        "10.1.0.0/24 dev d1 proto 2 scope 253 src 10.1.0.5 linkdown \n",
        NoListing::Numeric,
    ),
    ("10.1.0.0/24 dev d1 scope 253 \n", NoListing::Numeric),
    (
        "default proto static \\\tnexthop via 10.0.0.1 dev eth0 weight 1 \\\tnexthop via 10.0.0.2 dev eth0 weight 1 \n",
        NoListing::OneLine,
    ),
    (
        "100:\tnot from all fwmark 0xca6c lookup 100 proto unspec\n",
        NoListing::Details,
    ),
    (
        "0:\tfrom all lookup local proto kernel\n",
        NoListing::Details,
    ),
    (
        "unicast 10.1.0.0/24 dev d1 table main proto kernel scope link src 10.1.0.5 \n",
        NoListing::Details,
    ),
    (
        "default via 192.0.2.1 dev eth0 \nfe80::/64 dev eth0 proto kernel metric 256 pref medium\n",
        NoListing::OtherFamily,
    ),
    (
        "default via fe80::1 dev eth0 proto ra metric 1024 expires 1790sec pref medium\n",
        NoListing::OtherFamily,
    ),
    (
        "unreachable default dev lo metric 4294967295 error -101 pref medium\n",
        NoListing::OtherFamily,
    ),
    (
        "100:\tfrom 2001:db8::/32 lookup 7\n",
        NoListing::OtherFamily,
    ),
    (
        "local ::1 dev lo table local proto kernel metric 0 pref medium\n",
        NoListing::OtherFamily,
    ),
    (BUSYBOX, NoListing::Busybox),
];

#[test]
fn takes_listings(rt: HostRuntime) -> Result<(), Fail> {
    for text in [TUNNEL, UPLINKS, ROUTED, OLD] {
        assert!(rt; check_listing(text.as_bytes()).is_ok());
    }
    assert!(rt; check_listing(b"default via inet6 fe80::1 dev eth0 \n").is_ok());
    assert!(rt; check_listing(b"default via 10.0.0.1 dev \\ \n").is_ok());
    Ok(())
}

#[test]
fn refuses_other_texts(rt: HostRuntime) -> Result<(), Fail> {
    for (text, fault) in &REFUSED {
        assert!(rt; check_listing(text.as_bytes()) == Err(*fault));
    }
    Ok(())
}

#[test]
fn says_why(rt: HostRuntime) -> Result<(), Fail> {
    let text = format!(in rt.alloc(); "{}", NoListing::Numeric)?;
    assert_eq!(rt;
        text.as_str(),
        "this is printed by `ip -N`: list without -N"
    );
    Ok(())
}

const ROUTED_SCRIPT: &str =
    "# left out: default nhid 14 via 192.0.2.1 dev eth0 proto 196 metric 20: a next hop object
# left out: 10.20.0.0/16 nhid 15 proto bgp metric 20: several next hops
rule flush
rule del priority 0
rule add priority 0 from all lookup local
rule add priority 300 from 10.1.0.0/16 lookup 10000
rule add priority 32766 from all lookup main
";

const TUNNEL_COMMENT: &str = "# left out: routes that the kernel makes itself: 2\n";

/// Reads the comments of a script again.
fn comments(alloc: Global, text: &str) -> Result<Vec<u8>, Fail> {
    let read = import(alloc, &HostNames::new(alloc), text.as_bytes())?;
    Ok(left_out(alloc, &read.script, None)?)
}

#[test]
fn comments_what_is_left_out(rt: HostRuntime) -> Result<(), Fail> {
    let alloc = rt.alloc();
    let read = import(alloc, &HostNames::new(alloc), ROUTED.as_bytes())?;
    assert_eq!(rt; read.script.as_slice(), ROUTED_SCRIPT.as_bytes());
    assert_eq!(rt; kernel_routes(&read.left), 0);
    let read = import(alloc, &HostNames::new(alloc), TUNNEL.as_bytes())?;
    assert_eq!(rt; kernel_routes(&read.left), 2);
    Ok(())
}

#[test]
fn finds_comments(rt: HostRuntime) -> Result<(), Fail> {
    let alloc = rt.alloc();
    assert_eq!(rt;
        comments(alloc, TUNNEL)?.as_slice(),
        TUNNEL_COMMENT.as_bytes()
    );
    assert!(rt; comments(alloc, UPLINKS)?.is_empty());
    let script = b"# by hand\nrule flush # left out: x\n# left out: y: z";
    assert_eq!(rt;
        left_out(alloc, script, None)?.as_slice(),
        b"# left out: y: z\n".as_slice()
    );
    let read = import(alloc, &HostNames::new(alloc), ROUTED.as_bytes())?;
    let far = left_out(alloc, &read.script, Some(Addr(0x0a15_0001)))?;
    let wanted =
        b"# left out: default nhid 14 via 192.0.2.1 dev eth0 proto 196 metric 20: a next hop object\n";
    assert_eq!(rt; far.as_slice(), wanted.as_slice());
    Ok(())
}

/// Returns the table, the length of the prefix and the metric of a key.
fn parts(key: Option<RouteKey>) -> Option<(u32, u8, u32)> {
    let key = key?;
    Some((key.table, key.prefix.len(), key.metric))
}

#[test]
fn finds_keys(rt: HostRuntime) -> Result<(), Fail> {
    let mut names = HostNames::new(rt.alloc());
    names.tables.read(b"7 uplink\n")?;
    let line = b"local 10.1.0.0/16 dev table table uplink scope host metric 5 onlink ";
    assert!(rt; parts(route_key(&names, line)) == Some((7, 16, 5)));
    let line = b"default proto static ";
    assert!(rt; parts(route_key(&names, line)) == Some((254, 0, 0)));
    assert!(rt; parts(route_key(&names, b"fe80::/64 dev eth0 ")) == None);
    assert!(rt; parts(route_key(&names, b"10.0.0.0/8 table elsewhere ")) == None);
    assert_eq!(rt;
        rule_priority(b"100:\tfrom all oif eth0 lookup 7"),
        Some(100)
    );
    assert_eq!(rt; rule_priority(b"default via 10.0.0.1 "), None);
    Ok(())
}
