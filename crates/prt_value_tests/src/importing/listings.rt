//! What `ip` of iproute2 6.1 printed in a network namespace, and the scripts that it becomes.
use prt_import::{HostNames, Imported, Names, import};
use std::alloc::Global;
use std::test::Fail;

/// The beginning of `/etc/iproute2/rt_tables`, with one more table.
const TABLES: &str = "#
# reserved values
#
255\tlocal
254\tmain
253\tdefault
0\tunspec
#
# local
#
#1\tinr.ruhep
0xc8 uplink # the second one
";

/// Lines of the file that FRR puts into `/etc/iproute2/rt_protos.d`.
const PROTOCOLS: &str = "# NOTE: This should be kept in sync with zebra/rt_netlink.h
186     bgp
191     nhrp
195     pbr
196     static
";

/// What `ip -4 rule` printed; the rule of priority 26 looked up table 200.
const RULES: &str = "0:\tfrom all lookup local
10:\tnot from 10.0.0.0/8 fwmark 0x7 lookup 100
11:\tfrom all to 10.1.0.0/16 iif eth0 lookup 7
12:\tfrom all fwmark 0x7/0xff lookup main suppress_prefixlength 0
13:\tfrom 10.9.0.0/16 blackhole
14:\tfrom all prohibit
15:\tfrom all unreachable
26:\tfrom all iif nosuch [detached] lookup uplink
28:\tfrom all lookup 7
41:\tfrom all fwmark 0 lookup 7
42:\tfrom all fwmark 0x5/0 lookup 7
44:\tnot from 10.0.0.1 to 10.0.0.2 fwmark 0x10/0x10 iif lo lookup 4000000000 suppress_prefixlength 32
32766:\tfrom all lookup main
32767:\tfrom all lookup default
4294967295:\tfrom all lookup 7
";

const RULE_SCRIPT: &str = "rule flush
rule del priority 0
rule add priority 0 from all lookup local
rule add priority 10 not from 10.0.0.0/8 fwmark 0x7 lookup 100
rule add priority 11 from all to 10.1.0.0/16 iif eth0 lookup 7
rule add priority 12 from all fwmark 0x7/0xff lookup main suppress_prefixlength 0
rule add priority 13 from 10.9.0.0/16 blackhole
rule add priority 14 from all prohibit
rule add priority 15 from all unreachable
rule add priority 26 from all iif nosuch lookup 200
rule add priority 28 from all lookup 7
rule add priority 41 from all fwmark 0/0xffffffff lookup 7
rule add priority 42 from all fwmark 0x5/0 lookup 7
rule add priority 44 not from 10.0.0.1 to 10.0.0.2 fwmark 0x10/0x10 iif lo lookup 4000000000 suppress_prefixlength 32
rule add priority 32766 from all lookup main
rule add priority 32767 from all lookup default
rule add priority 4294967295 from all lookup 7
";

/// What `ip -4 route show table all` printed of routes that are kept whole.
const ROUTES: &str = "prohibit 10.5.0.0/16 table 7 
10.1.0.0/16 dev wg0 table 100 scope link 
throw 10.6.0.0/16 table 100 
default via 192.0.2.1 dev eth0 proto dhcp src 192.0.2.5 metric 100 
0.0.0.0/1 dev eth0 scope link 
blackhole 10.3.0.0/16 
unreachable 10.4.0.0/16 metric 5 
10.6.0.0/16 via 192.0.2.7 dev eth0 scope site 
10.6.3.0/24 dev eth0 scope link metric 4294967295 
10.6.4.0/24 dev eth0 proto unspec scope link 
10.13.0.1 dev eth0 scope host 
10.14.0.0/16 dev eth0 proto openr scope 77 
10.15.0.0/16 dev eth0 proto 250 scope link 
10.16.0.0/16 dev eth0 proto zebra scope link 
10.16.1.0/24 dev eth0 proto babel scope link 
10.21.0.0/16 dev eth1 proto ra scope link 
10.22.0.0/16 via 192.0.2.7 dev eth0 proto nhrp 
10.23.0.0/16 via 192.0.2.7 dev eth0 proto static 
10.25.0.0/16 via 192.0.2.7 dev eth0 proto bgp 
10.24.0.0/16 dev eth0 
10.77.0.2 dev eth0 proto kernel scope link src 10.77.0.1 
default dev eth0 table uplink scope link 
";

const ROUTE_SCRIPT: &str = "route add prohibit 10.5.0.0/16 table 7
route add 10.1.0.0/16 dev wg0 table 100 scope link
route add throw 10.6.0.0/16 table 100
route add 0.0.0.0/1 dev eth0 scope link
route add blackhole 10.3.0.0/16
route add unreachable 10.4.0.0/16 metric 5
route add 10.6.3.0/24 dev eth0 scope link metric 4294967295
route add 10.6.4.0/24 dev eth0 proto 0 scope link
route add 10.13.0.1 dev eth0 scope host
route add 10.14.0.0/16 dev eth0 proto 99 scope 77
route add 10.15.0.0/16 dev eth0 proto 250 scope link
route add 10.16.0.0/16 dev eth0 proto zebra scope link
route add 10.16.1.0/24 dev eth0 proto 42 scope link
route add 10.21.0.0/16 dev eth1 proto ra scope link
route add 10.24.0.0/16 dev eth0 scope global
route add 10.77.0.2 dev eth0 proto kernel scope link src 10.77.0.1
route add default dev eth0 table 200 scope link
route add default via 192.0.2.1 dev eth0 proto dhcp src 192.0.2.5 metric 100
route add 10.6.0.0/16 via 192.0.2.7 dev eth0 scope site
route add 10.22.0.0/16 via 192.0.2.7 dev eth0 proto 191
route add 10.23.0.0/16 via 192.0.2.7 dev eth0 proto 196
route add 10.25.0.0/16 via 192.0.2.7 dev eth0 proto bgp
";

/// What `ip -d` printed of a rule and of routes.
const DETAILS: &str =
    "unicast default via 192.0.2.1 dev eth0 table main proto dhcp scope global src 192.0.2.5 metric 100 
unicast 10.24.0.0/16 dev eth0 table main proto boot scope global 
blackhole 10.3.0.0/16 table main proto boot scope global 
13:\tfrom 10.9.0.0/16 blackhole proto unspec
";

const DETAIL_SCRIPT: &str = "rule flush
rule del priority 0
rule add priority 13 from 10.9.0.0/16 blackhole
route add unicast 10.24.0.0/16 dev eth0 table main proto boot scope global
route add blackhole 10.3.0.0/16 table main proto boot scope global
route add unicast default via 192.0.2.1 dev eth0 table main proto dhcp scope global src 192.0.2.5 metric 100
";

/// Returns what is made of a text, with the names of a host.
fn imported(alloc: Global, text: &[u8]) -> Result<Imported, Fail> {
    let mut names = HostNames::new(alloc);
    names.tables.read(TABLES.as_bytes())?;
    names.protocols.read(PROTOCOLS.as_bytes())?;
    Ok(import(alloc, &names, text)?)
}

#[test]
fn keeps_rules(rt: HostRuntime) -> Result<(), Fail> {
    let read = imported(rt.alloc(), RULES.as_bytes())?;
    assert_eq!(rt; read.script.as_slice(), RULE_SCRIPT.as_bytes());
    assert!(rt; read.left.is_empty());
    assert!(rt; read.notes.is_empty());
    Ok(())
}

#[test]
fn keeps_routes(rt: HostRuntime) -> Result<(), Fail> {
    let read = imported(rt.alloc(), ROUTES.as_bytes())?;
    assert_eq!(rt; read.script.as_slice(), ROUTE_SCRIPT.as_bytes());
    assert!(rt; read.left.is_empty());
    assert!(rt; read.notes.is_empty());
    Ok(())
}

/// Routes before rules, and rules before routes: the script is the same.
#[test]
fn reads_both(rt: HostRuntime) -> Result<(), Fail> {
    let alloc = rt.alloc();
    let wanted = format!(in alloc; "{RULE_SCRIPT}{ROUTE_SCRIPT}")?;
    let first = format!(in alloc; "{ROUTES}{RULES}")?;
    assert_eq!(rt;
        imported(alloc, first.as_bytes())?.script.as_slice(),
        wanted.as_bytes()
    );
    let second = format!(in alloc; "{RULES}\n{ROUTES}")?;
    assert_eq!(rt;
        imported(alloc, second.as_bytes())?.script.as_slice(),
        wanted.as_bytes()
    );
    Ok(())
}

#[test]
fn reads_details(rt: HostRuntime) -> Result<(), Fail> {
    let read = imported(rt.alloc(), DETAILS.as_bytes())?;
    assert_eq!(rt; read.script.as_slice(), DETAIL_SCRIPT.as_bytes());
    assert!(rt; read.left.is_empty());
    Ok(())
}

#[test]
fn reads_nothing(rt: HostRuntime) -> Result<(), Fail> {
    let read = imported(rt.alloc(), b"")?;
    assert!(rt; read.script.is_empty());
    assert!(rt; read.left.is_empty());
    Ok(())
}

#[test]
fn reads_an_unended_line(rt: HostRuntime) -> Result<(), Fail> {
    let read = imported(rt.alloc(), b"\r\n10.0.0.0/8 dev eth0 \r")?;
    assert_eq!(rt;
        read.script.as_slice(),
        b"route add 10.0.0.0/8 dev eth0 scope global\n".as_slice()
    );
    Ok(())
}

#[test]
fn finds_names(rt: HostRuntime) -> Result<(), Fail> {
    let mut names = Names::new(rt.alloc());
    names.read(b"10 first\n\t11\tsecond x\n010 third\n12\n13 first\n# 14 fifth\n15 sixth#7")?;
    assert_eq!(rt; names.find(b"first"), Some(10));
    assert_eq!(rt; names.find(b"second"), Some(11));
    assert_eq!(rt; names.find(b"third"), None);
    assert_eq!(rt; names.find(b"fifth"), None);
    assert_eq!(rt; names.find(b"sixth"), Some(15));
    assert_eq!(rt; names.find(b""), None);
    Ok(())
}
