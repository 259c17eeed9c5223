use prt_command::{Command, Refusal, Request, read_line};
use prt_diff::{
    Changes, Fence, Held, LineError, changes, changes_text, commands_text, count_outside,
    left_out_of_replacing, replacing_text,
};
use prt_route::{BOOT_PROTOCOL, Kind, LINK_SCOPE, MAIN_TABLE, Prefix, Route, RouteKey, read_dev};
use prt_rule::{Action, Rule};
use prt_version::Version;
use std::alloc::Global;
use std::test::Fail;

/// What a kernel has: the first route and those of table local are its own.
const FOUND: &str = "route add 192.0.2.0/24 dev eth0 proto kernel scope link src 192.0.2.10
route add 192.0.2.10 dev eth0 table local scope host src 192.0.2.10
route add default via 192.0.2.1 metric 10
route add default via 192.0.2.1 metric 20
route add 172.16/12 via 192.0.2.9
route add 172.16/12 via 192.0.2.9 metric 7
route add 10.1.2.3 dev wg0 table 7
route add throw 10/8 table 100
rule add priority 500 from 10/8 table 100
rule add priority 500 not from 10.1/16 prohibit
rule add priority 600 table 7
rule add priority 700 fwmark 7 table 7";

const WANTED: &str = "route add 192.0.2.0/24 dev eth9 scope link
route add 10.9/16 dev eth1 proto kernel scope link
route add 10.9.0.1 dev eth1 table local
route add default via 192.0.2.2 metric 10
route add default via 192.0.2.1 metric 20
route add 172.16/12 via 192.0.2.9 metric 8
route add 10.1.2.3 dev wg1 table 7
route add 10.2/16 dev wg0 table 7
route add throw 10/8 table 100
rule del priority 0
rule add priority 500 from 10/8 table 100
rule add priority 600 table 7
rule add priority 650 to 10.2/16 table 7
rule add priority 700 fwmark 7/0xff table 7";

const CHANGES: &str = "rule add priority 650 from all to 10.2.0.0/16 lookup 7
rule add priority 700 from all fwmark 0x7/0xff lookup 7
route replace 10.1.2.3 dev wg1 table 7 scope 253
route replace 10.2.0.0/16 dev wg0 table 7 scope 253
route replace 172.16.0.0/12 via 192.0.2.9 metric 8
route replace default via 192.0.2.2 metric 10
rule del priority 0 from all to all lookup local
rule del priority 500 not from 10.1.0.0/16 to all prohibit
rule del priority 700 from all to all fwmark 0x7 lookup 7
route del 172.16.0.0/12
route del 172.16.0.0/12 metric 7
";

/// Returns the version after the command.
fn version_after(version: &Version, command: &Command) -> Result<Version, Refusal> {
    match version.check(command) {
        Ok(change) => version.next(&change),
        Err(reason) => Err(reason),
    }
}

/// Returns the version after the command of this line.
fn next_version(version: &Version, line: &str) -> Result<Version, Refusal> {
    match read_line(line.as_bytes())? {
        Some(Request::Command(command)) => version_after(version, &command),
        _ => Err(Refusal::UnknownVerb),
    }
}

/// Returns the version after the commands of this script.
fn after(mut version: Version, script: &str) -> Result<Version, Refusal> {
    for line in script.lines() {
        version = next_version(&version, line)?;
    }
    Ok(version)
}

/// Returns the version that the script makes of a new database.
fn made(alloc: Global, script: &str) -> Result<Version, Refusal> {
    after(Version::opening(alloc)?, script)
}

/// Returns the lines of the changes between these two.
fn text_of(
    alloc: Global,
    fence: &Fence,
    found: &Version,
    wanted: &Version,
) -> Result<Vec<u8>, Fail> {
    match changes_text(alloc, fence, found, wanted) {
        Ok(text) => Ok(text),
        Err(LineError::NoLine(_)) => Err(Fail::from(Refusal::UnknownVerb)),
        Err(LineError::NoMemory) => Err(Fail::from(Refusal::NoMemory)),
    }
}

/// Computes the changes between these two, of all that there is.
fn all_changes(alloc: Global, found: &Version, wanted: &Version) -> Result<Changes, Fail> {
    let Ok(changes) = changes(alloc, &Fence::all(alloc), found, wanted) else {
        return Err(Fail::from(Refusal::NoMemory));
    };
    Ok(changes)
}

/// Finds what is held back of the changes between these two, within this fence.
fn held_between(
    alloc: Global,
    fence: &Fence,
    found: &Version,
    wanted: &Version,
) -> Result<Held, Fail> {
    match changes(alloc, fence, found, wanted) {
        Ok(Changes { held, .. }) => Ok(held),
        Err(_) => Err(Fail::from(Refusal::NoMemory)),
    }
}

/// Checks whether there is one route, and this line puts it.
fn is_one_route(routes: &[Route], line: &str) -> Result<bool, Refusal> {
    let wanted = route_of(line)?;
    match routes {
        [route] => Ok(*route == wanted),
        _ => Ok(false),
    }
}

/// Checks whether there is one rule, and it looks up this table.
fn is_one_lookup(rules: &[Rule], table: u32) -> bool {
    match rules {
        [rule] => rule.action == Action::Lookup(table),
        _ => false,
    }
}

/// Returns the route that a line puts.
fn route_of(line: &str) -> Result<Route, Refusal> {
    match read_line(line.as_bytes())? {
        Some(Request::Command(Command::RouteAdd(route))) => Ok(route),
        _ => Err(Refusal::UnknownVerb),
    }
}

/// Returns the lines of the changes between what these scripts make.
fn lines_between(alloc: Global, found: &str, wanted: &str) -> Result<Vec<u8>, Fail> {
    text_of(
        alloc,
        &Fence::all(alloc),
        &made(alloc, found)?,
        &made(alloc, wanted)?,
    )
}

#[test]
fn brings_what_differs(rt: HostRuntime) -> Result<(), Fail> {
    let found = made(rt.alloc(), FOUND)?;
    let wanted = made(rt.alloc(), WANTED)?;
    let fence = Fence::all(rt.alloc());
    let text = text_of(rt.alloc(), &fence, &found, &wanted)?;
    assert_eq!(rt; text.as_slice(), CHANGES.as_bytes());
    let brought = after(found, CHANGES)?;
    let rest = text_of(rt.alloc(), &fence, &brought, &wanted)?;
    assert_eq!(rt; rest.as_slice(), "".as_bytes());
    let same = text_of(rt.alloc(), &fence, &wanted, &wanted)?;
    assert_eq!(rt; same.as_slice(), "".as_bytes());
    Ok(())
}

/// Shorewall puts main before its own rules: the new rule comes before the old one goes.
#[test]
fn moves_main_to_999(rt: HostRuntime) -> Result<(), Fail> {
    let text = lines_between(
        rt.alloc(),
        "route add default via 192.0.2.1",
        "rule add priority 999 table main
rule del priority 32766
route add default via 192.0.2.1 table 250
rule add priority 1000 from 192.0.2.7 table 250",
    )?;
    assert_eq!(rt;
        text.as_slice(),
        "route replace default via 192.0.2.1 table 250
rule add priority 999 from all lookup main
rule add priority 1000 from 192.0.2.7 lookup 250
rule del priority 32766 from all to all lookup main
route del default
"
            .as_bytes()
    );
    Ok(())
}

/// Cilium puts its own rules before local: the table is looked up throughout.
#[test]
fn moves_local_to_100(rt: HostRuntime) -> Result<(), Fail> {
    let text = lines_between(
        rt.alloc(),
        "",
        "rule del priority 0
rule add priority 9 fwmark 0x200/0xf00 table 2004
rule add priority 100 table local",
    )?;
    assert_eq!(rt;
        text.as_slice(),
        "rule add priority 9 from all fwmark 0x200/0xf00 lookup 2004
rule add priority 100 from all lookup local
rule del priority 0 from all to all lookup local
"
            .as_bytes()
    );
    Ok(())
}

const TWO_RULES: &str = "rule add priority 500 from 10.0.0.0/8 table 7
rule add priority 500 from 10.1.0.0/16 table 8";

#[test]
fn moves_a_rule_behind_another(rt: HostRuntime) -> Result<(), Fail> {
    let found = made(rt.alloc(), TWO_RULES)?;
    let wanted = made(
        rt.alloc(),
        "rule add priority 500 from 10.1.0.0/16 table 8
rule add priority 500 from 10.0.0.0/8 table 7",
    )?;
    let changes = all_changes(rt.alloc(), &found, &wanted)?;
    assert_eq!(rt; changes.moved.len(), 1);
    assert_eq!(rt; changes.left.len(), 0);
    let text = text_of(rt.alloc(), &Fence::all(rt.alloc()), &found, &wanted)?;
    assert_eq!(rt;
        text.as_slice(),
        "rule del priority 500 from 10.0.0.0/8 to all lookup 7
rule add priority 500 from 10.0.0.0/8 lookup 7
"
            .as_bytes()
    );
    Ok(())
}

/// The kernel would delete the twin, which is wanted.
#[test]
fn leaves_a_rule_behind_its_twin(rt: HostRuntime) -> Result<(), Fail> {
    let found = made(
        rt.alloc(),
        "rule add priority 500 not from 10.0.0.0/8 table 7
rule add priority 500 from 10.0.0.0/8 table 7",
    )?;
    let wanted = made(
        rt.alloc(),
        "rule add priority 500 not from 10.0.0.0/8 table 7",
    )?;
    let changes = all_changes(rt.alloc(), &found, &wanted)?;
    assert_eq!(rt; changes.commands.len(), 0);
    assert_eq!(rt; changes.left.len(), 1);
    Ok(())
}

/// The kernel would refuse the new rule beside its twin, since it compares no `not`.
#[test]
fn clears_the_way_for_a_twin(rt: HostRuntime) -> Result<(), Fail> {
    let found = made(rt.alloc(), "rule add priority 100 not from 10/8 table 7")?;
    let wanted = made(rt.alloc(), "rule add priority 100 from 10/8 table 7")?;
    let changes = all_changes(rt.alloc(), &found, &wanted)?;
    assert_eq!(rt; (changes.early.len(), changes.left.len()), (1, 0));
    let text = text_of(rt.alloc(), &Fence::all(rt.alloc()), &found, &wanted)?;
    assert_eq!(rt;
        text.as_slice(),
        "rule del priority 100 not from 10.0.0.0/8 to all lookup 7
rule add priority 100 from 10.0.0.0/8 lookup 7
"
            .as_bytes()
    );
    Ok(())
}

/// The kernel compares no source if the new rule has all of them, but it compares marks as they are.
#[test]
fn clears_the_way_for_all_sources(rt: HostRuntime) -> Result<(), Fail> {
    let found = made(
        rt.alloc(),
        "rule add priority 100 from 10/8 table 7
rule add priority 100 from 10/8 fwmark 1 table 7
rule add priority 200 table 7",
    )?;
    let wanted = made(
        rt.alloc(),
        "rule add priority 100 table 7
rule add priority 200 from 10/8 table 7",
    )?;
    let changes = all_changes(rt.alloc(), &found, &wanted)?;
    assert_eq!(rt; (changes.early.len(), changes.left.len()), (1, 0));
    let text = text_of(rt.alloc(), &Fence::all(rt.alloc()), &found, &wanted)?;
    assert_eq!(rt;
        text.as_slice(),
        "rule del priority 100 from 10.0.0.0/8 to all lookup 7
rule add priority 100 from all lookup 7
rule add priority 200 from 10.0.0.0/8 lookup 7
rule del priority 100 from 10.0.0.0/8 to all fwmark 0x1 lookup 7
rule del priority 200 from all to all lookup 7
"
            .as_bytes()
    );
    Ok(())
}

/// The words for the rule that bars would take the one before it, until that goes.
#[test]
fn goes_later_where_the_way_is_not_clear(rt: HostRuntime) -> Result<(), Fail> {
    let found = made(
        rt.alloc(),
        "rule add priority 100 from 10/8 iif eth0 table 7
rule add priority 100 from 10/8 table 7",
    )?;
    let wanted = made(rt.alloc(), "rule add priority 100 not from 10/8 table 7")?;
    let changes = all_changes(rt.alloc(), &found, &wanted)?;
    assert_eq!(rt; (changes.early.len(), changes.left.len()), (0, 0));
    assert_eq!(rt; changes.commands.len(), 3);
    Ok(())
}

/// The kernel fills the interface in.
#[test]
fn takes_the_interface_of_a_gateway_as_found(rt: HostRuntime) -> Result<(), Fail> {
    let text = lines_between(
        rt.alloc(),
        "route add default via 192.0.2.1 dev eth0",
        "route add default via 192.0.2.1",
    )?;
    assert_eq!(rt; text.as_slice(), "".as_bytes());
    Ok(())
}

#[test]
fn stays_within_the_fence(rt: HostRuntime) -> Result<(), Fail> {
    let found = made(
        rt.alloc(),
        "route add default via 192.0.2.1
route add 10.0.0.0/8 dev eth0 table 7",
    )?;
    let wanted = made(
        rt.alloc(),
        "rule add priority 500 table 7
route add 172.16.0.0/12 dev eth0
route add 10.1.0.0/16 dev eth0 table 7",
    )?;
    let mut fence = Fence::nothing(rt.alloc());
    fence.add_tables(7, 7)?;
    let text = text_of(rt.alloc(), &fence, &found, &wanted)?;
    assert_eq!(rt;
        text.as_slice(),
        "route replace 10.1.0.0/16 dev eth0 table 7 scope 253
route del 10.0.0.0/8 table 7
"
            .as_bytes()
    );
    let outside = count_outside(&fence, &wanted)?;
    assert_eq!(rt; (outside.rules, outside.routes), (4, 1));
    Ok(())
}

/// Makes a route through an interface of this name.
fn route_through(name: &[u8]) -> Result<Route, Refusal> {
    Ok(Route {
        table: MAIN_TABLE,
        prefix: Prefix::masked(0, 0),
        metric: 0,
        kind: Kind::Unicast,
        via: None,
        dev: Some(read_dev(name)?),
        src: None,
        proto: BOOT_PROTOCOL,
        scope: LINK_SCOPE,
    })
}

#[test]
fn names_what_no_line_spells(rt: HostRuntime) -> Result<(), Fail> {
    let command = Command::RouteAdd(route_through(b"a#b")?);
    let text = commands_text(rt.alloc(), &[command]);
    assert!(rt; matches!(text, Err(LineError::NoLine(Command::RouteAdd(_)))));
    Ok(())
}

/// Makes the version of a new database and a route through an interface of this name.
fn version_through(alloc: Global, name: &[u8]) -> Result<Version, Refusal> {
    version_after(
        &Version::opening(alloc)?,
        &Command::RouteAdd(route_through(name)?),
    )
}

/// No command comes of the name, and the route is named as one that is missing, or that stays.
fn is_left_out(alloc: Global, name: &[u8]) -> Result<bool, Fail> {
    let fence = Fence::all(alloc);
    let with_route = version_through(alloc, name)?;
    let opening = Version::opening(alloc)?;
    let coming = text_of(alloc, &fence, &opening, &with_route)?;
    let going = text_of(alloc, &fence, &with_route, &opening)?;
    let missing = held_between(alloc, &fence, &opening, &with_route)?;
    let staying = held_between(alloc, &fence, &with_route, &opening)?;
    let outside = count_outside(&fence, &with_route)?;
    Ok(
        coming.is_empty()
            && going.is_empty()
            && missing.unreadable.missing_routes.len() == 1
            && staying.unreadable.staying_routes.len() == 1
            && outside.routes == 0,
    )
}

#[test]
fn leaves_out_names_that_ip_misreads(rt: HostRuntime) -> Result<(), Fail> {
    assert!(rt; is_left_out(rt.alloc(), b"a\"b")?);
    assert!(rt; is_left_out(rt.alloc(), b"a'b")?);
    assert!(rt; is_left_out(rt.alloc(), b"a\\b")?);
    assert!(rt; is_left_out(rt.alloc(), b"a#b")?);
    assert!(rt; is_left_out(rt.alloc(), b"a\x0bb")?);
    assert!(rt; is_left_out(rt.alloc(), b"a\xffb")?);
    assert!(rt; is_left_out(rt.alloc(), b"-a")?);
    assert!(rt; !is_left_out(rt.alloc(), b"a-b.1@~")?);
    Ok(())
}

/// A rule of a priority at which another has an interface that no line names moves among the others alone.
#[test]
fn leaves_a_rule_of_such_a_name(rt: HostRuntime) -> Result<(), Fail> {
    let found = made(rt.alloc(), "rule add priority 500 iif a\"b table 7")?;
    let wanted = made(rt.alloc(), "rule add priority 500 iif ab table 7")?;
    let fence = Fence::all(rt.alloc());
    let text = text_of(rt.alloc(), &fence, &found, &wanted)?;
    assert_eq!(rt;
        text.as_slice(),
        "rule add priority 500 from all iif ab lookup 7\n".as_bytes()
    );
    let brought = after(found, "rule add priority 500 iif ab table 7")?;
    let rest = text_of(rt.alloc(), &fence, &brought, &wanted)?;
    assert_eq!(rt; rest.as_slice(), "".as_bytes());
    let held = held_between(rt.alloc(), &fence, &brought, &wanted)?;
    assert!(rt; is_one_lookup(&held.unreadable.staying_rules, 7));
    assert!(rt; held.unreadable.missing_rules.is_empty());
    Ok(())
}

/// What can't be kept of a listing shares the priority of one rule and the key of one route.
#[test]
fn leaves_what_the_unread_might_be_taken_for(rt: HostRuntime) -> Result<(), Fail> {
    let found = made(
        rt.alloc(),
        "rule add priority 500 from 10/8 table 7
rule add priority 600 from 10/8 table 7
route add 10.1/16 dev eth0 table 7
route add 10.1/16 dev eth0 table 7 metric 5",
    )?;
    let wanted = made(
        rt.alloc(),
        "rule add priority 500 from 10/8 table 8
rule add priority 600 from 10/8 table 8
route add 10.1/16 dev eth1 table 7
route add 10.1/16 dev eth1 table 7 metric 5",
    )?;
    let mut fence = Fence::all(rt.alloc());
    fence.add_unread_priority(500)?;
    fence.add_unread_key(RouteKey {
        table: 7,
        prefix: Prefix::masked(0x0a01_0000, 16),
        metric: 0,
    })?;
    let text = text_of(rt.alloc(), &fence, &found, &wanted)?;
    assert_eq!(rt;
        text.as_slice(),
        "rule add priority 600 from 10.0.0.0/8 lookup 8
route replace 10.1.0.0/16 dev eth1 table 7 scope 253 metric 5
rule del priority 600 from 10.0.0.0/8 to all lookup 7
"
            .as_bytes()
    );
    let outside = count_outside(&fence, &wanted)?;
    assert_eq!(rt; (outside.rules, outside.routes), (0, 0));
    let held = held_between(rt.alloc(), &fence, &found, &wanted)?;
    assert!(rt; is_one_route(&held.hindered_routes, "route add 10.1/16 dev eth1 table 7")?);
    assert!(rt; is_one_lookup(&held.hindered_rules, 8));
    assert!(rt; is_one_lookup(&held.staying_rules, 7));
    assert!(rt; held.blocked_routes.is_empty() && held.staying_routes.is_empty());
    Ok(())
}

/// A route and a rule go from the tables, each beside a line that can't be kept.
#[test]
fn names_what_stays_beside_the_unread(rt: HostRuntime) -> Result<(), Fail> {
    let found = made(
        rt.alloc(),
        "rule add priority 500 from 10/8 table 7
route add 10.1/16 dev eth0 table 7",
    )?;
    let wanted = Version::opening(rt.alloc())?;
    let mut fence = Fence::nothing(rt.alloc());
    fence.add_tables(7, 7)?;
    fence.add_priorities(500, 500)?;
    fence.add_unread_priority(500)?;
    fence.add_unread_key(RouteKey {
        table: 7,
        prefix: Prefix::masked(0x0a01_0000, 16),
        metric: 0,
    })?;
    let text = text_of(rt.alloc(), &fence, &found, &wanted)?;
    assert_eq!(rt; text.as_slice(), "".as_bytes());
    let held = held_between(rt.alloc(), &fence, &found, &wanted)?;
    assert!(rt; is_one_route(&held.staying_routes, "route add 10.1/16 dev eth0 table 7")?);
    assert!(rt; is_one_lookup(&held.staying_rules, 7));
    let none = held_between(rt.alloc(), &fence, &found, &found)?;
    assert!(rt; none.is_nothing());
    Ok(())
}

/// A route of DHCP is in the place of one of ours, and one by its gateway alone is there already.
#[test]
fn names_what_another_blocks(rt: HostRuntime) -> Result<(), Fail> {
    let found = made(
        rt.alloc(),
        "route add default via 192.0.2.1 dev eth0 proto dhcp
route add 10.1/16 dev eth0 proto dhcp
route add 10.2/16 via 192.0.2.1 dev e\"0 proto static",
    )?;
    let wanted = made(
        rt.alloc(),
        "route add default via 192.0.2.9 proto static
route add 10.1/16 dev eth0 proto static metric 5
route add 10.2/16 via 192.0.2.1 proto static
route add 10.3/16 dev eth0",
    )?;
    let mut fence = Fence::nothing(rt.alloc());
    fence.add_protocol(4)?;
    let text = text_of(rt.alloc(), &fence, &found, &wanted)?;
    assert_eq!(rt;
        text.as_slice(),
        "route replace 10.1.0.0/16 dev eth0 proto 4 scope 253 metric 5\n".as_bytes()
    );
    let held = held_between(rt.alloc(), &fence, &found, &wanted)?;
    assert!(rt;
        is_one_route(
            &held.blocked_routes,
            "route add default via 192.0.2.9 proto static"
        )?
    );
    assert!(rt; held.hindered_routes.is_empty() && held.staying_routes.is_empty());
    Ok(())
}

/// The kernel makes a route to the network of an address itself. It serves for one of ours that goes the same way.
#[test]
fn takes_a_route_of_the_kernel_for_one_of_ours(rt: HostRuntime) -> Result<(), Fail> {
    let found = made(
        rt.alloc(),
        "route add 192.0.2.0/24 dev eth0 proto kernel scope link src 192.0.2.10
route add 198.51.100.0/24 dev eth1 proto kernel scope link src 198.51.100.10
route add 203.0.113.0/24 dev eth2 proto kernel scope link src 203.0.113.10",
    )?;
    let wanted = made(
        rt.alloc(),
        "route add 192.0.2.0/24 dev eth0
route add 198.51.100.0/24 dev eth0
route add 203.0.113.0/24 dev eth2 src 203.0.113.10",
    )?;
    let fence = Fence::all(rt.alloc());
    let text = text_of(rt.alloc(), &fence, &found, &wanted)?;
    assert_eq!(rt; text.as_slice(), "".as_bytes());
    let held = held_between(rt.alloc(), &fence, &found, &wanted)?;
    assert!(rt; is_one_route(&held.blocked_routes, "route add 198.51.100.0/24 dev eth0")?);
    Ok(())
}

/// `ip` reads a mark of 0 without a mask as none.
#[test]
fn brings_a_rule_for_the_mark_0(rt: HostRuntime) -> Result<(), Fail> {
    let unmarked = "rule add priority 50 fwmark 0 table 50";
    let coming = lines_between(rt.alloc(), "", unmarked)?;
    assert_eq!(rt;
        coming.as_slice(),
        "rule add priority 50 from all fwmark 0x0/0xffffffff lookup 50\n".as_bytes()
    );
    let going = lines_between(rt.alloc(), unmarked, "")?;
    assert_eq!(rt;
        going.as_slice(),
        "rule del priority 50 from all to all fwmark 0x0/0xffffffff lookup 50\n".as_bytes()
    );
    Ok(())
}

/// The kernel's own routes are left out, and so is what has a name that `ip -batch` can't read.
#[test]
fn replaces_all_that_ip_reads(rt: HostRuntime) -> Result<(), Fail> {
    let version = made(
        rt.alloc(),
        "rule add priority 500 from 10/8 table 7
rule add priority 600 iif a'b table 7
route add default via 192.0.2.1
route add 192.0.2.0/24 dev eth0
route add 198.51.100.0/24 dev eth0 proto kernel scope link src 198.51.100.9
route add 198.51.100.9 dev eth0 table local scope host
route add 10.1/16 via 192.0.2.9 table 7
route add 10.2/16 dev eth1 table 7
route add 10.3/16 dev -x table 7
route add throw 10.4/16 table 7",
    )?;
    let Ok(text) = replacing_text(rt.alloc(), &version) else {
        return Err(Fail::from(Refusal::NoMemory));
    };
    assert_eq!(rt;
        text.as_slice(),
        "rule flush
rule add priority 1 from all lookup local
rule add priority 2 from all lookup local
rule del lookup local
rule del from all
rule flush
rule add priority 0 from all lookup local
rule add priority 500 from 10.0.0.0/8 lookup 7
rule add priority 32766 from all lookup main
rule add priority 32767 from all lookup default
route replace 10.2.0.0/16 dev eth1 table 7 scope 253
route replace throw 10.4.0.0/16 table 7
route replace 192.0.2.0/24 dev eth0 scope 253
route replace 10.1.0.0/16 via 192.0.2.9 table 7
route replace default via 192.0.2.1
"
            .as_bytes()
    );
    let held = left_out_of_replacing(rt.alloc(), &version)?;
    assert!(rt; is_one_lookup(&held.unreadable.missing_rules, 7));
    assert!(rt;
        is_one_route(
            &held.unreadable.missing_routes,
            "route add 10.3/16 dev -x table 7"
        )?
    );
    Ok(())
}
