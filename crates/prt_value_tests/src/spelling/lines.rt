use prt_command::{Command, Refusal, Request, read_line};
use prt_route::{Addr, Dev, Kind, Prefix, Range, RouteChoice, Selector, read_dev};
use prt_rule::RuleChoice;
use prt_spelling::{NameForm, SpellingError, command_line, line_by};
use std::alloc::Global;
use std::test::Fail;

const TYPED: &str = "ip route add to default via 192.0.2.1
r a 10/8 dev wg0 table 7 scope global metric 5 src 10.0.0.1
route change unreachable 10.1/16 table local priority 0x10
ro chg 192.0.2.0/24 via 10.1 dev eth0 proto 4 scope 200
route replace throw 0/0 table 100
route del any
route d unicast 10/8 dev via table 254 protocol 99 scope link src 192.0.2.9 metric 0
route delete blackhole 10.1.2.3/32 table main metric 7
route flush proto bgp
route flush table all type blackhole root 10.9/8
route flush match 10.8.0.1 scope 7 dev eth0 table 7
route flush to exact default table default
rule add
rule a not from 10/8 to 10.1/16 fwmark 7/0xff iif eth0 table local suppress_prefixlength 0 order 9
rule add to all blackhole
rule del priority 0
rule delete not from all to any
rule d fwmark 1 dev lo prohibit
rule a fwmark 0 table 7
rule d fwmark 0x0/0xFFFFFFFF
rule a fwmark 0/0 table 7
rule del lookup 100 suppress_prefixlength 32
ru flush";

const SPELLED: &str = "route add default via 192.0.2.1
route add 10.0.0.0/8 dev wg0 table 7 src 10.0.0.1 metric 5 scope global
route change unreachable 10.1.0.0/16 table local metric 16
route change 192.0.2.0/24 via 10.1.0.0 dev eth0 proto static scope site
route replace throw default table 100
route del default
route del unicast 10.0.0.0/8 dev via proto 99 scope link src 192.0.2.9
route del blackhole 10.1.2.3 metric 7
route flush table main proto bgp
route flush root 10.0.0.0/8 table all type blackhole
route flush match 10.8.0.1 table 7 scope 7 dev eth0
route flush exact default table default
rule add from all lookup main
rule add priority 9 not from 10.0.0.0/8 to 10.1.0.0/16 fwmark 0x7/0xff iif eth0 lookup local suppress_prefixlength 0
rule add from all blackhole
rule del priority 0
rule del not from all to all
rule del fwmark 0x1 iif lo prohibit
rule add from all fwmark 0x0/0xffffffff lookup 7
rule del fwmark 0x0/0xffffffff
rule add from all fwmark 0x0/0x0 lookup 7
rule del lookup 100 suppress_prefixlength 32
rule flush
";

const PROTOCOLS: &str = "route add 10.1/16 dev eth0 proto static
route change 10.2/16 dev eth0 proto 99
route replace 10.3/16 dev eth0 proto boot
route del 10.4/16 proto boot
route flush proto bgp
rule add table main";

const NUMBERED: &str = "route add 10.1.0.0/16 dev eth0 proto 4 scope 253
route change 10.2.0.0/16 dev eth0 proto 99 scope 253
route replace 10.3.0.0/16 dev eth0 scope 253
route del 10.4.0.0/16 proto 3
route flush table main proto 186
rule add from all lookup main
";

const DEFAULTS: &str = "route del unicast default via 0.0.0.0 table 7 metric 1";

/// Returns the line of the command.
fn line_of(alloc: Global, command: &Command) -> Result<Vec<u8>, Fail> {
    match command_line(alloc, command) {
        Ok(line) => Ok(line),
        Err(_) => Err(Fail::from(Refusal::NoMemory)),
    }
}

/// Returns the line of the command that this line asks for, with each protocol in this form.
fn spelled_again(alloc: Global, form: NameForm, line: &str) -> Result<Vec<u8>, Fail> {
    let Some(Request::Command(command)) = read_line(line.as_bytes())? else {
        return Err(Fail::from(Refusal::UnknownVerb));
    };
    match line_by(alloc, form, &command) {
        Ok(line) => Ok(line),
        Err(_) => Err(Fail::from(Refusal::NoMemory)),
    }
}

/// Returns the lines of the commands that these lines ask for, each with a newline.
fn spelled(alloc: Global, form: NameForm, lines: &str) -> Result<Vec<u8>, Fail> {
    let mut text = Vec::new(alloc);
    for line in lines.lines() {
        text.extend_from_slice(&spelled_again(alloc, form, line)?)?;
        text.push(b'\n')?;
    }
    Ok(text)
}

/// Checks whether no line asks for the command.
fn has_no_line(alloc: Global, command: &Command) -> bool {
    matches!(command_line(alloc, command), Err(SpellingError::NoLine))
}

/// Chooses rules by this interface alone, if there is one.
fn rules_of(iif: Option<Dev>) -> RuleChoice {
    RuleChoice {
        priority: None,
        inverted: false,
        from: None,
        to: None,
        iif,
        mark: None,
        action: None,
        suppress: None,
    }
}

/// Chooses the default routes of this table by this metric.
fn defaults_of(table: u32, metric: u32) -> RouteChoice {
    RouteChoice {
        table,
        prefix: Prefix::masked(0, 0),
        metric: Some(metric),
        kind: Some(Kind::Unicast),
        via: Some(Addr(0)),
        dev: None,
        src: None,
        proto: None,
        scope: None,
    }
}

/// Selects the routes of this table.
fn routes_of(table: u32) -> Selector {
    Selector {
        table: Some(table),
        range: Range::All,
        kind: None,
        proto: None,
        scope: None,
        dev: None,
    }
}

#[test]
fn spells_each_verb(rt: HostRuntime) -> Result<(), Fail> {
    assert_eq!(rt;
        spelled(rt.alloc(), NameForm::ByName, TYPED)?.as_slice(),
        SPELLED.as_bytes()
    );
    Ok(())
}

#[test]
fn spells_what_is_spelled(rt: HostRuntime) -> Result<(), Fail> {
    assert_eq!(rt;
        spelled(rt.alloc(), NameForm::ByName, SPELLED)?.as_slice(),
        SPELLED.as_bytes()
    );
    Ok(())
}

/// Protocol boot is implied only where a route is put.
#[test]
fn spells_the_numbers_of_protocols(rt: HostRuntime) -> Result<(), Fail> {
    assert_eq!(rt;
        spelled(rt.alloc(), NameForm::ByNumber, PROTOCOLS)?.as_slice(),
        NUMBERED.as_bytes()
    );
    Ok(())
}

#[test]
fn has_no_line_for_what_no_line_asks(rt: HostRuntime) -> Result<(), Fail> {
    let alloc = rt.alloc();
    let commented = read_dev(b"a#b")?;
    assert!(rt; has_no_line(alloc, &Command::RuleDel(rules_of(None))));
    assert!(rt; has_no_line(alloc, &Command::RuleDel(rules_of(Some(commented)))));
    assert!(rt; has_no_line(alloc, &Command::RouteDel(defaults_of(0, 1))));
    assert!(rt; has_no_line(alloc, &Command::RouteDel(defaults_of(7, 0))));
    assert!(rt; has_no_line(alloc, &Command::RouteFlush(routes_of(0))));
    let line = line_of(alloc, &Command::RouteDel(defaults_of(7, 1)))?;
    assert_eq!(rt; line.as_slice(), DEFAULTS.as_bytes());
    Ok(())
}
