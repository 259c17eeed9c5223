use super::tables::version_after;
use prt_analyses::unused::{RuleReason, unused, unused_text};
use prt_command::Refusal;
use prt_version::Version;
use std::alloc::Global;
use std::test::Fail;

/// A rule behind a wider one, a rule that matches no packet, a route behind the wider rule, a throw route, and a route that no
/// rule looks up.
const BEHIND: &str = "rule add from 10.0.0.0/8 blackhole priority 100
rule add from 10.1.0.0/16 table 5 priority 200
rule add not from all table 9 priority 300
route add 192.0.2.0/24 dev eth0 table 5
route add throw 192.0.3.0/24 table 5
route add 198.51.100.0/24 dev eth1 table 7
route add default dev eth2";

const BEHIND_TEXT: &str = "0:\tfrom all lookup local
\t0.0.0.0 from 0.0.0.0 iif lo mark 0x0 gets rule 32766 table main default dev eth2 scope link
200:\tfrom 10.1.0.0/16 lookup 5
\t0.0.0.0 from 10.1.0.0 iif lo mark 0x0 gets rule 100 blackhole
300:\tnot from all lookup 9
\tno packet matches
32767:\tfrom all lookup default
\t0.0.0.0 from 0.0.0.0 iif lo mark 0x0 gets rule 32766 table main default dev eth2 scope link
192.0.2.0/24 dev eth0 table 5 scope link
\t192.0.2.0 from 10.1.0.0 iif lo mark 0x0 gets rule 100 blackhole
throw 192.0.3.0/24 table 5
\ta throw route: what finds it goes on to the next rule
198.51.100.0/24 dev eth1 table 7 scope link
\tno rule looks up table 7
";

/// A route whose two halves have routes of their own. The rule that looks up the table doesn't match what its selector names.
const HALVES: &str = "rule add not from 10.0.0.0/8 table 7 priority 100
route add 192.0.2.0/24 dev eth0 table 7
route add 192.0.2.0/25 dev eth1 table 7
route add 192.0.2.128/25 dev eth2 table 7
route add default dev eth3";

const HALVES_TEXT: &str = "0:\tfrom all lookup local
\t0.0.0.0 from 0.0.0.0 iif lo mark 0x0 gets rule 32766 table main default dev eth3 scope link
32767:\tfrom all lookup default
\t0.0.0.0 from 0.0.0.0 iif lo mark 0x0 gets rule 32766 table main default dev eth3 scope link
192.0.2.0/24 dev eth0 table 7 scope link
\t192.0.2.0 from 0.0.0.0 iif lo mark 0x0 gets rule 100 table 7 192.0.2.0/25 dev eth1 scope link
";

/// Rules that look up tables, but match no packet to the routes there.
const ELSEWHERE: &str = "rule add to 10.1.0.0/16 table 8 priority 100
rule add not from all table 9 priority 200
route add 10.2.0.0/16 dev eth0 table 8
route add 10.2.0.0/16 dev eth0 table 9
route add default dev eth1";

const ELSEWHERE_TEXT: &str = "0:\tfrom all lookup local
\t0.0.0.0 from 0.0.0.0 iif lo mark 0x0 gets rule 32766 table main default dev eth1 scope link
100:\tfrom all to 10.1.0.0/16 lookup 8
\t10.1.0.0 from 0.0.0.0 iif lo mark 0x0 gets rule 32766 table main default dev eth1 scope link
200:\tnot from all lookup 9
\tno packet matches
32767:\tfrom all lookup default
\t0.0.0.0 from 0.0.0.0 iif lo mark 0x0 gets rule 32766 table main default dev eth1 scope link
10.2.0.0/16 dev eth0 table 8 scope link
\tno rule that looks up table 8 matches a packet to it
10.2.0.0/16 dev eth0 table 9 scope link
\tno rule that looks up table 9 matches a packet to it
";

/// Two rules of one priority that do the same, the narrower one first.
const NARROW_FIRST: &str = "rule add to 10.0.0.0/8 prohibit priority 100
rule add from all prohibit priority 100";

/// The same rules, the wider one first.
const WIDE_FIRST: &str = "rule add from all prohibit priority 100
rule add to 10.0.0.0/8 prohibit priority 100";

/// Returns the text of what is unused after this script.
fn text_after(alloc: Global, script: &str) -> Result<Vec<u8>, Refusal> {
    let version = version_after(alloc, script)?;
    let found = unused(alloc, &version)?;
    let mut text = Vec::new(alloc);
    unused_text(&mut text, &found)?;
    Ok(text)
}

#[test]
fn shows_packets_that_rules_match(rt: HostRuntime) -> Result<(), Fail> {
    let cases: [(&str, &str); 3] = [
        (BEHIND, BEHIND_TEXT),
        (HALVES, HALVES_TEXT),
        (ELSEWHERE, ELSEWHERE_TEXT),
    ];
    for (script, wanted) in cases {
        let text = text_after(rt.alloc(), script)?;
        assert!(rt; text.as_slice() == wanted.as_bytes());
    }
    Ok(())
}

#[test]
fn a_new_database_needs_no_rule(rt: HostRuntime) -> Result<(), Fail> {
    let version = Version::opening(rt.alloc())?;
    let found = unused(rt.alloc(), &version)?;
    assert_eq!(rt; found.rules.len(), 3);
    assert_eq!(rt; found.routes.len(), 0);
    Ok(())
}

#[test]
fn tells_rules_of_one_priority_apart(rt: HostRuntime) -> Result<(), Fail> {
    let narrow_first = unused(rt.alloc(), &version_after(rt.alloc(), NARROW_FIRST)?)?;
    // The three of the opening come behind.
    assert_eq!(rt; narrow_first.rules.len(), 3);
    let wide_first = unused(rt.alloc(), &version_after(rt.alloc(), WIDE_FIRST)?)?;
    assert_eq!(rt; wide_first.rules.len(), 4);
    assert!(rt; wide_first.rules[1].rule.to.len() == 8);
    assert!(rt; matches!(&wide_first.rules[1].reason, RuleReason::Matches(_)));
    Ok(())
}
