use super::tables::version_after;
use prt_command::Refusal;
use prt_impact::{impact, impact_json, impact_text};
use prt_partition::Sameness;
use std::alloc::{AllocError, Global};
use std::test::Fail;

const DEFAULT: &str = "route add default via 192.0.2.1";

const OTHER_DEFAULT: &str = "route add default via 192.0.2.2";

const BY_SOURCE: &str = "route add default via 192.0.2.1
route add 10.0.0.0/8 dev wg0 table 5
rule add priority 100 from 192.0.2.0/24 iif eth0 fwmark 1/3 table 5";

const ONE_MARK: &str = "route add default via 192.0.2.1
route add default via 192.0.2.9 table 5
rule add priority 100 fwmark 1 table 5";

const ONE_MARK_AFTER: &str = "route add default via 192.0.2.2
route add default via 192.0.2.9 table 5
rule add priority 100 fwmark 1 table 5";

const TWO_MARKS: &str = "route add default via 192.0.2.1
route add default via 192.0.2.9 table 5
rule add priority 100 fwmark 1 table 5
rule add priority 101 fwmark 2 table 5
rule add priority 102 fwmark 0x10/0xf0 table 6";

const TWO_MARKS_AFTER: &str = "route add default via 192.0.2.2
route add default via 192.0.2.9 table 5
route add default via 192.0.2.8 table 6
rule add priority 100 fwmark 1 table 5
rule add priority 101 fwmark 2 table 5
rule add priority 102 fwmark 0x10/0xf0 table 6";

/// Returns the text of the groups of packets that go elsewhere after the second script, and those groups as JSON.
fn texts_between(alloc: Global, before: &str, after: &str) -> Result<(Vec<u8>, Vec<u8>), Refusal> {
    let before = version_after(alloc, before)?;
    let after = version_after(alloc, after)?;
    let groups = impact(alloc, &before, &after, Sameness::Outcomes)?;
    let mut text = Vec::new(alloc);
    let mut json = Vec::new(alloc);
    impact_text(&mut text, &groups)?;
    impact_json(&mut json, &groups)?;
    Ok((text, json))
}

#[test]
fn groups_are_as_few_as_can_be(rt: HostRuntime) -> Result<(), Fail> {
    let cases: [(&str, &str, &str); 5] = [
        (DEFAULT, DEFAULT, ""),
        (
            DEFAULT,
            OTHER_DEFAULT,
            "to 0.0.0.0/0: rule 32766 table main default via 192.0.2.1 -> rule 32766 table main default via 192.0.2.2\n",
        ),
        (
            DEFAULT,
            BY_SOURCE,
            "to 10.0.0.0/8 from 192.0.2.0/24 iif eth0 fwmark 0x1/0x3: rule 32766 table main default via 192.0.2.1 -> rule 100 table 5 10.0.0.0/8 dev wg0 scope link\n",
        ),
        (
            ONE_MARK,
            ONE_MARK_AFTER,
            "to 0.0.0.0/0 fwmark not 0x1: rule 32766 table main default via 192.0.2.1 -> rule 32766 table main default via 192.0.2.2\n",
        ),
        (
            TWO_MARKS,
            TWO_MARKS_AFTER,
            "to 0.0.0.0/0 fwmark not 0x1,0x2,0x10/0xf0: rule 32766 table main default via 192.0.2.1 -> rule 32766 table main default via 192.0.2.2
to 0.0.0.0/0 fwmark 0x10/0xf0: rule 32766 table main default via 192.0.2.1 -> rule 102 table 6 default via 192.0.2.8\n",
        ),
    ];
    for (before, after, wanted) in cases {
        let (text, _) = texts_between(rt.alloc(), before, after)?;
        assert!(rt; text.as_slice() == wanted.as_bytes());
    }
    Ok(())
}

#[test]
fn groups_are_objects(rt: HostRuntime) -> Result<(), Fail> {
    let (_, json) = texts_between(rt.alloc(), DEFAULT, BY_SOURCE)?;
    let wanted =
        "[{\"to\":\"10.0.0.0/8\",\"from\":\"192.0.2.0/24\",\"iif\":\"eth0\",\"fwmark\":\"0x1/0x3\",\"was\":\"rule 32766 table main default via 192.0.2.1\",\"is\":\"rule 100 table 5 10.0.0.0/8 dev wg0 scope link\"}]\n";
    assert!(rt; json.as_slice() == wanted.as_bytes());
    let (_, json) = texts_between(rt.alloc(), ONE_MARK, ONE_MARK_AFTER)?;
    let wanted =
        "[{\"to\":\"0.0.0.0/0\",\"fwmark_not\":\"0x1\",\"was\":\"rule 32766 table main default via 192.0.2.1\",\"is\":\"rule 32766 table main default via 192.0.2.2\"}]\n";
    assert!(rt; json.as_slice() == wanted.as_bytes());
    Ok(())
}

/// Makes a script with rules of 17 marks, of which no two differ in one bit alone, for a table with this gateway.
fn of_many_marks(alloc: Global, gateway: u32) -> Result<String, AllocError> {
    let mut script = format!(in alloc;
        "route add default via 192.0.2.1\nroute add default via 192.0.2.{gateway} table 5"
    )?;
    for bit in 0..17 {
        let mark = 1u32.wrapping_shl(bit);
        let line = format!(in alloc; "\nrule add priority 100 fwmark {mark} table 5")?;
        script.push_str(line.as_str())?;
    }
    Ok(script)
}

#[test]
fn more_marks_than_a_group_has_make_two(rt: HostRuntime) -> Result<(), Fail> {
    let before = of_many_marks(rt.alloc(), 2)?;
    let after = of_many_marks(rt.alloc(), 3)?;
    let (text, _) = texts_between(rt.alloc(), before.as_str(), after.as_str())?;
    let wanted =
        "to 0.0.0.0/0 fwmark 0x10000: rule 100 table 5 default via 192.0.2.2 -> rule 100 table 5 default via 192.0.2.3
to 0.0.0.0/0 fwmark 0x1,0x2,0x4,0x8,0x10,0x20,0x40,0x80,0x100,0x200,0x400,0x800,0x1000,0x2000,0x4000,0x8000: rule 100 table 5 default via 192.0.2.2 -> rule 100 table 5 default via 192.0.2.3\n";
    assert!(rt; text.as_slice() == wanted.as_bytes());
    Ok(())
}
