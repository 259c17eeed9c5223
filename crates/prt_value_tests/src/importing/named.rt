//! Texts with the names of tables. The rules and routes were printed by `ip` of iproute2 6.1, whose interface was named
//! `table`. They were printed first with the names that it comes with, and then with those below. Explanations and scripts
//! are by hand.
use prt_import::{Names, Text, with_names};
use std::alloc::Global;
use std::test::Fail;

/// A file `/etc/iproute2/rt_tables` with two names of table 100; the one that `ip` read had two more tables.
const TABLES: &str = "255\tlocal
254\tmain
253\tdefault
0\tunspec
100\tfirst
7\tseven
100\tuplink # the one that is shown
0x64f\tother
300\ta\"b\\c,d
";

/// What `ip -4 rule` printed.
const RULES: &str = "0:\tfrom all lookup local
100:\tfrom all iif table lookup 100
101:\tfrom all fwmark 0x64 lookup 7
32766:\tfrom all lookup main
32767:\tfrom all lookup default
";

const NAMED_RULES: &str = "0:\tfrom all lookup local
100:\tfrom all iif table lookup uplink
101:\tfrom all fwmark 0x64 lookup seven
32766:\tfrom all lookup main
32767:\tfrom all lookup default
";

/// What `ip -4 route show table all` printed, except for table local.
const ROUTES: &str = "10.2.0.0/16 dev table table 7 scope link 
10.6.0.0/16 dev table table 9 scope link 
10.4.0.0/16 dev table table 300 scope link metric 100 
unreachable 10.3.0.0/16 table 1615 metric 100 
10.1.0.0/16 dev table table 100 scope link 
10.7.0.0/16 dev table proto 100 scope 100 
";

const NAMED_ROUTES: &str = "10.2.0.0/16 dev table table seven scope link 
10.6.0.0/16 dev table table 9 scope link 
10.4.0.0/16 dev table table a\"b\\c,d scope link metric 100 
unreachable 10.3.0.0/16 table other metric 100 
10.1.0.0/16 dev table table uplink scope link 
10.7.0.0/16 dev table proto 100 scope 100 
";

/// By hand, of objects that `ip -j -4 rule` and `ip -j -4 route show table all` printed. Some have one field less, and one
/// has another priority. The names are as `ip` printed them.
const JSON: &str =
    r#"[{"priority":0,"src":"all","table":"local"},{"priority":100,"src":"all","iif":"table","table":"100"},{"priority":101,"src":"all","table":"9"},{"priority":32766,"src":"all","table":"main"}]
[{"dst":"10.4.0.0/16","dev":"table","table":"300","scope":"link","metric":100,"flags":[]},{"type":"unreachable","dst":"10.3.0.0/16","table":"1615","metric":100,"flags":[]},{"dst":"10.7.0.0/16","dev":"table","protocol":"100","scope":"100","flags":[]}]
"#;

const NAMED_JSON: &str =
    r#"[{"priority":0,"src":"all","table":"local"},{"priority":100,"src":"all","iif":"table","table":"uplink"},{"priority":101,"src":"all","table":"9"},{"priority":32766,"src":"all","table":"main"}]
[{"dst":"10.4.0.0/16","dev":"table","table":"a\"b\\c,d","scope":"link","metric":100,"flags":[]},{"type":"unreachable","dst":"10.3.0.0/16","table":"other","metric":100,"flags":[]},{"dst":"10.7.0.0/16","dev":"table","protocol":"100","scope":"100","flags":[]}]
"#;

/// An explanation by hand; the priority of a rule, which comes after the name of an interface, is that of a named table.
const EXPLANATION: &str = "packet to 203.0.113.5 from 0.0.0.0 iif table mark 0x64
0:\tfrom all lookup local
\ttable local: no route
7:\tfrom all iif lookup lookup 100
\tno: iif lookup
100:\tfrom all lookup 7
\ttable 7: no route
300:\tfrom all lookup 300
\ttable 300: throw default
\tthrow: the lookup ends here, and the rule says nothing
1615:\tfrom all lookup 100 suppress_prefixlength 7
\ttable 100: 203.0.113.0/24 dev table
\tbefore default via 192.0.2.1 dev table: longer prefix
answer 100 rule 1615 table 100 203.0.113.0/24 dev table
";

const NAMED_EXPLANATION: &str = "packet to 203.0.113.5 from 0.0.0.0 iif table mark 0x64
0:\tfrom all lookup local
\ttable local: no route
7:\tfrom all iif lookup lookup uplink
\tno: iif lookup
100:\tfrom all lookup seven
\ttable seven: no route
300:\tfrom all lookup a\"b\\c,d
\ttable a\"b\\c,d: throw default
\tthrow: the lookup ends here, and the rule says nothing
1615:\tfrom all lookup uplink suppress_prefixlength 7
\ttable uplink: 203.0.113.0/24 dev table
\tbefore default via 192.0.2.1 dev table: longer prefix
answer 100 rule 1615 table uplink 203.0.113.0/24 dev table
";

/// A script by hand.
const SCRIPT: &str = "rule add priority 100 from all iif table lookup 100
route add 10.1.0.0/16 dev 100 table 100 scope link
route flush table all proto 7
route del default table 1615 metric 7";

const NAMED_SCRIPT: &str = "rule add priority 100 from all iif table lookup uplink
route add 10.1.0.0/16 dev 100 table uplink scope link
route flush table all proto 7
route del default table other metric 7";

/// Returns a text with the names of the file.
fn named(alloc: Global, form: Text, text: &str) -> Result<Vec<u8>, Fail> {
    let mut names = Names::new(alloc);
    names.read(TABLES.as_bytes())?;
    Ok(with_names(alloc, &names, form, text.as_bytes())?)
}

#[test]
fn names_tables_of_listings(rt: HostRuntime) -> Result<(), Fail> {
    let rules = named(rt.alloc(), Text::Lines, RULES)?;
    assert_eq!(rt; rules.as_slice(), NAMED_RULES.as_bytes());
    let routes = named(rt.alloc(), Text::Lines, ROUTES)?;
    assert_eq!(rt; routes.as_slice(), NAMED_ROUTES.as_bytes());
    Ok(())
}

#[test]
fn names_tables_of_json(rt: HostRuntime) -> Result<(), Fail> {
    let json = named(rt.alloc(), Text::Json, JSON)?;
    assert_eq!(rt; json.as_slice(), NAMED_JSON.as_bytes());
    Ok(())
}

#[test]
fn names_tables_of_explanations(rt: HostRuntime) -> Result<(), Fail> {
    let explanation = named(rt.alloc(), Text::Lines, EXPLANATION)?;
    assert_eq!(rt; explanation.as_slice(), NAMED_EXPLANATION.as_bytes());
    Ok(())
}

#[test]
fn names_tables_of_scripts(rt: HostRuntime) -> Result<(), Fail> {
    let script = named(rt.alloc(), Text::Lines, SCRIPT)?;
    assert_eq!(rt; script.as_slice(), NAMED_SCRIPT.as_bytes());
    Ok(())
}

/// Only decimal digits without a 0 before them are a number, and only a whole piece is.
#[test]
fn keeps_other_words(rt: HostRuntime) -> Result<(), Fail> {
    for text in [
        "",
        "table",
        "table 0x64 table 0100 table 100/24 table 4294967396",
        "table\n100:\ttables 100 a_table 100 Table 100",
    ] {
        let kept = named(rt.alloc(), Text::Lines, text)?;
        assert_eq!(rt; kept.as_slice(), text.as_bytes());
    }
    let other = r#"{"lookup":"100","dev":"a\"table\"100","iif":"\"table","dst":"100"}"#;
    let kept = named(rt.alloc(), Text::Json, other)?;
    assert_eq!(rt; kept.as_slice(), other.as_bytes());
    Ok(())
}

#[test]
fn keeps_texts_without_names(rt: HostRuntime) -> Result<(), Fail> {
    let names = Names::new(rt.alloc());
    let lines = with_names(rt.alloc(), &names, Text::Lines, EXPLANATION.as_bytes())?;
    assert_eq!(rt; lines.as_slice(), EXPLANATION.as_bytes());
    let json = with_names(rt.alloc(), &names, Text::Json, JSON.as_bytes())?;
    assert_eq!(rt; json.as_slice(), JSON.as_bytes());
    Ok(())
}
