use crate::version::{commands_of, version_after};
use prt_diff::apply::{is_storable, plan};
use std::test::Fail;

const FOUND: &str = "route add default via 192.0.2.1
route add 172.16/12 via 192.0.2.9
route add 172.16/12 via 192.0.2.9 metric 7
route add 10.1/16 dev wg0 table 7
route add 10.2/16 dev wg0 table 7
rule add priority 500 from 10/8 table 7
rule add priority 500 fwmark 7 table 7
rule add priority 600 table 7";

const WANTED: &str = "route add 172.16/12 via 192.0.2.9 metric 8
route add default via 192.0.2.2
route add 10.1/16 dev wg0 table 7
route add 10.3/16 dev wg1 table 8
rule del priority 0
rule add priority 700 to 10.3/16 table 8
rule add priority 600 table 7
rule add priority 500 fwmark 7 table 7
rule add priority 500 from 10/8 table 7";

/// Local goes, and the two rules of priority 500 change places.
const PLAN: &str = "route replace 10.3/16 dev wg1 table 8
route replace default via 192.0.2.2
route replace 172.16/12 via 192.0.2.9 metric 8
rule del priority 0
rule del priority 500
rule del priority 500
rule add priority 500 fwmark 7 table 7
rule add priority 500 from 10/8 table 7
rule add priority 700 to 10.3/16 table 8
route del 10.2/16 table 7
route del 172.16/12
route del 172.16/12 metric 7";

/// The commands come in order, and after them nothing is left to do.
#[test]
fn makes_the_tables_those_wanted(rt: HostRuntime) -> Result<(), Fail> {
    let found = version_after(rt.alloc(), FOUND)?;
    let wanted = version_after(rt.alloc(), WANTED)?;
    assert!(rt; is_storable(&wanted)?);
    let commands = plan(rt.alloc(), &found, &wanted)?;
    assert!(rt; commands.as_slice() == commands_of(rt.alloc(), PLAN)?.as_slice());
    let (_, brought) = found.after_all(&commands)?;
    assert!(rt; plan(rt.alloc(), &brought, &wanted)?.is_empty());
    assert!(rt; plan(rt.alloc(), &wanted, &brought)?.is_empty());
    Ok(())
}
