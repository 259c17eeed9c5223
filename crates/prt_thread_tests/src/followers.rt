//! Followers beside as many lookers as there may be, and one that falls behind.
ghost use Rattle.prt_publisher.specs.Standing.{IsQuiet};
ghost use Rattle.prt_service.specs.Named.{IsNamed};

use crate::caller::{adopted, service_over, submit_to_service};
use crate::slow_looker::{Crowd, gather};
use prt_command::{Command, Refusal};
use prt_grace::Domain;
use prt_publisher::Publisher;
use prt_service::{Follower, News, Service, ServiceBrand};
use sqlite::{Alter, Connection};
use std::alloc::Global;
use std::marker::Brand;
use std::sync::Wait;
use std::test::Fail;
use std::time::{Clock, Duration};

/// How many milliseconds a follower waits for news.
const PATIENCE: u64 = 10;

/// What a follower hears within that time.
#[derive(Debug, Drop, PartialEq)]
enum Heard {
    /// A flush of the rules, under this number.
    Flush(u64),
    Other,
    Nothing,
    End,
}

/// Returns what a follower hears.
fn hear<H: Wait + Clock, J: ServiceBrand>(rt: &H, follower: &mut Follower<J>) -> Heard {
    match follower.next_within(rt, Duration::from_millis(PATIENCE)) {
        News::Command {
            command: Command::RuleFlush,
            together: 1,
        } => Heard::Flush(follower.number()),
        News::Command { .. } => Heard::Other,
        News::Quiet => Heard::Nothing,
        News::Ended => Heard::End,
    }
}

/// What came of lookers and followers beside each other.
#[derive(Debug, Drop, PartialEq)]
struct Beside {
    /// How many lookers there could be beside two followers.
    crowd: Crowd,
    /// What the first follower hears before a command, after it, and once following has ended.
    before: Heard,
    after: Heard,
    end: Heard,
    /// What one hears that began beside a looker, after the command and a second one.
    late: Heard,
}

/// Runs a service of the named front, with two followers from the start, and one beside a looker.
fn serve<J: ServiceBrand, S: Alter + Drop, H: Wait + Clock + Copy + Drop>(
    rt: H,
    publisher: Publisher<S>,
    domain: Domain,
) -> Result<Beside, Refusal>
    requires quiet { IsQuiet publisher.phase }
    requires of { IsNamed J.book J.base J.ours_first publisher }
{
    let service: Service<S, J> = service_over(&rt, publisher, domain)?;
    let (mut first, _) = service.follow(&rt)?;
    let (second, _) = service.follow(&rt)?;
    let crowd = gather(&rt, &service, 100);
    let before = hear(&rt, &mut first);
    submit_to_service(&rt, &service)?;
    let after = hear(&rt, &mut first);
    let looker = service.looker(&rt)?;
    let (mut third, _) = service.follow(&rt)?;
    looker.leave(&rt, &service);
    let _left = second.leave(&rt, &service);
    submit_to_service(&rt, &service)?;
    let late = hear(&rt, &mut third);
    service.end_following(&rt);
    let _second_change = hear(&rt, &mut first);
    let end = hear(&rt, &mut first);
    Ok(Beside {
        crowd,
        before,
        after,
        end,
        late,
    })
}

/// Runs a service over the database of a connection.
fn serve_connection<S: Alter + Drop, H: Wait + Clock + Copy + Drop>(
    rt: H,
    alloc: Global,
    connection: Connection<S>,
) -> Result<Beside, Refusal> {
    let (publisher, domain) = adopted(alloc, connection)?;
    serve::<Brand, S, H>(rt, publisher, domain)
}

#[test]
fn followers_take_no_looker(rt: HostRuntime) -> Result<(), Fail> {
    let alloc = rt.alloc();
    let beside = serve_connection(rt, alloc, Connection::open_in_memory(alloc)?)?;
    assert!(rt;
        beside
            == Beside {
                crowd: Crowd {
                    lookers: 64,
                    refused: Some(Refusal::Full),
                },
                before: Heard::Nothing,
                after: Heard::Flush(1),
                end: Heard::End,
                late: Heard::Flush(2),
            }
    );
    Ok(())
}

/// Runs a service of the named front, with a follower that hears nothing. Returns how many followers there are once so many
/// commands wait for it, and after one more.
fn fall_behind<J: ServiceBrand, S: Alter + Drop, H: Wait + Clock + Copy + Drop>(
    rt: H,
    publisher: Publisher<S>,
    domain: Domain,
    most: u64,
) -> Result<(usize, usize), Refusal>
    requires quiet { IsQuiet publisher.phase }
    requires of { IsNamed J.book J.base J.ours_first publisher }
{
    let service: Service<S, J> = service_over(&rt, publisher, domain)?;
    let (_follower, _) = service.follow(&rt)?;
    for _ in 0..most {
        submit_to_service(&rt, &service)?;
    }
    let followers = service.figures(&rt).followers;
    submit_to_service(&rt, &service)?;
    Ok((followers, service.figures(&rt).followers))
}

/// Runs a service over the database of a connection.
fn fall_behind_over<S: Alter + Drop, H: Wait + Clock + Copy + Drop>(
    rt: H,
    alloc: Global,
    connection: Connection<S>,
    most: u64,
) -> Result<(usize, usize), Refusal> {
    let (publisher, domain) = adopted(alloc, connection)?;
    fall_behind::<Brand, S, H>(rt, publisher, domain, most)
}

#[test]
fn a_follower_that_falls_behind_is_let_go(rt: HostRuntime) -> Result<(), Fail> {
    let alloc = rt.alloc();
    let connection = Connection::open_in_memory(alloc)?;
    assert_eq!(rt; fall_behind_over(rt, alloc, connection, 1000)?, (1, 0));
    Ok(())
}
