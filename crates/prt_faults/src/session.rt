//! A session over a service.
ghost use Rattle.prt_publisher.specs.Standing.{IsQuiet};
ghost use Rattle.prt_service.specs.Named.{IsNamed};

use crate::output::Streams;
use crate::service::{adopted, service_over};
use prt_command::Refusal;
use prt_grace::Domain;
use prt_publisher::Publisher;
use prt_serve::{OpenGate, ServiceContext, serve_session};
use prt_service::{Service, ServiceBrand};
use sqlite::{Alter, Connection};
use std::alloc::Global;
use std::marker::Brand;
use std::net::{Ipv4Addr, SocketAddr};
use std::sync::Wait;
use std::time::Clock;

/// Serves one session of a service of the named front.
fn serve<J: ServiceBrand, S: Alter + Drop, H: Wait + Clock + Copy + Drop, T: Streams>(
    rt: H,
    alloc: Global,
    publisher: Publisher<S>,
    domain: Domain,
    input: &mut T::Input,
    output: &mut T::Output,
) -> Result<(), Refusal>
    requires quiet { IsQuiet publisher.phase }
    requires of { IsNamed J.book J.base J.ours_first publisher }
{
    let service: Service<S, J> = service_over(&rt, publisher, domain)?;
    let mut looker = service.looker(&rt)?;
    let context = ServiceContext::new(&rt, alloc, &service, &OpenGate);
    let end = serve_session(
        &context,
        &mut looker,
        1,
        SocketAddr::from((Ipv4Addr::UNSPECIFIED, 0)),
        None,
        input,
        output,
    );
    match end.fault {
        Some(Refusal::ReadFault) => Err(Refusal::ReadFault),
        Some(Refusal::WriteFault) => Err(Refusal::WriteFault),
        _ => Ok(()),
    }
}

/// Serves a session with the lines of the input, over the database of a connection.
pub(crate) fn run<S: Alter + Drop, H: Wait + Clock + Copy + Drop, T: Streams>(
    rt: H,
    alloc: Global,
    connection: Connection<S>,
    input: &mut T::Input,
    output: &mut T::Output,
) -> Result<(), Refusal> {
    let (publisher, domain) = adopted(alloc, connection)?;
    serve::<Brand, S, H, T>(rt, alloc, publisher, domain, input, output)
}
