//! What sessions are served with.

use crate::gate::Gate;
use prt_service::{Service, ServiceBrand};
use sqlite::Alter;
use std::alloc::Global;
use std::marker::PhantomData;
use std::sync::Wait;
use std::thread::Threads;
use std::time::Clock;

/// The types of what sessions are served with.
pub trait Serving {
    /// Waits, and reads the time.
    type Handle: Wait + Clock;

    /// Stores the commands.
    type Store: Alter + Drop;

    /// Names the front that is served.
    type Brand: ServiceBrand;

    /// Is called round each line.
    type Gate: Gate;
}

/// The types of what several threads serve sessions with. What names them is `Sync` too: otherwise the prover lets no
/// closure go to a thread that is generic over it.
pub trait SharedServing: Serving<Handle: Threads + Sync, Store: Send, Brand: Send, Gate: Sync>
    + Sync {}

/// Serving with these types, among threads if they can share them.
pub struct ServingOf<H, S: Alter + Drop, J: ServiceBrand, G> {
    types: PhantomData<(H, Service<S, J>, G)>,
}

impl<H: Wait + Clock, S: Alter + Drop, J: ServiceBrand, G: Gate> Serving for ServingOf<H, S, J, G> {
    type Handle = H;

    type Store = S;

    type Brand = J;

    type Gate = G;
}

impl<
    H: Threads + Wait + Clock + Sync,
    S: Alter + Drop + Send,
    J: ServiceBrand + Send,
    G: Gate + Sync,
> SharedServing for ServingOf<H, S, J, G> {}

/// What sessions are served with: all that is the same for each of them.
#[derive_where(Clone, Copy)]
pub struct ServiceContext<'a, C: Serving> {
    pub(crate) rt: &'a C::Handle,
    /// Where memory is taken from, but for that of the service.
    pub(crate) alloc: Global,
    pub(crate) service: &'a Service<C::Store, C::Brand>,
    pub(crate) gate: &'a C::Gate,
}

impl<'a, H: Wait + Clock, S: Alter + Drop, J: ServiceBrand, G: Gate> ServiceContext<
    'a,
    ServingOf<H, S, J, G>,
> {
    /// Puts together what sessions over a service are served with.
    pub fn new(
        rt: &'a H,
        alloc: Global,
        service: &'a Service<S, J>,
        gate: &'a G,
    ) -> ServiceContext<'a, ServingOf<H, S, J, G>> {
        ServiceContext {
            rt,
            alloc,
            service,
            gate,
        }
    }
}
