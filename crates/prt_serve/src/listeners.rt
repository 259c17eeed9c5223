//! A server at all its listeners: sessions, feeds and the status.
ghost use Rattle.std.specs.Prelude.{◌≡◌, ◌≢◌, None, vec_len};
ghost use denote.Param.Send.{IsSend, IsSync};

use crate::accept_loop::{Accepting, SessionListener};
use crate::context::{ServiceContext, SharedServing};
use crate::feeding::serve_and_feed;
use crate::status_clients::report_all;
use crate::threads::{Limits, ServeEnd, Worked, serve_sessions};
use std::io::{Read, Write};
use std::net::{OpenListener, OpenStream};
use std::sync::atomic::{AtomicBool, Ordering};
use std::thread;

/// Where connections come from.
#[derive(Drop)]
pub struct Listeners<L: Drop> {
    /// For sessions.
    pub sessions: Vec<SessionListener<L>>,
    /// For those that follow the changes.
    pub feeds: Vec<L>,
    /// For those that ask for the status.
    pub status: Option<L>,
}

/// Serves sessions, and feeds if there are listeners for that.
fn serve_with_feeds<
    C: SharedServing,
    T: Read + Write + OpenStream + Drop + Send,
    L: OpenListener<Stream = T> + Drop + Sync,
>(context: &ServiceContext<'_, C>, listeners: &Listeners<L>, limits: Limits) -> Worked<C::Brand>
    ensures { result.end.accepting ≢ Accepting.Failed → result.end.refused ≡ None → vec_len result.shifts ≡ limits.workers }
{
    let (sessions, feeds) = (listeners.sessions.as_slice(), listeners.feeds.as_slice());
    if feeds.is_empty() {
        serve_sessions(context, sessions, limits)
    } else {
        serve_and_feed(context, sessions, limits, feeds)
    }
}

/// Serves sessions as `serve_sessions` does, beside it feeds as `serve_and_feed` does, and beside both answers those that ask for
/// the status, as far as there are listeners for these. All threads have ended when it returns.
///
/// A client that asks gets the gate's status, and its connection is closed. One thread answers all, and waits 5 seconds for
/// one of them at most. What they send is not read.
pub fn serve_listeners<
    C: SharedServing,
    T: Read + Write + OpenStream + Drop + Send,
    L: OpenListener<Stream = T> + Drop + Sync,
>(context: &ServiceContext<'_, C>, listeners: &Listeners<L>, limits: Limits) -> Worked<C::Brand>
    ensures { result.end.accepting ≢ Accepting.Failed → result.end.refused ≡ None → vec_len result.shifts ≡ limits.workers }
{
    let Some(listener) = &listeners.status else {
        return serve_with_feeds(context, listeners, limits);
    };
    let is_ended = AtomicBool::new(false);
    let (own, is_over) = (*context, &is_ended);
    let (reporting, Worked { end, shifts }) = thread::join(
        context.rt,
        || report_all(own.rt, own.alloc, own.gate, listener, &is_ended),
        // The prover keeps what a closure ensures only if the closure owns its context.
        move ||
            requires { IsSync C.row × IsSync C.Handle.row × IsSend C.Store.row × IsSend C.Brand.row × IsSync C.Gate.row × IsSend T.row × IsSync L.row }
        {
            let worked = serve_with_feeds(&own, listeners, limits);
            is_over.store(true, Ordering::SeqCst);
            worked
        },
    );
    Worked {
        end: ServeEnd {
            feeding: end.feeding.worse(reporting),
            ..end
        },
        shifts,
    }
}
