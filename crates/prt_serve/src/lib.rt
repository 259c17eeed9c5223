//! Sessions and atomic scripts over a service that others share, and the workers that serve them.
#![tactic(auto)]

mod accept_loop;
mod accepting;
mod atomic;
mod connection;
mod context;
mod feed;
mod feeding;
mod follower_slots;
mod gate;
mod idle;
pub mod laws;
mod listeners;
mod resumed;
mod room;
mod script_header;
mod session;
mod shift;
mod status_clients;
mod threads;
mod turnstile;
mod watch;
mod worker;

pub use accept_loop::{Accepting, SessionListener, accept};
pub use atomic::{ScriptServed, serve_atomic};
pub use connection::{Ends, Lines, Pipeline, Replies, ends_over};
pub use context::{ServiceContext, Serving, ServingOf, SharedServing};
pub use feed::{Fed, serve_feed};
pub use feeding::serve_and_feed;
pub use follower_slots::FollowerSlots;
pub use gate::{Gate, OpenGate, Queued};
pub use listeners::{Listeners, serve_listeners};
pub use prt_replies::{Reply, ScriptEnd};
pub use prt_service::{Alter, Command, Known, Looker, Refusal, Service, ServiceBrand, Unfollowed};
pub use room::{Arrival, Connected};
pub use session::serve_session;
pub use shift::Shift;
pub use threads::{Limits, ServeEnd, Worked, serve_sessions};
pub use turnstile::Turnstile;
pub use worker::{Job, Served, SessionKind};
