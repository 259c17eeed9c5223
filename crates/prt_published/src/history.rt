//! The history of a front, in a logbook: what its tokens say, and the step that adds commands.

use logbook::{Gain, Opening, Plain, Play, Rule, Word};
use prt_version::{Command, Route, Version};
use std::marker::Model;
use std::snapshot::Snapshot;

/// What a version holds. No value of it is made, and contracts see it as the state. It is no `Version`, so that tokens
/// of what is known don't bring the tries of one into the types of all that has them.
pub struct LoadedState {
    count: u64,
    rules: Vec<prt_version::Rule>,
    routes: Vec<Route>,
}

impl Model for LoadedState {
    ghost use Rattle.prt_version.specs.State.{State};

    ghost Value = { State };

    ghost view = { λ loaded. record { count = loaded.count; rules = loaded.rules.items; routes = loaded.routes.items } };
}

/// An entry of the history. No value of it is made.
pub enum Entry {
    /// The state that the front began with.
    Loaded(LoadedState),
    /// A command that was accepted.
    Accepted(Command),
    /// Commands that are to be accepted together. No history has such an entry: a step asks for it, and adds one for each.
    Asked(Vec<Command>),
}

/// What holds of every history: it is a loaded state and commands that were accepted one after the other.
pub struct HistoryRule;

impl Rule<Entry, u64> for HistoryRule {
    ghost use Rattle.std.specs.Prelude.{[]};
    ghost use base.Fml.{ftrue};
    ghost use Rattle.prt_published.specs.History.{IsKept};

    ghost holds = { λ cells log. IsKept cells log };

    ghost first = { [] };

    ghost hinted = { λ n log. Unit {0} };

    ghost shows = { λ log. [] };

    ghost keeps = { λ names log. ftrue };

    ghost moves = { λ ask before after answer. Unit {0} };
}

/// The commands of one publication. They have no bytes, and contracts alone see them.
#[derive(Drop)]
pub(crate) enum Batch {
    /// A command by itself.
    One(Snapshot<Command>),
    /// Commands that are published together.
    Several(Snapshot<Vec<Command>>),
}

/// A step hands nothing over.
pub struct NoGain;

impl Gain<Entry, u64> for NoGain {
    ghost use base.Fml.{ftrue};

    ghost after = { λ names about answer. ftrue };
}

/// A history begins with the loaded state.
pub struct Load;

impl Opening<Version, Entry> for Load {
    ghost use Rattle.std.specs.Prelude.{[], ◌∷◌};
    ghost use Rattle.prt_published.specs.declared.history.Entry.TheVariants.{Loaded};

    ghost log = { λ count version. Loaded version ∷ [] };
}

/// The step that adds accepted commands.
pub struct Add;

impl Play<Entry, u64> for Add {
    ghost use Rattle.prt_published.specs.History.{Adds};

    ghost then = { Adds };
}

impl Plain<Batch, Entry, u64> for Add {
    ghost use Rattle.std.specs.Prelude.{None};
    ghost use Rattle.prt_published.specs.History.{ask_of};

    ghost ask = { ask_of };

    ghost state = { λ batch. None };
}

/// The length of a history, which its writer has.
pub type Length = Word<Entry, u64, HistoryRule>;
