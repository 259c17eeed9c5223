ghost use Rattle.std.specs.Prelude.{◌≡◌, ◌↔◌, true};
ghost use Rattle.std.specs.List.{list_any};
ghost use Rattle.prt_command.specs.Items.{has, is_empty, no_items, put, slot_of};
ghost use Rattle.prt_command.specs.Values.{kind_of, prefix_word};

use crate::words::is;
use prt_route::{Addr, Dev, Kind, Prefix, Range};
use prt_rule::{Action, Mark};

/// Which item of a line it is.
#[derive(Clone, Copy)]
pub enum Slot {
    /// The kind and the destinations of a route.
    Destination,
    /// The gateway.
    Via,
    /// The interface to send through.
    Dev,
    /// The table of a route.
    Table,
    /// The protocol that a route comes from.
    Proto,
    /// The scope of a route.
    Scope,
    /// The source address that a route prefers.
    Src,
    /// The metric of a route.
    Metric,
    /// The prefixes that a listing or a flush is about.
    Range,
    /// The tables that it is about.
    Tables,
    /// The kind of the routes that it is about.
    OfKind,
    /// The address that is asked for.
    Address,
    /// The source of the packet that is asked for.
    Source,
    /// The interface that packets come in by.
    Iif,
    /// The mark of the packet that is asked for.
    Mark,
    /// That a rule matches the packets that its selector does not.
    Inverted,
    /// The sources that a rule selects.
    From,
    /// The destinations that a rule selects.
    To,
    /// The mark that a rule selects.
    Fwmark,
    /// The priority of a rule.
    Priority,
    /// What a rule does.
    Action,
    /// The length up to which a rule suppresses prefixes.
    Suppress,
}

/// An item of a line, with its value; [`Slot`] describes what each says.
#[derive(Clone, Copy)]
pub enum Item {
    Destination(Target),
    Via(Addr),
    Dev(Dev),
    Table(u32),
    Proto(u8),
    Scope(u8),
    Src(Addr),
    Metric(u32),
    Range(Range),
    Tables(WhichTables),
    OfKind(Kind),
    Address(Addr),
    Source(Addr),
    Iif(Dev),
    Mark(u32),
    Inverted,
    From(Prefix),
    To(Prefix),
    Fwmark(Mark),
    Priority(u32),
    Action(Action),
    Suppress(u8),
}

/// What an item word begins.
#[derive(Clone, Copy)]
pub enum ItemWord {
    /// An item whose value is the next word.
    Keyword(Slot),
    /// An item that the word says alone.
    Alone(Item),
}

/// A word that may come before the prefix of an item.
#[derive(Clone, Copy)]
pub enum PrefixWord {
    /// The kind of a route, before its destination.
    Kind(Kind),
    /// `root`: the prefixes within the one that follows.
    Root,
    /// `match`: the prefixes that the one that follows is within.
    Match,
    /// `exact`: the one that follows alone.
    Exact,
}

impl Item {
    /// Returns which item it is.
    pub fn slot(self) -> Slot
        ensures { result ≡ slot_of self }
    {
        match self {
            Item::Destination(_) => Slot::Destination,
            Item::Via(_) => Slot::Via,
            Item::Dev(_) => Slot::Dev,
            Item::Table(_) => Slot::Table,
            Item::Proto(_) => Slot::Proto,
            Item::Scope(_) => Slot::Scope,
            Item::Src(_) => Slot::Src,
            Item::Metric(_) => Slot::Metric,
            Item::Range(_) => Slot::Range,
            Item::Tables(_) => Slot::Tables,
            Item::OfKind(_) => Slot::OfKind,
            Item::Address(_) => Slot::Address,
            Item::Source(_) => Slot::Source,
            Item::Iif(_) => Slot::Iif,
            Item::Mark(_) => Slot::Mark,
            Item::Inverted => Slot::Inverted,
            Item::From(_) => Slot::From,
            Item::To(_) => Slot::To,
            Item::Fwmark(_) => Slot::Fwmark,
            Item::Priority(_) => Slot::Priority,
            Item::Action(_) => Slot::Action,
            Item::Suppress(_) => Slot::Suppress,
        }
    }
}

impl Slot {
    /// Reads a word that may come before the prefix of this item.
    pub(crate) fn prefix_word(self, word: &[u8]) -> Option<PrefixWord>
        ensures { result ≡ prefix_word self word.now }
    {
        match self {
            Slot::Destination => kind_word(word),
            Slot::Range => range_word(word),
            _ => None,
        }
    }
}

/// Reads a kind of routes.
pub(crate) fn kind_of(word: &[u8]) -> Option<Kind>
    ensures { result ≡ kind_of word.now }
{
    if is(word, b"unicast") {
        Some(Kind::Unicast)
    } else if is(word, b"blackhole") {
        Some(Kind::Blackhole)
    } else if is(word, b"unreachable") {
        Some(Kind::Unreachable)
    } else if is(word, b"prohibit") {
        Some(Kind::Prohibit)
    } else if is(word, b"throw") {
        Some(Kind::Throw)
    } else {
        None
    }
}

/// Reads a word that may come before a destination.
#[tactic(auto, using(crate::proofs::Entries::kinds_before))]
fn kind_word(word: &[u8]) -> Option<PrefixWord>
    ensures { result ≡ prefix_word Slot.Destination word.now }
{
    match kind_of(word) {
        Some(kind) => Some(PrefixWord::Kind(kind)),
        None => None,
    }
}

/// Reads a word that may come before a range.
fn range_word(word: &[u8]) -> Option<PrefixWord>
    ensures { result ≡ prefix_word Slot.Range word.now }
{
    if is(word, b"root") {
        Some(PrefixWord::Root)
    } else if is(word, b"match") {
        Some(PrefixWord::Match)
    } else if is(word, b"exact") {
        Some(PrefixWord::Exact)
    } else {
        None
    }
}

/// The tables that a listing or a flush is about.
#[derive(Clone, Copy)]
pub enum WhichTables {
    /// The one with this number.
    One(u32),
    All,
}

/// The destination of a line on routes.
#[derive(Clone, Copy)]
pub struct Target {
    /// The kind of the route, if one is named.
    pub kind: Option<Kind>,
    pub prefix: Prefix,
}

/// The items that a line has given, each at most once; [`Slot`] describes what each says.
#[derive(Clone, Copy)]
pub struct Items {
    pub destination: Option<Target>,
    pub via: Option<Addr>,
    pub dev: Option<Dev>,
    pub table: Option<u32>,
    pub proto: Option<u8>,
    pub scope: Option<u8>,
    pub src: Option<Addr>,
    pub metric: Option<u32>,
    pub range: Option<Range>,
    pub tables: Option<WhichTables>,
    pub of_kind: Option<Kind>,
    pub address: Option<Addr>,
    pub source: Option<Addr>,
    pub iif: Option<Dev>,
    pub mark: Option<u32>,
    pub inverted: bool,
    pub from: Option<Prefix>,
    pub to: Option<Prefix>,
    pub fwmark: Option<Mark>,
    pub priority: Option<u32>,
    pub action: Option<Action>,
    pub suppress: Option<u8>,
}

impl Items {
    /// Begins with no items.
    pub fn new() -> Self
        ensures { result ≡ no_items }
    {
        Items {
            destination: None,
            via: None,
            dev: None,
            table: None,
            proto: None,
            scope: None,
            src: None,
            metric: None,
            range: None,
            tables: None,
            of_kind: None,
            address: None,
            source: None,
            iif: None,
            mark: None,
            inverted: false,
            from: None,
            to: None,
            fwmark: None,
            priority: None,
            action: None,
            suppress: None,
        }
    }

    /// Returns whether the item was given.
    pub fn has(&self, slot: Slot) -> bool
        ensures { result ≡ has slot self.now }
    {
        match slot {
            Slot::Destination => self.destination.is_some(),
            Slot::Via => self.via.is_some(),
            Slot::Dev => self.dev.is_some(),
            Slot::Table => self.table.is_some(),
            Slot::Proto => self.proto.is_some(),
            Slot::Scope => self.scope.is_some(),
            Slot::Src => self.src.is_some(),
            Slot::Metric => self.metric.is_some(),
            Slot::Range => self.range.is_some(),
            Slot::Tables => self.tables.is_some(),
            Slot::OfKind => self.of_kind.is_some(),
            Slot::Address => self.address.is_some(),
            Slot::Source => self.source.is_some(),
            Slot::Iif => self.iif.is_some(),
            Slot::Mark => self.mark.is_some(),
            Slot::Inverted => self.inverted,
            Slot::From => self.from.is_some(),
            Slot::To => self.to.is_some(),
            Slot::Fwmark => self.fwmark.is_some(),
            Slot::Priority => self.priority.is_some(),
            Slot::Action => self.action.is_some(),
            Slot::Suppress => self.suppress.is_some(),
        }
    }

    /// Checks whether one of these items was given.
    fn has_any(&self, slots: &[Slot]) -> bool
        ensures { result ≡ list_any (λ slot. has slot self.now) slots.now }
    {
        slots.iter().any(|slot| self.has(*slot))
    }

    /// Checks whether no item was given.
    pub fn is_empty(&self) -> bool
        ensures test { result ≡ is_empty self.now }
        ensures none { (result ≡ true) ↔ (self.now ≡ no_items) }
    {
        let slots = [
            Slot::Destination,
            Slot::Via,
            Slot::Dev,
            Slot::Table,
            Slot::Proto,
            Slot::Scope,
            Slot::Src,
            Slot::Metric,
            Slot::Range,
            Slot::Tables,
            Slot::OfKind,
            Slot::Address,
            Slot::Source,
            Slot::Iif,
            Slot::Mark,
            Slot::Inverted,
            Slot::From,
            Slot::To,
            Slot::Fwmark,
            Slot::Priority,
            Slot::Action,
            Slot::Suppress,
        ];
        !self.has_any(&slots)
    }

    /// Adds an item, in the place of the one that was given if one was.
    // In its caller, as `value` is.
    #[inline(always)]
    pub fn put(&mut self, item: Item)
        ensures { self.new ≡ put item self.old }
    {
        match item {
            Item::Destination(target) => self.destination = Some(target),
            Item::Via(addr) => self.via = Some(addr),
            Item::Dev(name) => self.dev = Some(name),
            Item::Table(table) => self.table = Some(table),
            Item::Proto(proto) => self.proto = Some(proto),
            Item::Scope(scope) => self.scope = Some(scope),
            Item::Src(addr) => self.src = Some(addr),
            Item::Metric(metric) => self.metric = Some(metric),
            Item::Range(range) => self.range = Some(range),
            Item::Tables(tables) => self.tables = Some(tables),
            Item::OfKind(kind) => self.of_kind = Some(kind),
            Item::Address(addr) => self.address = Some(addr),
            Item::Source(addr) => self.source = Some(addr),
            Item::Iif(name) => self.iif = Some(name),
            Item::Mark(mark) => self.mark = Some(mark),
            Item::Inverted => self.inverted = true,
            Item::From(prefix) => self.from = Some(prefix),
            Item::To(prefix) => self.to = Some(prefix),
            Item::Fwmark(mark) => self.fwmark = Some(mark),
            Item::Priority(priority) => self.priority = Some(priority),
            Item::Action(action) => self.action = Some(action),
            Item::Suppress(len) => self.suppress = Some(len),
        }
    }
}
