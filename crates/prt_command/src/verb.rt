ghost use Rattle.std.specs.Prelude.{◌≡◌};
ghost use Rattle.prt_command.specs.LineKinds.{action_words, outcome_words, route_edit_words, route_get_words, route_list_words, rule_edit_line};
ghost use Rattle.prt_command.specs.LineKinds.{selector_words, suppress_words, word_in};
ghost use Rattle.prt_addr.specs.Word.{is_one_of};
ghost use Rattle.prt_command.specs.Reading.{add_words, del_words, lone_verb, meaning_of, object_of, show_words, verb_of};

use crate::words::is;
use crate::{Item, ItemWord, Slot};
use prt_rule::Action;

/// What a line speaks of.
#[derive(Clone, Copy)]
pub enum Object {
    Route,
    Rule,
}

/// What a line does with its object.
#[derive(Clone, Copy)]
pub enum ObjectVerb {
    RouteAdd,
    RouteChange,
    RouteReplace,
    RouteDel,
    RouteFlush,
    RouteShow,
    RouteGet,
    RuleAdd,
    RuleDel,
    RuleFlush,
    RuleShow,
}

impl Object {
    /// Reads an object.
    pub(crate) fn object_of(word: &[u8]) -> Option<Object>
        ensures { result ≡ object_of word.now }
    {
        if is(word, b"route") || is(word, b"ro") || is(word, b"r") {
            Some(Object::Route)
        } else if is(word, b"rule") || is(word, b"ru") {
            Some(Object::Rule)
        } else {
            None
        }
    }

    /// Reads a verb of this object.
    pub(crate) fn verb_of(self, word: &[u8]) -> Option<ObjectVerb>
        ensures { result ≡ verb_of self word.now }
    {
        match self {
            Object::Route => route_verb(word),
            Object::Rule => rule_verb(word),
        }
    }

    /// Returns the verb that is meant if none follows.
    pub(crate) fn lone_verb(self) -> ObjectVerb
        ensures { result ≡ lone_verb self }
    {
        match self {
            Object::Route => ObjectVerb::RouteShow,
            Object::Rule => ObjectVerb::RuleShow,
        }
    }
}

/// Checks whether the word means `add`.
fn is_add(word: &[u8]) -> bool
    ensures { result ≡ is_one_of word.now add_words }
{
    is(word, b"add") || is(word, b"a")
}

/// Checks whether the word means `del`.
fn is_del(word: &[u8]) -> bool
    ensures { result ≡ is_one_of word.now del_words }
{
    is(word, b"del") || is(word, b"delete") || is(word, b"d")
}

/// Checks whether the word means `show`.
fn is_show(word: &[u8]) -> bool
    ensures { result ≡ is_one_of word.now show_words }
{
    is(word, b"show") || is(word, b"list") || is(word, b"lst") || is(word, b"ls")
}

/// Reads a verb of routes.
fn route_verb(word: &[u8]) -> Option<ObjectVerb>
    ensures { result ≡ verb_of Object.Route word.now }
{
    if is_add(word) {
        Some(ObjectVerb::RouteAdd)
    } else if is(word, b"change") || is(word, b"chg") {
        Some(ObjectVerb::RouteChange)
    } else if is(word, b"replace") {
        Some(ObjectVerb::RouteReplace)
    } else if is_del(word) {
        Some(ObjectVerb::RouteDel)
    } else if is(word, b"flush") {
        Some(ObjectVerb::RouteFlush)
    } else if is_show(word) {
        Some(ObjectVerb::RouteShow)
    } else if is(word, b"get") {
        Some(ObjectVerb::RouteGet)
    } else {
        None
    }
}

/// Reads a verb of rules.
fn rule_verb(word: &[u8]) -> Option<ObjectVerb>
    ensures { result ≡ verb_of Object.Rule word.now }
{
    if is_add(word) {
        Some(ObjectVerb::RuleAdd)
    } else if is_del(word) {
        Some(ObjectVerb::RuleDel)
    } else if is(word, b"flush") {
        Some(ObjectVerb::RuleFlush)
    } else if is_show(word) {
        Some(ObjectVerb::RuleShow)
    } else {
        None
    }
}

impl ObjectVerb {
    /// Looks up what the word begins, as one of the item words of this verb's line.
    pub(crate) fn item_word(self, word: &[u8]) -> Option<ItemWord>
        ensures { result ≡ word_in (meaning_of self).line.entries word.now }
    {
        match self {
            ObjectVerb::RouteAdd
            | ObjectVerb::RouteChange
            | ObjectVerb::RouteReplace
            | ObjectVerb::RouteDel => route_edit_word(word),
            ObjectVerb::RouteFlush | ObjectVerb::RouteShow => route_list_word(word),
            ObjectVerb::RouteGet => route_get_word(word),
            ObjectVerb::RuleAdd | ObjectVerb::RuleDel => rule_edit_word(word),
            ObjectVerb::RuleFlush | ObjectVerb::RuleShow => None,
        }
    }

    /// Finds which item of this verb's line needs no word of its own.
    pub(crate) fn plain_slot(self) -> Option<Slot>
        ensures { result ≡ (meaning_of self).line.plain }
    {
        match self {
            ObjectVerb::RouteAdd
            | ObjectVerb::RouteChange
            | ObjectVerb::RouteReplace
            | ObjectVerb::RouteDel => Some(Slot::Destination),
            ObjectVerb::RouteFlush | ObjectVerb::RouteShow => Some(Slot::Range),
            ObjectVerb::RouteGet => Some(Slot::Address),
            ObjectVerb::RuleAdd
            | ObjectVerb::RuleDel
            | ObjectVerb::RuleFlush
            | ObjectVerb::RuleShow => None,
        }
    }
}

/// Looks up what the word begins on the lines of `route add`, `change`, `replace` and `del`.
fn route_edit_word(word: &[u8]) -> Option<ItemWord>
    ensures { result ≡ word_in route_edit_words word.now }
{
    if is(word, b"via") {
        Some(ItemWord::Keyword(Slot::Via))
    } else if is(word, b"dev") {
        Some(ItemWord::Keyword(Slot::Dev))
    } else if is(word, b"table") {
        Some(ItemWord::Keyword(Slot::Table))
    } else if is(word, b"proto") || is(word, b"protocol") {
        Some(ItemWord::Keyword(Slot::Proto))
    } else if is(word, b"scope") {
        Some(ItemWord::Keyword(Slot::Scope))
    } else if is(word, b"src") {
        Some(ItemWord::Keyword(Slot::Src))
    } else if is(word, b"metric") || is(word, b"priority") || is(word, b"preference") {
        Some(ItemWord::Keyword(Slot::Metric))
    } else {
        None
    }
}

/// Looks up what the word begins on the lines of `route show` and `flush`.
fn route_list_word(word: &[u8]) -> Option<ItemWord>
    ensures { result ≡ word_in route_list_words word.now }
{
    if is(word, b"table") {
        Some(ItemWord::Keyword(Slot::Tables))
    } else if is(word, b"type") {
        Some(ItemWord::Keyword(Slot::OfKind))
    } else if is(word, b"proto") || is(word, b"protocol") {
        Some(ItemWord::Keyword(Slot::Proto))
    } else if is(word, b"scope") {
        Some(ItemWord::Keyword(Slot::Scope))
    } else if is(word, b"dev") {
        Some(ItemWord::Keyword(Slot::Dev))
    } else {
        None
    }
}

/// Looks up what the word begins on the line of `route get`.
fn route_get_word(word: &[u8]) -> Option<ItemWord>
    ensures { result ≡ word_in route_get_words word.now }
{
    if is(word, b"from") {
        Some(ItemWord::Keyword(Slot::Source))
    } else if is(word, b"iif") {
        Some(ItemWord::Keyword(Slot::Iif))
    } else if is(word, b"mark") {
        Some(ItemWord::Keyword(Slot::Mark))
    } else {
        None
    }
}

/// Looks up what the word begins, as one of those that say which packets a rule matches, and when it is tried.
fn selector_word(word: &[u8]) -> Option<ItemWord>
    ensures { result ≡ word_in selector_words word.now }
{
    if is(word, b"not") {
        Some(ItemWord::Alone(Item::Inverted))
    } else if is(word, b"from") {
        Some(ItemWord::Keyword(Slot::From))
    } else if is(word, b"to") {
        Some(ItemWord::Keyword(Slot::To))
    } else if is(word, b"iif") || is(word, b"dev") {
        Some(ItemWord::Keyword(Slot::Iif))
    } else if is(word, b"fwmark") {
        Some(ItemWord::Keyword(Slot::Fwmark))
    } else if is(word, b"priority")
        || is(word, b"preference")
        || is(word, b"pref")
        || is(word, b"order")
    {
        Some(ItemWord::Keyword(Slot::Priority))
    } else {
        None
    }
}

/// Looks up what the word begins, as one of those that say what a rule does.
fn action_word(word: &[u8]) -> Option<ItemWord>
    ensures { result ≡ word_in action_words word.now }
{
    if is(word, b"table") || is(word, b"lookup") {
        Some(ItemWord::Keyword(Slot::Action))
    } else if is(word, b"blackhole") {
        Some(ItemWord::Alone(Item::Action(Action::Blackhole)))
    } else if is(word, b"unreachable") {
        Some(ItemWord::Alone(Item::Action(Action::Unreachable)))
    } else if is(word, b"prohibit") {
        Some(ItemWord::Alone(Item::Action(Action::Prohibit)))
    } else {
        None
    }
}

/// Looks up what the word begins, as the one that says which prefixes the lookup of a rule suppresses.
fn suppress_word(word: &[u8]) -> Option<ItemWord>
    ensures { result ≡ word_in suppress_words word.now }
{
    if is(word, b"suppress_prefixlength") {
        Some(ItemWord::Keyword(Slot::Suppress))
    } else {
        None
    }
}

/// Looks up what the word begins, as one of those that say what becomes of the packets that a rule matches.
fn outcome_word(word: &[u8]) -> Option<ItemWord>
    ensures { result ≡ word_in outcome_words word.now }
{
    match action_word(word) {
        Some(item) => Some(item),
        None => suppress_word(word),
    }
}

/// Looks up what the word begins on the lines of `rule add` and `del`.
fn rule_edit_word(word: &[u8]) -> Option<ItemWord>
    ensures { result ≡ word_in rule_edit_line.entries word.now }
{
    match selector_word(word) {
        Some(item) => Some(item),
        None => outcome_word(word),
    }
}
