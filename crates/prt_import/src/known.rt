//! The words that `ip` prints, each with what becomes of it here.
ghost use Rattle.std.specs.Prelude.{◌≡◌, map};
ghost use Rattle.prt_import.specs.Known.{meaning_in, meaning_of};

use crate::reason::Reason;
use prt_command::is;

/// What a line describes.
#[derive(Clone, Copy)]
pub enum Object {
    /// A rule, by `ip rule`.
    Rule,
    /// A route, by `ip route`.
    Route,
}

/// What the value after a word is.
#[derive(Clone, Copy)]
pub enum Role {
    /// What means the same here.
    Same,
    /// A mark, with or without its mask.
    Mark,
    /// An address or a prefix.
    Address,
    /// The address of a gateway.
    Gateway,
    /// A table, by its name or its number.
    Table,
    /// A routing protocol, by its name or its number.
    Protocol,
    /// A scope.
    Scope,
    /// A routing protocol of a rule, which is left off with its word.
    RuleProtocol,
    /// What is left off with its word; `lock` may come before it.
    Metric,
}

/// What a word says at the start of an item.
#[derive(Clone, Copy)]
pub enum Meaning {
    /// The whole item, which means the same here.
    Alone,
    /// That a value follows.
    Before(Role),
    /// A state of a device, which is left off.
    State,
    /// Something that is left off, and is reported.
    Told(Reason),
    /// Something without which the line would mean something else.
    Out(Reason),
}

/// A word and what it says.
type Known = (&'static str, Meaning);

/// The items of a route (`ip-route(8)`).
const ROUTE_WORDS: [Known; 45] = [
    ("via", Meaning::Before(Role::Gateway)),
    ("dev", Meaning::Before(Role::Same)),
    ("table", Meaning::Before(Role::Table)),
    ("proto", Meaning::Before(Role::Protocol)),
    ("scope", Meaning::Before(Role::Scope)),
    ("src", Meaning::Before(Role::Address)),
    ("metric", Meaning::Before(Role::Same)),
    ("onlink", Meaning::Out(Reason::OnLink)),
    ("dead", Meaning::Out(Reason::Dead)),
    ("linkdown", Meaning::Told(Reason::LinkDown)),
    ("pervasive", Meaning::State),
    ("offload", Meaning::State),
    ("trap", Meaning::State),
    ("notify", Meaning::State),
    ("unresolved", Meaning::State),
    ("rt_offload", Meaning::State),
    ("rt_trap", Meaning::State),
    ("rt_offload_failed", Meaning::State),
    ("mtu", Meaning::Before(Role::Metric)),
    ("advmss", Meaning::Before(Role::Metric)),
    ("window", Meaning::Before(Role::Metric)),
    ("rtt", Meaning::Before(Role::Metric)),
    ("rttvar", Meaning::Before(Role::Metric)),
    ("rto_min", Meaning::Before(Role::Metric)),
    ("ssthresh", Meaning::Before(Role::Metric)),
    ("cwnd", Meaning::Before(Role::Metric)),
    ("initcwnd", Meaning::Before(Role::Metric)),
    ("initrwnd", Meaning::Before(Role::Metric)),
    ("reordering", Meaning::Before(Role::Metric)),
    ("hoplimit", Meaning::Before(Role::Metric)),
    ("features", Meaning::Before(Role::Metric)),
    ("quickack", Meaning::Before(Role::Metric)),
    ("congctl", Meaning::Before(Role::Metric)),
    ("fastopen_no_cookie", Meaning::Before(Role::Metric)),
    ("realm", Meaning::Before(Role::Metric)),
    ("realms", Meaning::Before(Role::Metric)),
    ("expires", Meaning::Before(Role::Metric)),
    ("ttl-propagate", Meaning::Before(Role::Metric)),
    ("tcp_usec_ts", Meaning::Told(Reason::Metric)),
    ("nexthop", Meaning::Out(Reason::SeveralNextHops)),
    ("nhid", Meaning::Out(Reason::NextHopObject)),
    ("encap", Meaning::Out(Reason::Encapsulation)),
    ("as", Meaning::Out(Reason::Encapsulation)),
    ("tos", Meaning::Out(Reason::TypeOfService)),
    ("cache", Meaning::Out(Reason::Cached)),
];

/// The items of a rule (`ip-rule(8)`).
const RULE_WORDS: [Known; 32] = [
    ("not", Meaning::Alone),
    ("from", Meaning::Before(Role::Address)),
    ("to", Meaning::Before(Role::Address)),
    ("fwmark", Meaning::Before(Role::Mark)),
    ("iif", Meaning::Before(Role::Same)),
    ("lookup", Meaning::Before(Role::Table)),
    ("suppress_prefixlength", Meaning::Before(Role::Same)),
    ("blackhole", Meaning::Alone),
    ("unreachable", Meaning::Alone),
    ("prohibit", Meaning::Alone),
    ("proto", Meaning::Before(Role::RuleProtocol)),
    ("[detached]", Meaning::State),
    ("tos", Meaning::Out(Reason::Selector)),
    ("dsfield", Meaning::Out(Reason::Selector)),
    ("dscp", Meaning::Out(Reason::Selector)),
    ("flowlabel", Meaning::Out(Reason::Selector)),
    ("oif", Meaning::Out(Reason::Selector)),
    ("ipproto", Meaning::Out(Reason::Selector)),
    ("sport", Meaning::Out(Reason::Selector)),
    ("dport", Meaning::Out(Reason::Selector)),
    ("tun_id", Meaning::Out(Reason::Selector)),
    ("uidrange", Meaning::Out(Reason::Selector)),
    ("l3mdev", Meaning::Out(Reason::Selector)),
    ("realms", Meaning::Out(Reason::Selector)),
    ("suppress_ifgroup", Meaning::Out(Reason::Selector)),
    ("goto", Meaning::Out(Reason::Action)),
    ("nop", Meaning::Out(Reason::Action)),
    ("throw", Meaning::Out(Reason::Action)),
    ("nat", Meaning::Out(Reason::Action)),
    ("map-to", Meaning::Out(Reason::Action)),
    ("masquerade", Meaning::Out(Reason::Action)),
    ("[unresolved]", Meaning::Out(Reason::Action)),
];

/// Looks a word up in such a list.
fn meaning_in(known: &[Known], word: &[u8]) -> Option<Meaning>
    ensures { result ≡ meaning_in (map (λ row. (row.0.now, row.1)) known.now) word.now }
{
    for (name, meaning) in known {
        if is(word, name.as_bytes()) {
            return Some(*meaning);
        }
    }
    None
}

/// Looks up what a word says at the start of an item.
pub(crate) fn meaning_of(object: Object, word: &[u8]) -> Option<Meaning>
    ensures { result ≡ meaning_of object word.now }
{
    match object {
        Object::Rule => meaning_in(&RULE_WORDS, word),
        Object::Route => meaning_in(&ROUTE_WORDS, word),
    }
}
