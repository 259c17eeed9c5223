//! Why a line of a listing is left out, or something of it.
ghost use Rattle.std.specs.Prelude.{◌≡◌};
ghost use Rattle.prt_import.specs.Comments.{reason_words};

use prt_command::Refusal;
use std::fmt;

/// Why a line is left out of the script, or a part of a line that is kept.
#[derive(Clone, Copy, Debug, PartialEq, Eq)]
pub enum Reason {
    /// The kernel makes the route itself, for the addresses of its interfaces.
    Kernel,
    /// There are no routes of this type here.
    Type,
    /// The route has several next hops.
    SeveralNextHops,
    /// The route has the next hop of an object, which may change.
    NextHopObject,
    /// The packets of the route are put into others.
    Encapsulation,
    /// The route is of packets with this type of service alone.
    TypeOfService,
    /// The route was learnt from a reply, and is not configured.
    Cached,
    /// There is no such selector of rules here; without it the rule would match more.
    Selector,
    /// There is no such action of rules here.
    Action,
    /// The address is of another family than IPv4.
    Family,
    /// No table has this name.
    UnknownTable,
    /// No routing protocol has this name.
    UnknownProtocol,
    /// The word says nothing that is known.
    UnknownWord,
    /// A `#` in the line, which would begin a comment.
    Comment,
    /// JSON, which is not read.
    Json,
    /// The line of the script would be refused so.
    Refused(Refusal),
    /// The gateway need not be on the link, which no line here can say: the kernel would refuse the route without it.
    OnLink,
    /// The interface is down, or has no carrier and its routes are to be ignored: the kernel passes over the route.
    Dead,
    /// Kept without it: the interface has no carrier, and the kernel takes the route all the same.
    LinkDown,
    /// Kept without it: rules have no protocol here.
    RuleProtocol,
    /// Kept without it: it does not change which route a packet gets.
    Metric,
}

impl Reason {
    /// Says it in a few words.
    pub(crate) fn words(&self) -> &'static str
        ensures { result.now ≡ reason_words self.now }
    {
        match self {
            Reason::Kernel => "the kernel makes it itself",
            Reason::Type => "no such type of routes",
            Reason::SeveralNextHops => "several next hops",
            Reason::NextHopObject => "a next hop object",
            Reason::Encapsulation => "encapsulation",
            Reason::TypeOfService => "a type of service",
            Reason::Cached => "a cached route",
            Reason::Selector => "no such selector of rules",
            Reason::Action => "no such action of rules",
            Reason::Family => "another family of addresses",
            Reason::UnknownTable => "unknown name of a table",
            Reason::UnknownProtocol => "unknown name of a protocol",
            Reason::UnknownWord => "unknown word",
            Reason::Comment => "'#' would begin a comment",
            Reason::Json => "JSON is not read",
            Reason::Refused(refusal) => refusal.name(),
            Reason::OnLink => "a gateway that need not be on the link",
            Reason::Dead => "the kernel passes over it",
            Reason::LinkDown | Reason::RuleProtocol | Reason::Metric => "kept without it",
        }
    }
}

impl fmt::Display for Reason {
    fn fmt<W: fmt::Write>(&self, f: &mut fmt::Formatter<W>) -> fmt::Result {
        f.write_str(self.words())
    }
}
