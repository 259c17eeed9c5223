ghost use Rattle.std.specs.Prelude.{◌≡◌};
ghost use Rattle.prt_rule.specs.Storable.{is_storable_rule};

use crate::{Dev, Prefix};

/// A firewall mark and the bits of it that count (`ip-rule(8)`, `fwmark`).
#[derive(Clone, Copy, Debug, PartialEq, Eq)]
pub struct Mark {
    /// What a packet's mark is compared with.
    pub mark: u32,
    /// The bits that are compared.
    pub mask: u32,
}

/// What a rule does with the packets that it matches (`ip-rule(8)`).
#[derive(Clone, Copy, Debug, PartialEq, Eq)]
pub enum Action {
    /// Look up this table, whose number is from 1 on.
    Lookup(u32),
    /// Drop them silently.
    Blackhole,
    /// Drop them; the host is unreachable.
    Unreachable,
    /// Drop them; it is administratively forbidden.
    Prohibit,
}

/// A rule of the policy database (`ip-rule(8)`).
#[derive(Clone, Copy, Debug, PartialEq, Eq)]
pub struct Rule {
    /// Distinguishes the rule from the others: 1 to 3 for the opening rules, then 3 more than the number of its command.
    pub id: u64,
    /// The lower, the earlier it is tried; of equal ones the lower id.
    pub priority: u32,
    /// Whether it matches the packets that its selector does not.
    pub inverted: bool,
    /// The sources; 0.0.0.0/0 for any.
    pub from: Prefix,
    /// The destinations; 0.0.0.0/0 for any.
    pub to: Prefix,
    /// The incoming interface, if it matters.
    pub iif: Option<Dev>,
    /// The mark, if it matters.
    pub mark: Option<Mark>,
    /// What becomes of the packets that it matches.
    pub action: Action,
    /// The length, 0 to 32, up to which prefixes are suppressed (`suppress_prefixlength`); with None none are. If the
    /// lookup finds a unicast route of that length or less, the rule says nothing.
    pub suppress: Option<u8>,
}

impl Rule {
    /// Checks whether a database may hold the rule (`ip-rule(8)`).
    ///
    /// A table that it looks up is one from 1 on. Only a rule that looks up a table suppresses prefixes, of up to 32 bits.
    pub fn is_storable(&self) -> bool
        ensures { result ≡ is_storable_rule self.now.action self.now.suppress }
    {
        match (self.action, self.suppress) {
            (Action::Lookup(table), Some(len)) => table > 0 && len <= 32,
            (Action::Lookup(table), None) => table > 0,
            (_, suppress) => suppress.is_none(),
        }
    }
}
