ghost use Rattle.std.specs.Prelude.{◌≡◌};
ghost use Rattle.prt_rule.specs.RuleChoice.{is_named};

use crate::{Action, Dev, Mark, Prefix, Rule};
use prt_addr::{agrees, agrees_there};

/// What `del` says of the rule that it removes: all that is given (`ip-rule(8)`).
///
/// With None a part is not given.
#[derive(Clone, Copy, PartialEq)]
pub struct RuleChoice {
    /// The priority.
    pub priority: Option<u32>,
    /// Whether `not` is given; without it a rule agrees whether it is inverted or not.
    pub inverted: bool,
    /// The sources.
    pub from: Option<Prefix>,
    /// The destinations.
    pub to: Option<Prefix>,
    /// The incoming interface.
    pub iif: Option<Dev>,
    /// The mark and its mask.
    pub mark: Option<Mark>,
    /// What becomes of the packets.
    pub action: Option<Action>,
    /// The length up to which prefixes are suppressed.
    pub suppress: Option<u8>,
}

impl RuleChoice {
    /// Checks whether the rule agrees with all that is given (`ip-rule(8)`, `delete`).
    ///
    /// A mark agrees if mark and mask are equal, and `from` 0.0.0.0/0 with a rule for all sources.
    pub fn agrees(&self, rule: &Rule) -> bool
        ensures { result ≡ is_named self.now rule.now }
    {
        agrees(&self.priority, &rule.priority)
            && (!self.inverted || rule.inverted)
            && agrees(&self.from, &rule.from)
            && agrees(&self.to, &rule.to)
            && agrees_there(&self.iif, &rule.iif)
            && agrees_there(&self.mark, &rule.mark)
            && agrees(&self.action, &rule.action)
            && agrees_there(&self.suppress, &rule.suppress)
    }
}
