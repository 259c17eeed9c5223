//! The rules of a version, in the order in which they are tried, with an index if they are many.
ghost use Rattle.std.specs.Prelude.{◌≡◌, IfOk};
ghost use Rattle.prt_rule.specs.Sound.{IsInOrder};
ghost use Rattle.prt_version.specs.Found.{verdict_in};
ghost use Rattle.prt_version.specs.RuleIndex.{HasIndex};
ghost use Rattle.prt_version.specs.Select.{verdict_of};
ghost use Rattle.prt_version.specs.Tried.{AreTried};

use crate::rule_index::RuleIndex;
use crate::select::{first_found, indexed_found};
use crate::tables::Tables;
use crate::tried::Tried;
use crate::{Found, MOST_RULES, Packet, Rule};
use std::alloc::{AllocError, Global};
use std::marker::Model;

/// How many rules are tried one after another with no index.
const FEW: usize = 50;

/// The rules in the order in which they are tried, which versions share until one changes.
#[derive(Drop)]
pub struct Rules {
    rules: Vec<Rule>,
    index: Option<RuleIndex>,
}

impl Model for Rules {
    ghost use Rattle.std.specs.Prelude.{List};
    ghost use Rattle.prt_rule.specs.declared.rule.Rule.{Rule as Row};
    ghost use Rattle.prt_version.specs.RuleIndex.{HasIndex};

    ghost Value = { List Row };

    ghost view = { λ it. it.rules.items };

    ghost invariant = { λ it. HasIndex it.rules.items it.index };
}

/// Makes the index of the rules, if they are many and it distinguishes them from each other.
fn index_of(alloc: Global, rules: &[Rule]) -> Result<Option<RuleIndex>, AllocError>
    ensures { IfOk result (λ index. HasIndex rules.now index) }
{
    if rules.len() < FEW || rules.len() > MOST_RULES {
        return Ok(None);
    }
    RuleIndex::over(alloc, rules)
}

impl Rules {
    /// Takes the rules, which are in the order in which they are tried.
    pub(crate) fn new(rules: Vec<Rule>) -> Result<Rules, AllocError>
        ensures { IfOk result (λ all. all ≡ rules.items) }
    {
        let index = index_of(*rules.allocator(), rules.as_slice())?;
        Ok(Rules { rules, index })
    }

    /// Returns the rules, in the order in which they are tried.
    pub fn as_slice(&self) -> &[Rule]
        ensures { result.now ≡ self.now }
    {
        self.rules.as_slice()
    }

    /// Returns the allocator of the rules.
    pub fn allocator(&self) -> &Global {
        self.rules.allocator()
    }

    /// Finds which rules are tried for packets: all, if they are many.
    pub(crate) fn tried(&self, routes: &Tables) -> Tried
        ensures { AreTried self.now routes.now result }
    {
        if self.rules.len() < FEW {
            Tried::among(&self.rules, routes)
        } else {
            Tried::all(&self.rules)
        }
    }

    /// Finds what the rules make of a packet, of which these are tried if there is no index.
    pub(crate) fn found<'a>(&self, tried: Tried, routes: &'a Tables, packet: &Packet) -> Found<'a>
        requires order { IsInOrder self.now }
        requires tried { AreTried self.now routes.now tried }
        ensures { verdict_in result ≡ verdict_of self.now routes.now packet.now }
    {
        match &self.index {
            Some(index) => indexed_found(&self.rules, index, routes, packet),
            None => first_found(&self.rules, tried, routes, packet),
        }
    }
}
