//! Routes with an index of them all.
ghost use Rattle.std.specs.Prelude.{◌≡◌, ◌++◌, ℕ, IfErr, IfOk, OnOk, IsPermutation, option_map};
ghost use Rattle.std.specs.List.{list_any};
ghost use Rattle.std.specs.Option.{option_copied};
ghost use Rattle.prt_refusals.specs.declared.refusal.Refusal.TheVariants.{NoMemory};
ghost use Rattle.prt_route.specs.Best.{best};
ghost use Rattle.prt_route.specs.Edit.{after_edit, has_key};
ghost use Rattle.prt_route.specs.Route.{key_of};
ghost use Rattle.prt_route.specs.RouteChoice.{chosen_route, is_selected};
ghost use Rattle.prt_trie.specs.Table.{IsOfOneTable, IsOfTable, IsRising, IsTable};

use crate::edit::rows_after;
use crate::index::Index;
use crate::prefix_place::{chosen_route, has_key};
use crate::route_rows::read_all;
use prt_route::{Addr, Refusal, Route, RouteChoice, RouteEdit, RouteKey, Selector};
use std::alloc::{AllocError, Global};
use std::marker::Model;

/// The most routes that get one index. More are split.
pub(crate) const MOST_OF_LEAF: usize = 512;

/// The fewest routes that stay split. The limits are apart, so that no route that comes and goes moves them all each time.
pub(crate) const LEAST_OF_SPLIT: usize = 256;

/// The routes by address, length and metric, and their index.
#[derive(Drop)]
pub(crate) struct Leaf {
    rows: Vec<Route>,
    index: Index,
}

impl Model for Leaf {
    ghost use Rattle.std.specs.Prelude.{List};
    ghost use Rattle.prt_route.specs.declared.route.Route.{Route as Row};
    ghost use Rattle.prt_trie.specs.Index.{IsIndex};

    ghost Value = { List Row };

    ghost view = { λ leaf. leaf.rows.items };

    ghost invariant = { λ leaf. IsIndex leaf.rows.items leaf.index };
}

impl Leaf {
    /// Makes the leaf of the rows, which are in the order of listings.
    ///
    /// # Errors
    ///
    /// `NoMemory` alone.
    pub fn from_sorted(alloc: Global, rows: Vec<Route>) -> Result<Leaf, Refusal>
        requires one_table { IsOfOneTable rows.items }
        requires rising { IsRising rows.items }
        ensures value { IfOk result (λ leaf. leaf ≡ rows.items) }
        ensures reason { IfErr result (λ reason. reason ≡ NoMemory) }
    {
        let given = rows.as_slice();
        read_all(given);
        let index = Index::build(alloc, given)?;
        Ok(Leaf { rows, index })
    }

    /// Returns the routes in the order of listings.
    pub fn as_slice(&self) -> &[Route]
        ensures value { result.now ≡ self.now }
        ensures table { IsTable result.now }
    {
        self.rows.as_slice()
    }

    /// Makes a copy of the routes in the order of listings.
    pub fn rows(&self) -> Result<Vec<Route>, AllocError>
        ensures value { IfOk result (λ rows. rows.items ≡ self.now) }
        ensures table { IfOk result (λ rows. IsTable rows.items) }
    {
        Vec::from_slice(*self.rows.allocator(), self.rows.as_slice())
    }

    /// Makes a copy of the routes in the order of listings, with the edit made.
    pub fn rows_after(&self, edit: &RouteEdit) -> Result<Vec<Route>, AllocError>
        ensures value { IfOk result (λ rows. rows.items ≡ after_edit edit.now self.now) }
        ensures table { IsTable self.now }
    {
        rows_after(*self.rows.allocator(), self.rows.as_slice(), edit)
    }

    /// Puts the routes behind the rows so far, in any order.
    pub fn push_rows(&self, rows: &mut Vec<Route>) -> Result<(), AllocError>
        ensures { OnOk result (IsPermutation (rows.old.items ++ self.now) rows.new.items) }
    {
        rows.extend_from_slice(self.as_slice())?;
        Ok(())
    }

    /// Checks whether the selector takes one of the routes.
    pub fn takes_any(&self, selector: &Selector) -> bool
        ensures { result ≡ list_any (is_selected selector.now) self.now }
    {
        self.rows.iter().any(|row| selector.takes(row))
    }

    /// Finds the best route for the address, if one contains it. It takes no memory.
    pub fn find(&self, addr: Addr) -> Option<&Route>
        ensures { (table : ℕ) → IsOfTable table self.now → option_copied result ≡ best self.now table addr }
    {
        self.index.find(&self.rows, addr)
    }

    /// Checks whether one of the routes has the key.
    pub fn holds(&self, key: &RouteKey) -> bool
        ensures { result ≡ has_key key.now self.now }
    {
        has_key(self.as_slice(), key)
    }

    /// Finds the key of the route of lowest metric among those that the choice takes, if it takes one.
    pub fn choose(&self, choice: &RouteChoice) -> Option<RouteKey>
        ensures { result ≡ option_map key_of (chosen_route choice.now self.now) }
    {
        chosen_route(self.as_slice(), choice).map(|route| route.key())
    }
}
