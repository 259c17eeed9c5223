//! What the pieces of a table or a tree can do.
use crate::cut::Cut;
use prt_route::{Addr, Refusal, Route, RouteChoice, RouteEdit, RouteKey, Selector};
use std::alloc::{AllocError, Global};

/// Some routes of one table.
pub(crate) trait Piece: Sized + Drop {
    ghost use Rattle.std.specs.Prelude.{◌≡◌, ◌++◌, ℕ, List, length, IfErr, IfOk, OnOk, IsPermutation, option_map};
    ghost use Rattle.std.specs.List.{list_any};
    ghost use Rattle.std.specs.Option.{option_copied};
    ghost use Rattle.prt_refusals.specs.declared.refusal.Refusal.TheVariants.{NoMemory};
    ghost use Rattle.prt_route.specs.Best.{best};
    ghost use Rattle.prt_route.specs.Edit.{after_edit, has_key};
    ghost use Rattle.prt_route.specs.Route.{key_of};
    ghost use Rattle.prt_route.specs.RouteChoice.{chosen_route, is_selected};
    ghost use Rattle.prt_route.specs.declared.route.Route.{Route as Row};
    ghost use Rattle.prt_trie.specs.Pieces.{IsOfTheirTable};
    ghost use Rattle.prt_trie.specs.Table.{IsOfOneTable, IsOfTable, IsRising};

    /// The routes in the order of listings.
    ghost routes: { Self → List Row };

    /// Returns the octet by which routes are divided into pieces of this kind.
    fn cut() -> Cut;

    /// Makes the piece of the rows, which are in the order of listings.
    ///
    /// # Errors
    ///
    /// `NoMemory` alone.
    fn from_sorted(alloc: Global, rows: Vec<Route>) -> Result<Self, Refusal>
        requires one_table { IsOfOneTable rows.items }
        requires rising { IsRising rows.items }
        ensures value { IfOk result (λ piece. routes piece ≡ rows.items) }
        ensures reason { IfErr result (λ reason. reason ≡ NoMemory) };

    /// Makes the piece after the edit; this one stays as it is. A route that is put has the table's number.
    ///
    /// # Errors
    ///
    /// `NoMemory` alone.
    fn with_change(&self, edit: &RouteEdit) -> Result<Self, Refusal>
        requires { IsOfTheirTable edit.now (routes self.now) }
        ensures value { IfOk result (λ piece. routes piece ≡ after_edit edit.now (routes self.now)) }
        ensures reason { IfErr result (λ reason. reason ≡ NoMemory) };

    /// Returns how many routes there are.
    fn len(&self) -> usize
        ensures { result ≡ length (routes self.now) };

    /// Puts the routes behind the rows so far, in any order. If memory is refused, some of them may be there.
    fn push_rows(&self, rows: &mut Vec<Route>) -> Result<(), AllocError>
        ensures { OnOk result (IsPermutation (rows.old.items ++ routes self.now) rows.new.items) };

    /// Checks whether the selector takes one of the routes.
    fn takes_any(&self, selector: &Selector) -> bool
        ensures { result ≡ list_any (is_selected selector.now) (routes self.now) };

    /// Finds the best route for the address, if one contains it.
    fn find(&self, addr: Addr) -> Option<&Route>
        ensures { (table : ℕ) → IsOfTable table (routes self.now) → option_copied result ≡ best (routes self.now) table addr };

    /// Checks whether one of the routes has the key.
    fn holds(&self, key: &RouteKey) -> bool
        ensures { result ≡ has_key key.now (routes self.now) };

    /// Finds the key of the route of lowest metric among those that the choice takes, if it takes one.
    fn choose(&self, choice: &RouteChoice) -> Option<RouteKey>
        ensures { result ≡ option_map key_of (chosen_route choice.now (routes self.now)) };
}
