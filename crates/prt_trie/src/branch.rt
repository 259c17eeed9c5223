//! Routes with one index, or in pieces.
ghost use Rattle.std.specs.Prelude.{◌≡◌, length, IfErr, IfOk};
ghost use Rattle.prt_refusals.specs.declared.refusal.Refusal.TheVariants.{NoMemory};
ghost use Rattle.prt_trie.specs.Table.{IsTable};

use crate::cut::Cut;
use crate::leaf::{LEAST_OF_SPLIT, Leaf, MOST_OF_LEAF};
use crate::piece::Piece;
use crate::pieces::Pieces;
use crate::route_rows::read_all;
use prt_route::{Addr, Refusal, Route, RouteChoice, RouteEdit, RouteKey, Selector};
use std::alloc::{AllocError, Global};
use std::marker::Model;

/// Some routes of one table: few of them with one index, and many in pieces `P`.
#[derive(Drop)]
pub(crate) struct Branch<P: Piece> {
    shape: Shape<P>,
}

/// The routes with one index, or in pieces that branches before and after an edit share.
#[derive(Drop)]
enum Shape<P: Piece> {
    Whole(Leaf),
    Split(Pieces<P>),
}

impl<P: Piece> Model for Branch<P> {
    ghost use Rattle.std.specs.Prelude.{List};
    ghost use Rattle.prt_route.specs.declared.route.Route.{Route as Row};

    ghost Value = { List Row };

    ghost use Rattle.prt_trie.specs.Shape.{rows_of};

    ghost view = { λ branch. rows_of branch.shape };
}

impl<P: Piece> Branch<P> {
    /// Makes the branch of the pieces after an edit, which get one index again if they have few routes left.
    ///
    /// # Errors
    ///
    /// `NoMemory` alone.
    fn of_pieces(pieces: Pieces<P>) -> Result<Branch<P>, Refusal>
        ensures value { IfOk result (λ branch. branch ≡ pieces.1) }
        ensures reason { IfErr result (λ reason. reason ≡ NoMemory) }
    {
        let shape = if pieces.len() < LEAST_OF_SPLIT {
            let rows = pieces.rows()?;
            Shape::Whole(Leaf::from_sorted(*rows.allocator(), rows)?)
        } else {
            Shape::Split(pieces)
        };
        Ok(Branch { shape })
    }

    /// Makes a copy of the routes in the order of listings.
    pub fn rows(&self) -> Result<Vec<Route>, AllocError>
        ensures value { IfOk result (λ rows. rows.items ≡ self.now) }
        ensures table { IfOk result (λ rows. IsTable rows.items) }
    {
        match &self.shape {
            Shape::Whole(leaf) => leaf.rows(),
            Shape::Split(pieces) => pieces.rows(),
        }
    }

    /// Returns how many routes there are.
    pub fn count(&self) -> usize
        ensures value { result ≡ length self.now }
        ensures table { IsTable self.now }
    {
        match &self.shape {
            Shape::Whole(leaf) => leaf.as_slice().len(),
            Shape::Split(pieces) => pieces.len(),
        }
    }
}

impl<P: Piece> Piece for Branch<P> {
    ghost routes = { λ branch. branch };

    fn cut() -> Cut {
        P::cut().before()
    }

    fn from_sorted(alloc: Global, rows: Vec<Route>) -> Result<Branch<P>, Refusal> {
        let given = rows.as_slice();
        // Recalls what the types say of each row.
        read_all(given);
        let shape = if given.len() > MOST_OF_LEAF {
            Shape::Split(Pieces::from_sorted(alloc, P::cut(), given)?)
        } else {
            Shape::Whole(Leaf::from_sorted(alloc, rows)?)
        };
        Ok(Branch { shape })
    }

    fn with_change(&self, edit: &RouteEdit) -> Result<Branch<P>, Refusal> {
        match &self.shape {
            Shape::Whole(leaf) => {
                let rows = leaf.rows_after(edit)?;
                Branch::from_sorted(*rows.allocator(), rows)
            }
            Shape::Split(pieces) => Branch::of_pieces(pieces.with_change(edit)?),
        }
    }

    fn len(&self) -> usize {
        self.count()
    }

    fn push_rows(&self, rows: &mut Vec<Route>) -> Result<(), AllocError> {
        match &self.shape {
            Shape::Whole(leaf) => leaf.push_rows(rows),
            Shape::Split(pieces) => pieces.push_rows(rows),
        }
    }

    fn takes_any(&self, selector: &Selector) -> bool {
        match &self.shape {
            Shape::Whole(leaf) => leaf.takes_any(selector),
            Shape::Split(pieces) => pieces.takes_any(selector),
        }
    }

    fn find(&self, addr: Addr) -> Option<&Route> {
        match &self.shape {
            Shape::Whole(leaf) => leaf.find(addr),
            Shape::Split(pieces) => pieces.find(addr),
        }
    }

    fn holds(&self, key: &RouteKey) -> bool {
        match &self.shape {
            Shape::Whole(leaf) => leaf.holds(key),
            Shape::Split(pieces) => pieces.holds(key),
        }
    }

    fn choose(&self, choice: &RouteChoice) -> Option<RouteKey> {
        match &self.shape {
            Shape::Whole(leaf) => leaf.choose(choice),
            Shape::Split(pieces) => pieces.choose(choice),
        }
    }
}
