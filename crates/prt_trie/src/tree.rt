//! Some routes of one table; in a `Table`, those of one first octet or the short ones.
ghost use Rattle.std.specs.Prelude.{◌≡◌, ◌==◌, ℕ, length, IfErr, IfOk, IsPermutation, option_map};
ghost use Rattle.std.specs.List.{IsDistinct, list_all};
ghost use Rattle.std.specs.Option.{option_copied};
ghost use Rattle.prt_refusals.specs.declared.refusal.Refusal.TheVariants.{NoMemory};
ghost use Rattle.prt_route.specs.Best.{best};
ghost use Rattle.prt_route.specs.Edit.{after_edit, has_key};
ghost use Rattle.prt_route.specs.Route.{key_of};
ghost use Rattle.prt_route.specs.RouteChoice.{chosen_route};
ghost use Rattle.prt_trie.specs.Cut.{number_in};
ghost use Rattle.prt_trie.specs.Pieces.{IsOfTheirTable};
ghost use Rattle.prt_trie.specs.declared.cut.Cut.TheVariants.{SecondOctet};
ghost use Rattle.prt_trie.specs.Table.{IsOfOneTable, IsOfTable, IsRising, IsTable, has_same_key};

use crate::branch::Branch;
use crate::bucket::Bucket;
use crate::cut::Cut;
use crate::edit::rows_after;
use crate::piece::Piece;
use crate::route_rows::sorted_rows;
use crate::{Addr, Prefix, Refusal, Route, RouteChoice, RouteKey};
use prt_route::{RouteEdit, Selector};
use std::alloc::{AllocError, Global};
use std::marker::Model;

/// The routes of one table by address, length and metric.
///
/// If they are many, they are in pieces by the second octet, if those are, by the third, and if those are too, in chunks of
/// some rows of one prefix. Trees before and after an edit share the pieces and chunks that it leaves as they are.
#[derive(Drop)]
pub struct Tree {
    division: Division,
}

/// The routes undivided, if no octet divides them, or else by their octets.
#[derive(Drop)]
enum Division {
    Undivided(Bucket),
    ByOctets(Branch<Branch<Bucket>>),
}

impl Model for Tree {
    ghost use Rattle.std.specs.Prelude.{List};
    ghost use Rattle.prt_route.specs.declared.route.Route.{Route as Row};

    ghost Value = { List Row };

    ghost use Rattle.prt_trie.specs.Division.{rows_of};

    ghost view = { λ tree. rows_of tree.division };
}

/// Checks whether the prefix is too short to have the second octet whole. No octet divides such routes.
fn is_short(prefix: &Prefix) -> bool
    ensures { result ≡ (number_in SecondOctet prefix.now == 0) }
{
    Cut::SecondOctet.number_of(prefix) == 0
}

/// Checks whether the prefix of each row is short.
fn are_short(rows: &[Route]) -> bool
    ensures { result ≡ list_all (λ row. number_in SecondOctet row.prefix == 0) rows.now }
{
    rows.iter().all(|row| is_short(&row.prefix))
}

/// Checks whether routes that no octet divides are so after the edit too.
fn stays_undivided(edit: &RouteEdit) -> bool {
    match edit {
        RouteEdit::Put(route) => is_short(&route.prefix),
        RouteEdit::Remove(_) | RouteEdit::Flush(_) => true,
    }
}

/// Divides the routes after an edit by their octets.
fn divided(bucket: &Bucket, edit: &RouteEdit) -> Result<Branch<Branch<Bucket>>, Refusal>
    requires { IsOfTheirTable edit.now bucket.now }
    ensures value { IfOk result (λ branch. branch ≡ after_edit edit.now bucket.now) }
    ensures reason { IfErr result (λ reason. reason ≡ NoMemory) }
{
    let rows = bucket.rows()?;
    let alloc = *rows.allocator();
    let rows = rows_after(alloc, rows.as_slice(), edit)?;
    Branch::from_sorted(alloc, rows)
}

impl Tree {
    /// Makes the tree of the routes of one table, given in any order, each with a key of its own.
    ///
    /// # Errors
    ///
    /// `NoMemory` alone.
    pub fn build(alloc: Global, routes: &[Route]) -> Result<Tree, Refusal>
        requires one_table { IsOfOneTable routes.now }
        requires distinct { IsDistinct has_same_key routes.now }
        ensures same { IfOk result (λ tree. IsPermutation routes.now tree) }
        ensures rising { IfOk result (λ tree. IsRising tree) }
        ensures reason { IfErr result (λ reason. reason ≡ NoMemory) }
    {
        let rows = sorted_rows(alloc, routes)?;
        Tree::from_sorted(alloc, rows)
    }

    /// Finds the best route for the address, if one contains it (RFC 1812, section 5.2.4.3). It takes no memory.
    pub fn find(&self, addr: Addr) -> Option<&Route>
        ensures { (table : ℕ) → IsOfTable table self.now → option_copied result ≡ best self.now table addr }
    {
        match &self.division {
            Division::Undivided(bucket) => bucket.find(addr),
            Division::ByOctets(branch) => branch.find(addr),
        }
    }

    /// Makes a copy of the routes by address, length and metric.
    ///
    /// # Errors
    ///
    /// `NoMemory` alone.
    pub fn rows(&self) -> Result<Vec<Route>, Refusal>
        ensures value { IfOk result (λ rows. rows.items ≡ self.now) }
        ensures table { IfOk result (λ rows. IsTable rows.items) }
        ensures reason { IfErr result (λ reason. reason ≡ NoMemory) }
    {
        let rows = match &self.division {
            Division::Undivided(bucket) => bucket.rows()?,
            Division::ByOctets(branch) => branch.rows()?,
        };
        Ok(rows)
    }

    /// Returns how many routes there are.
    pub fn len(&self) -> usize
        ensures value { result ≡ length self.now }
        ensures table { IsTable self.now }
    {
        match &self.division {
            Division::Undivided(bucket) => bucket.count(),
            Division::ByOctets(branch) => branch.count(),
        }
    }

    /// Checks whether one of the routes has the key.
    pub fn holds(&self, key: &RouteKey) -> bool
        ensures { result ≡ has_key key.now self.now }
    {
        match &self.division {
            Division::Undivided(bucket) => bucket.holds(key),
            Division::ByOctets(branch) => branch.holds(key),
        }
    }

    /// Finds the key of the route of lowest metric among those that the choice takes, if it takes one (`ip-route(8)`,
    /// `delete`).
    pub fn choose(&self, choice: &RouteChoice) -> Option<RouteKey>
        ensures { result ≡ option_map key_of (chosen_route choice.now self.now) }
    {
        match &self.division {
            Division::Undivided(bucket) => bucket.choose(choice),
            Division::ByOctets(branch) => branch.choose(choice),
        }
    }
}

impl Piece for Tree {
    ghost routes = { λ tree. tree };

    fn cut() -> Cut {
        Cut::FirstOctet
    }

    fn from_sorted(alloc: Global, rows: Vec<Route>) -> Result<Tree, Refusal> {
        let division = if are_short(&rows) {
            Division::Undivided(Bucket::from_sorted(alloc, rows)?)
        } else {
            Division::ByOctets(Branch::from_sorted(alloc, rows)?)
        };
        Ok(Tree { division })
    }

    fn with_change(&self, edit: &RouteEdit) -> Result<Tree, Refusal> {
        let division = match &self.division {
            Division::Undivided(bucket) if stays_undivided(edit) => {
                Division::Undivided(bucket.with_change(edit)?)
            }
            Division::Undivided(bucket) => Division::ByOctets(divided(bucket, edit)?),
            Division::ByOctets(branch) => Division::ByOctets(branch.with_change(edit)?),
        };
        Ok(Tree { division })
    }

    fn len(&self) -> usize {
        Tree::len(self)
    }

    fn push_rows(&self, rows: &mut Vec<Route>) -> Result<(), AllocError> {
        match &self.division {
            Division::Undivided(bucket) => bucket.push_rows(rows),
            Division::ByOctets(branch) => branch.push_rows(rows),
        }
    }

    fn takes_any(&self, selector: &Selector) -> bool {
        match &self.division {
            Division::Undivided(bucket) => bucket.takes_any(selector),
            Division::ByOctets(branch) => branch.takes_any(selector),
        }
    }

    fn find(&self, addr: Addr) -> Option<&Route> {
        Tree::find(self, addr)
    }

    fn holds(&self, key: &RouteKey) -> bool {
        Tree::holds(self, key)
    }

    fn choose(&self, choice: &RouteChoice) -> Option<RouteKey> {
        Tree::choose(self, choice)
    }
}
