//! The rows of the four tables, read.

ghost use Rattle.std.specs.Prelude.{◌≡◌};
ghost use Rattle.sqlite.specs.Held.{state};
ghost use Rattle.prt_reasons.specs.IsReason.{IsReasonIfAny};
ghost use Rattle.prt_reasons.specs.Shows.{OfOurs, Reads, ShowsAll, ShowsRows, text};
ghost use Rattle.prt_store.specs.Loaded.{ReadsShown};

use crate::all_rows::{AllRows, reason_in};
use crate::{DatabaseTable, Reason};
use prt_refusals::Refusal;
use sqlite::{Alter, Connection, Row};

/// Returns the statement that reads a table.
fn text(table: DatabaseTable) -> &'static str
    ensures { result.now ≡ text table }
{
    match table {
        DatabaseTable::Rule =>
            "SELECT id, priority, inverted, src_net, src_len, dst_net, dst_len, iif, mark, mask, act, tbl FROM rule ORDER BY id",
        DatabaseTable::Route =>
            "SELECT rowid, tbl, net, len, metric, kind, via, dev, src, proto, scope FROM route ORDER BY rowid",
        DatabaseTable::Meta => "SELECT id, format, count FROM meta ORDER BY id",
        DatabaseTable::Suppress => "SELECT rule, len FROM suppress ORDER BY rule",
    }
}

/// Reads the rows of a table, in the order of their rowids.
fn rows_of<S: Alter>(conn: &mut Connection<S>, table: DatabaseTable) -> Result<Vec<Row>, Refusal>
    ensures { ReadsShown S.Store (λ (rows : _). OfOurs (λ db. ShowsRows table db rows.items) (state S.Store conn.old).now) ⊥ conn.old conn.new result }
{
    match conn.query_all(text(table), &[]) {
        Ok(rows) => Ok(rows),
        Err(_) => Err(Refusal::OpenFailed),
    }
}

/// Reads the rows of the four tables.
fn all_rows<S: Alter>(conn: &mut Connection<S>) -> Result<AllRows, Refusal>
    ensures { ReadsShown S.Store (λ rows. OfOurs (λ db. ShowsAll db rows) (state S.Store conn.old).now) ⊥ conn.old conn.new result }
{
    let meta = rows_of(conn, DatabaseTable::Meta)?;
    let rules = rows_of(conn, DatabaseTable::Rule)?;
    let lengths = rows_of(conn, DatabaseTable::Suppress)?;
    let routes = rows_of(conn, DatabaseTable::Route)?;
    Ok(AllRows {
        meta,
        rules,
        lengths,
        routes,
    })
}

/// Finds why the rows of the four tables encode no state, if that is known: the first row that encodes nothing, or what
/// is wrong with the rows together.
///
/// Nothing is changed. A row that is named is one that the table keeps, and it encodes nothing.
///
/// # Errors
///
/// `OpenFailed` if a store call fails.
pub fn rows_reason<S: Alter>(conn: &mut Connection<S>) -> Result<Option<Reason>, Refusal>
    ensures { Reads S.Store (λ reason. reason) IsReasonIfAny conn.old conn.new result }
{
    let rows = all_rows(conn)?;
    Ok(reason_in(&rows))
}
