//! Why a database is refused.

use std::fmt;
use thiserror::Error;

/// One of the four tables of a database.
#[derive(Clone, Copy, Debug)]
pub enum DatabaseTable {
    Rule,
    Route,
    Meta,
    Suppress,
}

impl fmt::Display for DatabaseTable {
    fn fmt<W: fmt::Write>(&self, f: &mut fmt::Formatter<W>) -> fmt::Result {
        f.write_str(match self {
            DatabaseTable::Rule => "rule",
            DatabaseTable::Route => "route",
            DatabaseTable::Meta => "meta",
            DatabaseTable::Suppress => "suppress",
        })
    }
}

/// What is wrong with a row that encodes nothing (`FILE-FORMAT.md`).
#[derive(Clone, Copy, Debug, Error)]
pub enum RowFault {
    /// This column has a value that it doesn't take.
    #[error("wrong value of {0}")]
    Value(&'static str),
    /// An address has bits after its length.
    #[error("bits after its length")]
    HostBits,
    /// A unicast route goes nowhere.
    #[error("neither gateway nor interface")]
    NoNextHop,
    /// A route of another kind has a gateway, an interface, a source or a scope.
    #[error("next hop, source or scope of a route that is not unicast")]
    NextHopNotAllowed,
    /// A mark comes without its mask, or a mask without its mark.
    #[error("mark or mask alone")]
    HalfMark,
    /// A table comes with an action that looks up none.
    #[error("table that is not looked up")]
    TableNotAllowed,
}

/// What is wrong with the rows of the table `meta`.
#[derive(Clone, Copy, Debug, Error)]
pub enum MetaFault {
    /// There is no row, or more than one.
    #[error("{0} rows, not one")]
    Rows(usize),
    /// This column has a value that it doesn't take.
    #[error("wrong value of {0}")]
    Value(&'static str),
    /// The row names a format that this program doesn't read.
    #[error("format {0}, this program reads 1 and 2")]
    Format(i64),
    /// The file is of format 1, and has rows that format 1 doesn't have.
    #[error("format 1, with rows in suppress")]
    Lengths,
}

/// Why a database is refused.
#[derive(Clone, Copy, Debug, Error)]
pub enum Reason {
    /// The row of this rowid encodes nothing.
    #[error("{0}, row {1}: {2}")]
    Row(DatabaseTable, i64, RowFault),
    /// The row of `suppress` of this rowid is of a rule that looks up no table.
    #[error("suppress, row {0}: length of a rule that looks up no table")]
    Suppressing(i64),
    /// The row of `rule` of the first rowid encodes the rule of the second, except for the id.
    #[error("rule, row {0}: same rule as row {1}")]
    SameRule(i64, i64),
    /// The rows of `meta` encode no count.
    #[error("meta: {0}")]
    Meta(MetaFault),
    /// The table has this many rows, which are more than the second number.
    #[error("{0}: {1} rows, at most {2}")]
    TooMany(DatabaseTable, usize, usize),
    /// This column is missing, or is another in its place.
    #[error("{0}: column {1} is missing or another")]
    Column(DatabaseTable, &'static str),
    /// The table has further columns, from the one of this number on.
    #[error("{0}: column {1} is one too many")]
    FurtherColumn(DatabaseTable, usize),
    /// The columns of each table are right, and the keys or the constraints of one aren't.
    #[error("rule, route, meta or suppress: other keys or constraints")]
    Keys,
}
