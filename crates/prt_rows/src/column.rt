//! The columns of the tables: their places as they are read, their names and their types. The place of a column, from 0 on,
//! is `Column::Name as usize`.

use sqlite_schema::schema::Kind;

/// The rowid of a row of the table `route`, and its columns in their order.
#[derive(Clone, Copy)]
pub enum RouteColumn {
    Rowid,
    Tbl,
    Net,
    Len,
    Metric,
    Kind,
    Via,
    Dev,
    Src,
    Proto,
    Scope,
}

/// The place of the rowid in a row that is read. The id of a rule is its rowid.
pub(crate) const ROWID: usize = RouteColumn::Rowid as usize;

/// How many columns the table `route` has.
pub(crate) const ROUTE_WIDTH: usize = 10;

/// The name and the type of each column of the table `route`.
pub const ROUTE_COLUMNS: [(&str, Kind); ROUTE_WIDTH] = [
    ("tbl", Kind::Integer),
    ("net", Kind::Integer),
    ("len", Kind::Integer),
    ("metric", Kind::Integer),
    ("kind", Kind::Integer),
    ("via", Kind::Integer),
    ("dev", Kind::Text),
    ("src", Kind::Integer),
    ("proto", Kind::Integer),
    ("scope", Kind::Integer),
];

/// A column of the table `rule`, in their order.
#[derive(Clone, Copy)]
pub enum RuleColumn {
    Id,
    Priority,
    Inverted,
    SrcNet,
    SrcLen,
    DstNet,
    DstLen,
    Iif,
    Mark,
    Mask,
    Act,
    Tbl,
}

/// How many columns the table `rule` has.
pub(crate) const RULE_WIDTH: usize = 12;

/// The name and the type of each column of the table `rule`.
pub const RULE_COLUMNS: [(&str, Kind); RULE_WIDTH] = [
    ("id", Kind::Integer),
    ("priority", Kind::Integer),
    ("inverted", Kind::Integer),
    ("src_net", Kind::Integer),
    ("src_len", Kind::Integer),
    ("dst_net", Kind::Integer),
    ("dst_len", Kind::Integer),
    ("iif", Kind::Text),
    ("mark", Kind::Integer),
    ("mask", Kind::Integer),
    ("act", Kind::Integer),
    ("tbl", Kind::Integer),
];

/// A column of the table `meta`, in their order.
#[derive(Clone, Copy)]
pub enum MetaColumn {
    Id,
    Format,
    Count,
}

/// How many columns the table `meta` has.
pub(crate) const META_WIDTH: usize = 3;

/// The name and the type of each column of the table `meta`.
pub const META_COLUMNS: [(&str, Kind); META_WIDTH] = [
    ("id", Kind::Integer),
    ("format", Kind::Integer),
    ("count", Kind::Integer),
];

/// A column of the table `suppress`, in their order.
#[derive(Clone, Copy)]
pub enum SuppressColumn {
    Rule,
    Len,
}

/// How many columns the table `suppress` has.
pub(crate) const SUPPRESS_WIDTH: usize = 2;

/// The name and the type of each column of the table `suppress`.
pub const SUPPRESS_COLUMNS: [(&str, Kind); SUPPRESS_WIDTH] = [
    ("rule", Kind::Integer),
    ("len", Kind::Integer),
];
