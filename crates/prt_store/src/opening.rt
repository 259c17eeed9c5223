//! The opening of a file: the four tables are made if they are missing, filled if they have no rows, and migrated if
//! they are of format 1.

ghost use Rattle.std.specs.Prelude.{◌≡◌, ◌<◌, ◌^◌, [], ◌∷◌, false, Err, IfErr, IsTrue, OnErr, OnOk};
ghost use Rattle.std.specs.List.{AllByRecursion as Each};
ghost use Rattle.sqlite.specs.Held.{state};
ghost use Rattle.sqlite.specs.State.{HasCleanDisk, Survives};
ghost use Rattle.prt_refusals.specs.declared.refusal.Refusal.TheVariants.{OpenFailed};
ghost use Rattle.prt_rows.specs.Effects.{Migrates};
ghost use Rattle.prt_rows.specs.Format.{BeginsFormat2, HasFormat2, IsFormat2, SuitsFormat2};
ghost use Rattle.prt_rows.specs.MetaRow.{meta_row};
ghost use Rattle.prt_rows.specs.RuleRow.{rule_row};
ghost use Rattle.prt_rows.specs.Statements.{insert_meta, insert_rule, migrate};
ghost use Rattle.prt_store.specs.Adopted.{IsSettled, LeavesMigrated};
ghost use Rattle.prt_store.specs.Openings.{Advances, Commits, Fills, Finds, InsertsRules, KeepsOrMigrates, MakesAndFills, MakesMissing, MakesTables};
ghost use Rattle.prt_store.specs.Openings.{OpensTables, Ran, Takes, Works, create, table_of};
ghost use Rattle.prt_store.specs.Shown.{ShowsContents, ShowsDue, ShowsFormat1, ShowsNoRow, ShowsNotDue, ShowsOtherFormat, ShowsSomeRow, look_at};
ghost use Rattle.prt_store.specs.declared.opening.OurTable.{OurTable as OneTable};

use crate::statements::insert_rule;
use prt_refusals::Refusal;
use prt_rows::{count_in_format_1, has_format_2, has_table, meta_values, suits_format_2};
use prt_rule::Rule;
use prt_version::opening_rules;
use sqlite::{Alter, Connection, Error, Transaction};

/// One of the four tables.
#[derive(Clone, Copy)]
enum OurTable {
    Rule,
    Route,
    Meta,
    Suppress,
}

/// A step of an opening.
#[derive(Clone, Copy)]
enum Step {
    /// Makes a table.
    Make(OurTable),
    /// Makes a file of format 1 one of format 2.
    Migrate,
    /// Puts the three opening rules and the count 0.
    Fill,
}

/// Returns the statement that makes a table.
fn create(table: OurTable) -> &'static str
    ensures { result.now ≡ create table }
{
    match table {
        OurTable::Rule =>
            "CREATE TABLE IF NOT EXISTS rule (id INTEGER PRIMARY KEY NOT NULL, priority INTEGER NOT NULL, inverted INTEGER NOT NULL, src_net INTEGER NOT NULL, src_len INTEGER NOT NULL, dst_net INTEGER NOT NULL, dst_len INTEGER NOT NULL, iif TEXT NOT NULL, mark INTEGER NOT NULL, mask INTEGER NOT NULL, act INTEGER NOT NULL, tbl INTEGER NOT NULL) STRICT",
        OurTable::Route =>
            "CREATE TABLE IF NOT EXISTS route (tbl INTEGER NOT NULL, net INTEGER NOT NULL, len INTEGER NOT NULL, metric INTEGER NOT NULL, kind INTEGER NOT NULL, via INTEGER NOT NULL, dev TEXT NOT NULL, src INTEGER NOT NULL, proto INTEGER NOT NULL, scope INTEGER NOT NULL, PRIMARY KEY (tbl, net, len, metric)) STRICT",
        OurTable::Meta =>
            "CREATE TABLE IF NOT EXISTS meta (id INTEGER PRIMARY KEY NOT NULL, format INTEGER NOT NULL, count INTEGER NOT NULL) STRICT",
        OurTable::Suppress =>
            "CREATE TABLE IF NOT EXISTS suppress (rule INTEGER PRIMARY KEY NOT NULL REFERENCES rule (id) ON DELETE CASCADE, len INTEGER NOT NULL) STRICT",
    }
}

/// Makes a table.
fn create_table<S: Alter>(tx: &mut Transaction<'_, S>, table: OurTable) -> Result<usize, Error>
    ensures same_reference { tx.new.conn.ghost_name ≡ tx.old.conn.ghost_name }
    ensures works { Works S.Store (Ran S.Store (create table) []) tx.old.conn.now tx.new.conn.now result }
{
    tx.execute(create(table), &[])
}

/// Inserts one of the opening rules.
fn insert_opening_rule<S: Alter>(tx: &mut Transaction<'_, S>, rule: &Rule) -> Result<usize, Error>
    requires { rule.now.id < 2 ^ 63 }
    ensures same_reference { tx.new.conn.ghost_name ≡ tx.old.conn.ghost_name }
    ensures works { Works S.Store (Ran S.Store insert_rule (rule_row rule.now)) tx.old.conn.now tx.new.conn.now result }
{
    insert_rule(tx, rule)
}

/// Inserts the opening rules (`ip-rule(8)`).
fn insert_rules<S: Alter>(tx: &mut Transaction<'_, S>) -> Result<usize, Error>
    ensures same_reference { tx.new.conn.ghost_name ≡ tx.old.conn.ghost_name }
    ensures works { Works S.Store (InsertsRules S.Store) tx.old.conn.now tx.new.conn.now result }
{
    let [local, main, default] = opening_rules();
    insert_opening_rule(tx, &local)?;
    insert_opening_rule(tx, &main)?;
    insert_opening_rule(tx, &default)
}

/// Inserts the row of `meta`, with the count 0.
fn insert_count<S: Alter>(tx: &mut Transaction<'_, S>) -> Result<usize, Error>
    ensures same_reference { tx.new.conn.ghost_name ≡ tx.old.conn.ghost_name }
    ensures works { Works S.Store (Ran S.Store insert_meta (meta_row 0)) tx.old.conn.now tx.new.conn.now result }
{
    tx.execute(
        "INSERT INTO meta (id, format, count) VALUES (?1, ?2, ?3)",
        &meta_values(0),
    )
}

/// Puts the opening state into the tables, the row of `meta` last.
fn fill<S: Alter>(tx: &mut Transaction<'_, S>) -> Result<usize, Error>
    ensures same_reference { tx.new.conn.ghost_name ≡ tx.old.conn.ghost_name }
    ensures works { Works S.Store (Fills S.Store) tx.old.conn.now tx.new.conn.now result }
{
    insert_rules(tx)?;
    insert_count(tx)
}

/// Sets the format of a file of format 1.
fn set_format<S: Alter>(tx: &mut Transaction<'_, S>) -> Result<usize, Error>
    ensures same_reference { tx.new.conn.ghost_name ≡ tx.old.conn.ghost_name }
    ensures works { Works S.Store (Ran S.Store migrate []) tx.old.conn.now tx.new.conn.now result }
{
    tx.execute("UPDATE meta SET format = 2 WHERE format = 1", &[])
}

/// Runs the statements of a step.
fn perform<S: Alter>(tx: &mut Transaction<'_, S>, step: Step) -> Result<usize, Error>
    ensures same_reference { tx.new.conn.ghost_name ≡ tx.old.conn.ghost_name }
    ensures works { Works S.Store (Takes S.Store step) tx.old.conn.now tx.new.conn.now result }
{
    match step {
        Step::Make(table) => create_table(tx, table),
        Step::Migrate => set_format(tx),
        Step::Fill => fill(tx),
    }
}

/// Takes a step in a transaction of its own.
///
/// # Errors
///
/// `OpenFailed`. Nothing is changed then, unless the commit failed: the step may have been taken.
fn take<S: Alter>(conn: &mut Connection<S>, step: Step) -> Result<(), Refusal>
    ensures reason { IfErr result (λ reason. reason ≡ OpenFailed) }
    ensures commits { Commits S.Store (Takes S.Store step) conn.old conn.new result }
{
    if !conn.is_autocommit() {
        return Err(Refusal::OpenFailed);
    }
    let mut tx = conn.transaction();
    if perform(&mut tx, step).is_err() {
        return Err(Refusal::OpenFailed);
    }
    tx.commit().or(Err(Refusal::OpenFailed))
}

/// Returns the name of a table.
fn name(table: OurTable) -> &'static str
    ensures { result.now ≡ (table_of table).name }
{
    match table {
        OurTable::Rule => "rule",
        OurTable::Route => "route",
        OurTable::Meta => "meta",
        OurTable::Suppress => "suppress",
    }
}

/// Makes a table if the file has none of its name.
fn make_missing<S: Alter>(conn: &mut Connection<S>, table: OurTable) -> Result<(), Refusal>
    ensures reason { IfErr result (λ reason. reason ≡ OpenFailed) }
    ensures makes { MakesMissing S.Store table conn.old conn.new result }
{
    if has_table(conn.schema(), name(table)) {
        return Ok(());
    }
    take(conn, Step::Make(table))
}

/// Makes each of the four tables that is missing.
fn make_tables<S: Alter>(conn: &mut Connection<S>) -> Result<(), Refusal>
    ensures reason { IfErr result (λ reason. reason ≡ OpenFailed) }
    ensures advances { Advances S.Store BeginsFormat2 IsFormat2 conn.old conn.new result }
    ensures makes { HasCleanDisk (state S.Store conn.new) → OnOk result (MakesTables S.Store conn.old conn.new) }
{
    make_missing(conn, OurTable::Rule)?;
    make_missing(conn, OurTable::Route)?;
    make_missing(conn, OurTable::Meta)?;
    make_missing(conn, OurTable::Suppress)
}

/// Returns the statement that shows the rowid of each row of a table.
fn look_at(table: OurTable) -> &'static str
    ensures { result.now ≡ look_at table }
{
    match table {
        OurTable::Rule => "SELECT id FROM rule",
        OurTable::Route => "SELECT rowid FROM route",
        OurTable::Meta => "SELECT id FROM meta",
        OurTable::Suppress => "SELECT rule FROM suppress",
    }
}

/// Checks whether a table has no rows.
fn is_empty<S: Alter>(conn: &mut Connection<S>, table: OurTable) -> Result<bool, Refusal>
    ensures reason { IfErr result (λ reason. reason ≡ OpenFailed) }
    ensures finds { Finds S.Store (ShowsNoRow S.Store conn.old table) (ShowsSomeRow S.Store conn.old table) conn.old conn.new result }
{
    match conn.query_all(look_at(table), &[]) {
        Ok(rows) => Ok(rows.is_empty()),
        Err(_) => Err(Refusal::OpenFailed),
    }
}

/// Checks whether a table and the others have no rows. Queries them in turn, up to the first that has one.
fn have_no_rows<S: Alter>(
    conn: &mut Connection<S>,
    table: OurTable,
    others: &[OurTable],
) -> Result<bool, Refusal>
    ensures reason { IfErr result (λ reason. reason ≡ OpenFailed) }
    ensures finds { Finds S.Store (Each (ShowsNoRow S.Store conn.old) (table ∷ others.now)) (ShowsContents S.Store conn.old) conn.old conn.new result }
{
    if !is_empty(conn, table)? {
        return Ok(false);
    }
    match others.split_first() {
        None => Ok(true),
        Some((next, rest)) => have_no_rows(conn, *next, rest),
    }
}

/// Checks whether the four tables have no rows. Queries the table `meta` first, since it has a row in every file but a
/// new one.
fn are_empty<S: Alter>(conn: &mut Connection<S>) -> Result<bool, Refusal>
    ensures reason { IfErr result (λ reason. reason ≡ OpenFailed) }
    ensures finds { Finds S.Store ((table : OneTable) → ShowsNoRow S.Store conn.old table) (ShowsContents S.Store conn.old) conn.old conn.new result }
{
    let others = [OurTable::Rule, OurTable::Route, OurTable::Suppress];
    have_no_rows(conn, OurTable::Meta, &others)
}

/// Checks whether the row of `meta` is that of format 1.
fn names_format_1<S: Alter>(conn: &mut Connection<S>) -> Result<bool, Refusal>
    ensures reason { IfErr result (λ reason. reason ≡ OpenFailed) }
    ensures finds { Finds S.Store (ShowsFormat1 S.Store conn.old) (ShowsOtherFormat S.Store conn.old) conn.old conn.new result }
{
    match conn.query_all("SELECT id, format, count FROM meta ORDER BY id", &[]) {
        Ok(rows) => Ok(count_in_format_1(rows.as_slice()).is_some()),
        Err(_) => Err(Refusal::OpenFailed),
    }
}

/// Checks whether the file is to be migrated: its `meta` names format 1, and there are no lengths.
fn is_due<S: Alter>(conn: &mut Connection<S>) -> Result<bool, Refusal>
    ensures reason { IfErr result (λ reason. reason ≡ OpenFailed) }
    ensures finds { Finds S.Store (ShowsDue S.Store conn.old) (ShowsNotDue S.Store conn.old) conn.old conn.new result }
{
    if !names_format_1(conn)? {
        return Ok(false);
    }
    is_empty(conn, OurTable::Suppress)
}

/// Turns a file of format 1 into one of format 2 with the same count, in one transaction, if no rule of it suppresses
/// prefixes. Any other file stays as it is.
///
/// After `Ok` that has happened, and nothing else has changed. A crash leaves what it could leave before, or the file so
/// migrated. Of a file whose first tables are others it is known which statements ran. The format was set exactly if
/// `meta` showed the row of format 1 and `suppress` no row.
///
/// # Errors
///
/// `OpenFailed` if a store call fails, and nothing is changed then; or if something is pending.
pub fn migrate<S: Alter>(conn: &mut Connection<S>) -> Result<(), Refusal>
    ensures reason { IfErr result (λ reason. reason ≡ OpenFailed) }
    ensures ok { HasCleanDisk (state S.Store conn.new) → IsFormat2 (state S.Store conn.old).now.schema →
        OnOk result (Migrates (state S.Store conn.old).now (state S.Store conn.new).now) }
    ensures clean { HasCleanDisk (state S.Store conn.new) → HasCleanDisk (state S.Store conn.old) }
    ensures settled { HasCleanDisk (state S.Store conn.new) → IsFormat2 (state S.Store conn.old).now.schema → IsSettled S.Store conn.old →
        OnOk result (IsSettled S.Store conn.new) }
    ensures err { HasCleanDisk (state S.Store conn.new) → IsTrue (state S.Store conn.new).is_open →
        IsFormat2 (state S.Store conn.old).now.schema → IsSettled S.Store conn.old →
        OnErr result ((state S.Store conn.new).now ≡ (state S.Store conn.old).now) }
    ensures crash { (HasCleanDisk (state S.Store conn.old) → IsFormat2 (state S.Store conn.old).now.schema) →
        Survives (state S.Store conn.old) (state S.Store conn.new) (LeavesMigrated (state S.Store conn.old).now) }
    ensures does { HasCleanDisk (state S.Store conn.new) → OnOk result (KeepsOrMigrates S.Store conn.old conn.new) }
{
    // Recalls that the rows are as the schema has them.
    let _live = conn.schema();
    // The looks come before the transaction, so that a file of format 2 begins none. No other program can write the file
    // between them.
    if !is_due(conn)? {
        return Ok(());
    }
    take(conn, Step::Migrate)
}

/// Checks whether the four tables have the columns of format 2, and nothing is pending.
fn is_ready<S: Alter>(conn: &Connection<S>) -> bool
    ensures columns { IsTrue result → HasFormat2 (state S.Store conn.now).now.schema }
    ensures alone { IsTrue result → (state S.Store conn.now).in_transaction ≡ false }
    ensures settled { IsTrue result → IsTrue (state S.Store conn.now).is_open → (state S.Store conn.now).now ≡ (state S.Store conn.now).committed }
{
    has_format_2(conn.schema()) && conn.is_autocommit()
}

/// Makes the four tables if they are missing, compares their columns, and fills them if they have no rows. If they have
/// some, a file of format 1 is migrated.
fn make_and_fill<S: Alter>(conn: &mut Connection<S>) -> Result<(), Refusal>
    ensures reason { IfErr result (λ reason. reason ≡ OpenFailed) }
    ensures opens { OpensTables S.Store conn.old conn.new result }
    ensures does { HasCleanDisk (state S.Store conn.new) → OnOk result (MakesAndFills S.Store conn.old conn.new) }
{
    make_tables(conn)?;
    if !is_ready(conn) {
        return Err(Refusal::OpenFailed);
    }
    if !are_empty(conn)? {
        return migrate(conn);
    }
    take(conn, Step::Fill)
}

/// Makes the four tables if they are missing, fills them if they have no rows, and migrates a file of format 1.
///
/// # Errors
///
/// `OpenFailed` if one of the tables has other columns than those of format 2, or a store call fails. The columns are
/// checked before anything is made.
pub(crate) fn open_tables<S: Alter>(conn: &mut Connection<S>) -> Result<(), Refusal>
    ensures reason { IfErr result (λ reason. reason ≡ OpenFailed) }
    ensures columns { OnOk result (HasFormat2 (state S.Store conn.new).now.schema) }
    ensures settled { OnOk result (IsTrue (state S.Store conn.new).is_open → IsSettled S.Store conn.new) }
    ensures opens { OpensTables S.Store conn.old conn.new result }
    ensures other_columns { (SuitsFormat2 (state S.Store conn.old).now.schema → ⊥) → (result ≡ Err OpenFailed) × (conn.new ≡ conn.old) }
    ensures does { HasCleanDisk (state S.Store conn.new) → OnOk result (MakesAndFills S.Store conn.old conn.new) }
{
    if !suits_format_2(conn.schema()) {
        return Err(Refusal::OpenFailed);
    }
    make_and_fill(conn)?;
    // Checks again: what the statements leave alone is known only of files whose first tables are ours.
    if is_ready(conn) {
        Ok(())
    } else {
        Err(Refusal::OpenFailed)
    }
}
