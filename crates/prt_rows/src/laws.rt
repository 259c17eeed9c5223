//! Laws of the rows, which no program calls.

ghost use Rattle.std.specs.Prelude.{◌≡◌, ◌==◌, ℕ, [], not};
ghost use Rattle.sqlite_value.specs.declared.value.Value.{Value};
ghost use Rattle.prt_addr.specs.Sound.{IsPrefix};
ghost use Rattle.prt_route.specs.Route.{is_same_key, key_of};
ghost use Rattle.prt_route.specs.RouteChoice.{is_selected};
ghost use Rattle.prt_route.specs.declared.choice.Selector.{Selector};
ghost use Rattle.prt_route.specs.declared.route.Route.{Route};
ghost use Rattle.prt_route.specs.declared.route.RouteKey.{RouteKey};
ghost use Rattle.prt_rule.specs.declared.rule.Rule.{Rule};
ghost use Rattle.prt_rows.specs.Changing.{AddsLength, AddsRoute, AddsRule, DeletesRows, DeletesTheRules, PutsRoute, SetsCount, SetsFormat};
ghost use Rattle.prt_rows.specs.Decodes.{ReadsBack};
ghost use Rattle.prt_rows.specs.Effects.{passes};
ghost use Rattle.prt_rows.specs.Kept.{id_values, kept_route, kept_rule, key_values};
ghost use Rattle.prt_rows.specs.Meanings.{has_id, has_key, has_priority, is_flushed};
ghost use Rattle.prt_rows.specs.MetaRow.{IsCount, meta_rows};
ghost use Rattle.prt_rows.specs.RouteRow.{IsInRange, route_row};
ghost use Rattle.prt_rows.specs.RuleRow.{IsRule, rule_row};
ghost use Rattle.prt_rows.specs.Selecting.{IsSelector, selector_row};
ghost use Rattle.prt_rows.specs.Statements.{delete_route, delete_rule, flush_routes, flush_rules, insert_route, insert_rule, insert_suppress};
ghost use Rattle.prt_rows.specs.Statements.{migrate, put_route, set_count};
ghost use Rattle.prt_rows.specs.SuppressRow.{IsLength, suppress_row};
ghost use Rattle.prt_rows.specs.Tables.{route_table};

use sqlite::Alter;

/// The row that is written for a value is read back as that value.
pub fn rows_read_back()
    ensures route { ReadsBack route_row IsInRange }
    ensures rule { (last : ℕ) → ReadsBack rule_row (IsRule last) }
    ensures count { ReadsBack meta_rows IsCount }
    ensures length { (last : ℕ) → ReadsBack suppress_row (IsLength last) }
{}

/// The rows that the statement deletes by a selector are those of the routes that the selector takes (`ip-route(8)`).
pub fn rows_selected()
    ensures { (rowid : Value) (route : Route) (selector : Selector) → IsPrefix route.prefix → IsSelector selector
        → passes is_flushed (selector_row selector) (kept_route rowid route) ≡ is_selected selector route }
{}

/// The rows that the statements name by a key, an id or the priority 0 are those of the route or the rules that have it.
pub fn rows_named()
    ensures key { (rowid : Value) (route : Route) (key : RouteKey) → passes has_key (key_values key) (kept_route rowid route) ≡ is_same_key (key_of route) key }
    ensures id { (rule : Rule) (id : ℕ) → passes has_id (id_values id) (kept_rule rule) ≡ (rule.id == id) }
    ensures priority { (rule : Rule) → passes has_priority [] (kept_rule rule) ≡ not (rule.priority == 0) }
{}

/// What each statement that writes does to the rows of a file whose first tables are those of format 2.
pub fn statements_write<S: Alter>()
    ensures delete_route { DeletesRows S.Store delete_route route_table has_key }
    ensures flush_routes { DeletesRows S.Store flush_routes route_table is_flushed }
    ensures delete_rule { DeletesTheRules S.Store delete_rule has_id }
    ensures flush_rules { DeletesTheRules S.Store flush_rules has_priority }
    ensures insert_route { AddsRoute S.Store insert_route }
    ensures put_route { PutsRoute S.Store put_route }
    ensures insert_rule { AddsRule S.Store insert_rule }
    ensures insert_suppress { AddsLength S.Store insert_suppress }
    ensures set_count { SetsCount S.Store set_count }
    ensures migrate { SetsFormat S.Store migrate }
{}
