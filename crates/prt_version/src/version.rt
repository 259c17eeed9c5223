ghost use Rattle.std.specs.Prelude.{◌≡◌, ◌≤◌, ◌⊎◌, IfErr, IfOk, None, OnOk, length};
ghost use Rattle.std.specs.Arc.{arc_value};
ghost use Rattle.prt_refusals.specs.declared.refusal.Refusal.TheVariants.{Damaged, NoMemory};
ghost use Rattle.prt_route.specs.Edit.{after_edit};
ghost use Rattle.prt_rule.specs.Sound.{IsInOrder};
ghost use Rattle.prt_version.specs.Accepted.{IsAccepted, IsRefusedFor, changes_of};
ghost use Rattle.prt_version.specs.Change.{IsChecked, check, fold, put, rule_of};
ghost use Rattle.prt_version.specs.Found.{verdict_in};
ghost use Rattle.prt_version.specs.Listing.{listing};
ghost use Rattle.prt_version.specs.RowsSpell.{RowsSpell, RowsSpellNone};
ghost use Rattle.prt_version.specs.Select.{select};
ghost use Rattle.prt_version.specs.Sound.{IsSound};
ghost use Rattle.prt_version.specs.State.{opening_rules, opening_state, table_rule};
ghost use Rattle.prt_version.specs.declared.limits.TheConstants.{MOST_ROUTES};

use crate::checks::change_of;
use crate::from_rows::{ordered_routes, ordered_rules};
use crate::owners::first_owner;
use crate::rule_edits::{flushed_rules, with_rule, without_rule};
use crate::rules::Rules;
use crate::several::make_all;
use crate::tables::Tables;
use crate::tried::Tried;
use crate::{
    Action, Answer, Change, Command, Found, MOST_COMMANDS, NewRule, Packet, Refusal, Route, Rule,
};
use prt_route::{DEFAULT_TABLE, LOCAL_TABLE, MAIN_TABLE, Prefix, RouteEdit, Selector};
use prt_rule::auto_priority;
use std::alloc::{AllocError, Global};
use std::marker::Model;
use std::sync::Arc;

/// A version of the policy database, which never changes: a command makes a new one.
#[derive(Drop)]
pub struct Version {
    count: u64,
    rules: Arc<Rules>,
    routes: Arc<Tables>,
    tried: Tried,
}

impl Model for Version {
    ghost use Rattle.std.specs.Arc.{arc_value};
    ghost use Rattle.prt_version.specs.State.{State};
    ghost use Rattle.prt_version.specs.Sound.{IsSound};
    ghost use Rattle.prt_version.specs.Tried.{AreTried};

    ghost Value = { State };

    ghost view = { λ v. record { count = v.count; rules = arc_value v.rules; routes = arc_value v.routes } };

    ghost invariant = { λ v. IsSound (record { count = v.count; rules = arc_value v.rules; routes = arc_value v.routes })
        × AreTried (arc_value v.rules) (arc_value v.routes) v.tried };
}

/// Makes a rule that looks up a table for every packet, as the three of a new database do (`ip-rule(8)`).
fn table_rule(id: u64, priority: u32, table: u32) -> Rule
    ensures { result ≡ table_rule id priority table }
{
    Rule {
        id,
        priority,
        inverted: false,
        from: Prefix::masked(0, 0),
        to: Prefix::masked(0, 0),
        iif: None,
        mark: None,
        action: Action::Lookup(table),
        suppress: None,
    }
}

/// Returns the three rules of a new database: they look up local, then main, then default (`ip-rule(8)`).
pub fn opening_rules() -> [Rule; 3]
    ensures { result ≡ opening_rules }
{
    [
        table_rule(1, 0, LOCAL_TABLE),
        table_rule(2, 32766, MAIN_TABLE),
        table_rule(3, 32767, DEFAULT_TABLE),
    ]
}

impl Version {
    /// Makes the version of these, and finds which rules are tried.
    fn of(count: u64, rules: Arc<Rules>, routes: Arc<Tables>) -> Version
        requires { IsSound (record { count = count; rules = arc_value rules; routes = arc_value routes }) }
        ensures { result ≡ record { count = count; rules = arc_value rules; routes = arc_value routes } }
    {
        let tried = rules.tried(&routes);
        Version {
            count,
            rules,
            routes,
            tried,
        }
    }

    /// Makes the version of a new database: no routes, and the rules for local, main and default (`ip-rule(8)`).
    ///
    /// # Errors
    ///
    /// `NoMemory` alone.
    pub fn opening(alloc: Global) -> Result<Version, Refusal>
        ensures value { IfOk result (λ version. version ≡ opening_state) }
        ensures reason { IfErr result (λ reason. reason ≡ NoMemory) }
    {
        let opening = Vec::from_slice(alloc, &opening_rules())?;
        let rules = Rules::new(opening)?;
        Ok(Version::of(
            0,
            first_owner(alloc, rules)?,
            first_owner(alloc, Tables::new(alloc))?,
        ))
    }

    /// Makes the version that the rows of rules and of routes encode after this many commands. They come in any order.
    ///
    /// # Errors
    ///
    /// `Damaged` if they encode none: the number or the rows are more than a database has ([`MOST_COMMANDS`], [`MOST_RULES`],
    /// [`MOST_ROUTES`]), or two routes have one key. They also encode none if two rules have one id or are equal in all but the
    /// id. The same holds if an id is not 1 to the number + 3, or a table may not hold one of them. `NoMemory` may come before
    /// that.
    ///
    /// [`MOST_COMMANDS`]: crate::MOST_COMMANDS
    /// [`MOST_ROUTES`]: crate::MOST_ROUTES
    /// [`MOST_RULES`]: crate::MOST_RULES
    pub fn from_rows(
        alloc: Global,
        number: u64,
        rules: Vec<Rule>,
        routes: Vec<Route>,
    ) -> Result<Version, Refusal>
        ensures value { IfOk result (λ version. RowsSpell number rules.items routes.items version) }
        ensures reason { IfErr result (λ reason. ((reason ≡ Damaged) × RowsSpellNone number rules.items routes.items) ⊎ (reason ≡ NoMemory)) }
    {
        if number > MOST_COMMANDS {
            return Err(Refusal::Damaged);
        }
        let ordered = ordered_rules(number, rules)?;
        let rules = Rules::new(ordered)?;
        let routes = ordered_routes(routes)?;
        let tables = Tables::from_sorted(alloc, &routes)?;
        Ok(Version::of(
            number,
            first_owner(alloc, rules)?,
            first_owner(alloc, tables)?,
        ))
    }

    /// Returns the number of commands that were accepted up to this version. Its contract also says what holds of each
    /// version, which a store asks for before it commits a change.
    pub fn number(&self) -> u64
        ensures value { result ≡ self.now.count }
        ensures sound { IsSound self.now }
    {
        self.count
    }

    /// Returns the rules, in the order in which they are tried.
    pub fn rules(&self) -> &[Rule]
        ensures value { result.now ≡ self.now.rules }
        ensures order { IsInOrder result.now }
    {
        self.rules.as_slice()
    }

    /// Returns the rules with their owners: the versions that share them.
    pub fn shared_rules(&self) -> &Arc<Rules>
        ensures { arc_value result.now ≡ self.now.rules }
    {
        &self.rules
    }

    /// Returns the routes with their owners: the versions that share them.
    pub fn shared_routes(&self) -> &Arc<Tables>
        ensures { arc_value result.now ≡ self.now.routes }
    {
        &self.routes
    }

    /// Returns the routes, table by table.
    pub(crate) fn tables(&self) -> &Tables
        ensures { result.now ≡ self.now.routes }
    {
        &self.routes
    }

    /// Collects the routes that the selector takes, by table, address, length and metric (`ip-route(8)`, `show`).
    ///
    /// # Errors
    ///
    /// `NoMemory` alone.
    pub fn routes(&self, selector: &Selector) -> Result<Vec<Route>, Refusal>
        ensures value { IfOk result (λ rows. rows.items ≡ listing selector.now self.now.routes) }
        ensures reason { IfErr result (λ reason. reason ≡ NoMemory) }
    {
        let rows = self.routes.rows(selector)?;
        Ok(rows)
    }

    /// Makes the rule with its id, and the priority that is given or the automatic one.
    pub(crate) fn rule_of(&self, new: &NewRule) -> Rule
        ensures { result ≡ rule_of self.now new.now }
    {
        Rule {
            id: self.count + 4,
            priority: new.priority.unwrap_or(auto_priority(self.rules.as_slice())),
            inverted: new.inverted,
            from: new.from,
            to: new.to,
            iif: new.iif,
            mark: new.mark,
            action: new.action,
            suppress: new.suppress,
        }
    }

    /// Finds the change that the command makes of this version. It takes no memory.
    ///
    /// # Errors
    ///
    /// `Exists` if the key of a route to add, or a rule equal in all but the id to the one to add, is there. `NoSuch` if what
    /// is to be changed or removed is not (`ip-route(8)`, `ip-rule(8)`). Otherwise `Full` if a rule would be one more than
    /// [`MOST_RULES`], or a route one more than [`MOST_ROUTES`]. Otherwise `CountFull` after [`MOST_COMMANDS`] commands.
    ///
    /// [`MOST_ROUTES`]: crate::MOST_ROUTES
    /// [`MOST_RULES`]: crate::MOST_RULES
    pub fn check(&self, command: &Command) -> Result<Change, Refusal>
        ensures value { result ≡ check self.now command.now }
        ensures usable { IfOk result (λ change. IsChecked self.now change) }
    {
        match change_of(self, command) {
            Ok(change) if self.count < MOST_COMMANDS => Ok(change),
            Ok(_) => Err(Refusal::CountFull),
            Err(reason) => Err(reason),
        }
    }

    /// Makes the rules after a change.
    fn rules_after(&self, change: &Change) -> Result<Arc<Rules>, AllocError>
        ensures { IfOk result (λ rules. arc_value rules ≡ (put self.now change.now).rules) }
    {
        let alloc = *self.rules.allocator();
        let rules = self.rules.as_slice();
        let rules = match change {
            Change::Route(_) | Change::RouteAdd(_) => return Arc::try_clone(&self.rules),
            Change::RulePut(rule) => with_rule(alloc, rules, rule)?,
            Change::RuleDrop(id) => without_rule(alloc, rules, *id)?,
            Change::RuleFlush => flushed_rules(alloc, rules)?,
        };
        Ok(Arc::new(alloc, Rules::new(rules)?)?)
    }

    /// Makes the routes after an edit.
    fn routes_with(&self, edit: &RouteEdit) -> Result<Arc<Tables>, AllocError>
        requires { length (after_edit edit.now self.now.routes) ≤ MOST_ROUTES }
        ensures { IfOk result (λ routes. arc_value routes ≡ after_edit edit.now self.now.routes) }
    {
        let routes = self.routes.with_edit(edit)?;
        Ok(Arc::new(*self.rules.allocator(), routes)?)
    }

    /// Makes the routes after a change.
    fn routes_after(&self, change: &Change) -> Result<Arc<Tables>, AllocError>
        requires { IsChecked self.now change.now }
        ensures { IfOk result (λ routes. arc_value routes ≡ (put self.now change.now).routes) }
    {
        match change {
            Change::Route(edit) => self.routes_with(edit),
            Change::RouteAdd(route) => self.routes_with(&RouteEdit::Put(*route)),
            Change::RulePut(_) | Change::RuleDrop(_) | Change::RuleFlush => {
                Arc::try_clone(&self.routes)
            }
        }
    }

    /// Makes the version after a change that `check` returned for this one, which stays as it is.
    ///
    /// # Errors
    ///
    /// `NoMemory` alone.
    pub fn next(&self, change: &Change) -> Result<Version, Refusal>
        requires { IsChecked self.now change.now }
        ensures value { IfOk result (λ version. version ≡ put self.now change.now) }
        ensures reason { IfErr result (λ reason. reason ≡ NoMemory) }
    {
        Ok(Version::of(
            self.count + 1,
            self.rules_after(change)?,
            self.routes_after(change)?,
        ))
    }

    /// Makes another owner of the same rules and routes, without copying them.
    ///
    /// # Errors
    ///
    /// Memory is refused.
    pub fn share(&self) -> Result<Version, AllocError>
        ensures { IfOk result (λ version. version ≡ self.now) }
    {
        Ok(Version {
            count: self.count,
            rules: Arc::try_clone(&self.rules)?,
            routes: Arc::try_clone(&self.routes)?,
            tried: self.tried,
        })
    }

    /// Returns the changes that commands make of this version, which stays as it is, one after the other, and the version
    /// after them. At most two of the versions between are held at a time.
    ///
    /// # Errors
    ///
    /// What `check` refuses the first command for that it refuses, in the version after those before it. `NoMemory` may
    /// come before that.
    pub fn after_all(&self, commands: &[Command]) -> Result<(Vec<Change>, Version), Refusal>
        ensures changes { IfOk result (λ made. made.0.items ≡ changes_of self.now commands.now) }
        ensures version { IfOk result (λ made. made.1 ≡ fold self.now commands.now) }
        ensures accepted { OnOk result (IsAccepted self.now commands.now) }
        ensures reason { IfErr result (IsRefusedFor self.now commands.now) }
    {
        let mut changes = Vec::with_capacity(*self.rules.allocator(), commands.len())?;
        let last = make_all(self.share()?, commands, &mut changes)?;
        Ok((changes, last))
    }

    /// Finds what becomes of a packet, as [`Version::select`] does, and lends the route. It takes no memory.
    pub fn find(&self, packet: &Packet) -> Found<'_>
        ensures { verdict_in result ≡ select self.now packet.now }
    {
        self.rules.found(self.tried, &self.routes, packet)
    }

    /// Finds what becomes of a packet: what the first rule that decides says of it (`ip-rule(8)`). It takes no memory.
    pub fn select(&self, packet: &Packet) -> Answer
        ensures number { result.number ≡ self.now.count }
        ensures verdict { result.verdict ≡ select self.now packet.now }
    {
        Answer {
            number: self.count,
            verdict: self.find(packet).verdict(),
        }
    }
}
