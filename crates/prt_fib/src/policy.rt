//! Compiled tables for all packets.
ghost use Rattle.std.specs.Prelude.{◌≡◌, ◌⊎◌, ℕ, Err, IfErr, IfOk, None, OnOk, false, map};
ghost use Rattle.prt_partition.specs.Classes.{IsPacket};
ghost use Rattle.prt_partition.specs.Sameness.{outcome_of};
ghost use Rattle.prt_version.specs.Change.{apply, check, put, refusal};
ghost use Rattle.prt_version.specs.Select.{select};
ghost use Rattle.prt_version.specs.State.{State};
ghost use Rattle.prt_fib.specs.Fib.{outcome_to};
ghost use Rattle.prt_fib.specs.Policy.{AreFollowed, AreNumberedOff, AreTablesOf, IsUnfit};

use crate::class_tree::{Class, ClassTree, class_of, tree_of};
use crate::table::Fib;
use prt_partition::{Outcome, joined_classes};
use prt_refusals::Refusal;
use prt_rule::{Packet, Rule};
use prt_version::{Change, Command, Version};
use std::alloc::{AllocError, Global};
use std::marker::Model;
use std::sync::Arc;

/// The most classes of packets that there are compiled tables for.
pub const MOST_CLASSES: usize = 64;

/// What becomes of every packet in one version: a compiled table for each class of packets that all rules take alike, and
/// the class of each source, interface and mark.
///
/// It stays right for that version whatever is made of it later.
#[derive(Drop)]
pub struct PolicyFib {
    version: Version,
    /// The table of each class.
    tables: Vec<Fib>,
    /// Which class a packet is of.
    tree: Arc<ClassTree>,
}

impl Model for PolicyFib {
    ghost use Rattle.std.specs.Arc.{arc_value};
    ghost use Rattle.prt_version.specs.State.{State};
    ghost use Rattle.prt_fib.specs.Policy.{IsWhole};

    ghost Value = { State };

    ghost view = { λ all. all.version };

    ghost invariant = { λ all. IsWhole all.version all.tables.items (arc_value all.tree) };
}

/// Numbers the classes, from 0 on.
fn numbered_off(alloc: Global, packets: &[Packet]) -> Result<Vec<Class>, AllocError>
    ensures { IfOk result (λ classes. AreNumberedOff packets.now classes.items) }
{
    let mut classes = Vec::with_capacity(alloc, packets.len())?;
    for (number, packet) in packets.iter().enumerate() {
        classes.push(Class {
            number,
            packet: *packet,
        })?;
    }
    Ok(classes)
}

/// Compiles the table of each of these packets.
fn tables_of(alloc: Global, version: &Version, packets: &[Packet]) -> Result<Vec<Fib>, Refusal>
    ensures value { IfOk result (λ tables. AreTablesOf version.now packets.now tables.items) }
    ensures reason { IfErr result (IsUnfit version.now) }
{
    let mut tables = Vec::with_capacity(alloc, packets.len())?;
    for packet in packets {
        tables.push(Fib::new(alloc, version, packet)?)?;
    }
    Ok(tables)
}

/// Makes each table follow a change.
fn tables_after(
    alloc: Global,
    tables: &[Fib],
    next: &Version,
    change: &Change,
) -> Result<Vec<Fib>, Refusal>
    requires { AreFollowed next.now change.now tables.now }
    ensures value { IfOk result (λ after. AreTablesOf next.now (map (λ table. table.packet) tables.now) after.items) }
    ensures reason { IfErr result (IsUnfit next.now) }
{
    let mut after = Vec::with_capacity(alloc, tables.len())?;
    for table in tables {
        after.push(table.after(alloc, next, change)?)?;
    }
    Ok(after)
}

/// Checks whether the change can change the rules.
fn changes_rules(change: Change) -> bool
    ensures { result ≡ false → (state : State) → (put state change).rules ≡ state.rules }
{
    match change {
        Change::Route(_) | Change::RouteAdd(_) => false,
        Change::RulePut(_) | Change::RuleDrop(_) | Change::RuleFlush => true,
    }
}

/// Returns the packet. Its numbers have 32 bits.
fn bounded(packet: Packet) -> Packet
    ensures value { result ≡ packet }
    ensures fits { IsPacket result }
{
    packet
}

impl PolicyFib {
    /// Compiles what becomes of every packet in the version.
    ///
    /// Each class of packets has a table. All of them together take at most so many times the memory of one.
    ///
    /// # Errors
    ///
    /// `Full` if the rules divide packets into more than [`MOST_CLASSES`] classes, or into more than
    /// [`MOST_BOXES`](prt_partition::MOST_BOXES) boxes on the way, or if a class has more than 65,536 different outcomes.
    /// `NoMemory` may come before that. The version is as it was.
    pub fn new(alloc: Global, version: &Version) -> Result<PolicyFib, Refusal>
        ensures state { IfOk result (λ all. all ≡ version.now) }
        ensures reason { IfErr result (IsUnfit version.now) }
    {
        // The version's contract says how many rules there are at most.
        let _number = version.number();
        let packets = joined_classes(alloc, version.rules())?;
        if packets.len() > MOST_CLASSES {
            return Err(Refusal::Full);
        }
        let classes = numbered_off(alloc, &packets)?;
        let tree = tree_of(alloc, version.rules(), &classes)?;
        let tables = tables_of(alloc, version, &packets)?;
        Ok(PolicyFib {
            version: version.share()?,
            tables,
            tree: Arc::new(alloc, tree)?,
        })
    }

    /// Compiles what becomes of every packet in the version after a change, as `new` does. This one stays as it is.
    ///
    /// Each table follows a change of routes as [`Fib::after`] does. All is made from nothing if the rules change.
    ///
    /// # Errors
    ///
    /// As of `new`.
    pub fn after(
        &self,
        alloc: Global,
        next: &Version,
        change: &Change,
    ) -> Result<PolicyFib, Refusal>
        requires { next.now ≡ put self.now change.now }
        ensures state { IfOk result (λ all. all ≡ next.now) }
        ensures reason { IfErr result (IsUnfit next.now) }
    {
        if changes_rules(*change) {
            return PolicyFib::new(alloc, next);
        }
        Ok(PolicyFib {
            version: next.share()?,
            tables: tables_after(alloc, &self.tables, next, change)?,
            tree: Arc::try_clone(&self.tree)?,
        })
    }

    /// Compiles what becomes of every packet after a command. This one stays as it is, after an error too.
    ///
    /// # Errors
    ///
    /// What `Version::check` refuses the command for. Otherwise as of `new`.
    pub fn follow(&self, alloc: Global, command: &Command) -> Result<PolicyFib, Refusal>
        ensures state { IfOk result (λ all. all ≡ apply self.now command.now) }
        ensures allowed { OnOk result (refusal self.now command.now ≡ None) }
        ensures reason { IfErr result (λ reason. (check self.now command.now ≡ Err reason) ⊎ IsUnfit (apply self.now command.now) reason) }
    {
        let change = match self.version.check(command) {
            Ok(change) => change,
            Err(reason) => return Err(reason),
        };
        let next = self.version.next(&change)?;
        self.after(alloc, &next, &change)
    }

    /// Returns the table of the packet's class. It takes no memory and waits for nothing.
    pub fn table(&self, packet: &Packet) -> &Fib
        ensures state { result.now.state ≡ self.now }
        ensures alike { (addr : ℕ) → outcome_to self.now result.now.packet addr ≡ outcome_to self.now packet.now addr }
    {
        let copy = bounded(*packet);
        &self.tables[class_of(&self.tree, &copy)]
    }

    /// Finds what becomes of the packet. It takes no memory and waits for nothing.
    pub fn find(&self, packet: &Packet) -> &Outcome
        ensures { result.now ≡ outcome_of (select self.now packet.now) }
    {
        self.table(packet).find(packet.dst)
    }

    /// Returns the version.
    pub fn version(&self) -> &Version
        ensures { result.now ≡ self.now }
    {
        &self.version
    }
}
