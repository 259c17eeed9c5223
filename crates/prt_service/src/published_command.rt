//! Commands that were published, as they are reported to followers.
ghost use Rattle.std.specs.Prelude.{◌≡◌, ◌-◌, ◌<◌, length, take};
ghost use Rattle.prt_service.specs.Service.{EndsWith};

use crate::ServiceBrand;
use prt_command::Command;
use prt_published::Told;
use prt_publisher::Receipt;
use std::marker::{Model, PhantomData};

/// A command that was published on the named front, and its number. Contracts see it as the published list that ends with
/// it.
#[derive(Drop)]
pub(crate) struct PublishedCommand<J: ServiceBrand> {
    pub(crate) number: u64,
    pub(crate) command: Command,
    /// How many commands were made together, if it is the first of them; 0 otherwise.
    pub(crate) together: u64,
    pub(crate) told: Told,
    pub(crate) of: PhantomData<J>,
}

impl<J: ServiceBrand> Model for PublishedCommand<J> {
    ghost use Rattle.std.specs.Prelude.{◌≡◌, ◌+◌, length};
    ghost use Rattle.prt_published.specs.Line.{Line, line_state};
    ghost use Rattle.prt_service.specs.Service.{EndsWith};

    ghost Value = { Line };

    ghost view = { λ change. change.told };

    ghost invariant = { λ change. (change.told.book ≡ J.book) × (change.told.base ≡ J.base) × EndsWith change.told.list change.command
        × (change.number ≡ change.told.base.count + length change.told.list) × (change.number ≡ (line_state change.told).count) };
}

/// Reports the same list once more.
fn same(told: &Told) -> Told
    ensures { result ≡ told.now }
{
    told.without_last(0)
}

impl<J: ServiceBrand> PublishedCommand<J> {
    /// Reports the command that was accepted `later` commands before the last of a receipt, and how many it begins.
    pub(crate) fn new(
        last: &Receipt,
        later: u64,
        command: &Command,
        together: u64,
    ) -> PublishedCommand<J>
        requires of { (last.now.book ≡ J.book) × (last.now.base ≡ J.base) }
        requires earlier { later < length last.now.list }
        requires ends { EndsWith (take (length last.now.list - later) last.now.list) command.now }
        ensures { result ≡ record last.now { list = take (length last.now.list - later) last.now.list } }
    {
        let receipt = last.of_earlier(later);
        PublishedCommand {
            number: receipt.number(),
            command: *command,
            together,
            told: same(receipt.told()),
            of: PhantomData,
        }
    }

    /// Reports it once more.
    pub(crate) fn again(&self) -> PublishedCommand<J>
        ensures { result ≡ self.now }
    {
        PublishedCommand {
            number: self.number,
            command: self.command,
            together: self.together,
            told: same(&self.told),
            of: PhantomData,
        }
    }
}
