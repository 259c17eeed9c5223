//! Acknowledgements.
ghost use Rattle.std.specs.Prelude.{◌≡◌, ◌+◌, ◌-◌, ◌<◌, length, take};
ghost use Rattle.prt_published.specs.Line.{line_state};

use prt_published::Told;
use std::marker::Model;

/// Says that a command, or commands together, were committed, published and noted. A publisher alone makes one; of it those
/// of earlier commands can be made. Contracts see it as the published list that ends with them.
#[derive(Drop)]
pub struct Receipt {
    number: u64,
    told: Told,
}

impl Model for Receipt {
    ghost use Rattle.std.specs.Prelude.{◌≡◌, ◌+◌, length};
    ghost use Rattle.prt_published.specs.Line.{Line, line_state};

    ghost Value = { Line };

    ghost view = { λ receipt. receipt.told };

    ghost invariant = { λ receipt. (receipt.number ≡ receipt.told.base.count + length receipt.told.list) × (receipt.number ≡ (line_state receipt.told).count) };
}

impl Receipt {
    /// Makes a receipt for the last command of a list, which had this number.
    pub(crate) fn new(number: u64, told: Told) -> Receipt
        requires { (number ≡ told.base.count + length told.list) × (number ≡ (line_state told).count) }
        ensures { result ≡ told }
    {
        Receipt { number, told }
    }

    /// Returns the number of commands that had been accepted with this one, from 1 to 10^15.
    pub fn number(&self) -> u64
        ensures value { result ≡ self.now.base.count + length self.now.list }
        ensures count { result ≡ (line_state self.now).count }
    {
        self.number
    }

    /// Builds the receipt of the command that was accepted so many commands earlier.
    pub fn of_earlier(&self, count: u64) -> Receipt
        requires { count < length self.now.list }
        ensures { result ≡ record self.now { list = take (length self.now.list - count) self.now.list } }
    {
        let told = self.told.without_last(count);
        Receipt::new(self.number - count, told)
    }

    /// Returns the list that ends with the command.
    pub fn told(&self) -> &Told
        ensures { result.now ≡ self.now }
    {
        &self.told
    }
}
