//! The calls of a looker, with what they are in the world.
ghost use Rattle.std.specs.Prelude.{◌≡◌, IfOk, IsSome, OnErr, OnOk};
ghost use Rattle.prt_laws.specs.Seated.{IsMade, Learns, Looks, Refreshes, RefreshesNot, Rests};

use prt_publisher::Receipt;
use prt_service::{Looker, Service, ServiceBrand};
use prt_version::{Answer, Packet, Refusal};
use sqlite::Alter;
use std::sync::Wait;

/// Makes a looker, offline.
///
/// # Errors
///
/// `Full`.
pub fn looker<S: Alter + Drop, J: ServiceBrand, H: Wait>(
    rt: &H,
    service: &Service<S, J>,
) -> Result<Looker, Refusal>
    ensures { IfOk result IsMade }
{
    match service.looker(rt) {
        Ok(looker) => Ok(looker),
        Err(reason) => Err(reason),
    }
}

/// Learns the list of a receipt: no event.
pub fn learn(looker: &mut Looker, receipt: Receipt)
    requires { receipt.book ≡ looker.old.known.book }
    ensures { Learns looker.old looker.new }
{
    looker.learn(receipt);
}

/// Takes the published version in place of the one that the looker holds, and announces its number.
///
/// # Errors
///
/// `NotFetched`: the looker is as it was.
pub fn refresh<S: Alter + Drop, J: ServiceBrand, H: Wait>(
    looker: &mut Looker,
    rt: &H,
    service: &Service<S, J>,
) -> Result<(), Refusal>
    requires { (looker.old.known.book ≡ J.book) × (looker.old.known.base ≡ J.base) }
    ensures ok { OnOk result (Refreshes looker.old looker.new) }
    ensures err { OnErr result (RefreshesNot looker.old looker.new) }
{
    match looker.refresh(rt, service) {
        Ok(()) => Ok(()),
        Err(reason) => Err(reason),
    }
}

/// Releases its version, and takes the looker offline.
pub fn rest<S: Alter + Drop, J: ServiceBrand, H: Wait>(
    looker: &mut Looker,
    rt: &H,
    service: &Service<S, J>,
)
    requires { (looker.old.known.book ≡ J.book) × (looker.old.known.base ≡ J.base) }
    ensures { Rests looker.old looker.new }
{
    looker.rest(rt, service);
}

/// Looks a packet up in the version that the looker holds.
pub fn look(looker: &Looker, packet: &Packet) -> Answer
    requires { IsSome looker.now.held }
    ensures { Looks looker.now packet.now result }
{
    looker.look(packet)
}
