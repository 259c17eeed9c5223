ghost use Rattle.std.specs.Prelude.{◌≡◌, ◌==◌, Err, IfErr, Ok, OnOk, codes, position};
ghost use Rattle.prt_c.specs.Packet.{interface_of, name_in, packet_by};

use prt_route::{Addr, Dev, Refusal, read_dev};
use prt_rule::Packet;

/// The bytes of an interface's name, with at least one zero after it.
pub const NAME_BYTES: usize = 16;

/// What rules look at of a packet, as C describes it.
///
/// An address is a number whose highest byte is the first of the four dotted parts.
#[repr(C)]
#[derive(Clone, Copy)]
pub struct PacketC {
    /// The source; 0 if none is named.
    pub source: u32,
    /// The destination.
    pub destination: u32,
    /// The firewall mark; 0 if none is named.
    pub mark: u32,
    /// The name of the interface that it came in by, with a zero after it; all zeros for `lo`.
    pub interface: [u8; NAME_BYTES],
}

/// Finds the first zero.
fn first_zero(bytes: &[u8]) -> Option<usize>
    ensures { result ≡ position (λ b. b == 0) bytes.now }
{
    bytes.iter().position(|byte| *byte == 0)
}

/// Returns the bytes before the first zero.
fn name_in(bytes: &[u8]) -> &[u8]
    ensures { result.now ≡ name_in bytes.now }
{
    match first_zero(bytes) {
        Some(len) => &bytes[..len],
        None => bytes,
    }
}

/// Makes the packet that C describes, with this interface.
pub(crate) fn packet_by(packet: &PacketC, iif: Dev) -> Packet
    ensures { result ≡ packet_by packet.now iif }
{
    Packet {
        dst: Addr(packet.destination),
        src: Addr(packet.source),
        iif,
        mark: packet.mark,
    }
}

/// Reads the name of an interface over `lo`, which stays if none is there.
///
/// # Errors
///
/// `BadName` if the bytes before the first zero are no such name.
// In place: a copy of what is read would wait until the name is written.
pub(crate) fn read_interface(bytes: &[u8], iif: &mut Dev) -> Result<(), Refusal>
    requires { iif.old ≡ codes "lo" }
    ensures read { OnOk result (interface_of bytes.now ≡ Ok iif.new) }
    ensures refused { IfErr result (λ reason. interface_of bytes.now ≡ Err reason) }
{
    let name = name_in(bytes);
    if name.is_empty() {
        return Ok(());
    }
    *iif = read_dev(name)?;
    Ok(())
}
