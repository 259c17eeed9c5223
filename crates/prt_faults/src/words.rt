//! The readers of words and lines.

use prt_addr::{Addr, Prefix, read_addr, read_net, read_number, read_prefix};
use prt_command::read_line;
use prt_refusals::Refusal;
use prt_route::read_dev;

/// Checks whether this is the result of reading a word as an address.
fn reads_addr(word: &[u8], read: Result<Addr, Refusal>) -> bool {
    read_addr(word) == read
}

/// Checks whether this is the result of reading a word as a prefix.
fn reads_prefix(word: &[u8], read: Result<Prefix, Refusal>) -> bool {
    read_prefix(word) == read
}

/// Checks whether this is the result of reading a word as the prefix of a rule.
fn reads_net(word: &[u8], read: Result<Prefix, Refusal>) -> bool {
    read_net(word) == read
}

/// Checks whether this is the result of reading a word as a number.
fn reads_number(word: &[u8], read: Result<u32, Refusal>) -> bool {
    read_number(word) == read
}

/// Checks whether a word is refused for this reason as the name of an interface, or taken if there is none.
fn reads_dev(word: &[u8], refused: Option<Refusal>) -> bool {
    read_dev(word).err() == refused
}

/// Checks whether words are read as they are written, or refused for what is wrong with them.
pub(crate) fn are_read() -> bool {
    let block = Prefix::masked(0x0a00_0000, 8);
    reads_addr(b"10.1.2.3", Ok(Addr(0x0a01_0203)))
        && reads_addr(b"10.256", Err(Refusal::BadAddress))
        && reads_prefix(b"10/8", Ok(block))
        && reads_prefix(b"10.0.0.1/8", Err(Refusal::HostBits))
        && reads_net(b"10.0.0.1/8", Ok(block))
        && reads_number(b"0x1f", Ok(31))
        && reads_dev(b"eth0", None)
        && reads_dev(b"a/b", Some(Refusal::BadName))
}

/// Checks whether lines are read, and refused for their first fault.
pub(crate) fn are_lines_read() -> bool {
    read_line(b"route get 10.1.2.3 iif eth0 mark 1").is_ok()
        && read_line(b"rule add not from 10/8 fwmark 7/0xff priority 5 table 100").is_ok()
        && read_line(b"# nothing") == Ok(None)
        && read_line(b"link show").err() == Some(Refusal::UnknownObject)
        && read_line(b"route add 10/8").err() == Some(Refusal::NoNextHop)
}
