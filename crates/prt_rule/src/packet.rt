use crate::{Addr, Dev};

/// What rules look at of a packet.
#[derive(Clone, Copy, PartialEq)]
pub struct Packet {
    /// The destination.
    pub dst: Addr,
    /// The source; 0.0.0.0 if none is named.
    pub src: Addr,
    /// The interface that it came in by; `lo` if none is named.
    pub iif: Dev,
    /// The firewall mark; 0 if none is named.
    pub mark: u32,
}
