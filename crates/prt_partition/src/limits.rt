//! How far packets are divided.

/// The most boxes that packets are divided into.
pub const MOST_BOXES: usize = 100_000;
