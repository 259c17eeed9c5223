//! What a call returns: 0, the number of a refusal, or one of these.

/// The call did what it says.
pub const DONE: u32 = 0;

/// The holder that the call needs holds nothing. No refusal has this number.
pub const EMPTY: u32 = 100;
