//! Claims about packets: how they are read, and whether one holds of a version.
//!
//! A claim says what becomes of every packet of a selector. If it doesn't hold, there is a packet that breaks it.

mod breach;
mod checking;
mod claim;
mod draft;
mod examples;
mod reading;
mod selector;
mod text;
mod values;

pub use breach::find_breach;
pub use checking::{BadLine, Breach, Checked, check_claims, push_breach_line};
pub use claim::{Claim, Expected};
pub use examples::{bad_claims, good_claims};
pub use reading::{BadClaim, ClaimFault, bad_word, read_claim};
pub use selector::PacketSelector;
pub use text::push_breach;
