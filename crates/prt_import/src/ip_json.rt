//! What `ip -j` prints of rules and routes, as the lines that `ip` prints without `-j`.

mod cut;
mod fault;
mod line;
mod listing;
mod member;
mod naming;
mod reading;
mod words;

pub use fault::ListingError;
pub use listing::{is_json, listing_of};
