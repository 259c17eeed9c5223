//! What becomes of every packet at once: where answers can change, which packets are answered alike, and which ones a
//! change sends another way.
//!
//! An answer changes along destinations and sources only at cuts: where a prefix of a rule or a route begins, or just after
//! it ends. Between two cuts one packet answers for all. So finitely many packets answer for every packet that there is.
#![tactic(auto)]

mod class_list;
mod class_rules;
mod comparison;
mod cuts;
mod destinations;
mod differences;
mod differing;
mod division;
mod equivalence;
mod interfaces;
mod joining;
mod laws;
mod limits;
mod marks;
mod near_starts;
mod packet_box;
mod reach;
mod sameness;
mod touching;

pub use class_list::{classes, joined_classes};
pub use cuts::{sort_distinct, starts_of};
pub use destinations::{Span, spans};
pub use differences::{Difference, changes};
pub use differing::{Differing, is_same_everywhere, what_differs};
pub use division::boxes;
pub use equivalence::{find_change, rules_of_both};
pub use interfaces::{fresh_name, names_of};
pub use joining::takes_apart;
pub use laws::{
    alike_go_alike, boxes_go_alike, changes_at_destination_cuts, changes_at_source_cuts,
    depends_on_what_takes_it, ids_only_order, routes_touch_their_prefixes,
    rules_touch_what_they_match,
};
pub use limits::MOST_BOXES;
pub use marks::mark_blocks;
pub use packet_box::{Interfaces, PacketBox};
pub use sameness::{Outcome, Sameness, is_same_verdict, outcome_of};
