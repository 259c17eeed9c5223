/// Why a version has no dump.
#[derive(Clone, Copy, Debug, PartialEq, Eq)]
pub enum DumpError {
    /// No line can express the rule at this place of the listing, from 0 on.
    Rule(usize),
    /// No line can express the route at this place of the listing of all tables, from 0 on.
    Route(usize),
    /// Memory was refused.
    NoMemory,
}
