use prt_fib::Fib;
use std::sync::Arc;

/// An owner of a compiled table.
#[derive(Drop)]
pub struct FibOwner {
    pub fib: Arc<Fib>,
}
