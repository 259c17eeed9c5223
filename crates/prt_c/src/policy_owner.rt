use prt_fib::PolicyFib;
use std::sync::Arc;

/// An owner of a policy table.
#[derive(Drop)]
pub struct PolicyOwner {
    pub policy: Arc<PolicyFib>,
}
