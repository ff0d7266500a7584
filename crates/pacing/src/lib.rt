//! Which text a connection sends next, and what it does at a tick.
#![tactic(auto)]

pub mod clock;
pub mod next;
pub mod numbers;
pub mod paced;
pub mod promises;
pub mod tick;
