//! Time: measures of round trips and the waiting time, the moments of asks and yeses, and texts under way.
#![tactic(auto)]

pub mod flight;
pub mod measures;
pub mod opening;
pub mod promises;
