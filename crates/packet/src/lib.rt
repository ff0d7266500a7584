//! Packets as the code has them, and the settings that both ends agree on.
#![tactic(auto)]

pub mod packet;
pub mod settings;
