//! Two ends and a net that has every packet ever sent, driven by any script; and what is promised of what their users see.
#![tactic(auto)]

ghost use Rattle.simulation.specs.Shows.{Runs};

mod carry;
pub mod command;
pub mod half;
mod moves;
mod obey;
pub mod pair;
mod see;
mod steps;

use pair::Pair;

/// A pair that stands for a run of the model, always.
#[derive(Drop)]
pub struct Simulation<'m> {
    pair: Pair<'m>,
    ghost runs: { ∥ Runs pair ∥₁ },
}
