//! Rates, loads and the planner.
//!
//! The contracts promise exactly the rates and loads of the definition, whatever the counts; that an epoch which is closed
//! gets the levels of the least row that fits its capacity, or of the last; and that epochs without tuples are skipped
//! however many they are, with the levels and the plans that the definition gives for every epoch. Below stand the drop
//! points of `sq_place` and the roads and levels of `sq_road`.
#![tactic(auto)]

mod capacities;
mod closing;
mod flows;
mod laws;
mod planner;

pub use capacities::Capacities;
pub use closing::{Shown, close_epochs};
pub use flows::{loads, rates};
pub use laws::sources_are_counted;
pub use planner::{Planned, Planner};
use sq_value::ListOf;

/// What a tuple costs at a box, and how many leave it.
#[derive(Drop)]
pub struct Toll {
    /// The cost of a tuple that the box takes.
    pub cost: u64,
    /// For each port, how many tuples leave it for a thousand that the box takes.
    pub selectivity: ListOf<u64>,
}
