//! The drop points of a network, and the planner for them.
//!
//! The contracts promise exactly the drop points of the network's wiring and windows, or the first that breaks a limit,
//! and a planner for these points with the tolls of the boxes and with the losses of the outputs below each point; and the
//! first of these points below which an output, a box or an arc lies. Below stand the typed network of `sq_net`, the drop points
//! of `sq_place` and the planner of `sq_plan`.
#![tactic(auto)]

mod above;
mod planner;
mod points;

pub use above::{above_arc, above_box, above_output, distance_below};
pub use planner::network_planner;
pub use points::{network_points, points_in};
