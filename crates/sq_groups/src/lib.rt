//! Values by group, in memory.
//!
//! A value is found by a hash of its group, whatever their number; contracts see the values in the order of groups, as those
//! of an ordered map. A caller that wants them in that order has them sorted, unless the map stands in it already: it is put
//! into it when groups are let go, and stands in it until another one comes. Below stand the groups.
#![tactic(auto)]

mod key;
mod map;
mod picked;

pub use key::Key;
pub use map::GroupMap;
pub use picked::Picked;
