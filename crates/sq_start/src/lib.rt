//! The start of an engine: the boxes, the window drops and the outputs of a network as new actors, and what is left where
//! nothing was released.
//!
//! The contracts say of each new actor what it gives, decides and loses for all that it is fed in a replay of its network;
//! and that what is left of each stream, of each answer and record, and of each count is then what the replay says. Below
//! stand the actors, the law of early drop and the theory of what is left; the wires of an engine, and how it runs, stand
//! above.
#![tactic(auto)]

ghost use Rattle.sq_start.specs.Laws.{StartsAsReplayed};
ghost use Rattle.sq_start.specs.Arrivals.{FedMayCome, MarksAreTaken, TuplesAreTaken};

mod actors;
mod boxes;
mod drops;
mod told;

pub use actors::network_actors;
pub use boxes::box_actor;
pub use drops::{drop_actor, gate_actor};
use sq_below::early_drop_is_sound;

/// What comes on the arcs of a network may come to its actors: they take marks wherever marks come, and all tuples that are
/// as wide as a stream that they read.
pub fn arcs_may_come()
    ensures fed { FedMayCome }
    ensures marks { MarksAreTaken }
    ensures tuples { TuplesAreTaken }
{
    early_drop_is_sound();
}

/// What is left of a new engine is what the replay of its network says.
pub fn starts_as_replayed()
    ensures { StartsAsReplayed }
{
    early_drop_is_sound();
}
