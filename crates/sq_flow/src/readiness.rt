//! Which actors are ready, and how many items wait for them.

ghost use Rattle.std.specs.Prelude.{◌≡◌, ◌-◌, ◌^◌, ◌≤◌, ◌<◌, map, min, sum, ℕ, Some, length, slice_get, slice_index};
ghost use Rattle.std.specs.List.{list_all};
ghost use Rattle.sq_queue.specs.Faces.{face, size};
ghost use Rattle.sq_flow.specs.Readiness.{stands};

use crate::clearing::is_clear;
use crate::flow::Flow;
use sq_oper::Operator;
use sq_queue::{ArcQueues, Head, Queues};

fn stands_at(queues: &Queues, arc: u32) -> bool
    requires { arc < size queues.now }
    ensures { result ≡ stands (face queues.now arc) }
{
    match queues.head(arc) {
        Head::Empty => false,
        Head::Time(_) => true,
        Head::Ended => true,
    }
}

fn all_stand(arcs: &Vec<u32>, queues: &Queues) -> bool
    requires { (port arc : ℕ) → slice_get arcs.now.items port ≡ Some arc → arc < size queues.now }
    ensures { result ≡ list_all (λ arc. stands (face queues.now arc)) arcs.now.items }
{
    for port in 0..arcs.len() {
        if !stands_at(queues, arcs[port]) {
            return false;
        }
    }
    true
}

/// How many items stand on these arcs, as far as a u64 counts.
fn count_waiting(arcs: &Vec<u32>, queues: &Queues) -> u64
    requires { (port arc : ℕ) → slice_get arcs.now.items port ≡ Some arc → arc < size queues.now }
    ensures { result ≡ min (2 ^ 64 - 1) (sum (map (λ arc. (face queues.now arc).count) arcs.now.items)) }
{
    let mut count: u64 = 0;
    for port in 0..arcs.len() {
        count = count.saturating_add(queues.len(arcs[port]));
    }
    count
}

impl<O: Operator + Drop> Flow<O> {
    ghost use Rattle.sq_flow.specs.Readiness.{HasActor, is_ready, waiting};
    ghost use Rattle.sq_flow.specs.Engines.{readers_of};

    /// The actor at a seat is ready.
    pub(crate) fn is_ready(&self, seat: u32) -> bool
        requires actor { HasActor O.Operator self.now seat }
        ensures { result ≡ is_ready self.now seat }
    {
        if self.is_done(seat) {
            return false;
        }
        if seat == self.wires.replay {
            return is_clear(&self.sources, &self.ahead);
        }
        all_stand(self.wires.arcs_of(seat), &self.queues)
    }

    /// How many items wait for the actor at a seat.
    pub(crate) fn waiting(&self, seat: u32) -> u64
        requires actor { HasActor O.Operator self.now seat }
        ensures { result ≡ waiting self.now seat }
    {
        if seat == self.wires.replay {
            return 0;
        }
        count_waiting(self.wires.arcs_of(seat), &self.queues)
    }

    /// How many operators read from the actor at a seat.
    pub(crate) fn count_readers(&self, seat: u32) -> usize
        requires actor { HasActor O.Operator self.now seat }
        ensures { result ≡ length (readers_of self.now seat) }
    {
        self.wires.followers[seat as usize].len()
    }

    /// One of the operators that read from the actor at a seat, by its number.
    pub(crate) fn reader(&self, seat: u32, index: usize) -> u32
        requires actor { HasActor O.Operator self.now seat }
        requires within { index < length (readers_of self.now seat) }
        ensures reader { result ≡ slice_index (readers_of self.now seat) index }
        ensures low { result ≤ length self.now.seats.items }
    {
        self.wires.followers[seat as usize][index] + 1
    }
}
