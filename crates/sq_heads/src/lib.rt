//! What an operator of a run may do next, by what stands at the front of the queues that it reads.
//!
//! The contract of `next_of` is the exact answer, by the face of each arc: the operator waits where some arc has nothing yet,
//! it is finished where all have ended, and else it is fed the least of the first items, by time and then by port. So what
//! is fed is the merge of its arcs, and no schedule changes it. Below stand the queues and the order of heads.
#![tactic(auto)]

ghost use Rattle.std.specs.Prelude.{◌≡◌, ℕ, ◌+◌, ◌^◌, ◌<◌, Bool, List, Option, Some, length, slice_get};
ghost use Rattle.sq_paged.specs.Fronts.{head_by};
ghost use Rattle.sq_queue.specs.Faces.{face, size};
ghost use Rattle.sq_heads.specs.Heads.{NextUpTo};

use sq_queue::{ArcQueues, Head, Queues};

/// What an operator may do next: nothing yet, finish, or be fed from an arc.
#[derive(Clone, Copy, Drop)]
pub enum Next {
    Waits,
    Ended,
    Feed { time: u64, port: u32, arc: u32 },
}

/// What it may do by one more port.
fn look(head: Head, best: Next, port: u32, arc: u32) -> Next
    ensures { (arcs : List ℕ) (first : ℕ → Option ℕ) (ended : ℕ → Bool) → slice_get arcs port ≡ Some arc → head ≡ head_by (ended arc) (first arc)
        → NextUpTo arcs first ended port best → NextUpTo arcs first ended (port + 1) result }
{
    match head {
        Head::Ended => best,
        Head::Empty => Next::Waits,
        Head::Time(now) => match best {
            Next::Waits => Next::Waits,
            Next::Ended => Next::Feed {
                time: now,
                port,
                arc,
            },
            Next::Feed {
                time,
                port: _,
                arc: _,
            } => {
                if time <= now {
                    best
                } else {
                    Next::Feed {
                        time: now,
                        port,
                        arc,
                    }
                }
            }
        },
    }
}

/// What an operator may do next that reads these arcs, by port.
pub fn next_of(arcs: &[u32], queues: &Queues) -> Next
    requires arcs_in { (port arc : ℕ) → slice_get arcs.now port ≡ Some arc → arc < size queues.now }
    requires ports { length arcs.now < 2 ^ 32 }
    ensures { NextUpTo arcs.now (λ arc. (face queues.now arc).first) (λ arc. (face queues.now arc).ended) (length arcs.now) result }
{
    if arcs.len() == 1 {
        return look(queues.head(arcs[0]), Next::Ended, 0, arcs[0]);
    }
    let mut best = Next::Ended;
    for port in 0..arcs.len() {
        let arc = arcs[port];
        best = look(queues.head(arc), best, port as u32, arc);
    }
    best
}
