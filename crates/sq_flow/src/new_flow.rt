//! A flow that has released nothing yet.

ghost use Rattle.std.specs.Prelude.{IfOk};

use crate::flow::Flow;
use crate::plans::no_counts;
use crate::seats::Seat;
use crate::wires::Wires;
use sq_oper::Operator;
use sq_plan::Planner;
use sq_queue::Queues;
use sq_replay::Stream;
use sq_road::Levels;
use std::alloc::{AllocError, Global};

impl<O: Operator + Drop> Flow<O> {
    ghost use Rattle.sq_flow.specs.Starts.{AreNewParts, BeginsFlow};

    /// A flow that has released nothing yet.
    pub(crate) fn new(
        alloc: Global,
        wires: Wires,
        seats: Vec<Seat<O>>,
        sources: Vec<Stream>,
        ahead: Vec<Option<u64>>,
        planner: Planner,
        levels: Levels,
        frames: u32,
    ) -> Result<Flow<O>, AllocError>
        requires parts { AreNewParts O.Operator wires seats.items sources.items ahead.items levels frames }
        ensures { IfOk result (BeginsFlow O.Operator wires seats sources ahead.items planner levels frames) }
    {
        let arcs = wires.arcs.len() as u32;
        let queues = Queues::new(alloc, arcs, frames)?;
        let counts = no_counts(alloc, &sources)?;
        Ok(Flow {
            wires,
            seats,
            over: false,
            queues,
            sources,
            ahead,
            clock: 0,
            planner,
            levels,
            counts,
            taken: 0,
        })
    }
}
