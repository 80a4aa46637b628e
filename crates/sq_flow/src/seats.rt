//! Operators in their seats.

ghost use Rattle.std.specs.Prelude.{◌≡◌, ◌+◌, true, None, is_some, OnOk, OnErr, IfErr, if◌then◌else◌};
ghost use Rattle.sq_pool.specs.Trust.{known};
ghost use Rattle.sq_flow.specs.Causes.{FailsOver, LogGrows};
ghost use Rattle.sq_flow.specs.Sends.{MayGive};
ghost use Rattle.sq_flow.specs.Feeds.{MayFeed, FeedsInto, FeedsPart, EndsInto, EndsPart};

use crate::errors::RunErr;
use crate::fed_items::FedItems;
use crate::noted::Noted;
use crate::queue_outlet::{QueueOutlet, fault_of};
use crate::wires::Wires;
use sq_item::Item;
use sq_oper::{Event, Operator, Tally};
use sq_outside::{PageDisk, Steps};
use sq_queue::Queues;
use sq_road::Levels;
use std::sync::ledger::Ledger;

/// An operator, with what the run keeps of what it was fed, and which items these were.
#[derive(Drop)]
pub struct Seat<O> {
    pub op: O,
    pub tally: Tally,
    pub fed: FedItems,
}

/// Feeds the operator at the seat of a number one item. What it gives goes on at once.
#[inline(always)]
pub(crate) fn feed_into<O: Operator, D: PageDisk, L: Ledger>(
    seat: &mut Seat<O>,
    levels: &Levels,
    port: u32,
    item: Item,
    wires: &Wires,
    queues: &mut Queues,
    disk: &mut D,
    number: u32,
    events: &mut Vec<Event>,
    steps: &mut Steps<L>,
    failed: &mut Option<RunErr>,
) -> Result<(), RunErr>
    requires fits { MayFeed O.Operator levels.now port item seat.old }
    requires gives { MayGive wires.now number queues.old (known (D.log disk.old)) failed.old }
    ensures fed { OnOk result (FeedsInto O.Operator levels.now port item wires.now number seat.old seat.new
        queues.old queues.new (known (D.log disk.old)) (known (D.log disk.new)) events.old.items events.new.items) }
    ensures whole { OnOk result (failed.new ≡ None) }
    ensures cost { OnOk result (steps.new ≡ steps.old + (if is_some item.body then 1 else 0)) }
    ensures part { OnErr result (FeedsPart O.Operator levels.now port item wires.now number seat.old events.old.items events.new.items) }
    ensures fails { IfErr result (FailsOver queues.new (D.log disk.old) (D.log disk.new) (D.faults disk.old) (D.faults disk.new)) }
    ensures disk { LogGrows (D.log disk.old) (D.log disk.new) (D.faults disk.old) (D.faults disk.new) }
    ensures no_cost { OnErr result (steps.new ≡ steps.old) }
{
    seat.tally.note(port, &item);
    seat.fed = seat.fed.with(port, &item);
    let given = FedItems::new();
    let noted = Noted::new();
    let mut outlet = QueueOutlet {
        wires,
        queues,
        disk,
        events,
        seat: number,
        failed,
        given,
        noted,
    };
    let done = seat.op.feed(levels, port, item, &mut outlet, steps);
    let QueueOutlet {
        wires: _,
        queues,
        disk,
        events,
        seat: _,
        failed,
        given: _,
        noted: _,
    } = outlet;
    // No effect at run time. The proof reads what the arguments hold from these uses.
    let _ = &*queues;
    let _ = &*disk;
    let _ = &*events;
    let _ = &*failed;
    match done {
        Ok(()) => Ok(()),
        Err(e) => Err(fault_of(failed.take(), e)),
    }
}

/// Finishes the operator at the seat of a number. What it gives goes on at once.
pub(crate) fn finish_into<O: Operator, D: PageDisk>(
    seat: &mut Seat<O>,
    wires: &Wires,
    queues: &mut Queues,
    disk: &mut D,
    number: u32,
    events: &mut Vec<Event>,
    failed: &mut Option<RunErr>,
) -> Result<(), RunErr>
    requires is_valid { O.valid seat.old.op × (O.running seat.old.op ≡ true) }
    requires gives { MayGive wires.now number queues.old (known (D.log disk.old)) failed.old }
    ensures finished { OnOk result (EndsInto O.Operator wires.now number seat.old seat.new
        queues.old queues.new (known (D.log disk.old)) (known (D.log disk.new)) events.old.items events.new.items) }
    ensures whole { OnOk result (failed.new ≡ None) }
    ensures part { OnErr result (EndsPart O.Operator wires.now number seat.old events.old.items events.new.items) }
    ensures fails { IfErr result (FailsOver queues.new (D.log disk.old) (D.log disk.new) (D.faults disk.old) (D.faults disk.new)) }
    ensures disk { LogGrows (D.log disk.old) (D.log disk.new) (D.faults disk.old) (D.faults disk.new) }
{
    let given = FedItems::new();
    let noted = Noted::new();
    let mut outlet = QueueOutlet {
        wires,
        queues,
        disk,
        events,
        seat: number,
        failed,
        given,
        noted,
    };
    let done = seat.op.finish(&mut outlet);
    let QueueOutlet {
        wires: _,
        queues,
        disk,
        events,
        seat: _,
        failed,
        given: _,
        noted: _,
    } = outlet;
    // No effect at run time. The proof reads what the arguments hold from these uses.
    let _ = &*queues;
    let _ = &*disk;
    let _ = &*events;
    let _ = &*failed;
    match done {
        Ok(()) => {
            seat.tally.running = false;
            Ok(())
        }
        Err(e) => Err(fault_of(failed.take(), e)),
    }
}
