//! What an actor gives goes to the arcs that come from it, or is shown.

ghost use Rattle.std.specs.Prelude.{◌≡◌, ◌==◌, if◌then◌else◌, ◌<◌, ◌++◌, ◌∷◌, [], true, None, OnOk, OnErr, IfErr, is_some, length};
ghost use Rattle.sq_item.specs.SoundItems.{IsSoundItem};
ghost use Rattle.sq_pool.specs.Trust.{known};
ghost use Rattle.sq_flow.specs.Causes.{of_queue, fault_or, FailsOver, LogGrows};
ghost use Rattle.sq_flow.specs.Wiring.{arcs_from};
ghost use Rattle.sq_flow.specs.Sends.{Sent, SentWhole, SendErr, MaySend, MayPass};
ghost use Rattle.sq_flow.specs.Events.{item_line};
ghost use Rattle.sq_flow.specs.Shows.{IsShown};

use crate::errors::RunErr;
use crate::wires::Wires;
use sq_item::Item;
use sq_oper::{Decision, Event};
use sq_outside::PageDisk;
use sq_queue::{ArcQueues, QueueErr, Queues, room_for};
use sq_value::Tuple;
use std::alloc::AllocError;

/// An item goes to each of these arcs: a copy to each but the last, and to the last the item itself.
#[inline(always)]
fn send_item<D: PageDisk>(
    arcs: &[u32],
    queues: &mut Queues,
    disk: &mut D,
    item: Item,
) -> Result<(), QueueErr>
    requires may { MaySend arcs.now queues.old (known (D.log disk.old)) item }
    ensures sent { OnOk result (Sent arcs.now item queues.old queues.new (known (D.log disk.old)) (known (D.log disk.new))) }
    ensures fails { IfErr result (λ e. FailsOver queues.new (D.log disk.old) (D.log disk.new) (D.faults disk.old) (D.faults disk.new) (of_queue e)) }
    ensures disk { LogGrows (D.log disk.old) (D.log disk.new) (D.faults disk.old) (D.faults disk.new) }
{
    let Some((last, others)) = arcs.split_last() else {
        return Ok(());
    };
    for arc in others {
        queues.push(disk, *arc, &item)?;
    }
    queues.send(disk, *last, item)?;
    Ok(())
}

/// The same, which keeps the fault that it meets. In a function of its own, no room for a fault is made where an item goes to one
/// arc in front of its pages.
#[inline(never)]
fn send_any<D: PageDisk>(
    arcs: &[u32],
    queues: &mut Queues,
    disk: &mut D,
    item: Item,
    failed: &mut Option<RunErr>,
) -> Result<(), AllocError>
    requires may { MaySend arcs.now queues.old (known (D.log disk.old)) item }
    requires whole { failed.old ≡ None }
    ensures ok { OnOk result (SentWhole arcs.now item queues.old queues.new (known (D.log disk.old)) (known (D.log disk.new)) failed.new) }
    ensures kept { OnErr result (is_some failed.new ≡ true) }
    ensures fails { OnErr result (FailsOver queues.new (D.log disk.old) (D.log disk.new) (D.faults disk.old) (D.faults disk.new) (fault_or failed.new)) }
    ensures disk { LogGrows (D.log disk.old) (D.log disk.new) (D.faults disk.old) (D.faults disk.new) }
{
    match send_item(arcs, queues, disk, item) {
        Ok(()) => Ok(()),
        Err(e) => {
            *failed = Some(RunErr::from(e));
            Err(AllocError)
        }
    }
}

/// An item that an actor gives at a port goes to each arc that comes from there. The fault that it meets is kept.
#[inline(always)]
pub(crate) fn send_one<D: PageDisk>(
    wires: &Wires,
    queues: &mut Queues,
    disk: &mut D,
    seat: u32,
    port: u32,
    item: Item,
    failed: &mut Option<RunErr>,
) -> Result<(), AllocError>
    requires within { seat < length wires.now.readers.items }
    requires may { MaySend (arcs_from wires.now seat port) queues.old (known (D.log disk.old)) item }
    requires whole { failed.old ≡ None }
    ensures ok { OnOk result (SentWhole (arcs_from wires.now seat port) item queues.old queues.new (known (D.log disk.old)) (known (D.log disk.new)) failed.new) }
    ensures err { OnErr result (SendErr queues.old queues.new (D.log disk.old) (D.log disk.new) (D.faults disk.old) (D.faults disk.new) failed.new) }
    ensures disk { LogGrows (D.log disk.old) (D.log disk.new) (D.faults disk.old) (D.faults disk.new) }
{
    let bytes = room_for(&item);
    match wires.arcs_at(seat, port) {
        [] => {
            queues.spares.keep_item(item);
            Ok(())
        }
        [arc] if queues.has_room(*arc, bytes) => queues.put(*arc, item, bytes),
        arcs => send_any(arcs, queues, disk, item, failed),
    }
}

/// Shows the tuple of an item at an output.
#[inline(always)]
fn show_item(output: u32, item: Item, events: &mut Vec<Event>) -> Result<(), AllocError>
    ensures ok { OnOk result (events.new.items ≡ events.old.items ++ item_line output item.time item.body) }
    ensures err { OnErr result (events.new.items ≡ events.old.items) }
{
    let time = item.time;
    let body = item.body.get();
    if let Some(fields) = body {
        let tuple = Tuple { time, fields };
        events.push(Event::Line { output, tuple })?;
    }
    Ok(())
}

/// Shows what an output gives at its port 0.
#[inline(always)]
fn show_one(output: u32, port: u32, item: Item, events: &mut Vec<Event>) -> Result<(), AllocError>
    ensures ok { OnOk result (events.new.items ≡ events.old.items ++ (if port == 0 then item_line output item.time item.body else [])) }
    ensures err { OnErr result (events.new.items ≡ events.old.items) }
{
    if port == 0 {
        show_item(output, item, events)?;
    }
    Ok(())
}

/// Shows a decision.
pub(crate) fn show_drop(decision: Decision, events: &mut Vec<Event>) -> Result<(), AllocError>
    ensures ok { OnOk result (events.new.items ≡ events.old.items ++ Event.Dropped decision ∷ []) }
    ensures err { OnErr result (events.new.items ≡ events.old.items) }
{
    events.push(Event::Dropped(decision))?;
    Ok(())
}

/// An item that an actor gives at a port goes to each arc that comes from there, or is shown where the actor is an output. The
/// fault that it meets is kept.
#[inline(always)]
pub(crate) fn pass_on<D: PageDisk>(
    wires: &Wires,
    queues: &mut Queues,
    disk: &mut D,
    seat: u32,
    port: u32,
    item: Item,
    events: &mut Vec<Event>,
    failed: &mut Option<RunErr>,
) -> Result<(), AllocError>
    requires gives { MayPass wires.now seat queues.old (known (D.log disk.old)) failed.old port }
    requires sound { IsSoundItem item }
    ensures ok { OnOk result (SentWhole (arcs_from wires.now seat port) item queues.old queues.new (known (D.log disk.old)) (known (D.log disk.new)) failed.new) }
    ensures shown { OnOk result (IsShown wires.now seat (record { 0 = port; 1 = item } ∷ []) [] events.old.items events.new.items) }
    ensures err { OnErr result (SendErr queues.old queues.new (D.log disk.old) (D.log disk.new) (D.faults disk.old) (D.faults disk.new) failed.new) }
    ensures silent { OnErr result (events.new.items ≡ events.old.items) }
    ensures disk { LogGrows (D.log disk.old) (D.log disk.new) (D.faults disk.old) (D.faults disk.new) }
{
    if wires.shown <= seat {
        return show_one(seat - wires.shown, port, item, events);
    }
    send_one(wires, queues, disk, seat, port, item, failed)
}
