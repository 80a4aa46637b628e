// The lines of a run's events, counted and not written.
ghost use Rattle.std.specs.Prelude.{◌≡◌, ◌+◌, ◌<◌, [], ◌∷◌, IfErr, IfOk, OnOk, length, replicate, slice_index, slice_set};
ghost use Rattle.std.specs.List.{AllByRecursion};
ghost use Rattle.sq_net.specs.SoundNetworks.{IsSound};
ghost use Rattle.sq_flow.specs.Events.{IsEventIn};
ghost use Rattle.sq_core.specs.Runs.{IsSoundEngine};
ghost use Rattle.sq_due.specs.Counting.{Counted, AreCountsOf, HasCounts};

use crate::audience::Audience;
use sq_core::Engine;
use sq_net::Network;
use sq_oper::Event;
use sq_status::Status;
use std::alloc::{AllocError, Global};

/// How many lines there are of each output and of each drop.
#[derive(Drop)]
pub struct Counts {
    pub lines: Vec<u64>,
    pub drops: Vec<u64>,
}

/// So many zeros.
fn zeros(alloc: Global, many: u32) -> Result<Vec<u64>, AllocError>
    ensures { IfOk result (λ v. v.items ≡ replicate many 0) }
{
    vec![in alloc; 0; many as usize]
}

/// One more at a place. Where 64 bits don't suffice, it is as if memory didn't.
fn add_one(counts: &mut Vec<u64>, at: u32) -> Result<(), Status>
    requires { at < length counts.old.items }
    ensures ok { OnOk result (counts.new.items ≡ slice_set counts.old.items at (slice_index counts.old.items at + 1)) }
    ensures memory { IfErr result (λ s. s ≡ Status.Memory) }
{
    let Some(more) = counts[at as usize].checked_add(1) else {
        return Err(Status::Memory);
    };
    counts[at as usize] = more;
    Ok(())
}

/// Counts the line of an event; plans aren't counted.
fn count_event(event: &Event, counts: &mut Counts) -> Result<(), Status>
    requires there { IsEventIn (length counts.old.lines.items) (length counts.old.drops.items) event.now }
    ensures ok { OnOk result (Counted (event.now ∷ []) counts.old counts.new) }
    ensures memory { IfErr result (λ s. s ≡ Status.Memory) }
{
    match event {
        Event::Line { output, .. } => add_one(&mut counts.lines, *output),
        Event::Dropped(decision) => add_one(&mut counts.drops, decision.drop),
        Event::Plan { .. } => Ok(()),
    }
}

/// Counts the lines of events.
fn count_events(events: &[Event], counts: &mut Counts) -> Result<(), Status>
    requires there { AllByRecursion (IsEventIn (length counts.old.lines.items) (length counts.old.drops.items)) events.now }
    ensures ok { OnOk result (Counted events.now counts.old counts.new) }
    ensures memory { IfErr result (λ s. s ≡ Status.Memory) }
{
    'events: for event in events {
        match count_event(event, counts) {
            Ok(()) => {}
            Err(status) => return Err(status),
        }
    }
    Ok(())
}

/// How many outputs a network has.
#[tactic(auto, using(sq_points::proofs::Bounds::few_outputs))]
fn count_outputs(network: &Network) -> u32
    requires { IsSound network.now }
    ensures { result ≡ length network.now.outputs }
{
    network.outputs.as_slice().len() as u32
}

/// No lines yet of each output and of each drop of an engine.
pub fn no_counts(alloc: Global, engine: &Engine) -> Result<Counts, AllocError>
    requires { IsSoundEngine engine.now }
    ensures room { IfOk result (HasCounts engine.now.network) }
    ensures none { IfOk result (AreCountsOf []) }
{
    let wires = &engine.engine.flow.wires;
    let lines = zeros(alloc, count_outputs(&engine.network))?;
    let drops = zeros(alloc, wires.shown - wires.sheds)?;
    Ok(Counts { lines, drops })
}

impl Audience<()> for Counts {
    ghost ready = { λ counts n. HasCounts n counts };

    ghost shown = { λ from counts now n events. AreCountsOf events counts };

    ghost whole = { λ from counts now n events. AreCountsOf events counts };

    ghost begun = { λ from now n events. Unit {0} };

    ghost faults = { λ now. 0 };

    fn show(&mut self, _network: &Network, events: &[Event], _out: &mut ()) -> Result<(), Status> {
        count_events(events, self)
    }

    fn close(&mut self, _out: &mut ()) -> Result<(), Status> {
        Ok(())
    }

    ghost begins = { λ from counts now n events are. tt };
}
