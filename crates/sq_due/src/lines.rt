// The lines of a run's events, written to a sink in pieces.
ghost use Rattle.std.specs.Prelude.{◌≡◌, ◌≤◌, ◌++◌, [], IfErr, OnOk};
ghost use Rattle.std.specs.List.{AllByRecursion};
ghost use Rattle.std.proofs.Common.{sym};
ghost use Rattle.sq_lines.specs.RunLines.{event_line};
ghost use Rattle.sq_outside.specs.Sinks.{AppendsPrefix, appended};
ghost use Rattle.sq_due.specs.States.{sink_state};
ghost use Rattle.sq_due.specs.Writing.{Moves, WritesPart};
ghost use Rattle.sq_due.specs.Histories.{IsEventAt, history_text};

use crate::audience::Audience;
use crate::writing::{send, send_piece};
use sq_lines::{Quoter, append_event_line};
use sq_net::Network;
use sq_oper::Event;
use sq_outside::Sink;
use sq_status::Status;
use std::alloc::Global;

/// Lines that wait to be written, and what quotes them.
#[derive(Drop)]
pub struct LineWriter {
    text: Vec<u8>,
    quoter: Quoter,
}

impl LineWriter {
    /// No line waits yet.
    pub fn new(alloc: Global) -> LineWriter
        ensures { result.text.items ≡ [] }
    {
        LineWriter {
            text: Vec::new(alloc),
            quoter: Quoter::new(),
        }
    }
}

/// Writes the line of an event.
fn show_event<S: Sink>(
    network: &Network,
    event: &Event,
    quoter: &mut Quoter,
    text: &mut Vec<u8>,
    out: &mut S,
) -> Result<(), Status>
    requires there { IsEventAt network.now event.now }
    ensures ok { OnOk result (Moves (S.written out.old) text.old.items (S.written out.new) text.new.items (event_line network.now event.now)) }
    ensures err { IfErr result (WritesPart (sink_state S.Sink out.old) (sink_state S.Sink out.new) (text.old.items ++ event_line network.now event.now)) }
    ensures later { S.faults out.old ≤ S.faults out.new }
{
    match append_event_line(network, event, quoter, text) {
        Ok(()) => send_piece(text, out),
        Err(_) => Err(Status::Memory),
    }
}

/// Writes the lines of events.
fn show_events<S: Sink>(
    network: &Network,
    events: &[Event],
    quoter: &mut Quoter,
    text: &mut Vec<u8>,
    out: &mut S,
) -> Result<(), Status>
    requires there { AllByRecursion (IsEventAt network.now) events.now }
    ensures ok { OnOk result (Moves (S.written out.old) text.old.items (S.written out.new) text.new.items (history_text network.now events.now)) }
    ensures err { IfErr result (WritesPart (sink_state S.Sink out.old) (sink_state S.Sink out.new) (text.old.items ++ history_text network.now events.now)) }
    ensures later { S.faults out.old ≤ S.faults out.new }
{
    'events: for event in events {
        match show_event(network, event, quoter, text, out) {
            Ok(()) => {}
            Err(status) => return Err(status),
        }
    }
    Ok(())
}

impl<S: Sink> Audience<S> for LineWriter {
    ghost ready = { λ held n. Unit {0} };

    ghost shown = { λ from held now n events. Moves (S.written from) [] (S.written now) held.text.items (history_text n events) };

    ghost whole = { λ from held now n events. S.written now ≡ appended (S.written from) (history_text n events) };

    ghost begun = { λ from now n events. AppendsPrefix (S.written from) (S.written now) (history_text n events) };

    ghost faults = { λ now. S.faults now };

    fn show(&mut self, network: &Network, events: &[Event], out: &mut S) -> Result<(), Status> {
        show_events(network, events, &mut self.quoter, &mut self.text, out)
    }

    fn close(&mut self, out: &mut S) -> Result<(), Status> {
        send(&mut self.text, out)
    }

    ghost begins = { λ from held now n events moves. (moves.part, (held.text.items, sym moves.all), moves.now_is) };
}
