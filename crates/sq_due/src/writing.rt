// Text on its way to the output, in pieces, and the lines at the end of a run.
ghost use Rattle.std.specs.Prelude.{◌≡◌, ◌≤◌, ◌++◌, [], IfErr, IfOk, OnOk, length, map};
ghost use Rattle.sq_words.specs.Lists.{numbers_to};
ghost use Rattle.sq_net.specs.SoundNetworks.{IsSound};
ghost use Rattle.sq_outside.specs.Sinks.{appended};
ghost use Rattle.sq_core.specs.Runs.{IsSoundEngine, fed_at, late_at_seat};
ghost use Rattle.sq_due.specs.States.{sink_state};
ghost use Rattle.sq_due.specs.Writing.{Moves, WritesPart};
ghost use Rattle.sq_due.specs.Histories.{ends_text};

use sq_core::Engine;
use sq_lines::end_lines_from;
use sq_net::Network;
use sq_outside::{Failed, Sink, write_all};
use sq_status::Status;
use std::alloc::{AllocError, Global};

/// How many bytes are gathered before they are written.
const PIECE: usize = 65_536;

/// Writes what waits.
pub(crate) fn send<S: Sink>(text: &mut Vec<u8>, out: &mut S) -> Result<(), Status>
    ensures ok { OnOk result (Moves (S.written out.old) text.old.items (S.written out.new) text.new.items []) }
    ensures none_waits { OnOk result (text.new.items ≡ []) }
    ensures err { IfErr result (WritesPart (sink_state S.Sink out.old) (sink_state S.Sink out.new) text.old.items) }
    ensures later { S.faults out.old ≤ S.faults out.new }
{
    match write_all(out, text.as_slice()) {
        Ok(()) => {
            text.clear();
            Ok(())
        }
        Err(Failed) => Err(Status::SinkFault),
    }
}

/// Writes what waits, where it is enough for a piece.
pub(crate) fn send_piece<S: Sink>(text: &mut Vec<u8>, out: &mut S) -> Result<(), Status>
    ensures ok { OnOk result (Moves (S.written out.old) text.old.items (S.written out.new) text.new.items []) }
    ensures err { IfErr result (WritesPart (sink_state S.Sink out.old) (sink_state S.Sink out.new) text.old.items) }
    ensures later { S.faults out.old ≤ S.faults out.new }
{
    if text.len() < PIECE {
        return Ok(());
    }
    send(text, out)
}

/// How many boxes a network has.
#[tactic(auto, using(sq_net::proofs::StreamLemmas::boxes_few))]
fn count_boxes(network: &Network) -> u32
    requires { IsSound network.now }
    ensures { result ≡ length network.now.boxes }
{
    network.boxes.as_slice().len() as u32
}

/// How many tuples each box was fed, in file order.
pub(crate) fn count_fed(alloc: Global, engine: &Engine) -> Result<Vec<u64>, AllocError>
    requires { IsSoundEngine engine.now }
    ensures { IfOk result (λ v. v.items ≡ map (fed_at engine.now) (numbers_to (length engine.now.network.boxes))) }
{
    let mut fed = Vec::new(alloc);
    for at in 0..count_boxes(&engine.network) {
        fed.push(engine.fed(at))?;
    }
    Ok(fed)
}

/// How many of them each box has neither given nor holds, in file order.
pub(crate) fn count_late(alloc: Global, engine: &Engine) -> Result<Vec<u64>, AllocError>
    requires { IsSoundEngine engine.now }
    ensures { IfOk result (λ v. v.items ≡ map (late_at_seat engine.now) (numbers_to (length engine.now.network.boxes))) }
{
    let mut late = Vec::new(alloc);
    for at in 0..count_boxes(&engine.network) {
        late.push(engine.late(at))?;
    }
    Ok(late)
}

/// Appends the end lines of the boxes from one on, by what the boxes of an engine were fed.
fn append_ends(
    alloc: Global,
    engine: &Engine,
    first: u32,
    text: &mut Vec<u8>,
) -> Result<(), AllocError>
    requires sound { IsSoundEngine engine.now }
    requires first { first ≤ length engine.now.network.boxes }
    ensures ok { OnOk result (text.new.items ≡ text.old.items ++ ends_text first engine.now) }
{
    let fed = count_fed(alloc, engine)?;
    let late = count_late(alloc, engine)?;
    end_lines_from(&engine.network, first, &fed, &late, text)
}

/// Writes the end lines of the boxes from one on, by what the boxes of an engine were fed.
pub fn write_ends<S: Sink>(
    alloc: Global,
    engine: &Engine,
    first: u32,
    out: &mut S,
) -> Result<(), Status>
    requires sound { IsSoundEngine engine.now }
    requires first { first ≤ length engine.now.network.boxes }
    ensures ok { OnOk result (S.written out.new ≡ appended (S.written out.old) (ends_text first engine.now)) }
    ensures err { IfErr result (WritesPart (sink_state S.Sink out.old) (sink_state S.Sink out.new) (ends_text first engine.now)) }
    ensures later { S.faults out.old ≤ S.faults out.new }
{
    let mut text = Vec::new(alloc);
    match append_ends(alloc, engine, first, &mut text) {
        Ok(()) => send(&mut text, out),
        Err(_) => Err(Status::Memory),
    }
}
