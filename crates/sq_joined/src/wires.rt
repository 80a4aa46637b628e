// The wiring of the joined network.
ghost use Rattle.std.specs.Prelude.{◌≡◌, ◌+◌, ◌<◌, ◌≤◌, ◌^◌, ◌++◌, [], ◌∷◌, ℕ, cond, length, map, IfOk, OnOk};
ghost use Rattle.std.specs.List.{All};
ghost use Rattle.sq_graph.specs.Wires.{producers_of};
ghost use Rattle.sq_joined.specs.Staying.{staying, stays, is_kept, box_moved, stream_moved, streams_staying, passes};
ghost use Rattle.sq_joined.specs.Joining.{rewired, query_moved, tap_wires, joined_wires};

use sq_graph::{BoxKind, BoxWires, Producer, Wiring, given_by, stream_of};
use sq_value::ListOf;
use std::alloc::{AllocError, Global};

/// Whether a box is among those that stay.
pub fn is_set(keep: &[bool], at: u32) -> bool
    ensures { result ≡ stays keep.now at }
{
    match keep.get(at as usize) {
        Some(set) => *set,
        None => false,
    }
}

// 1 for what stays, so that it can be counted.
fn kept_count(keep: &[bool], giver: Option<Producer>) -> u32
    ensures { result ≡ cond (passes (is_kept keep.now) giver) 1 0 }
{
    match giver {
        None => 0,
        Some(Producer::Source { .. }) => 1,
        Some(Producer::Port { at, .. }) => u32::from(is_set(keep, at)),
    }
}

// The new number of a stream: how many in front of it stay.
fn stream_moved(w: &Wiring, keep: &[bool], stream: u32) -> u32
    requires { length w.now.boxes < 2 ^ 32 }
    ensures number { result ≡ stream_moved w.now keep.now stream }
    ensures low { result ≤ stream }
{
    let mut number = 0;
    for s in 0..stream {
        number += kept_count(keep, given_by(w, s));
    }
    number
}

/// How many boxes stay.
pub fn boxes_staying(keep: &[bool]) -> u32
    requires { length keep.now < 2 ^ 32 }
    ensures { result ≡ box_moved keep.now (length keep.now) }
{
    let mut number = 0;
    for at in 0..keep.len() as u32 {
        number += u32::from(is_set(keep, at));
    }
    number
}

fn moved_inputs(
    alloc: Global,
    w: &Wiring,
    keep: &[bool],
    inputs: &[u32],
) -> Result<Vec<u32>, AllocError>
    requires { length w.now.boxes < 2 ^ 32 }
    ensures { IfOk result (λ v. v.items ≡ map (stream_moved w.now keep.now) inputs.now) }
{
    let mut moved = Vec::new(alloc);
    for s in inputs {
        moved.push(stream_moved(w, keep, *s))?;
    }
    Ok(moved)
}

// A box that stays, with the new numbers of its inputs.
fn push_staying(
    alloc: Global,
    w: &Wiring,
    keep: &[bool],
    at: u32,
    b: &BoxWires,
    out: &mut Vec<BoxWires>,
) -> Result<(), AllocError>
    requires { length w.now.boxes < 2 ^ 32 }
    ensures { OnOk result (out.new.items ≡ out.old.items ++ cond (stays keep.now at) (rewired (stream_moved w.now keep.now) b.now ∷ []) []) }
{
    if is_set(keep, at) {
        let inputs = moved_inputs(alloc, w, keep, b.inputs.as_slice())?;
        out.push(BoxWires {
            kind: b.kind,
            inputs: ListOf::new(inputs),
            ports: b.ports,
        })?;
    }
    Ok(())
}

fn staying_wires(alloc: Global, w: &Wiring, keep: &[bool]) -> Result<Vec<BoxWires>, AllocError>
    requires few { length w.now.boxes < 2 ^ 32 }
    requires count { length keep.now ≡ length w.now.boxes }
    ensures { IfOk result (λ v. v.items ≡ map (rewired (stream_moved w.now keep.now)) (staying keep.now w.now.boxes)) }
{
    let mut out = Vec::new(alloc);
    for (at, b) in w.boxes.as_slice().iter().enumerate() {
        push_staying(alloc, w, keep, at as u32, b, &mut out)?;
    }
    Ok(out)
}

// The number of a stream of the query, where the tap's first port has this number.
#[tactic(auto, using(crate::proofs::Steps::moved_later))]
fn query_moved(tap: u32, stream: u32) -> u32
    requires { tap + stream + 1 < 2 ^ 32 }
    ensures { result ≡ query_moved tap stream }
{
    if stream == 0 {
        return tap;
    }
    tap + 1 + stream
}

fn query_inputs(alloc: Global, tap: u32, inputs: &[u32]) -> Result<Vec<u32>, AllocError>
    requires tap { tap < 2 ^ 30 }
    requires inputs { All (λ s. s < 2 ^ 30) inputs.now }
    ensures { IfOk result (λ v. v.items ≡ map (query_moved tap) inputs.now) }
{
    let mut moved = Vec::new(alloc);
    for s in inputs {
        moved.push(query_moved(tap, *s))?;
    }
    Ok(moved)
}

fn push_query(
    alloc: Global,
    tap: u32,
    boxes: &[BoxWires],
    out: &mut Vec<BoxWires>,
) -> Result<(), AllocError>
    requires tap { tap < 2 ^ 30 }
    requires inputs { All (λ b. All (λ s. s < 2 ^ 30) b.inputs) boxes.now }
    ensures { OnOk result (out.new.items ≡ out.old.items ++ map (rewired (query_moved tap)) boxes.now) }
{
    for b in boxes {
        let inputs = query_inputs(alloc, tap, b.inputs.as_slice())?;
        out.push(BoxWires {
            kind: b.kind,
            inputs: ListOf::new(inputs),
            ports: b.ports,
        })?;
    }
    Ok(())
}

fn tap_wires(alloc: Global, stream: u32) -> Result<BoxWires, AllocError>
    ensures { IfOk result (λ b. b ≡ tap_wires stream) }
{
    let mut inputs = Vec::new(alloc);
    inputs.push(stream)?;
    Ok(BoxWires {
        kind: BoxKind::Filter,
        inputs: ListOf::new(inputs),
        ports: 2,
    })
}

// How many streams stay: the number of the tap's first port.
fn streams_staying(w: &Wiring, keep: &[bool]) -> u32
    requires few { length w.now.boxes < 2 ^ 32 }
    requires streams { length (producers_of w.now) < 2 ^ 30 }
    ensures number { result ≡ streams_staying w.now keep.now }
    ensures low { result < 2 ^ 30 }
{
    let streams = stream_of(w, w.boxes.as_slice().len() as u32, 0);
    stream_moved(w, keep, streams)
}

/// The wiring: the boxes that stay, the tap, and the query's boxes.
pub(crate) fn joined_wires(
    alloc: Global,
    w: &Wiring,
    keep: &[bool],
    stream: u32,
    q: &Wiring,
) -> Result<Wiring, AllocError>
    requires few { length w.now.boxes < 2 ^ 32 }
    requires count { length keep.now ≡ length w.now.boxes }
    requires streams { length (producers_of w.now) < 2 ^ 30 }
    requires inputs { All (λ b. All (λ s. s < 2 ^ 30) b.inputs) q.now.boxes }
    requires outputs { All (λ s. s < 2 ^ 30) q.now.outputs }
    ensures { IfOk result (λ v. v ≡ joined_wires w.now keep.now stream q.now) }
{
    let tap = streams_staying(w, keep);
    let mut boxes = staying_wires(alloc, w, keep)?;
    let wires = tap_wires(alloc, stream_moved(w, keep, stream))?;
    boxes.push(wires)?;
    push_query(alloc, tap, q.boxes.as_slice(), &mut boxes)?;
    let outputs = query_inputs(alloc, tap, q.outputs.as_slice())?;
    Ok(Wiring {
        sources: w.sources,
        boxes: ListOf::new(boxes),
        outputs: ListOf::new(outputs),
    })
}
