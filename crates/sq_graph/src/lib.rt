//! The wiring of a network: what gives each stream, what takes each arc, and an order of the boxes.
//!
//! Streams are numbered: the sources, then the ports of the boxes. Arcs are numbered: the inputs of the boxes, then
//! the outputs. The contract of `order` promises that a wiring without a cycle has its boxes put in an order in which
//! each comes behind what it takes, and that else the least box on a cycle is named; a cycle is a chain of arcs from
//! a box back to itself, of any length. It stands on the lists of sq_value.
#![tactic(auto)]

ghost use Rattle.std.specs.Prelude.{◌≡◌, ℕ, ◌+◌, ◌<◌, ◌≤◌, ◌^◌, ◌++◌, Some, None, Option, length, map, replicate, slice_get, IfOk, IfErr, OnOk, true, false};
ghost use Rattle.std.specs.List.{flat_map, list_all, list_any, find, sum_by};
ghost use Rattle.sq_words.specs.Lists.{numbers_to};
ghost use Rattle.sq_graph.specs.Wires.{producer_of, producers_of, stream_at, arc_at, output_arc_at};
ghost use Rattle.sq_graph.specs.Order.{giver_of, is_given_by, is_fed_by, could_be_next, could_be_reached, order_of, ComesAfterInputs, LiesOnCycle, IsLeastOnCycle, IsWired};
ghost use Rattle.sq_graph.specs.Errors.{NamesCycle};

use sq_value::ListOf;
use std::alloc::{AllocError, Global};

/// What a box does to the tuples that it takes (the operators of Aurora: Abadi and others, VLDB Journal 2003).
#[derive(Clone, Copy, PartialEq, Eq, Drop)]
pub enum BoxKind {
    Filter,
    Map,
    Union,
    BSort,
    Aggregate,
    Join,
    Resample,
}

/// A box: its kind, the numbers of the streams that its inputs take, and how many ports give a stream.
#[derive(Drop)]
pub struct BoxWires {
    pub kind: BoxKind,
    pub inputs: ListOf<u32>,
    pub ports: u32,
}

/// The wiring of a network: how many sources there are, the boxes, and the stream that each output shows.
#[derive(Drop)]
pub struct Wiring {
    pub sources: u32,
    pub boxes: ListOf<BoxWires>,
    pub outputs: ListOf<u32>,
}

fn push_many(givers: &mut Vec<Option<u32>>, giver: Option<u32>, many: u32) -> Result<(), AllocError>
    ensures { OnOk result (givers.new.items ≡ givers.old.items ++ replicate many giver) }
{
    for _i in 0..many {
        givers.push(giver)?;
    }
    Ok(())
}

/// The box that gives each stream; none gives a source's.
pub fn givers_of(alloc: Global, w: &Wiring) -> Result<Vec<Option<u32>>, AllocError>
    requires { length w.now.boxes < 2 ^ 32 }
    ensures { IfOk result (λ givers. givers.items ≡ map giver_of (producers_of w.now)) }
{
    let mut givers = Vec::new(alloc);
    push_many(&mut givers, None, w.sources)?;
    for (at, b) in w.boxes.as_slice().iter().enumerate() {
        push_many(&mut givers, Some(at as u32), b.ports)?;
    }
    Ok(givers)
}

// Whether each of these streams is a source's or one of these boxes'.
fn is_ready(order: &[u32], givers: &[Option<u32>], inputs: &[u32]) -> bool
    ensures { result ≡ list_all (λ s. is_given_by order.now (slice_get givers.now s)) inputs.now }
{
    inputs.iter().all(|s| is_here(order, givers, *s))
}

fn is_here(order: &[u32], givers: &[Option<u32>], s: u32) -> bool
    ensures { result ≡ is_given_by order.now (slice_get givers.now s) }
{
    match givers.get(s as usize) {
        None => false,
        Some(None) => true,
        Some(Some(at)) => order.contains(at),
    }
}

// Whether one of these streams is of the box `by` or of one of these boxes.
fn is_fed(by: u32, reached: &[u32], givers: &[Option<u32>], inputs: &[u32]) -> bool
    ensures { result ≡ list_any (λ s. is_fed_by by reached.now (slice_get givers.now s)) inputs.now }
{
    inputs.iter().any(|s| is_from(by, reached, givers, *s))
}

fn is_from(by: u32, reached: &[u32], givers: &[Option<u32>], s: u32) -> bool
    ensures { result ≡ is_fed_by by reached.now (slice_get givers.now s) }
{
    match givers.get(s as usize) {
        Some(Some(at)) => *at == by || reached.contains(at),
        _ => false,
    }
}

// Whether a box isn't among these, and each of its inputs comes from a source or from one of these.
fn may_be_next(boxes: &[BoxWires], givers: &[Option<u32>], order: &[u32], at: u32) -> bool
    requires { at < length boxes.now }
    ensures { result ≡ could_be_next boxes.now givers.now order.now at }
{
    let b = &boxes[at as usize];
    !order.contains(&at) && is_ready(order, givers, b.inputs.as_slice())
}

fn next_box(boxes: &[BoxWires], givers: &[Option<u32>], order: &[u32]) -> Option<u32>
    requires { length boxes.now < 2 ^ 32 }
    ensures { result ≡ find (could_be_next boxes.now givers.now order.now) (numbers_to (length boxes.now)) }
{
    for at in 0..boxes.len() as u32 {
        if may_be_next(boxes, givers, order, at) {
            return Some(at);
        }
    }
    None
}

// Whether a box isn't among these, and takes a stream of the box `by` or of one of these.
fn may_be_reached(
    boxes: &[BoxWires],
    givers: &[Option<u32>],
    by: u32,
    reached: &[u32],
    at: u32,
) -> bool
    requires { at < length boxes.now }
    ensures { result ≡ could_be_reached boxes.now givers.now by reached.now at }
{
    let b = &boxes[at as usize];
    !reached.contains(&at) && is_fed(by, reached, givers, b.inputs.as_slice())
}

fn next_reached(boxes: &[BoxWires], givers: &[Option<u32>], by: u32, reached: &[u32]) -> Option<u32>
    requires { length boxes.now < 2 ^ 32 }
    ensures { result ≡ find (could_be_reached boxes.now givers.now by reached.now) (numbers_to (length boxes.now)) }
{
    for at in 0..boxes.len() as u32 {
        if may_be_reached(boxes, givers, by, reached, at) {
            return Some(at);
        }
    }
    None
}

// Whether a box reaches itself by arcs.
fn lies_on_cycle(
    alloc: Global,
    w: &Wiring,
    givers: &[Option<u32>],
    at: u32,
) -> Result<bool, AllocError>
    requires few { length w.now.boxes < 2 ^ 32 }
    requires table { givers.now ≡ map giver_of (producers_of w.now) }
    ensures yes { IfOk result (λ b. b ≡ true → LiesOnCycle w.now at) }
    ensures no { IfOk result (λ b. b ≡ false → LiesOnCycle w.now at → ⊥) }
{
    let mut reached = Vec::new(alloc);
    while let Some(b) = next_reached(w.boxes.as_slice(), givers, at, &reached) {
        reached.push(b)?;
    }
    Ok(reached.contains(&at))
}

fn least_on_cycle(alloc: Global, w: &Wiring, givers: &[Option<u32>]) -> Result<u32, AllocError>
    requires few { length w.now.boxes < 2 ^ 32 }
    requires table { givers.now ≡ map giver_of (producers_of w.now) }
    requires some { (x : ℕ) × ((x < length w.now.boxes) × LiesOnCycle w.now x) }
    ensures { IfOk result (λ at. IsLeastOnCycle w.now at) }
{
    for at in 0..w.boxes.as_slice().len() as u32 {
        if lies_on_cycle(alloc, w, givers, at)? {
            return Ok(at);
        }
    }
    Ok(0)
}

/// Why boxes have no order.
#[derive(Clone, Copy, Debug, PartialEq, Eq, Drop)]
pub enum OrderErr {
    /// Box `at` reaches itself by arcs, and no box of a lower number does.
    Cycle { at: u32 },
    /// Memory ran out.
    Memory,
}

// The order as far as it goes.
fn order_so_far(alloc: Global, w: &Wiring, givers: &[Option<u32>]) -> Result<Vec<u32>, AllocError>
    requires few { length w.now.boxes < 2 ^ 32 }
    requires table { givers.now ≡ map giver_of (producers_of w.now) }
    ensures { IfOk result (λ v. v.items ≡ order_of w.now) }
{
    let mut order = Vec::new(alloc);
    while let Some(at) = next_box(w.boxes.as_slice(), givers, &order) {
        order.push(at)?;
    }
    Ok(order)
}

impl From<AllocError> for OrderErr {
    ghost use Rattle.std.specs.Prelude.{◌≡◌};
    ghost use Rattle.sq_graph.specs.declared.OrderErr.{OrderErr};
    ghost use Rattle.sq_graph.specs.declared.OrderErr.TheVariants as error;

    ghost from_gives = { λ _ e. e ≡ error.Memory };

    fn from(_e: AllocError) -> OrderErr {
        OrderErr::Memory
    }
}

/// The boxes in an order: at each place the least whose inputs all come from sources or earlier boxes (the topological
/// sorting of Kahn, Communications of the ACM 1962, with ties by number); or the least box on a cycle.
pub fn order(alloc: Global, w: &Wiring) -> Result<Vec<u32>, OrderErr>
    requires few { length w.now.boxes < 2 ^ 32 }
    requires wired { IsWired w.now }
    ensures ordered { IfOk result (λ v. v.items ≡ order_of w.now) }
    ensures all { IfOk result (λ v. length v.items ≡ length w.now.boxes) }
    ensures follows { IfOk result (λ v. ComesAfterInputs w.now v.items) }
    ensures acyclic { OnOk result ((at : ℕ) → LiesOnCycle w.now at → ⊥) }
    ensures cycle { IfErr result (NamesCycle w.now) }
{
    let givers = givers_of(alloc, w)?;
    let order = order_so_far(alloc, w, &givers)?;
    if order.len() < w.boxes.as_slice().len() {
        let at = least_on_cycle(alloc, w, &givers)?;
        return Err(OrderErr::Cycle { at });
    }
    Ok(order)
}

/// The order of the boxes of a network without a cycle.
pub fn box_order(alloc: Global, w: &Wiring) -> Result<Vec<u32>, AllocError>
    requires few { length w.now.boxes < 2 ^ 32 }
    requires wired { IsWired w.now }
    requires acyclic { (b : ℕ) → LiesOnCycle w.now b → ⊥ }
    ensures { IfOk result (λ v. v.items ≡ order_of w.now) }
{
    match order(alloc, w) {
        Ok(order) => Ok(order),
        Err(OrderErr::Memory) => Err(AllocError),
        Err(OrderErr::Cycle { .. }) => unreachable!(),
    }
}

/// The number of the stream of port `port`, from 0, of box `at`.
pub fn stream_of(w: &Wiring, at: u32, port: u32) -> u32
    requires there { at ≤ length w.now.boxes }
    requires fits { stream_at w.now at port < 2 ^ 32 }
    ensures { result ≡ stream_at w.now at port }
{
    w.sources + ports_in(&w.boxes.as_slice()[..at as usize]) + port
}

/// What gives a stream: a source, or a port of a box.
#[derive(Clone, Copy, PartialEq, Eq, Drop)]
pub enum Producer {
    Source { source: u32 },
    Port { at: u32, port: u32 },
}

/// What gives the stream of this number, where there is one.
pub fn given_by(w: &Wiring, stream: u32) -> Option<Producer>
    requires { length w.now.boxes < 2 ^ 32 }
    ensures { result ≡ producer_of w.now stream }
{
    if stream < w.sources {
        return Some(Producer::Source { source: stream });
    }
    let mut left = stream - w.sources;
    for (at, b) in w.boxes.as_slice().iter().enumerate() {
        if left < b.ports {
            return Some(Producer::Port {
                at: at as u32,
                port: left,
            });
        }
        left -= b.ports;
    }
    None
}

fn ports_in(boxes: &[BoxWires]) -> u32
    requires { sum_by (λ b. b.ports) boxes.now < 2 ^ 32 }
    ensures { result ≡ sum_by (λ b. b.ports) boxes.now }
{
    boxes.iter().map(|b| b.ports).sum()
}

/// The number of the arc that enters box `at` at its input `port`, from 0.
pub fn arc_of(w: &Wiring, at: u32, port: u32) -> u32
    requires there { at ≤ length w.now.boxes }
    requires fits { arc_at w.now at port < 2 ^ 32 }
    ensures { result ≡ arc_at w.now at port }
{
    inputs_in(&w.boxes.as_slice()[..at as usize]) + port
}

/// The streams of the arcs, by number: those that the boxes take, then those that the outputs show.
pub fn arc_streams(alloc: Global, w: &Wiring) -> Result<Vec<u32>, AllocError>
    ensures { IfOk result (λ v. v.items ≡ flat_map (λ b. b.inputs) w.now.boxes ++ w.now.outputs) }
{
    let mut streams = Vec::new(alloc);
    for b in w.boxes.as_slice() {
        streams.extend_from_slice(b.inputs.as_slice())?;
    }
    streams.extend_from_slice(w.outputs.as_slice())?;
    Ok(streams)
}

/// The number of the arc that enters an output.
pub fn output_arc(w: &Wiring, output: u32) -> u32
    requires { output_arc_at w.now output < 2 ^ 32 }
    ensures { result ≡ output_arc_at w.now output }
{
    inputs_in(w.boxes.as_slice()) + output
}

fn inputs_in(boxes: &[BoxWires]) -> u32
    requires { sum_by (λ b. length b.inputs) boxes.now < 2 ^ 32 }
    ensures { result ≡ sum_by (λ b. length b.inputs) boxes.now }
{
    let mut inputs = 0;
    for b in boxes {
        inputs += b.inputs.as_slice().len() as u32;
    }
    inputs
}
