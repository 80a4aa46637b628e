// The rules on a whole file, one after another, and the wiring.
ghost use Rattle.std.specs.Prelude.{◌≡◌, ◌<◌, ◌^◌, ℕ, false, Some, None, IfOk, IfErr, OnOk, length};
ghost use Rattle.sq_graph.specs.Order.{order_of, IsWired};
ghost use Rattle.sq_net.specs.declared.NetErr.TheVariants as broken;
ghost use Rattle.sq_net.specs.declared.Part.TheVariants as part;
ghost use Rattle.sq_rules.specs.Limits.{limit_place};
ghost use Rattle.sq_rules.specs.Rules.{KeepsTableRules, acyclic_wires, named_wires, ordered, single_wires, streamed_wires, windowed_wires, wired_tables};
ghost use Rattle.sq_tables.specs.Places.{part_place};
ghost use Rattle.sq_tables.specs.Refusals.{IsAnswerOf, is_memory};
ghost use Rattle.sq_rules.specs.Streaming.{cycle_in, number_named, told_stream_named, told_stream_names, wiring_of};

use crate::limits::limit_place;
use crate::names::{name_place, twice_place};
use crate::streams::{numbers_of, told_stream_names, unknown_place, wiring};
use crate::windows::window_place;
use indexmap::IndexMap;
use sq_graph::{OrderErr, Wiring, order};
use sq_net::{NetErr, Part, Place};
use sq_tables::NetworkTable;
use sq_value::ListOf;
use std::alloc::Global;

/// The boxes of a file's tables as they are wired, by the numbers of streams, and an order in which each box comes after
/// those that it takes from.
#[derive(Drop)]
pub struct Wired {
    pub wires: Wiring,
    pub order: ListOf<u32>,
}

// The order of the boxes, or the least one on a cycle.
fn order_in(alloc: Global, w: &Wiring) -> Result<Vec<u32>, NetErr>
    requires few { length w.now.boxes < 2 ^ 32 }
    requires wired { IsWired w.now }
    ensures ok { IfOk result (λ v. v.items ≡ order_of w.now) }
    ensures acyclic { OnOk result (cycle_in w.now ≡ None) }
    ensures err { IfErr result (λ e. is_memory e ≡ false → (at : ℕ) × (e ≡ broken.Cycle (part_place part.Box at)) × (cycle_in w.now ≡ Some (part_place part.Box at))) }
{
    match order(alloc, w) {
        Ok(order) => Ok(order),
        Err(OrderErr::Cycle { at }) => Err(NetErr::Cycle(Place {
            part: Part::Box,
            number: at,
            item: 0,
        })),
        Err(OrderErr::Memory) => Err(NetErr::Memory),
    }
}

#[tactic(auto, using(crate::proofs::LimitLemmas::counts_of))]
fn windowed_wires(raw: &NetworkTable, wires: Wiring, order: Vec<u32>) -> Result<Wired, NetErr>
    requires within { limit_place raw.now ≡ None }
    requires ordered { order.items ≡ order_of wires }
    ensures { IsAnswerOf result (windowed_wires raw.now wires) }
{
    if let Some(place) = window_place(raw) {
        return Err(NetErr::Window(place));
    }
    Ok(Wired {
        wires,
        order: ListOf::new(order),
    })
}

#[tactic(auto, using(crate::proofs::LimitLemmas::counts_of))]
fn acyclic_wires(alloc: Global, raw: &NetworkTable, wires: Wiring) -> Result<Wired, NetErr>
    requires within { limit_place raw.now ≡ None }
    requires wires { wires ≡ wiring_of raw.now }
    ensures { IsAnswerOf result (acyclic_wires raw.now wires) }
{
    let order = order_in(alloc, &wires)?;
    windowed_wires(raw, wires, order)
}

fn streamed_wires(
    alloc: Global,
    raw: &NetworkTable,
    numbers: &IndexMap<&str, u32>,
) -> Result<Wired, NetErr>
    requires within { limit_place raw.now ≡ None }
    requires numbers { number_named numbers.now.entries ≡ told_stream_named (told_stream_names raw.now) }
    ensures { IsAnswerOf result (streamed_wires raw.now (number_named numbers.now.entries)) }
{
    if let Some(place) = unknown_place(numbers, raw) {
        return Err(NetErr::Unknown(place));
    }
    let wires = wiring(alloc, numbers, raw)?;
    acyclic_wires(alloc, raw, wires)
}

#[tactic(auto, using(crate::proofs::LimitLemmas::counts_of))]
fn single_wires(alloc: Global, raw: &NetworkTable) -> Result<Wired, NetErr>
    requires within { limit_place raw.now ≡ None }
    ensures { IsAnswerOf result (single_wires raw.now) }
{
    if let Some(place) = twice_place(alloc, raw)? {
        return Err(NetErr::Twice(place));
    }
    let names = told_stream_names(alloc, raw)?;
    let numbers = numbers_of(alloc, &names)?;
    streamed_wires(alloc, raw, &numbers)
}

#[tactic(auto, using(crate::proofs::LimitLemmas::counts_of))]
fn named_wires(alloc: Global, raw: &NetworkTable) -> Result<Wired, NetErr>
    requires within { limit_place raw.now ≡ None }
    ensures { IsAnswerOf result (named_wires raw.now) }
{
    if let Some(place) = name_place(raw) {
        return Err(NetErr::NoName(place));
    }
    single_wires(alloc, raw)
}

/// The wiring that a file's tables say and the order of its boxes, where the tables keep the limits of numbers and lengths,
/// each name is one and stands once, each stream that is named is there, no box lies on a cycle and each Aggregate has a
/// window; else the first of these rules that they break, in this order, with its first place. Or memory ran out.
#[tactic(auto, using(crate::proofs::RuleLemmas::answer_kept, crate::proofs::RuleLemmas::answer_wired))]
pub fn wired_tables(alloc: Global, raw: &NetworkTable) -> Result<Wired, NetErr>
    ensures answer { IsAnswerOf result (wired_tables raw.now) }
    ensures kept { IfOk result (λ _. KeepsTableRules raw.now) }
    ensures wired { IfOk result (λ x. x ≡ ordered (wiring_of raw.now)) }
{
    if let Some(place) = limit_place(raw) {
        return Err(NetErr::Limit(place));
    }
    named_wires(alloc, raw)
}
