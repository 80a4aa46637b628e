//! Wires from a table of what each operator reads.

ghost use Rattle.std.specs.Prelude.{◌≡◌, ◌<◌, ◌≤◌, ◌^◌, ◌+◌, ℕ, [], length, slice_get, IfOk, OnOk};
ghost use Rattle.sq_flow.specs.Wiring.{numbers_in, rows_in};
ghost use Rattle.sq_core.specs.Joining.{AddsArc, AddsAt, AddsFollower, AddsIn, AddsTo, AreFeeds, CanJoin, Fixed, IsJoining, JoinsAll};

use sq_flow::{Arc, Wires};
use sq_value::{Kind, ListOf};
use std::alloc::{AllocError, Global};

/// What an operator reads at a port: which actor gives it at which port, of which kinds the values of its tuples are, and whether
/// marks of a window drop come on it. The actors are the operators, and behind them the replay.
#[derive(Drop)]
pub(crate) struct Feed {
    pub from: u32,
    pub port: u32,
    pub kinds: ListOf<Kind>,
    pub marked: bool,
}

/// A copy of kinds.
pub(crate) fn copy_kinds(alloc: Global, kinds: &[Kind]) -> Result<ListOf<Kind>, AllocError>
    ensures { IfOk result (λ copy. copy ≡ kinds.now) }
{
    let mut copy = Vec::new(alloc);
    copy.extend_from_slice(kinds)?;
    Ok(ListOf::new(copy))
}

/// Adds a number to a row.
fn add_at(rows: &mut Vec<Vec<u32>>, row: u32, at: u32) -> Result<(), AllocError>
    requires { row < length rows.old.items }
    ensures { OnOk result (AddsAt row at rows.old.items rows.new.items) }
{
    rows[row as usize].push(at)?;
    Ok(())
}

/// Adds bare rows until there is this one.
#[tactic(auto, using(crate::proofs::JoinLemmas::numbers_bare, crate::proofs::JoinLemmas::length_more))]
fn grow(alloc: Global, rows: &mut Vec<Vec<u32>>, row: u32) -> Result<(), AllocError>
    ensures len { OnOk result (row < length rows.new.items) }
    ensures same { OnOk result ((r : ℕ) → numbers_in (slice_get rows.new.items r) ≡ numbers_in (slice_get rows.old.items r)) }
{
    while rows.len() <= row as usize {
        rows.push(Vec::new(alloc))?;
    }
    Ok(())
}

/// Adds a number to a row, which needn't be there yet.
fn add_row(alloc: Global, rows: &mut Vec<Vec<u32>>, row: u32, at: u32) -> Result<(), AllocError>
    ensures { OnOk result (AddsTo row at rows.old.items rows.new.items) }
{
    grow(alloc, rows, row)?;
    add_at(rows, row, at)
}

/// Adds an arc to those that come from a port of an actor.
fn add_in(
    alloc: Global,
    readers: &mut Vec<Vec<Vec<u32>>>,
    actor: u32,
    port: u32,
    at: u32,
) -> Result<(), AllocError>
    requires { actor < length readers.old.items }
    ensures { OnOk result (AddsIn actor port at readers.old.items readers.new.items) }
{
    add_row(alloc, &mut readers[actor as usize], port, at)
}

/// Notes that an operator reads from an actor.
fn add_follower(followers: &mut Vec<Vec<u32>>, actor: u32, follower: u32) -> Result<(), AllocError>
    requires { actor < length followers.old.items }
    ensures { OnOk result (AddsFollower actor follower followers.old.items followers.new.items) }
{
    if followers[actor as usize].contains(&follower) {
        return Ok(());
    }
    add_at(followers, actor, follower)
}

/// An arc is added to wires.
fn add_arc(alloc: Global, wires: &mut Wires, arc: Arc) -> Result<(), AllocError>
    requires to { arc.to < length wires.old.inputs.items }
    requires from { arc.from < length wires.old.readers.items }
    requires followed { arc.from < length wires.old.followers.items }
    requires few { length wires.old.arcs.items < 2 ^ 32 }
    ensures { OnOk result (AddsArc arc wires.old wires.new) }
{
    let at = wires.arcs.len() as u32;
    let from = arc.from;
    let port = arc.port;
    let to = arc.to;
    wires.arcs.push(arc)?;
    add_at(&mut wires.inputs, to, at)?;
    add_in(alloc, &mut wires.readers, from, port, at)?;
    add_follower(&mut wires.followers, from, to)
}

/// The arcs that an operator reads are added to wires.
fn join_all(
    alloc: Global,
    wires: &mut Wires,
    feeds: &[Vec<Feed>],
    actor: u32,
) -> Result<(), AllocError>
    requires feeds { AreFeeds wires.old.shown feeds.now }
    requires shown { wires.old.shown ≤ length feeds.now }
    requires there { actor < length feeds.now }
    requires joining { IsJoining wires.old.shown feeds.now actor 0 wires.old }
    ensures joining { OnOk result (IsJoining wires.old.shown feeds.now (actor + 1) 0 wires.new) }
    ensures fixed { OnOk result (Fixed wires.old wires.new) }
{
    let row = &feeds[actor as usize];
    for place in 0..row.len() {
        let feed = &row[place];
        let kinds = copy_kinds(alloc, feed.kinds.as_slice())?;
        let arc = Arc {
            from: feed.from,
            port: feed.port,
            to: actor,
            place: place as u32,
            kinds,
            marked: feed.marked,
        };
        add_arc(alloc, wires, arc)?;
    }
    Ok(())
}

/// So many rows with nothing in them.
#[tactic(auto, using(crate::proofs::JoinLemmas::numbers_bare, crate::proofs::JoinLemmas::length_more))]
fn bare_rows(alloc: Global, many: u32) -> Result<Vec<Vec<u32>>, AllocError>
    ensures len { IfOk result (λ v. length v.items ≡ many) }
    ensures empty { IfOk result (λ v. (r : ℕ) → numbers_in (slice_get v.items r) ≡ []) }
{
    let mut rows = Vec::new(alloc);
    for _row in 0..many {
        rows.push(Vec::new(alloc))?;
    }
    Ok(rows)
}

/// So many actors of which no port is read yet.
#[tactic(auto, using(crate::proofs::JoinLemmas::rows_bare, crate::proofs::JoinLemmas::length_more))]
fn bare_readers(alloc: Global, many: u32) -> Result<Vec<Vec<Vec<u32>>>, AllocError>
    ensures len { IfOk result (λ v. length v.items ≡ many) }
    ensures empty { IfOk result (λ v. (r : ℕ) → rows_in (slice_get v.items r) ≡ []) }
{
    let mut rows = Vec::new(alloc);
    for _row in 0..many {
        rows.push(Vec::new(alloc))?;
    }
    Ok(rows)
}

/// Wires in which each operator reads what the table says, by port.
pub(crate) fn wires_of(
    alloc: Global,
    sheds: u32,
    shown: u32,
    feeds: &[Vec<Feed>],
    order: Vec<u32>,
) -> Result<Wires, AllocError>
    requires { CanJoin sheds shown feeds.now order.items }
    ensures { IfOk result (JoinsAll sheds shown feeds.now order) }
{
    let ops = feeds.len() as u32;
    let mut wires = Wires {
        replay: ops,
        sheds,
        shown,
        arcs: Vec::new(alloc),
        inputs: bare_rows(alloc, ops)?,
        readers: bare_readers(alloc, ops + 1)?,
        followers: bare_rows(alloc, ops + 1)?,
        order,
    };
    for actor in 0..ops {
        join_all(alloc, &mut wires, feeds, actor)?;
    }
    Ok(wires)
}
