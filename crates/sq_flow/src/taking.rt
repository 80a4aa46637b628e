//! Taking an item from an arc, and the tests that it passes.

ghost use Rattle.std.specs.Prelude.{◌≡◌, ◌+◌, ◌^◌, ◌<◌, ◌≤◌, true, length, IfOk, IfErr};
ghost use Rattle.sq_value.specs.Values.{is_of_kind, kinds_fit};
ghost use Rattle.sq_item.specs.SoundItems.{IsSoundItem};
ghost use Rattle.sq_item.specs.Things.{spread};
ghost use Rattle.sq_pool.specs.Trust.{known};
ghost use Rattle.sq_flow.specs.Causes.{MayTake, TakesItem, TakesNone, TouchesArc, LogGrows};
ghost use Rattle.sq_flow.specs.Takes.{MayBeFed, may_stand, mark_fits, kinds_take};

use crate::errors::RunErr;
use crate::wires::Arc;
use sq_item::{Body, Item, Sign};
use sq_oper::Position;
use sq_outside::PageDisk;
use sq_queue::{ArcQueues, Queues};
use sq_value::{Kind, Value};

#[inline(always)]
fn mark_fits(marked: bool, mark: &Sign) -> bool
    ensures { result ≡ mark_fits marked mark.now }
{
    marked || !mark.is_some()
}

/// A value is Null or of a kind. Both are told as numbers, since a branch for each kind is often guessed wrong.
#[inline(always)]
fn is_of(kind: Kind, value: &Value) -> bool
    ensures { result ≡ is_of_kind kind value.now }
{
    let asked: u8 = match kind {
        Kind::Int => 1,
        Kind::Bool => 2,
        Kind::Text => 3,
    };
    let there: u8 = match value {
        Value::Null => 0,
        Value::Int(_) => 1,
        Value::Bool(_) => 2,
        Value::Text(_) => 3,
    };
    there == 0 || there == asked
}

/// As many values as kinds, each Null or of its kind: it is asked of each tuple that is fed, so it goes over both at once.
#[tactic(auto, using(crate::proofs::TakeLemmas::kind_lemmas))]
#[inline]
fn kinds_fit(kinds: &[Kind], values: &[Value]) -> bool
    ensures { result ≡ kinds_fit kinds.now values.now }
{
    if values.len() != kinds.len() {
        return false;
    }
    for at in 0..kinds.len() {
        if !is_of(kinds[at], &values[at]) {
            return false;
        }
    }
    true
}

#[inline(always)]
fn kinds_take(kinds: &[Kind], body: &Body) -> bool
    ensures { result ≡ kinds_take kinds.now body.now }
{
    !body.is_some() || kinds_fit(kinds, body.as_slice())
}

/// What begins with a mark, or with a tuple, may stand behind this place.
#[inline(always)]
fn may_stand(place: Position, port: u32, time: u64, mark: bool) -> bool
    ensures { result ≡ may_stand place port time mark }
{
    match place {
        Position::Start => true,
        Position::At {
            time: last,
            port: before,
            marked,
        } => last < time
            || (last == time
                && if mark {
                    marked && before < port
                } else {
                    before <= port
                }),
    }
}

/// An item may come from an arc to a port of an operator that stands at this place.
#[tactic(auto, using(crate::proofs::TakeLemmas::take_lemmas))]
#[inline(always)]
fn may_be_fed(at: &Arc, port: u32, place: Position, clock: u64, item: &Item) -> bool
    requires { IsSoundItem item.now }
    ensures yes { result ≡ true → MayBeFed at.now port place clock item.now }
    ensures no { MayBeFed at.now port place clock item.now → result ≡ true }
{
    let stands = may_stand(place, port, item.time, item.mark.is_some());
    let fits = mark_fits(at.marked, &item.mark) && kinds_take(at.kinds.as_slice(), &item.body);
    item.time <= clock && fits && stands
}

/// How many marks and tuples an item has.
#[inline(always)]
fn weight_of(item: &Item) -> u64
    ensures weight { result ≡ length (spread item.now) }
    ensures few { result ≤ 2 }
{
    u64::from(item.mark.is_some()) + u64::from(item.body.is_some())
}

/// How many marks and tuples may be taken.
pub(crate) const LIMIT: u64 = 0x3FFF_FFFF_FFFF_FFFF;

/// Takes the first item of an arc, if it may be fed.
#[inline(always)]
pub(crate) fn take_item<D: PageDisk>(
    queues: &mut Queues,
    disk: &mut D,
    at: &Arc,
    arc: u32,
    port: u32,
    place: Position,
    clock: u64,
) -> Result<Item, RunErr>
    requires { MayTake queues.old (known (D.log disk.old)) arc }
    ensures ok { IfOk result (TakesItem (D.log disk.old) (D.log disk.new) queues.old queues.new at.now arc port place clock) }
    ensures err { IfErr result (TakesNone (D.log disk.old) (D.log disk.new) (D.faults disk.old) (D.faults disk.new) queues.old queues.new at.now arc port place clock) }
    ensures others { TouchesArc arc queues.old queues.new }
    ensures disk { LogGrows (D.log disk.old) (D.log disk.new) (D.faults disk.old) (D.faults disk.new) }
{
    let item = queues.pop(disk, arc)?;
    if !may_be_fed(at, port, place, clock, &item) {
        return Err(RunErr::Strange { arc, item });
    }
    Ok(item)
}

/// Counts what an item has, if it can be counted.
#[inline(always)]
pub(crate) fn count_item(taken: u64, item: &Item) -> Result<u64, RunErr>
    requires { taken < 2 ^ 62 }
    ensures ok { IfOk result (λ n. (n ≡ taken + length (spread item.now)) × (n < 2 ^ 62)) }
    ensures err { IfErr result (λ e. (e ≡ RunErr.TooMuch) × (2 ^ 62 ≤ taken + length (spread item.now))) }
    ensures few { length (spread item.now) ≤ 2 }
{
    let weight = weight_of(item);
    if taken + weight > LIMIT {
        return Err(RunErr::TooMuch);
    }
    Ok(taken + weight)
}
