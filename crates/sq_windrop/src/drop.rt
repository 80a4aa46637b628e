//! The window drop.

ghost use Rattle.std.specs.Prelude.{◌≡◌, ℕ, ◌+◌, ◌-◌, ◌*◌, ◌/◌, ◌^◌, ◌<◌, ◌≤◌, ◌==◌, ◌++◌, ◌∷◌, true, false, List, [], None, Some, map, length, is_some, option_to_list, IsTrue, IfSome, IfOk, OnOk, OnErr, if◌then◌else◌};
ghost use Rattle.sq_value.specs.declared.Value.{Value};
ghost use Rattle.sq_words.specs.Lists.{IsPrefixOf};
ghost use Rattle.sq_item.specs.SoundItems.{IsBody, IsMark, IsSoundItem};
ghost use Rattle.sq_item.specs.Things.{Thing, body_part};
ghost use Rattle.sq_road.specs.Levels.{AgreesWith};
ghost use Rattle.sq_oper.specs.declared.tally.Position.{Position};
ghost use Rattle.sq_oper.specs.Entries.{Entry, entries};
ghost use Rattle.sq_oper.specs.Outflow.{given};
ghost use Rattle.sq_oper.specs.Giving.{Gave, KeepsGiven};
ghost use Rattle.sq_oper.specs.Laws.{Feeds};
ghost use Rattle.sq_oper.specs.Order.{IsFuture, unmarked};
ghost use Rattle.sq_oper.specs.Streams.{at_zero, tuples_of, port_fits};
ghost use Rattle.sq_tagged.specs.TaggedStreams.{mark_thing, spread_of};
ghost use Rattle.sq_tagged.specs.Boxes.{drop_tagged, batches_touched, until_at};
ghost use Rattle.sq_windrop.specs.Meanings.{drop_meaning};
ghost use Rattle.sq_windrop.specs.Drops.{IsDropping, IsBegunAlone, dropping, level_at, needed_of, for_tuple, is_batch_dropped, drop_mark, marks_for, decided, bound_of, first_new, newly, after_tuple, next_body, gives_body, decided_body, drop_rest, drop_decides, drop_reads, none_lost};

use crate::give::give_item;
use sq_item::{Body, Item, Mark, Sign};
use sq_oper::{Decision, Operator, Outlet, Position, Tally, tick_if};
use sq_outside::Steps;
use sq_road::{Levels, draw};
use sq_tagged::bound_of;
use sq_value::{Fields, Value};
use std::alloc::{AllocError, Global};
use std::sync::ledger::Ledger;

/// What a window drop is made with.
#[derive(Clone, Copy, Drop)]
pub struct Dropping {
    /// The number of the drop.
    pub number: u32,
    /// How many ticks a batch lasts.
    pub length: u64,
    /// For how many ticks after a batch its tuples are needed.
    pub keep: u64,
    /// How many ticks an epoch lasts.
    pub epoch: u64,
    pub seed: u64,
}

/// The first batch that wasn't touched, and the greatest bound of the marks that were given.
#[derive(Clone, Copy, Drop)]
pub struct Batches {
    pub next: u64,
    pub bound: u64,
}

/// Decides for each batch of windows, when a tuple first touches it, whether it is dropped, by the level of the epoch
/// in which it begins and a draw of its own. It gives a mark for each, and the tuples that a permitted batch needs.
/// Each goes out as an item; only a tuple that begins the one batch that it is the first to touch is one item with its
/// mark.
#[derive(Drop)]
pub struct WinDropBox {
    with: Dropping,
    batches: Batches,
    tally: Tally,
}

impl WinDropBox {
    /// A window drop that nothing was fed to. It takes every tuple at port 0, and no marks.
    pub fn new(w: u32, length: u64, keep: u64, epoch: u64, seed: u64) -> WinDropBox
        requires length { (1 ≤ length) × (length ≤ 2 ^ 34) }
        requires keep { keep < 4096 * length }
        requires epoch { 1 ≤ epoch }
        ensures marked { (table : ℕ → ℕ → ℕ) (future : List Entry) (q : ℕ)
            → IsFuture (⟦<WinDropBox as Operator>⟧.takes_marks result) (⟦<WinDropBox as Operator>⟧.fits result) Position.Start future
            → ⟦<WinDropBox as Operator>⟧.rest result table future q
            ≡ at_zero q (spread_of (drop_tagged (is_batch_dropped (dropping w length keep epoch seed) table) (until_at length keep) length (batches_touched length keep (tuples_of future)) (tuples_of future))) }
        ensures decides { (table : ℕ → ℕ → ℕ) (future : List Entry)
            → IsFuture (⟦<WinDropBox as Operator>⟧.takes_marks result) (⟦<WinDropBox as Operator>⟧.fits result) Position.Start future
            → ⟦<WinDropBox as Operator>⟧.decides result table future ≡ decided (dropping w length keep epoch seed) table (batches_touched length keep (tuples_of future)) }
        ensures fits { (port : ℕ) (fields : List Value) → ⟦<WinDropBox as Operator>⟧.fits result port fields ≡ (port == 0) }
        ensures takes_marks { (port : ℕ) → ⟦<WinDropBox as Operator>⟧.takes_marks result port ≡ false }
        ensures reads { (of : ℕ) → ⟦<WinDropBox as Operator>⟧.reads result of ≡ (of == epoch) }
        ensures holds { (time : ℕ) (things : List Thing) → ⟦<WinDropBox as Operator>⟧.may_hold result time things → things ≡ [] }
        ensures none_lost { (future : List Entry) → ⟦<WinDropBox as Operator>⟧.lost result future ≡ 0 }
        ensures start { (⟦<WinDropBox as Operator>⟧.place result ≡ Position.Start) × (⟦<WinDropBox as Operator>⟧.taken result ≡ 0) }
        ensures valid { ⟦<WinDropBox as Operator>⟧.valid result × IsTrue (⟦<WinDropBox as Operator>⟧.running result) }
    {
        WinDropBox {
            with: Dropping {
                number: w,
                length,
                keep,
                epoch,
                seed,
            },
            batches: Batches { next: 0, bound: 0 },
            tally: Tally::new(),
        }
    }
}

/// What a batch's draw makes of it at its level: its mark, and the decision where it is dropped.
fn draw_batch(with: &Dropping, batch: u64, level: u32) -> (Mark, Option<Decision>)
    requires limits { IsDropping with.now }
    requires begun { batch * with.now.length < 2 ^ 40 }
    ensures mark { (table : ℕ → ℕ → ℕ) → level_at with.now table batch ≡ level → result.0 ≡ (drop_mark with.now table batch).1 }
    ensures decision { (table : ℕ → ℕ → ℕ) → level_at with.now table batch ≡ level → option_to_list result.1 ≡ decided with.now table (batch ∷ []) }
    ensures sound { IsMark (Some result.0) }
{
    let drawn = draw(with.seed, with.number, batch);
    if drawn < level {
        let decision = Decision {
            drop: with.number,
            batch,
            level,
        };
        return (Mark::Closed, Some(decision));
    }
    let until = (batch + 1) * with.length + with.keep;
    (Mark::Open { until }, None)
}

/// A batch's mark goes out, alone or with a tuple of its time as one item, and behind it the decision where the batch
/// is dropped.
fn give_batch<T: Outlet>(
    time: u64,
    mark: Mark,
    decision: Option<Decision>,
    body: Body,
    out: &mut T,
) -> Result<(), AllocError>
    requires tick { time < 2 ^ 40 }
    requires mark { IsMark (Some mark) }
    requires body { IsBody body }
    requires is_ready { T.ready out.old }
    ensures given { OnOk result ((q : ℕ) → given q (T.items out.new) ≡ given q (T.items out.old) ++ at_zero q (mark_thing (time, mark) ∷ body_part time body)) }
    ensures drops { OnOk result ((T.drops out.new) ≡ (T.drops out.old) ++ option_to_list decision) }
    ensures prefix { OnErr result ((q : ℕ) → IsPrefixOf (given q (T.items out.new)) (given q (T.items out.old) ++ at_zero q (mark_thing (time, mark) ∷ body_part time body))) }
    ensures drops_err { OnErr result ((T.drops out.new) ≡ (T.drops out.old)) }
    ensures keeps { KeepsGiven T.Outlet out.old out.new }
    ensures one { length (T.items out.new) ≤ length (T.items out.old) + 1 }
    ensures stays_ready { OnOk result (T.ready out.new) }
{
    give_item(
        Item {
            time,
            mark: Sign::new(Some(mark)),
            body,
        },
        out,
    )?;
    let Some(decision) = decision else {
        return Ok(());
    };
    out.decide(decision)
}

/// Decides on a batch that a tuple of this time touches: its mark goes out, and a decision where it is dropped. Answers
/// the mark's bound.
fn decide<T: Outlet>(
    with: &Dropping,
    levels: &Levels,
    time: u64,
    batch: u64,
    out: &mut T,
) -> Result<u64, AllocError>
    requires limits { IsDropping with.now }
    requires tick { time < 2 ^ 40 }
    requires begun { batch * with.now.length ≤ time }
    requires epoch { with.now.epoch ≡ levels.now.epoch }
    requires level { time / levels.now.epoch < levels.now.closed }
    requires is_ready { T.ready out.old }
    ensures given { OnOk result ((table : ℕ → ℕ → ℕ) → AgreesWith levels.now table → (q : ℕ)
        → given q (T.items out.new) ≡ given q (T.items out.old) ++ at_zero q (mark_thing (drop_mark with.now table batch) ∷ [])) }
    ensures bound { IfOk result (λ bound. (table : ℕ → ℕ → ℕ) → AgreesWith levels.now table → bound ≡ bound_of (drop_mark with.now table batch)) }
    ensures drops { OnOk result ((table : ℕ → ℕ → ℕ) → AgreesWith levels.now table → (T.drops out.new) ≡ (T.drops out.old) ++ decided with.now table (batch ∷ [])) }
    ensures prefix { OnErr result ((table : ℕ → ℕ → ℕ) → AgreesWith levels.now table → (q : ℕ)
        → IsPrefixOf (given q (T.items out.new)) (given q (T.items out.old) ++ at_zero q (mark_thing (drop_mark with.now table batch) ∷ []))) }
    ensures drops_err { OnErr result ((T.drops out.new) ≡ (T.drops out.old)) }
    ensures keeps { KeepsGiven T.Outlet out.old out.new }
    ensures few { length (T.items out.new) ≤ length (T.items out.old) + 1 }
    ensures stays_ready { OnOk result (T.ready out.new) }
{
    let start = batch * with.length;
    let level = levels.level(start / with.epoch, with.number);
    let (mark, decision) = draw_batch(with, batch, level);
    let body = Body::none(out.alloc());
    give_batch(start, mark, decision, body, out)?;
    Ok(bound_of(mark))
}

/// The first batch that a tuple of this time can be the first to touch.
fn first_new(with: &Dropping, next: u64, time: u64) -> u64
    requires { IsDropping with.now }
    ensures { result ≡ first_new with.now next time }
{
    next.max(time.saturating_sub(with.keep) / with.length)
}

/// Decides on each batch that a tuple of this time is the first to touch, one after another.
fn touch_each<T: Outlet>(
    with: &Dropping,
    levels: &Levels,
    time: u64,
    batches: &mut Batches,
    out: &mut T,
) -> Result<(), AllocError>
    requires limits { IsDropping with.now }
    requires tick { time < 2 ^ 40 }
    requires epoch { with.now.epoch ≡ levels.now.epoch }
    requires level { time / levels.now.epoch < levels.now.closed }
    requires is_ready { T.ready out.old }
    ensures given { OnOk result ((table : ℕ → ℕ → ℕ) → AgreesWith levels.now table → (q : ℕ)
        → given q (T.items out.new) ≡ given q (T.items out.old) ++ at_zero q (map mark_thing (marks_for with.now table (newly with.now batches.old.next time)))) }
    ensures batches { OnOk result ((table : ℕ → ℕ → ℕ) → AgreesWith levels.now table → batches.new ≡ after_tuple with.now table batches.old time) }
    ensures drops { OnOk result ((table : ℕ → ℕ → ℕ) → AgreesWith levels.now table → (T.drops out.new) ≡ (T.drops out.old) ++ decided with.now table (newly with.now batches.old.next time)) }
    ensures prefix { OnErr result ((table : ℕ → ℕ → ℕ) → AgreesWith levels.now table → (q : ℕ)
        → IsPrefixOf (given q (T.items out.new)) (given q (T.items out.old) ++ at_zero q (map mark_thing (marks_for with.now table (newly with.now batches.old.next time))))) }
    ensures drops_prefix { OnErr result ((table : ℕ → ℕ → ℕ) → AgreesWith levels.now table
        → IsPrefixOf (T.drops out.new) ((T.drops out.old) ++ decided with.now table (newly with.now batches.old.next time))) }
    ensures keeps { KeepsGiven T.Outlet out.old out.new }
    ensures few { length (T.items out.new) ≤ length (T.items out.old) + length (newly with.now batches.old.next time) }
    ensures stays_ready { OnOk result (T.ready out.new) }
{
    let end = time / with.length + 1;
    let from = first_new(with, batches.next, time);
    let mut bound = batches.bound;
    for batch in from..end {
        let until = decide(with, levels, time, batch, out)?;
        bound = bound.max(until);
    }
    *batches = Batches {
        next: batches.next.max(end),
        bound,
    };
    Ok(())
}

/// The batch that a tuple of this time begins, where that is the one batch that it is the first to touch.
fn begun_alone(with: &Dropping, next: u64, time: u64) -> Option<u64>
    requires { IsDropping with.now }
    ensures some { IfSome result (λ batch. IsBegunAlone with.now next time batch) }
    ensures none { result ≡ None → (batch : ℕ) → ¬ (IsBegunAlone with.now next time batch) }
{
    let batch = time / with.length;
    if first_new(with, next, time) == batch && batch * with.length == time {
        return Some(batch);
    }
    None
}

/// The tuple, if it is before the bound.
fn needed(time: u64, bound: u64, fields: Fields, alloc: Global) -> Body
    requires { IsBody (Some fields) }
    ensures { result ≡ needed_of time bound fields }
{
    if time < bound {
        return Body::some(fields);
    }
    Body::none(alloc)
}

/// Takes a tuple that begins the one batch that it is the first to touch: the mark and the tuple go out as one item, or
/// the mark alone where the tuple isn't needed, and behind it the decision where the batch is dropped.
fn begin_batch<T: Outlet>(
    with: &Dropping,
    levels: &Levels,
    time: u64,
    batch: u64,
    fields: Fields,
    batches: &mut Batches,
    out: &mut T,
) -> Result<(), AllocError>
    requires limits { IsDropping with.now }
    requires tick { time < 2 ^ 40 }
    requires begun { IsBegunAlone with.now batches.old.next time batch }
    requires body { IsBody (Some fields) }
    requires epoch { with.now.epoch ≡ levels.now.epoch }
    requires level { time / levels.now.epoch < levels.now.closed }
    requires is_ready { T.ready out.old }
    ensures given { OnOk result ((table : ℕ → ℕ → ℕ) → AgreesWith levels.now table → (q : ℕ)
        → given q (T.items out.new) ≡ given q (T.items out.old) ++ at_zero q (for_tuple with.now table batches.old time fields)) }
    ensures batches { OnOk result ((table : ℕ → ℕ → ℕ) → AgreesWith levels.now table → batches.new ≡ after_tuple with.now table batches.old time) }
    ensures drops { OnOk result ((table : ℕ → ℕ → ℕ) → AgreesWith levels.now table → (T.drops out.new) ≡ (T.drops out.old) ++ decided with.now table (newly with.now batches.old.next time)) }
    ensures prefix { OnErr result ((table : ℕ → ℕ → ℕ) → AgreesWith levels.now table → (q : ℕ)
        → IsPrefixOf (given q (T.items out.new)) (given q (T.items out.old) ++ at_zero q (for_tuple with.now table batches.old time fields))) }
    ensures drops_err { OnErr result ((T.drops out.new) ≡ (T.drops out.old)) }
    ensures keeps { KeepsGiven T.Outlet out.old out.new }
    ensures one { length (T.items out.new) ≤ length (T.items out.old) + 1 }
    ensures stays_ready { OnOk result (T.ready out.new) }
{
    let level = levels.level(time / with.epoch, with.number);
    let (mark, decision) = draw_batch(with, batch, level);
    let bound = batches.bound.max(bound_of(mark));
    let body = needed(time, bound, fields, out.alloc());
    give_batch(time, mark, decision, body, out)?;
    *batches = Batches {
        next: batch + 1,
        bound,
    };
    Ok(())
}

/// Gives a tuple, if it is before the bound.
#[inline(always)]
fn give_needed<T: Outlet>(
    time: u64,
    bound: u64,
    fields: Fields,
    out: &mut T,
) -> Result<(), AllocError>
    requires tick { time < 2 ^ 40 }
    requires body { IsBody (Some fields) }
    requires is_ready { T.ready out.old }
    ensures gives { Gave T.Outlet (λ q. at_zero q (body_part time (needed_of time bound fields))) out.old out.new result }
    ensures one { length (T.items out.new) ≤ length (T.items out.old) + 1 }
{
    if time < bound {
        return give_item(
            Item {
                time,
                mark: Sign::none(),
                body: Body::some(fields),
            },
            out,
        );
    }
    Ok(())
}

/// Takes an item's tuple: the marks of the batches that it is the first to touch, and then itself, if it is needed;
/// where it begins the one such batch, both are one item. Most tuples are the first to touch none, which a product
/// tells.
fn take<T: Outlet>(
    with: &Dropping,
    levels: &Levels,
    time: u64,
    body: Body,
    batches: &mut Batches,
    out: &mut T,
) -> Result<(), AllocError>
    requires limits { IsDropping with.now }
    requires tick { time < 2 ^ 40 }
    requires body { IsBody body }
    requires epoch { with.now.epoch ≡ levels.now.epoch }
    requires level { time / levels.now.epoch < levels.now.closed }
    requires is_ready { T.ready out.old }
    ensures given { OnOk result ((table : ℕ → ℕ → ℕ) → AgreesWith levels.now table → (q : ℕ)
        → given q (T.items out.new) ≡ given q (T.items out.old) ++ at_zero q (gives_body with.now table batches.old time body)) }
    ensures batches { OnOk result ((table : ℕ → ℕ → ℕ) → AgreesWith levels.now table → batches.new ≡ next_body with.now table batches.old time body) }
    ensures drops { OnOk result ((table : ℕ → ℕ → ℕ) → AgreesWith levels.now table → (T.drops out.new) ≡ (T.drops out.old) ++ decided_body with.now table batches.old time body) }
    ensures prefix { OnErr result ((table : ℕ → ℕ → ℕ) → AgreesWith levels.now table → (q : ℕ)
        → IsPrefixOf (given q (T.items out.new)) (given q (T.items out.old) ++ at_zero q (gives_body with.now table batches.old time body))) }
    ensures drops_prefix { OnErr result ((table : ℕ → ℕ → ℕ) → AgreesWith levels.now table
        → IsPrefixOf (T.drops out.new) ((T.drops out.old) ++ decided_body with.now table batches.old time body)) }
    ensures keeps { KeepsGiven T.Outlet out.old out.new }
    ensures few { length (T.items out.new) ≤ length (T.items out.old) + 1 + length (newly with.now batches.old.next time) }
    ensures one { (batch : ℕ) → IsBegunAlone with.now batches.old.next time batch → length (T.items out.new) ≤ length (T.items out.old) + 1 }
    ensures stays_ready { OnOk result (T.ready out.new) }
{
    let Some(fields) = body.get() else {
        return Ok(());
    };
    let end = batches.next.saturating_mul(with.length);
    if time < end {
        return give_needed(time, batches.bound, fields, out);
    }
    if let Some(batch) = begun_alone(with, batches.next, time) {
        return begin_batch(with, levels, time, batch, fields, batches, out);
    }
    touch_each(with, levels, time, batches, out)?;
    give_needed(time, batches.bound, fields, out)
}

impl Operator for WinDropBox {
    ghost valid = { λ s. IsDropping s.with };

    ghost running = { λ s. s.tally.running };

    ghost taken = { λ s. s.tally.taken };

    ghost place = { λ s. s.tally.place };

    ghost takes_marks = { λ s. unmarked };

    ghost fits = { λ s. port_fits };

    ghost reads = { λ s. drop_reads s.with };

    ghost rest = { λ s table future q. drop_rest s.with table s.batches future q };

    ghost decides = { λ s table future. drop_decides s.with table s.batches future };

    ghost may_hold = { λ s time things. things ≡ [] };

    ghost lost = { λ s. none_lost };

    fn feed<L: Ledger, T: Outlet>(
        &mut self,
        levels: &Levels,
        port: u32,
        item: Item,
        out: &mut T,
        steps: &mut Steps<L>,
    ) -> Result<(), AllocError>
        requires is_valid { IsDropping self.old.with }
        requires is_running { IsTrue self.old.tally.running }
        requires may_come { IsFuture unmarked port_fits self.old.tally.place (entries port item) }
        requires is_sound { IsSoundItem item }
        requires has_epoch { IsTrue (drop_reads self.old.with levels.now.epoch) }
        requires has_level { item.time / levels.now.epoch < levels.now.closed }
        requires has_room { is_some item.body ≡ true → self.old.tally.taken < 2 ^ 62 - 1 }
        requires is_ready { T.ready out.old }
        ensures feeds { Feeds T.Outlet levels.now port item (drop_meaning self.old) (drop_meaning self.new) out.old out.new steps.old steps.new result }
        // A drop appends the marks of few batches at once, one for each batch that a tuple is the first to touch; where the tuple begins
        // the one such batch, its mark is one item with the tuple.
        ensures few { length (T.items out.new) ≤ length (T.items out.old) + 4098 }
        ensures each { length (T.items out.new) ≤ length (T.items out.old) + 1 + length (newly self.old.with self.old.batches.next item.time) }
        ensures one { (batch : ℕ) → IsBegunAlone self.old.with self.old.batches.next item.time batch → length (T.items out.new) ≤ length (T.items out.old) + 1 }
    {
        self.tally.note(port, &item);
        let fed = item.body.is_some();
        take(
            &self.with,
            levels,
            item.time,
            item.body,
            &mut self.batches,
            out,
        )?;
        tick_if(steps, fed);
        Ok(())
    }

    fn finish<T: Outlet>(&mut self, _out: &mut T) -> Result<(), AllocError> {
        self.tally.running = false;
        Ok(())
    }
}
