//! What a sorter holds, in order of time, and then of entry.

ghost use Rattle.std.specs.Prelude.{◌≡◌, ℕ, ◌+◌, ◌-◌, ◌<◌, ◌≤◌, true, false, [], ◌++◌, length, take, drop, get_or, OnErr, OnOk};
ghost use Rattle.std.specs.List.{AllByRecursion, insert};
ghost use Rattle.std.specs.Option.{option_to_list};
ghost use Rattle.sq_lists.specs.Sorters.{put_in, first_of_all, after_first};
ghost use Rattle.sq_lists.specs.Buffers.{Held, held_of, comes_before, both_of, AreInOrder};

use sq_value::{Fields, Tuple};
use std::alloc::{AllocError, Global};
use std::collections::{BTreeMap, VecDeque};
use std::marker::Model;

/// A tuple whose place is before so many near entries, or more, goes among the far ones.
const REACH: usize = 16;

/// Tuples with their numbers, in order of time, and then of number.
///
/// Most tuples come nearly in order, so their places are among the last: these stand in a queue. One whose place is
/// further from the end goes into a map, where no place costs more than another.
#[derive(Drop)]
pub struct Buffer {
    near: VecDeque<((u64, u64), Fields)>,
    far: BTreeMap<(u64, u64), Fields>,
}

impl Model for Buffer {
    ghost use Rattle.std.specs.Prelude.{List};
    ghost use Rattle.sq_lists.specs.Sorting.{Numbered};
    ghost use Rattle.sq_lists.specs.Buffers.{both_of, AreInOrder};

    ghost Value = { List Numbered };

    ghost view = { λ a. both_of a.near.items a.far.entries };

    ghost invariant = { λ a. AreInOrder a.near.items };
}

/// Whether one time and number come before another.
fn is_before(a: &(u64, u64), b: &(u64, u64)) -> bool
    ensures { result ≡ comes_before a.now b.now }
{
    a.0 < b.0 || a.0 == b.0 && a.1 < b.1
}

/// The place behind the last entry whose time is not later, which is sought from the end.
fn place_near(near: &VecDeque<((u64, u64), Fields)>, time: u64) -> usize
    ensures within { result ≤ length near.now.items }
    ensures last { (d : Held) → 0 < result → (get_or near.now.items (result - 1) d).0.0 ≤ time }
    ensures after { AllByRecursion (λ e. time < e.0.0) (drop result near.now.items) }
{
    let mut place = near.len();
    while place > 0 && near[place - 1].0.0 > time {
        place -= 1;
    }
    place
}

/// Puts an entry at a place of the queue. An `Err` changes nothing.
fn put_near(
    near: &mut VecDeque<((u64, u64), Fields)>,
    place: usize,
    key: (u64, u64),
    fields: Fields,
) -> Result<(), AllocError>
    requires within { place ≤ length near.old.items }
    ensures ok { OnOk result (near.new.items ≡ insert near.old.items place (key, fields)) }
    ensures err { OnErr result (near.new.items ≡ near.old.items) }
{
    if place == near.len() {
        near.push_back((key, fields))?;
        return Ok(());
    }
    near.insert(place, (key, fields))?;
    Ok(())
}

/// Whether the first of the near entries comes before all others; if not, the first of the far ones does.
fn is_near_first(near: &VecDeque<((u64, u64), Fields)>, far: &BTreeMap<(u64, u64), Fields>) -> bool
    requires order { AreInOrder near.now.items }
    ensures near { result ≡ true → both_of near.now.items far.now.entries ≡ held_of (take 1 near.now.items) ++ both_of (drop 1 near.now.items) far.now.entries }
    ensures far { result ≡ false → both_of near.now.items far.now.entries ≡ held_of (take 1 far.now.entries) ++ both_of near.now.items (drop 1 far.now.entries) }
    ensures none { result ≡ true → length near.now.items ≡ 0 → length far.now.entries ≡ 0 }
    ensures some { result ≡ false → 0 < length far.now.entries }
{
    if far.is_empty() {
        return true;
    }
    match (near.front(), far.first_key_value()) {
        (Some((a, _)), Some((b, _))) => is_before(a, b),
        _ => false,
    }
}

impl Buffer {
    /// A buffer that holds nothing.
    pub fn new(alloc: Global) -> Buffer
        ensures { result ≡ [] }
    {
        Buffer {
            near: VecDeque::new(alloc),
            far: BTreeMap::new(alloc),
        }
    }

    /// How many are held.
    pub fn len(&self) -> usize
        ensures { result ≡ length self.now }
    {
        self.near.len() + self.far.len()
    }

    /// Takes a tuple with a number that is greater than all that are held. An `Err` changes nothing.
    #[inline(always)]
    pub fn put(&mut self, time: u64, number: u64, fields: Fields) -> Result<(), AllocError>
        requires greater { AllByRecursion (λ a. a.0 < number) self.old }
        ensures ok { OnOk result (self.new ≡ put_in (number, record { time = time; fields = fields }) self.old) }
        ensures err { OnErr result (self.new ≡ self.old) }
    {
        let len = self.near.len();
        if len >= REACH && self.near[len - REACH].0.0 > time {
            self.far.insert((time, number), fields)?;
            return Ok(());
        }
        let place = place_near(&self.near, time);
        put_near(&mut self.near, place, (time, number), fields)
    }

    /// Takes out the first, if there is one.
    #[inline(always)]
    pub fn take_first(&mut self) -> Option<Tuple>
        ensures gives { option_to_list result ≡ first_of_all self.old }
        ensures rest { self.new ≡ after_first self.old }
    {
        if is_near_first(&self.near, &self.far) {
            let ((time, _), fields) = self.near.pop_front()?;
            return Some(Tuple { time, fields });
        }
        let ((time, _), fields) = self.far.pop_first()?;
        Some(Tuple { time, fields })
    }
}
