//! The buffer of a BSort.

ghost use Rattle.std.specs.Prelude.{◌≡◌, ◌+◌, ◌-◌, ◌^◌, ◌<◌, length, OnErr, OnOk, IfOk};
ghost use Rattle.std.specs.Option.{option_to_list};
ghost use Rattle.sq_lists.specs.Sorting.{without_late};
ghost use Rattle.sq_lists.specs.Sorters.{new_sorter, first_of_all, after_first, latest_of, sort_gives, sort_next, sort_first, sort_after};

use crate::buffer::Buffer;
use sq_value::{Fields, Tuple};
use std::alloc::{AllocError, Global};
use std::marker::Model;

/// Holds at most `slack` tuples, and gives the least in time of one more; the first of equal times goes first.
///
/// A tuple that is smaller in time than one that was given before is late, and is not given.
#[derive(Drop)]
pub struct Sorter {
    slack: u32,
    /// By time, and then by the order of entry.
    held: Buffer,
    number: u64,
    latest: u64,
    given: u64,
}

impl Model for Sorter {
    ghost use Rattle.sq_lists.specs.Sorters.{SorterState, IsSorter};

    ghost Value = { SorterState };

    ghost view = { λ a. record { slack = a.slack; held = a.held; number = a.number; latest = a.latest; given = a.given } };

    ghost invariant = { λ a. IsSorter (record { slack = a.slack; held = a.held; number = a.number; latest = a.latest; given = a.given }) };
}

/// Takes out the first of the held tuples, and gives it unless it is late.
#[inline(always)]
fn take_on_time(held: &mut Buffer, latest: &mut u64) -> Option<Tuple>
    ensures gives { option_to_list result ≡ without_late latest.old (first_of_all held.old) }
    ensures held { held.new ≡ after_first held.old }
    ensures latest { latest.new ≡ latest_of latest.old (first_of_all held.old) }
{
    let first = held.take_first()?;
    if first.time < *latest {
        return None;
    }
    *latest = first.time;
    Some(first)
}

impl Sorter {
    /// A sorter that holds nothing.
    pub fn new(alloc: Global, slack: u32) -> Sorter
        ensures { result ≡ new_sorter slack }
    {
        Sorter {
            slack,
            held: Buffer::new(alloc),
            number: 0,
            latest: 0,
            given: 0,
        }
    }

    /// How many are held.
    pub fn len(&self) -> usize
        ensures { result ≡ length self.now.held }
    {
        self.held.len()
    }

    /// How many were given.
    pub fn given(&self) -> u64
        ensures { result ≡ self.now.given }
    {
        self.given
    }

    /// Takes a tuple of this time. Where more than `slack` are held then, the first goes out, and is given unless it is
    /// late. An `Err` changes nothing.
    #[inline(always)]
    pub fn put(&mut self, time: u64, fields: Fields) -> Result<Option<Tuple>, AllocError>
        requires room { self.old.number < 2 ^ 64 - 1 }
        ensures next { OnOk result (self.new ≡ sort_next self.old (record { time = time; fields = fields })) }
        ensures gives { IfOk result (λ o. option_to_list o ≡ sort_gives self.old (record { time = time; fields = fields })) }
        ensures err { OnErr result (self.new ≡ self.old) }
    {
        self.held.put(time, self.number, fields)?;
        self.number += 1;
        if self.held.len() <= self.slack as usize {
            return Ok(None);
        }
        let first = take_on_time(&mut self.held, &mut self.latest);
        self.given += u64::from(first.is_some());
        Ok(first)
    }

    /// The first of the held tuples goes out, and is given unless it is late.
    pub fn take_first(&mut self) -> Option<Tuple>
        ensures next { self.new ≡ sort_after self.old }
        ensures gives { option_to_list result ≡ sort_first self.old }
    {
        let first = take_on_time(&mut self.held, &mut self.latest);
        self.given += u64::from(first.is_some());
        first
    }
}
