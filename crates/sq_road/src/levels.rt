//! The levels of the epochs that are closed.

ghost use Rattle.std.specs.Prelude.{◌≡◌, ◌==◌, ℕ, ◌+◌, ◌-◌, ◌^◌, ◌<◌, ◌≤◌, ◌++◌, ◌∷◌, [], length, OnOk, OnErr, slice_index};
ghost use Rattle.std.specs.List.{list_all};
ghost use Rattle.sq_road.specs.Levels.{LevelTable, level_of};

use sq_value::ListOf;
use std::alloc::{AllocError, Global};
use std::collections::BTreeMap;
use std::marker::Model;

/// The levels of the epochs that are closed: how many permille of its batches each drop throws away.
///
/// Epochs are numbered from 0, and each lasts equally many ticks. Contracts see a `LevelTable`.
#[derive(Drop)]
pub struct Levels {
    epoch: u64,
    closed: u64,
    rows: BTreeMap<u64, ListOf<u32>>,
}

impl Model for Levels {
    ghost use Rattle.std.specs.Prelude.{◌≤◌};
    ghost use Rattle.sq_road.specs.Levels.{LevelTable, AreBelow};

    ghost Value = { LevelTable };

    ghost view = { λ a. record { epoch = a.epoch; closed = a.closed; rows = a.rows.entries } };

    ghost invariant = { λ a. (1 ≤ a.epoch) × (1 ≤ a.closed) × AreBelow a.closed a.rows.entries };
}

impl Levels {
    /// The levels of a run that begins, for epochs of so many ticks: epoch 0 is closed, and every level is 0.
    pub fn new(alloc: Global, epoch: u64) -> Levels
        requires { 1 ≤ epoch }
        ensures { result ≡ record { epoch = epoch; closed = 1; rows = [] } }
    {
        Levels {
            epoch,
            closed: 1,
            rows: BTreeMap::new(alloc),
        }
    }

    /// How many ticks an epoch lasts.
    pub fn epoch(&self) -> u64
        ensures epoch { result ≡ self.now.epoch }
        ensures lasts { 1 ≤ result }
    {
        self.epoch
    }

    /// The levels of the epochs below this one are known.
    pub fn closed(&self) -> u64
        ensures closed { result ≡ self.now.closed }
        ensures begun { 1 ≤ result }
    {
        self.closed
    }

    /// How many epochs have levels that are kept: those that were set, and none that was skipped.
    pub fn kept(&self) -> u64
        ensures { result ≡ length self.now.rows }
    {
        self.rows.len() as u64
    }

    /// Closes epoch `e`, the next, with the levels of its drops. An `Err` changes nothing.
    pub fn set(&mut self, e: u64, of: Vec<u32>) -> Result<(), AllocError>
        requires next { e ≡ self.old.closed }
        requires fits { e < 2 ^ 64 - 1 }
        ensures table { OnOk result (self.new ≡ record self.old { closed = e + 1; rows = self.old.rows ++ (e, of.items) ∷ [] }) }
        ensures sets { OnOk result ((w : ℕ) → level_of self.new e w ≡ slice_index of.items w) }
        ensures keeps { (x w : ℕ) → x < self.old.closed → level_of self.new x w ≡ level_of self.old x w }
        ensures err { OnErr result (self.new ≡ self.old) }
    {
        self.rows.insert(e, ListOf::new(of))?;
        self.closed = e + 1;
        Ok(())
    }

    /// Closes all epochs below `e`; those that were not closed before have level 0. It takes no memory and walks over nothing.
    pub fn skip_to(&mut self, e: u64)
        requires { self.old.closed ≤ e }
        ensures table { self.new ≡ record self.old { closed = e } }
        ensures skips { (x w : ℕ) → self.old.closed ≤ x → level_of self.new x w ≡ 0 }
        ensures keeps { (x w : ℕ) → level_of self.new x w ≡ level_of self.old x w }
    {
        self.closed = e;
    }

    /// Closes epoch `e`, the next, with the levels of its drops, which are kept only where one isn't 0. An `Err` changes nothing.
    pub fn close(&mut self, e: u64, of: Vec<u32>) -> Result<(), AllocError>
        requires next { e ≡ self.old.closed }
        requires fits { e < 2 ^ 64 - 1 }
        ensures closed { OnOk result (self.new.closed ≡ e + 1) }
        ensures epoch { self.new.epoch ≡ self.old.epoch }
        ensures sets { OnOk result ((w : ℕ) → level_of self.new e w ≡ slice_index of.items w) }
        ensures keeps { (x w : ℕ) → x < self.old.closed → level_of self.new x w ≡ level_of self.old x w }
        ensures err { OnErr result (self.new ≡ self.old) }
    {
        if are_none(&of) {
            self.skip_to(e + 1);
            return Ok(());
        }
        self.set(e, of)
    }

    /// The level of drop `w` in a closed epoch, in permille; 0 for a drop of which that epoch has none.
    pub fn level(&self, e: u64, w: u32) -> u32
        requires { e < self.now.closed }
        ensures { result ≡ level_of self.now e w }
    {
        match self.rows.get(&e) {
            Some(row) => level_at(row.as_slice(), w),
            None => 0,
        }
    }
}

/// Whether all levels are 0.
fn are_none(of: &[u32]) -> bool
    ensures { result ≡ list_all (λ level. level == 0) of.now }
{
    of.iter().all(|level| *level == 0)
}

fn level_at(row: &[u32], w: u32) -> u32
    ensures { result ≡ slice_index row.now w }
{
    row.get(w as usize).copied().unwrap_or(0)
}
