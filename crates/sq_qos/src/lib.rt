//! Fractions, quality graphs and what they lose.
//!
//! The contracts promise that fractions compare and add as fractions, that a graph's value and losses are those of
//! the lines between its points, with nothing cut off, and that the losses of a graph don't fall from step to step.
//! Below stands std alone.
#![tactic(auto)]

ghost use Rattle.std.specs.Prelude.{◌≡◌, ℕ, ◌+◌, ◌-◌, ◌*◌, ◌<◌, ◌≤◌, ◌^◌, None, Some, IfOk, MatchResult, slice_index};
ghost use Rattle.std.proofs.Common.{refl};
ghost use Rattle.std.specs.List.{sum};
ghost use Rattle.std.specs.List.Sorted.{IsNonDecreasing};
ghost use Rattle.std.specs.Ordering.{as_partial_cmp, eq_by_cmp};
ghost use Rattle.sq_qos.specs.Ratios.{fractions_tie, fractions_equal, fractions_partly_ordered, fractions_ordered};
ghost use Rattle.sq_qos.specs.Graphs.{ratio_cmp, ratio_sum, graph_error, value_at, scale, loss_steps_of, IsLossBetween};

mod points;

use std::cmp::Ordering;
use std::marker::Model;
use thiserror::Error;

/// A fraction of numbers below 2^64, the lower of them not 0. Equality and order are those of fractions, so 1/2 equals 2/4.
#[derive(Clone, Copy, Drop)]
pub struct Frac {
    num: u128,
    den: u128,
}

impl Model for Frac {
    ghost use Rattle.std.specs.Prelude.{◌<◌, ◌≤◌, ◌^◌};
    ghost use Rattle.sq_qos.specs.Graphs.{Ratio};

    ghost Value = { Ratio };

    ghost view = { λ a. record { num = a.num; den = a.den } };

    ghost invariant = { λ a. (a.num < 2 ^ 64) × (1 ≤ a.den) × (a.den < 2 ^ 64) };

    ghost inverse = { λ a. record { num = a.num; den = a.den } };
}

impl Frac {
    /// The fraction of two numbers.
    pub fn new(num: u128, den: u128) -> Frac
        requires num { num < 2 ^ 64 }
        requires den { 1 ≤ den }
        requires den_fits { den < 2 ^ 64 }
        ensures { result ≡ record { num = num; den = den } }
    {
        Frac { num, den }
    }

    /// The number above.
    pub fn num(&self) -> u128
        ensures num { result ≡ self.now.num }
        ensures fits { result < 2 ^ 64 }
    {
        self.num
    }

    /// The number below, which isn't 0.
    pub fn den(&self) -> u128
        ensures den { result ≡ self.now.den }
        ensures some { 1 ≤ result }
        ensures fits { result < 2 ^ 64 }
    {
        self.den
    }

    /// The sum of two fractions, over the product of what stands below them.
    pub fn plus(self, other: Frac) -> Frac
        requires num { self.num * other.den + other.num * self.den < 2 ^ 64 }
        requires den { self.den * other.den < 2 ^ 64 }
        ensures { result ≡ ratio_sum self other }
    {
        Frac {
            num: self.num * other.den + other.num * self.den,
            den: self.den * other.den,
        }
    }
}

impl PartialEq for Frac {
    ghost eq = { eq_by_cmp ratio_cmp };

    ghost laws = { fractions_tie };

    fn eq(&self, other: &Frac) -> bool {
        self.num * other.den == other.num * self.den
    }
}

impl Eq for Frac {
    ghost laws = { fractions_equal };
}

impl PartialOrd for Frac {
    ghost partial_cmp = { as_partial_cmp ratio_cmp };

    ghost laws = { fractions_partly_ordered };

    fn partial_cmp(&self, other: &Frac) -> Option<Ordering> {
        Some(self.cmp(other))
    }
}

impl Ord for Frac {
    ghost cmp = { ratio_cmp };

    ghost total = { fractions_ordered };

    ghost matches_partial_cmp = { λ x y. refl };

    ghost matches_eq = { λ x y. refl };

    fn cmp(&self, other: &Frac) -> Ordering {
        (self.num * other.den).cmp(&(other.num * self.den))
    }
}

/// A quality graph: what an output is worth where a part of its tuples is shown (after the quality-of-service
/// graphs of Aurora: Carney and others, VLDB 2002). Its points have the part in permille and the worth; between
/// two points it is a line, and no line is steeper than the one before. Contracts see the list of its points.
#[derive(Drop)]
pub struct Graph {
    points: Vec<(u32, u32)>,
}

impl Model for Graph {
    ghost use Rattle.std.specs.Prelude.{◌≡◌, None};
    ghost use Rattle.sq_qos.specs.Graphs.{Points, graph_error};

    ghost Value = { Points };

    ghost view = { λ a. a.points.items };

    ghost invariant = { λ a. graph_error a.points.items ≡ None };
}

/// Why points are no graph.
#[derive(Clone, Copy, Debug, PartialEq, Eq, Drop, Error)]
pub enum GraphErr {
    /// There are more than 21.
    #[error("more than 21 points")]
    TooMany,
    /// A part isn't a multiple of 50 of at most 1000 permille that is greater than the one before, or a worth is over 1,000,000.
    #[error("a point is off the grid")]
    Grid,
    /// There are fewer than two, the first isn't at 0 or the last not at 1000 permille.
    #[error("the points don't go from 0 to 1000 permille")]
    Ends,
    /// A worth is less than the one before.
    #[error("a worth falls")]
    Falls,
    /// A line is steeper than the one before.
    #[error("a line is steeper than the one before")]
    NotConcave,
    #[error("out of memory")]
    Memory,
}

/// The least common multiple of 1 to 20: a graph's value at a multiple of 50, times this, is whole.
pub const SCALE: u128 = 232_792_560;

impl Graph {
    /// The graph of these points, or the first reason, in the order of `GraphErr`, why they are none. It takes no memory.
    pub fn new(points: Vec<(u32, u32)>) -> Result<Graph, GraphErr>
        ensures graph { IfOk result (λ g. g ≡ points.items) }
        ensures exact { MatchResult result (λ _. graph_error points.items ≡ None) (λ e. graph_error points.items ≡ Some e) }
    {
        if points.len() > 21 {
            return Err(GraphErr::TooMany);
        }
        if !points::on_grid(0, &points) {
            return Err(GraphErr::Grid);
        }
        if points.len() < 2 || points::start(&points) != 0 || points::end(&points) != 1000 {
            return Err(GraphErr::Ends);
        }
        if !points::is_rising(&points) {
            return Err(GraphErr::Falls);
        }
        if !points::bends_down(&points) {
            return Err(GraphErr::NotConcave);
        }
        Ok(Graph { points })
    }

    /// The value where so many permille are shown, on the line between the two points around it.
    pub fn value_at(&self, permille: u32) -> Frac
        requires { permille ≤ 1000 }
        ensures { result ≡ value_at self.now permille }
    {
        points::value_on(&self.points, permille)
    }

    /// What is lost by each step of 50 permille, from 1000 permille down, times the weight and `SCALE`; with no fraction cut off.
    pub fn loss_steps(&self, weight: u32) -> [u128; 20]
        requires { weight ≤ 1000 }
        ensures losses { result ≡ loss_steps_of self.now weight }
        ensures whole { (k : ℕ) → 1 ≤ k → k ≤ 20 →
            IsLossBetween (value_at self.now (1000 - 50 * (k - 1))) (value_at self.now (1000 - 50 * k)) weight (slice_index result (k - 1)) }
        ensures in_order { IsNonDecreasing result }
        ensures together { sum result ≤ weight * (scale * 1000000) }
    {
        points::losses_of(&self.points, weight)
    }
}
