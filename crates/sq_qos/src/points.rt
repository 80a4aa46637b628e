//! The points of a graph: whether they are one, and what it says.

ghost use Rattle.std.specs.Prelude.{◌≡◌, ℕ, ◌-◌, ◌*◌, ◌<◌, ◌≤◌, ◌^◌, true, None, slice_index};
ghost use Rattle.std.specs.List.{sum};
ghost use Rattle.std.specs.List.Sorted.{IsNonDecreasing};
ghost use Rattle.sq_qos.specs.Graphs.{graph_error, is_on_grid, first_x, last_x, rises, is_no_steeper, is_concave, value_at, on_line, scale, scaled_value, loss_steps_of, IsLossBetween};

use crate::{Frac, SCALE};

/// Whether each x is a multiple of 50 from `least` to 1000, each greater than the one before, and no y is too high.
pub fn on_grid(least: u32, points: &[(u32, u32)]) -> bool
    ensures { result ≡ is_on_grid least points.now }
{
    match points {
        [] => true,
        [p, rest @ ..] => {
            least <= p.0
                && p.0 <= 1000
                && p.0 % 50 == 0
                && p.1 <= 1_000_000
                && on_grid(p.0 + 1, rest)
        }
    }
}

/// The first x, or 1 where there is none.
pub fn start(points: &[(u32, u32)]) -> u32
    ensures { result ≡ first_x points.now }
{
    match points {
        [] => 1,
        [p, ..] => p.0,
    }
}

/// The last x, or 0 where there is none.
pub fn end(points: &[(u32, u32)]) -> u32
    ensures { result ≡ last_x points.now }
{
    match points {
        [] => 0,
        [p] => p.0,
        [_, rest @ ..] => end(rest),
    }
}

/// Whether no y is less than the y before.
pub fn is_rising(points: &[(u32, u32)]) -> bool
    ensures { result ≡ rises points.now }
{
    match points {
        [p, q, ..] => p.1 <= q.1 && is_rising(&points[1..]),
        _ => true,
    }
}

fn is_bend(p: (u32, u32), q: (u32, u32), r: (u32, u32)) -> bool
    requires in_order { p.0 ≤ q.0 }
    requires in_order_after { q.0 ≤ r.0 }
    requires rises { p.1 ≤ q.1 }
    requires rises_after { q.1 ≤ r.1 }
    ensures { result ≡ is_no_steeper p q r }
{
    u64::from(r.1 - q.1) * u64::from(q.0 - p.0) <= u64::from(q.1 - p.1) * u64::from(r.0 - q.0)
}

/// Whether no line is steeper than the line before.
pub fn bends_down(points: &[(u32, u32)]) -> bool
    requires grid { is_on_grid 0 points.now ≡ true }
    requires rises { rises points.now ≡ true }
    ensures { result ≡ is_concave points.now }
{
    match points {
        [p, q, r, ..] => is_bend(*p, *q, *r) && bends_down(&points[1..]),
        _ => true,
    }
}

fn on_segment(p: (u32, u32), q: (u32, u32), x: u32) -> Frac
    requires apart { p.0 < q.0 }
    requires rises { p.1 ≤ q.1 }
    requires after { p.0 ≤ x }
    requires before { x ≤ q.0 }
    requires wide { q.0 ≤ 1000 }
    requires high { q.1 ≤ 1000000 }
    ensures { result ≡ on_line p q x }
{
    let width = u128::from(q.0 - p.0);
    let rise = u128::from(q.1 - p.1);
    Frac::new(u128::from(p.1) * width + rise * u128::from(x - p.0), width)
}

/// The value at `x`, on the line between the two points around it.
pub fn value_on(points: &[(u32, u32)], x: u32) -> Frac
    requires grid { is_on_grid 0 points.now ≡ true }
    requires rises { rises points.now ≡ true }
    requires after { first_x points.now ≤ x }
    ensures { result ≡ value_at points.now x }
{
    match points {
        [] => Frac::new(0, 1),
        [p] => Frac::new(u128::from(p.1), 1),
        [p, q, ..] => {
            if x <= q.0 {
                on_segment(*p, *q, x)
            } else {
                value_on(&points[1..], x)
            }
        }
    }
}

fn scaled(points: &[(u32, u32)], x: u32) -> u128
    requires graph { graph_error points.now ≡ None }
    requires within { x ≤ 1000 }
    ensures value { result ≡ scaled_value points.now x }
    ensures small { result < 2 ^ 92 }
{
    let value = value_on(points, x);
    SCALE * value.num() / value.den()
}

/// What each step of 50 permille loses, from the last on.
pub fn losses_of(points: &[(u32, u32)], weight: u32) -> [u128; 20]
    requires graph { graph_error points.now ≡ None }
    requires light { weight ≤ 1000 }
    ensures losses { result ≡ loss_steps_of points.now weight }
    ensures whole { (k : ℕ) → 1 ≤ k → k ≤ 20 →
        IsLossBetween (value_at points.now (1000 - 50 * (k - 1))) (value_at points.now (1000 - 50 * k)) weight (slice_index result (k - 1)) }
    ensures in_order { IsNonDecreasing result }
    ensures together { sum result ≤ weight * (scale * 1000000) }
{
    let mut losses = [0; 20];
    let mut above = scaled(points, 1000);
    for i in 0..20u32 {
        let below = scaled(points, 950 - 50 * i);
        losses[i as usize] = u128::from(weight) * (above - below);
        above = below;
    }
    losses
}
