// What is seen of a place from an arc below it.
ghost use Rattle.std.specs.Prelude.{◌≡◌};
ghost use Rattle.sq_seen.specs.Reaches.{nothing, itself, join, past, later, sooner_reach};

use crate::numbers::{capped, capped_lcm};
use sq_aggfn::WindowSpec;

/// What is seen of a place from an arc, or from behind a box: how far it lies at most, where a path leads from it; whether
/// one leads without an Aggregate; and of the last Aggregates on the paths, the least common multiple of the advances, as
/// far as it is of use, and the least margin: how long, at the least, the last start before a multiple of an advance lies
/// before it.
#[derive(Clone, Copy, PartialEq, Eq, Drop)]
pub struct Seen {
    pub dist: Option<u64>,
    pub bare: bool,
    pub common: u64,
    pub least: Option<u64>,
}

/// No path leads from the place.
pub fn nothing() -> Seen
    ensures { result ≡ nothing }
{
    Seen {
        dist: None,
        bare: false,
        common: 1,
        least: None,
    }
}

/// The arc is the place's own.
pub fn itself() -> Seen
    ensures { result ≡ itself }
{
    Seen {
        dist: Some(0),
        bare: true,
        common: 1,
        least: None,
    }
}

fn later(a: Option<u64>, b: Option<u64>) -> Option<u64>
    ensures { result ≡ later a b }
{
    match (a, b) {
        (None, d) => d,
        (Some(n), None) => Some(n),
        (Some(n), Some(m)) => Some(n.max(m)),
    }
}

fn sooner_reach(a: Option<u64>, b: Option<u64>) -> Option<u64>
    ensures { result ≡ sooner_reach a b }
{
    match (a, b) {
        (None, d) => d,
        (Some(n), None) => Some(n),
        (Some(n), Some(m)) => Some(n.min(m)),
    }
}

/// What is seen from both of two arcs.
pub fn join(a: Seen, b: Seen) -> Seen
    ensures { result ≡ join a b }
{
    Seen {
        dist: later(a.dist, b.dist),
        bare: a.bare || b.bare,
        common: capped_lcm(a.common, b.common),
        least: sooner_reach(a.least, b.least),
    }
}

/// What is seen from behind an Aggregate, or another box.
pub fn past(window: Option<WindowSpec>, before: Seen) -> Seen
    ensures { result ≡ past window before }
{
    let Some(w) = window else {
        return before;
    };
    let Some(dist) = before.dist else {
        return nothing();
    };
    Seen {
        dist: Some(dist.saturating_add(w.size.saturating_sub(1))),
        bare: false,
        common: capped(w.advance),
        least: Some(w.advance.saturating_sub(w.phase)),
    }
}
