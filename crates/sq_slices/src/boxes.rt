// How far a slice of what a box gives reaches, where its inputs have these reaches.
ghost use Rattle.std.specs.Prelude.{◌≡◌, ◌<◌, ◌≤◌, ◌^◌, Some, length, true};
ghost use Rattle.std.specs.Option.{IfSome, option_map};
ghost use Rattle.sq_aggfn.specs.Windows.{IsWindow};
ghost use Rattle.sq_net.specs.SoundNetworks.{HasWindow, body_within};
ghost use Rattle.sq_slices.specs.Bounds.{AreLow, IsLow};
ghost use Rattle.sq_slices.specs.Reaches.{beside_reach, both_reaches, both_if, box_reach, earlier_reach, later_reach, own_reach, reach_numbered, sorted_reach, starts, union_reach, windowed};

use crate::cuts::ahead_from;
use crate::{Grid, Reach};
use sq_aggfn::WindowSpec;
use sq_net::Body;

pub(crate) fn own_reach() -> Reach
    ensures { result ≡ own_reach }
{
    Reach {
        back: 0,
        ahead: 0,
        cuts: Grid { step: 1, phase: 0 },
    }
}

fn earlier_reach(before: u64, r: Reach) -> Reach
    requires before { before ≤ 2 ^ 40 }
    requires low { IsLow (2 ^ 60) r }
    ensures { result ≡ earlier_reach before r }
{
    Reach {
        back: before + r.back,
        ahead: r.ahead,
        cuts: r.cuts,
    }
}

fn later_reach(more: u64, r: Reach) -> Reach
    requires more { more ≤ 2 ^ 40 }
    requires low { IsLow (2 ^ 60) r }
    ensures { result ≡ later_reach more r }
{
    Reach {
        back: r.back,
        ahead: ahead_from(r.cuts, more, r),
        cuts: r.cuts,
    }
}

fn beside_reach(r: Reach, q: Reach) -> Reach
    requires first { IsLow (2 ^ 60) r }
    requires second { IsLow (2 ^ 60) q }
    ensures { result ≡ beside_reach r q }
{
    Reach {
        back: r.back.max(q.back),
        ahead: r.ahead.max(ahead_from(r.cuts, 0, q)),
        cuts: r.cuts,
    }
}

fn both_reaches(r: Reach, q: Reach) -> Reach
    requires first { IsLow (2 ^ 60) r }
    requires second { IsLow (2 ^ 60) q }
    ensures { result ≡ both_reaches r q }
{
    if q.cuts.step <= r.cuts.step {
        beside_reach(r, q)
    } else {
        beside_reach(q, r)
    }
}

fn both_if(r: Option<Reach>, q: Option<Reach>) -> Option<Reach>
    requires first { IfSome r (IsLow (2 ^ 60)) }
    requires second { IfSome q (IsLow (2 ^ 60)) }
    ensures { result ≡ both_if r q }
{
    match (r, q) {
        (Some(r), Some(q)) => Some(both_reaches(r, q)),
        _ => None,
    }
}

fn windowed(w: WindowSpec, r: Reach) -> Reach
    requires window { IsWindow w }
    requires low { IsLow (2 ^ 60) r }
    ensures { result ≡ windowed w r }
{
    let cuts = Grid {
        step: w.advance,
        phase: w.phase,
    };
    Reach {
        back: r.back,
        ahead: ahead_from(cuts, w.size - w.advance, r),
        cuts,
    }
}

pub(crate) fn reach_numbered(reaches: &[Option<Reach>], number: usize) -> Option<Reach>
    ensures { result ≡ reach_numbered reaches.now number }
{
    match reaches.get(number) {
        Some(reach) => *reach,
        None => None,
    }
}

// How far slices of all these streams reach.
pub(crate) fn union_reach(reaches: &[Option<Reach>]) -> Option<Reach>
    requires few { length reaches.now ≤ 2 ^ 20 }
    requires low { AreLow (2 ^ 59) reaches.now }
    ensures { result ≡ union_reach reaches.now }
{
    let mut all = Some(own_reach());
    let mut place = reaches.len();
    while place > 0 {
        place -= 1;
        all = both_if(reach_numbered(reaches, place), all);
    }
    all
}

fn windowed_if(w: WindowSpec, r: Option<Reach>) -> Option<Reach>
    requires window { IsWindow w }
    requires low { IfSome r (IsLow (2 ^ 60)) }
    ensures { result ≡ option_map (windowed w) r }
{
    match r {
        Some(r) => Some(windowed(w, r)),
        None => None,
    }
}

pub(crate) fn earlier_if(before: u64, r: Option<Reach>) -> Option<Reach>
    requires before { before ≤ 2 ^ 40 }
    requires low { IfSome r (IsLow (2 ^ 60)) }
    ensures { result ≡ option_map (earlier_reach before) r }
{
    match r {
        Some(r) => Some(earlier_reach(before, r)),
        None => None,
    }
}

fn later_if(more: u64, r: Option<Reach>) -> Option<Reach>
    requires more { more ≤ 2 ^ 40 }
    requires low { IfSome r (IsLow (2 ^ 60)) }
    ensures { result ≡ option_map (later_reach more) r }
{
    match r {
        Some(r) => Some(later_reach(more, r)),
        None => None,
    }
}

fn sorted_reach(delay: Option<u64>, r: Option<Reach>) -> Option<Reach>
    requires delay { IfSome delay (λ d. d < 2 ^ 40) }
    requires low { IfSome r (IsLow (2 ^ 60)) }
    ensures { result ≡ sorted_reach delay r }
{
    match delay {
        Some(delay) => later_if(delay, r),
        None => None,
    }
}

fn sampled_reach(size: u64, left: Option<Reach>, right: Option<Reach>) -> Option<Reach>
    requires size { size ≤ 2 ^ 32 }
    requires left { IfSome left (IsLow (2 ^ 59)) }
    requires right { IfSome right (IsLow (2 ^ 59)) }
    ensures { result ≡ both_if left (option_map (λ r. earlier_reach size (later_reach size r)) right) }
{
    both_if(left, earlier_if(size, later_if(size, right)))
}

fn joined_reach(size: u64, left: Option<Reach>, right: Option<Reach>) -> Option<Reach>
    requires size { size ≤ 2 ^ 32 }
    requires left { IfSome left (IsLow (2 ^ 59)) }
    requires right { IfSome right (IsLow (2 ^ 59)) }
    ensures { result ≡ option_map (earlier_reach size) (both_if left right) }
{
    earlier_if(size, both_if(left, right))
}

// How far a slice of what a box gives reaches, where its inputs have these reaches.
pub(crate) fn box_reach(delay: Option<u64>, body: &Body, reaches: &[Option<Reach>]) -> Option<Reach>
    requires delay { IfSome delay (λ d. d < 2 ^ 40) }
    requires window { HasWindow body.now }
    requires within { body_within body.now ≡ true }
    requires few { length reaches.now ≤ 8 }
    requires low { AreLow (2 ^ 59) reaches.now }
    ensures { result ≡ box_reach delay body.now reaches.now }
{
    let first = reach_numbered(reaches, 0);
    match body {
        Body::Filter { .. } | Body::Map { .. } => first,
        Body::Union => union_reach(reaches),
        Body::BSort { .. } => sorted_reach(delay, first),
        Body::Aggregate { window, .. } => windowed_if(*window, first),
        Body::Join { size, .. } => joined_reach(*size, first, reach_numbered(reaches, 1)),
        Body::Resample { size, .. } => sampled_reach(*size, first, reach_numbered(reaches, 1)),
    }
}
