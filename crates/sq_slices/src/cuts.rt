// How far it is from cuts of one grid to those of another.
ghost use Rattle.std.specs.Prelude.{◌≡◌, ◌+◌, ◌<◌, ◌≤◌, ◌^◌};
ghost use Rattle.sq_slices.specs.Grids.{IsGrid, ahead_from, gap, moved, pad};

use crate::{Grid, Reach};

fn gap(g: Grid, tick: u64) -> u64
    requires grid { IsGrid g }
    requires low { g.step ≤ 2 ^ 32 }
    ensures { result ≡ gap g tick }
{
    (g.phase + g.step - tick % g.step) % g.step
}

fn pad(g: Grid, h: Grid) -> u64
    requires grid { IsGrid h }
    requires low { h.step ≤ 2 ^ 32 }
    ensures { result ≡ pad g h }
{
    if g.step % h.step == 0 {
        gap(h, g.phase)
    } else {
        h.step - 1
    }
}

fn moved(g: Grid, more: u64) -> Grid
    requires grid { IsGrid g }
    requires low { g.step ≤ 2 ^ 32 }
    requires few { more ≤ 2 ^ 40 }
    ensures { result ≡ moved g more }
{
    Grid {
        step: g.step,
        phase: (g.phase + more) % g.step,
    }
}

// How far ahead of a cut of a grid the sources are needed, where a stream of this reach is needed so far ahead of it.
pub(crate) fn ahead_from(g: Grid, more: u64, r: Reach) -> u64
    requires grid { IsGrid g }
    requires cuts { IsGrid r.cuts }
    requires low { g.step ≤ 2 ^ 32 }
    requires cuts_low { r.cuts.step ≤ 2 ^ 32 }
    requires few { more ≤ 2 ^ 40 }
    requires ahead { r.ahead ≤ 2 ^ 60 }
    ensures { result ≡ ahead_from g more r }
{
    more + pad(moved(g, more), r.cuts) + r.ahead
}
