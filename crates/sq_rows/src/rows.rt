//! Joining states in a row.

ghost use Rattle.std.specs.Prelude.{◌≡◌, ◌+◌, ◌-◌, ◌^◌, ◌<◌, ◌≤◌, length, take, drop, OnOk};
ghost use Rattle.sq_rows.specs.Rows.{joined_onto, total, AllAreMade};

use sq_aggfn::Fold;
use std::alloc::AllocError;
use std::collections::VecDeque;

/// Some states in a row are joined to a state, in place.
pub fn take_in_row<F: Fold>(
    fold: &F,
    own: &mut F::State,
    states: &VecDeque<(u64, F::State)>,
    from: usize,
    to: usize,
) -> Result<(), AllocError>
    requires order { from ≤ to }
    requires room { to ≤ length states.now.items }
    requires made { F.made fold.now own.old × AllAreMade (F.made fold.now) states.now.items }
    requires few { F.number fold.now own.old + total (F.number fold.now) (drop from states.now.items) < 2 ^ 62 }
    ensures value { OnOk result (own.new ≡ joined_onto (F.joined fold.now) own.old (take (to - from) (drop from states.now.items))) }
    ensures made { OnOk result (F.made fold.now own.new) }
    ensures few { OnOk result (F.number fold.now own.new + total (F.number fold.now) (drop to states.now.items)
        ≤ F.number fold.now own.old + total (F.number fold.now) (drop from states.now.items)) }
{
    for i in from..to {
        fold.take_in(own, &states[i].1)?;
    }
    Ok(())
}
