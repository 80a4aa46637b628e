//! Giving left tuples with the answers over what is held round them.

ghost use Rattle.std.specs.Prelude.{◌≡◌, ◌+◌, ◌≤◌, ◌∷◌, [], OnOk};
ghost use Rattle.std.specs.List.{AllByRecursion};
ghost use Rattle.sq_lists.specs.Sides.{recent};
ghost use Rattle.sq_lists.specs.WindowParts.{TimesNotFalling};
ghost use Rattle.sq_lists.specs.Resamples.{resampled, resample_of};
ghost use Rattle.sq_oper.specs.Giving.{Gave, GaveSome};
ghost use Rattle.sq_oper.specs.Streams.{things, at_zero};
ghost use Rattle.sq_rounds.specs.Rounds.{CanGive, HasFieldRoom, first_time_from, passed};
ghost use Rattle.sq_running.specs.Running.{IsRunning, IsSum};

use crate::held::{first_time, pop_past};
use sq_aggfn::Fold;
use sq_item::{Body, Item, Sign};
use sq_lists::with_answers;
use sq_oper::Outlet;
use sq_running::{Held, answers_held, let_go};
use sq_value::Tuple;
use std::alloc::AllocError;
use std::collections::VecDeque;

/// Gives a left tuple with the answers over the held ones near it. No later left tuple needs those that are past then.
fn give_round<F: Fold, T: Outlet>(
    fold: &F,
    size: u64,
    x: Tuple,
    held: &mut Held<F::State>,
    out: &mut T,
) -> Result<(), AllocError>
    requires room { HasFieldRoom (F.width fold.now) x }
    requires rises { TimesNotFalling 0 held.old.tuples.items }
    requires reaches { AllByRecursion (λ y. y.time ≤ x.time + size) held.old.tuples.items }
    requires runs { IsRunning (IsSum (F.joined fold.now) (F.unit fold.now) (F.none fold.now) (F.made fold.now) (F.number fold.now)) held.old.tuples.items held.old.heads.items held.old.tail }
    requires is_ready { T.ready out.old }
    ensures held { OnOk result (held.new.tuples.items ≡ recent size x.time held.old.tuples.items) }
    ensures runs { OnOk result (IsRunning (IsSum (F.joined fold.now) (F.unit fold.now) (F.none fold.now) (F.made fold.now) (F.number fold.now)) held.new.tuples.items held.new.heads.items held.new.tail) }
    ensures gives { Gave T.Outlet (λ q. at_zero q (things (resampled (F.table fold.now) size held.old.tuples.items x ∷ []))) out.old out.new result }
{
    let_go(fold, held, size, x.time)?;
    let answers = answers_held(fold, held)?;
    let Tuple { time, fields } = with_answers(x, answers)?;
    out.give(
        0,
        Item {
            time,
            mark: Sign::none(),
            body: Body::some(fields),
        },
    )?;
    Ok(())
}

/// Gives the first left tuples, as long as they are more than `size` ticks before a time; and lets go of the held ones that
/// no later left tuple needs.
pub fn give_ready<F: Fold, T: Outlet>(
    fold: &F,
    size: u64,
    now: u64,
    waiting: &mut VecDeque<Tuple>,
    held: &mut Held<F::State>,
    out: &mut T,
) -> Result<(), AllocError>
    requires can { CanGive (F.width fold.now) size waiting.old.items held.old.tuples.items }
    requires early { AllByRecursion (λ x. x.time ≤ now) waiting.old.items }
    requires runs { IsRunning (IsSum (F.joined fold.now) (F.unit fold.now) (F.none fold.now) (F.made fold.now) (F.number fold.now)) held.old.tuples.items held.old.heads.items held.old.tail }
    requires is_ready { T.ready out.old }
    ensures waiting { OnOk result (waiting.new.items ≡ recent size now waiting.old.items) }
    ensures held { OnOk result (held.new.tuples.items ≡ recent size (first_time_from now (recent size now waiting.old.items)) held.old.tuples.items) }
    ensures runs { OnOk result (IsRunning (IsSum (F.joined fold.now) (F.unit fold.now) (F.none fold.now) (F.made fold.now) (F.number fold.now)) held.new.tuples.items held.new.heads.items held.new.tail) }
    ensures gives { GaveSome T.Outlet (λ q. at_zero q (things (resample_of (F.table fold.now) size (passed size now waiting.old.items) held.old.tuples.items))) out.old out.new result }
{
    while let Some(x) = pop_past(waiting, size, now) {
        give_round(fold, size, x, held, out)?;
    }
    let_go(fold, held, size, first_time(waiting, now))?;
    Ok(())
}

/// Gives all left tuples.
pub fn give_all<F: Fold, T: Outlet>(
    fold: &F,
    size: u64,
    waiting: &mut VecDeque<Tuple>,
    held: &mut Held<F::State>,
    out: &mut T,
) -> Result<(), AllocError>
    requires can { CanGive (F.width fold.now) size waiting.old.items held.old.tuples.items }
    requires runs { IsRunning (IsSum (F.joined fold.now) (F.unit fold.now) (F.none fold.now) (F.made fold.now) (F.number fold.now)) held.old.tuples.items held.old.heads.items held.old.tail }
    requires is_ready { T.ready out.old }
    ensures waiting { OnOk result (waiting.new.items ≡ []) }
    ensures gives { GaveSome T.Outlet (λ q. at_zero q (things (resample_of (F.table fold.now) size waiting.old.items held.old.tuples.items))) out.old out.new result }
{
    while let Some(x) = waiting.pop_front() {
        give_round(fold, size, x, held, out)?;
    }
    Ok(())
}
