//! Aggregate.

ghost use Rattle.std.specs.Prelude.{◌≡◌, ℕ, ◌+◌, ◌-◌, ◌^◌, ◌<◌, ◌≤◌, ◌++◌, [], length, IfOk, OnOk};
ghost use Rattle.sq_value.specs.Values.{IsStream, fields_cmp};
ghost use Rattle.sq_aggfn.specs.Groups.{group_of};
ghost use Rattle.sq_aggfn.specs.KeyedStates.{keyed_from, AllMade};
ghost use Rattle.sq_aggfn.specs.Windows.{IsWindow, start_of};
ghost use Rattle.sq_lists.specs.Windows.{aggregate_of, aggregate_list_of};
ghost use Rattle.sq_lists.specs.WindowParts.{leading, told_results, numbered_results, TimesNotFalling};

use sq_aggfn::{Bundle, Fold, Func, Group, WindowSpec, add_at, group_of};
use sq_value::Tuple;
use std::alloc::{AllocError, Global};
use std::collections::BTreeMap;

/// How many tuples stand before the first that has the time `end` or a later one.
fn leading(tuples: &[Tuple], end: u64) -> usize
    ensures leading { result ≡ leading end tuples.now }
    ensures most { result ≤ length tuples.now }
{
    for (i, x) in tuples.iter().enumerate() {
        if x.time >= end {
            return i;
        }
    }
    tuples.len()
}

/// The groups of some tuples, each with the state of its tuples.
fn groups_of<F: Fold>(
    alloc: Global,
    fold: &F,
    by: &[u32],
    inside: &[Tuple],
) -> Result<BTreeMap<Group, F::State>, AllocError>
    ensures groups { IfOk result (λ held. held.entries ≡ keyed_from fields_cmp (F.none fold.now) (F.joined fold.now) (group_of by.now) (F.unit fold.now) [] inside.now) }
    ensures made { IfOk result (λ held. AllMade (F.made fold.now) (F.number fold.now) (λ k. 2 ^ 62 - 1) held.entries) }
{
    let mut held = BTreeMap::new(alloc);
    for x in inside {
        add_at(fold, &mut held, group_of(alloc, by, x)?, x)?;
    }
    Ok(held)
}

/// A result for each group, in order.
fn push_results<F: Fold>(
    fold: &F,
    start: u64,
    mut held: BTreeMap<Group, F::State>,
    out: &mut Vec<Tuple>,
) -> Result<(), AllocError>
    requires { AllMade (F.made fold.now) (F.number fold.now) (λ k. 2 ^ 62 - 1) held.entries }
    ensures { OnOk result (out.new.items ≡ out.old.items ++ told_results (F.told fold.now) start held.entries) }
{
    while let Some((group, state)) = held.pop_first() {
        let fields = fold.answer_after(group.as_slice(), &state)?;
        out.push(Tuple {
            time: start,
            fields,
        })?;
    }
    Ok(())
}

/// The results of the windows with the numbers from `from` on, below `to`.
fn push_windows<F: Fold>(
    alloc: Global,
    fold: &F,
    by: &[u32],
    window: WindowSpec,
    rest: &[Tuple],
    from: u64,
    to: u64,
    out: &mut Vec<Tuple>,
) -> Result<(), AllocError>
    requires window { IsWindow window }
    requires rises { (k : ℕ) → k < to → TimesNotFalling (start_of window k) rest.now }
    requires small { start_of window to < 2 ^ 41 }
    ensures { OnOk result (out.new.items ≡ out.old.items ++ numbered_results (F.table fold.now) by.now window rest.now from to) }
{
    for k in from..to {
        let start = window.start_of(k);
        let inside = &rest[..leading(rest, start + window.size)];
        let held = groups_of(alloc, fold, by, inside)?;
        push_results(fold, start, held, out)?;
    }
    Ok(())
}

/// The results of all windows that cover a tuple.
fn aggregate<F: Fold>(
    alloc: Global,
    fold: &F,
    group: &[u32],
    window: WindowSpec,
    tuples: &[Tuple],
) -> Result<Vec<Tuple>, AllocError>
    requires window { IsWindow window }
    requires stream { IsStream tuples.now }
    ensures { IfOk result (λ out. out.items ≡ aggregate_of (F.table fold.now) group.now window tuples.now) }
{
    let mut out = Vec::new(alloc);
    let mut next = 0;
    for i in 0..tuples.len() {
        let time = tuples[i].time;
        let end = window.started(time);
        let from = window.first_covering(time).max(next);
        push_windows(
            alloc,
            fold,
            group,
            window,
            &tuples[i..],
            from,
            end,
            &mut out,
        )?;
        next = end;
    }
    Ok(out)
}

/// What an Aggregate gives (after SQuAl's Aggregate: Abadi and others, VLDB Journal 2003; that windows begin at the
/// phase and an advance apart is this project's own): for each window, in the order of starts, and for each group with a
/// tuple in it, in the order of values, the group's values and then the functions' answers, at the window's start. Only
/// windows that cover a tuple are visited.
pub fn aggregate_list(
    alloc: Global,
    funcs: &[Func],
    group: &[u32],
    window: WindowSpec,
    tuples: &[Tuple],
) -> Result<Vec<Tuple>, AllocError>
    requires window { IsWindow window }
    requires stream { IsStream tuples.now }
    ensures { IfOk result (λ out. out.items ≡ aggregate_list_of funcs.now group.now window tuples.now) }
{
    let bundle = Bundle::new(alloc, funcs.to_vec(alloc)?);
    aggregate(alloc, &bundle, group, window, tuples)
}
