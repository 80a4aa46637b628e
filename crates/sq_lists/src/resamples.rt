//! Resample.

ghost use Rattle.std.specs.Prelude.{◌≡◌, ◌≤◌, ◌++◌, drop, take, length, IfOk, OnOk};
ghost use Rattle.sq_value.specs.Values.{IsStream};
ghost use Rattle.sq_lists.specs.Sides.{recent};
ghost use Rattle.sq_lists.specs.WindowParts.{TimesNotFalling};
ghost use Rattle.sq_lists.specs.Nearness.{reaching};
ghost use Rattle.sq_lists.specs.Resamples.{resampled, resample_of, resample_list_of};

use sq_aggfn::{Bundle, Fold, Func};
use sq_value::{Fields, ListOf, Tuple, copy_tuple};
use std::alloc::{AllocError, Global};

/// The fold's answers over some tuples.
fn answers_over<F: Fold>(fold: &F, tuples: &[Tuple]) -> Result<Fields, AllocError>
    ensures answers { IfOk result (λ fields. fields ≡ F.table fold.now tuples.now) }
    ensures width { IfOk result (λ fields. length fields ≡ F.width fold.now) }
{
    let mut state = fold.empty()?;
    for x in tuples {
        fold.add(&mut state, x)?;
    }
    fold.answer(&state)
}

/// The tuple with these answers behind its fields.
pub fn with_answers(x: Tuple, answers: Fields) -> Result<Tuple, AllocError>
    ensures { IfOk result (λ y. y ≡ record { time = x.time; fields = x.fields ++ answers }) }
{
    let Tuple { time, fields } = x;
    let mut values = fields.into_vec();
    let mut more = answers.into_vec();
    values.append(&mut more)?;
    Ok(Tuple {
        time,
        fields: ListOf::new(values),
    })
}

/// How many tuples stand in front of the first one that isn't more than `size` ticks before a time.
fn past(tuples: &[Tuple], size: u64, time: u64) -> usize
    ensures rest { drop result tuples.now ≡ recent size time tuples.now }
    ensures most { result ≤ length tuples.now }
{
    for (i, x) in tuples.iter().enumerate() {
        if time.saturating_sub(x.time) <= size {
            return i;
        }
    }
    tuples.len()
}

/// How many tuples stand in front of the first one that is more than `size` ticks after a time.
fn reach(tuples: &[Tuple], size: u64, time: u64) -> usize
    ensures front { take result tuples.now ≡ reaching size time tuples.now }
    ensures most { result ≤ length tuples.now }
{
    for (i, x) in tuples.iter().enumerate() {
        if x.time.saturating_sub(time) > size {
            return i;
        }
    }
    tuples.len()
}

/// A left tuple with the fold's answers over the right ones near it, of those of which none is past.
fn sample<F: Fold>(fold: &F, size: u64, x: &Tuple, right: &[Tuple]) -> Result<Tuple, AllocError>
    requires rises { TimesNotFalling 0 right.now }
    requires live { recent size x.now.time right.now ≡ right.now }
    ensures { IfOk result (λ y. y ≡ resampled (F.table fold.now) size right.now x.now) }
{
    let inside = &right[..reach(right, size, x.time)];
    let answers = answers_over(fold, inside)?;
    with_answers(copy_tuple(x)?, answers)
}

/// A tuple for each left one, with the fold's answers. It goes over both streams once, and from each left tuple over the
/// right ones near it.
fn resample<F: Fold>(
    alloc: Global,
    fold: &F,
    size: u64,
    left: &[Tuple],
    right: &[Tuple],
) -> Result<Vec<Tuple>, AllocError>
    requires left { IsStream left.now }
    requires right { IsStream right.now }
    ensures { IfOk result (λ out. out.items ≡ resample_of (F.table fold.now) size left.now right.now) }
{
    let mut out = Vec::new(alloc);
    let mut from = 0;
    for x in left {
        from += past(&right[from..], size, x.time);
        out.push(sample(fold, size, x, &right[from..])?)?;
    }
    Ok(out)
}

/// What a Resample gives (named after Aurora's Resample: Abadi and others, VLDB Journal 2003; all rules are this project's
/// own): for each left tuple, in order, one of the same time, with its fields and then the functions' answers over the
/// right tuples whose times differ from its own by at most `size` ticks.
pub fn resample_list(
    alloc: Global,
    funcs: &[Func],
    size: u64,
    left: &[Tuple],
    right: &[Tuple],
) -> Result<Vec<Tuple>, AllocError>
    requires left { IsStream left.now }
    requires right { IsStream right.now }
    ensures { IfOk result (λ out. out.items ≡ resample_list_of funcs.now size left.now right.now) }
{
    let bundle = Bundle::new(alloc, funcs.to_vec(alloc)?);
    resample(alloc, &bundle, size, left, right)
}
