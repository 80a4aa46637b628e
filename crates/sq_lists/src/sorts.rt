//! BSort.

ghost use Rattle.std.specs.Prelude.{◌≡◌, ◌+◌, ◌-◌, ◌^◌, ◌<◌, ◌++◌, IfOk, OnOk};
ghost use Rattle.sq_value.specs.Values.{field};
ghost use Rattle.sq_lists.specs.Sorting.{time_in, bsort_list_of};
ghost use Rattle.sq_lists.specs.Sorters.{timed, next_with, gives_with, sort_flush};

use crate::Sorter;
use sq_value::{Fields, Tuple, Value, copy_tuple};
use std::alloc::{AllocError, Global};

/// The time that field `by` stands for, where it is a number from 0 to the tuple's own time.
pub fn time_in_field(fields: &Fields, by: u32, now: u64) -> Option<u64>
    ensures { result ≡ time_in now (field fields.now by) }
{
    match fields.as_slice().get(by as usize) {
        Some(Value::Int(number)) => {
            let number = *number;
            if number >= 0 && number as u64 <= now {
                Some(number as u64)
            } else {
                None
            }
        }
        _ => None,
    }
}

fn put_copy(sorter: &mut Sorter, by: u32, x: &Tuple, out: &mut Vec<Tuple>) -> Result<(), AllocError>
    requires room { sorter.old.number < 2 ^ 64 - 1 }
    ensures next { OnOk result (sorter.new ≡ next_with sorter.old (timed by x.now)) }
    ensures gives { OnOk result (out.new.items ≡ out.old.items ++ gives_with sorter.old (timed by x.now)) }
{
    match time_in_field(&x.fields, by, x.time) {
        None => Ok(()),
        Some(time) => {
            let copy = copy_tuple(x)?;
            if let Some(given) = sorter.put(time, copy.fields)? {
                out.push(given)?;
            }
            Ok(())
        }
    }
}

fn take_all(sorter: &mut Sorter, out: &mut Vec<Tuple>) -> Result<(), AllocError>
    ensures { OnOk result (out.new.items ≡ out.old.items ++ sort_flush sorter.old) }
{
    while sorter.len() > 0 {
        if let Some(given) = sorter.take_first() {
            out.push(given)?;
        }
    }
    Ok(())
}

/// What a BSort gives (named after SQuAl's BSort; its rules are this project's own): the tuples whose field `by` is a
/// number from 0 to their time, each at that time, in order as far as a buffer of `slack` tuples can put them, and none
/// that is smaller in time than one before it.
pub fn bsort_list(
    alloc: Global,
    by: u32,
    slack: u32,
    tuples: &[Tuple],
) -> Result<Vec<Tuple>, AllocError>
    ensures { IfOk result (λ out. out.items ≡ bsort_list_of by slack tuples.now) }
{
    let mut sorter = Sorter::new(alloc, slack);
    let mut out = Vec::new(alloc);
    for x in tuples {
        put_copy(&mut sorter, by, x, &mut out)?;
    }
    take_all(&mut sorter, &mut out)?;
    Ok(out)
}
