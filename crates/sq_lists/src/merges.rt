//! The merge of streams.

ghost use Rattle.std.specs.Prelude.{◌≡◌, ◌^◌, ◌<◌, ◌++◌, [], ◌∷◌, map, length, IfOk, OnOk};
ghost use Rattle.sq_words.specs.Lists.{sort_by};
ghost use Rattle.sq_lists.specs.Merge.{merge_tuples, tuple_earlier};

use sq_value::{Tuple, copy_tuple};
use std::alloc::{AllocError, Global};

fn push_stream(pairs: &mut Vec<(u32, Tuple)>, port: u32, tuples: &[Tuple]) -> Result<(), AllocError>
    ensures { OnOk result (pairs.new.items ≡ pairs.old.items ++ map (λ x. (port, x)) tuples.now) }
{
    for x in tuples {
        pairs.push((port, copy_tuple(x)?))?;
    }
    Ok(())
}

fn sort_pairs(pairs: &mut Vec<(u32, Tuple)>) -> Result<(), AllocError>
    ensures { OnOk result (pairs.new.items ≡ sort_by tuple_earlier pairs.old.items) }
{
    pairs.sort_by(|a, b| a.1.time.cmp(&b.1.time))
}

/// The tuples of several streams with the numbers of their streams, by time; those of one time by stream, and then by
/// their place in it.
pub fn merge(alloc: Global, ins: &[Vec<Tuple>]) -> Result<Vec<(u32, Tuple)>, AllocError>
    requires { length ins.now < 2 ^ 32 }
    ensures { IfOk result (λ pairs. pairs.items ≡ merge_tuples (map (λ v. v.items) ins.now)) }
{
    let mut pairs = Vec::new(alloc);
    for port in 0..ins.len() {
        push_stream(&mut pairs, port as u32, &ins[port])?;
    }
    sort_pairs(&mut pairs)?;
    Ok(pairs)
}

/// The merge of a left and a right stream, numbered 0 and 1.
pub fn merge_two(
    alloc: Global,
    left: &[Tuple],
    right: &[Tuple],
) -> Result<Vec<(u32, Tuple)>, AllocError>
    ensures { IfOk result (λ pairs. pairs.items ≡ merge_tuples (left.now ∷ right.now ∷ [])) }
{
    let mut pairs = Vec::new(alloc);
    push_stream(&mut pairs, 0, left)?;
    push_stream(&mut pairs, 1, right)?;
    sort_pairs(&mut pairs)?;
    Ok(pairs)
}
