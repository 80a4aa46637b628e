// What a box gives for whole streams.
ghost use Rattle.std.specs.Prelude.{◌≡◌, ◌++◌, map, IfOk, OnOk};
ghost use Rattle.std.specs.List.{All, flat_map};
ghost use Rattle.sq_words.specs.Lists.{sort_by, nth};
ghost use Rattle.sq_value.specs.Values.{IsStream};
ghost use Rattle.sq_lists.specs.Merge.{union};
ghost use Rattle.sq_net.specs.SoundNetworks.{HasWindow};
ghost use Rattle.sq_model.specs.FullStreams.{box_list};
ghost use Rattle.sq_model.specs.Unions.{tuple_sooner};

use sq_join::join_list;
use sq_lists::{aggregate_list, bsort_list, filter_list, map_list, resample_list};
use sq_net::Body;
use sq_value::{Tuple, copy_tuple, stream_in};
use std::alloc::{AllocError, Global};

// The stream at an input of a box, or no tuples where it has no such input.
fn taken<'a>(streams: &'a [Vec<Tuple>], inputs: &[u32], input: usize) -> &'a [Tuple]
    ensures { result.now ≡ nth (map (nth (map (λ v. v.items) streams.now)) inputs.now) input }
{
    match inputs.get(input) {
        Some(stream) => stream_in(streams, *stream),
        None => &[],
    }
}

// Copies of tuples behind those that are there.
pub(crate) fn push_copies(tuples: &[Tuple], out: &mut Vec<Tuple>) -> Result<(), AllocError>
    ensures { OnOk result (out.new.items ≡ out.old.items ++ tuples.now) }
{
    for t in tuples {
        out.push(copy_tuple(t)?)?;
    }
    Ok(())
}

// The tuples of all inputs, one input after another.
fn joined(alloc: Global, streams: &[Vec<Tuple>], inputs: &[u32]) -> Result<Vec<Tuple>, AllocError>
    ensures { IfOk result (λ v. v.items ≡ flat_map (nth (map (λ v. v.items) streams.now)) inputs.now) }
{
    let mut all = Vec::new(alloc);
    for stream in inputs {
        push_copies(stream_in(streams, *stream), &mut all)?;
    }
    Ok(all)
}

fn sort_by_time(tuples: &mut Vec<Tuple>) -> Result<(), AllocError>
    ensures { OnOk result (tuples.new.items ≡ sort_by tuple_sooner tuples.old.items) }
{
    tuples.sort_by(|a, b| a.time.cmp(&b.time))
}

// What a Union gives: of one time, the tuples of its first input come first.
#[tactic(auto, using(crate::proofs::UnionLemmas::union_is_sorted))]
fn union_list(
    alloc: Global,
    streams: &[Vec<Tuple>],
    inputs: &[u32],
) -> Result<Vec<Tuple>, AllocError>
    ensures { IfOk result (λ v. v.items ≡ union (map (nth (map (λ v. v.items) streams.now)) inputs.now)) }
{
    let mut all = joined(alloc, streams, inputs)?;
    sort_by_time(&mut all)?;
    Ok(all)
}

// What a box gives at a port, from 0, for these inputs among the streams.
pub(crate) fn box_list(
    alloc: Global,
    body: &Body,
    port: u32,
    streams: &[Vec<Tuple>],
    inputs: &[u32],
) -> Result<Vec<Tuple>, AllocError>
    requires window { HasWindow body.now }
    requires streams { All IsStream (map (λ v. v.items) streams.now) }
    ensures { IfOk result (λ v. v.items ≡ box_list body.now port (map (nth (map (λ v. v.items) streams.now)) inputs.now)) }
{
    let first = taken(streams, inputs, 0);
    match body {
        Body::Filter { preds } => filter_list(alloc, preds.as_slice(), port, first),
        Body::Map { exprs } => map_list(alloc, exprs.as_slice(), first),
        Body::Union => union_list(alloc, streams, inputs),
        Body::BSort { by, slack } => bsort_list(alloc, *by, *slack, first),
        Body::Aggregate {
            funcs,
            group,
            window,
        } => aggregate_list(alloc, funcs.as_slice(), group.as_slice(), *window, first),
        Body::Join { size, on } => { join_list(alloc, *size, on, first, taken(streams, inputs, 1)) }
        Body::Resample { size, funcs } => {
            let right = taken(streams, inputs, 1);
            resample_list(alloc, funcs.as_slice(), *size, first, right)
        }
    }
}
