// What a network asks of a text, and the verdict on it.
ghost use Rattle.std.specs.Prelude.{◌≡◌, ◌<◌, ◌^◌, length, map, IfOk};
ghost use Rattle.std.specs.List.{All};
ghost use Rattle.sq_value.specs.Values.{IsStream};
ghost use Rattle.sq_net.specs.SoundNetworks.{IsSound};
ghost use Rattle.sq_points.specs.Limits.{KeepsDropLimits};
ghost use Rattle.sq_points.specs.Points.{points_of};
ghost use Rattle.sq_audit.specs.Audits.{above_of, audit_of, wanted_of, wanted_one};
ghost use Rattle.sq_words.specs.Lists.{contains_number};
ghost use Rattle.sq_points.specs.Above.{first_drop};

use sq_model::{full_streams, sound_is_placed};
use sq_net::{Network, Output};
use sq_place::DropPoint;
use sq_points::{above_output, points_in};
use sq_value::{Tuple, copy_name, copy_tuple};
use sq_verdict::{Verdict, Wanted, verdict_of};
use std::alloc::{AllocError, Global};

// The number of the first drop below which an output lies, and the length of its batches.
fn above(points: &[DropPoint], output: u32) -> Option<(u32, u64)>
    requires { length points.now < 2 ^ 32 }
    ensures { result ≡ above_of (first_drop (λ p. contains_number p.outputs output) 0 points.now) }
{
    match above_output(points, output) {
        Some(w) => Some((w as u32, points[w].length)),
        None => None,
    }
}

// What is asked of an output.
fn wanted_one(
    n: &Network,
    points: &[DropPoint],
    output: &Output,
    at: u32,
) -> Result<Wanted, AllocError>
    requires points { points.now ≡ points_of n.now }
    requires few { length points.now < 2 ^ 32 }
    requires there { at < length n.now.wires.outputs }
    ensures { IfOk result (λ w. w ≡ wanted_one n.now (at, output.now)) }
{
    Ok(Wanted {
        name: copy_name(&output.name)?,
        stream: n.wires.outputs.as_slice()[at as usize],
        above: above(points, at),
    })
}

// What is asked of each output.
fn wanted_of(
    alloc: Global,
    n: &Network,
    points: &[DropPoint],
    outputs: &[Output],
) -> Result<Vec<Wanted>, AllocError>
    requires points { points.now ≡ points_of n.now }
    requires few { length points.now < 2 ^ 32 }
    requires outputs { outputs.now ≡ n.now.outputs }
    requires streams { length outputs.now ≡ length n.now.wires.outputs }
    requires counted { length outputs.now < 2 ^ 32 }
    ensures { IfOk result (λ v. v.items ≡ wanted_of n.now) }
{
    let mut wanted = Vec::new(alloc);
    for (at, output) in outputs.iter().enumerate() {
        wanted.push(wanted_one(n, points, output, at as u32)?)?;
    }
    Ok(wanted)
}

fn copy_of(alloc: Global, tuples: &[Tuple]) -> Result<Vec<Tuple>, AllocError>
    ensures { IfOk result (λ v. v.items ≡ tuples.now) }
{
    let mut copy = Vec::new(alloc);
    for t in tuples {
        copy.push(copy_tuple(t)?)?;
    }
    Ok(copy)
}

fn copies(alloc: Global, streams: &[Vec<Tuple>]) -> Result<Vec<Vec<Tuple>>, AllocError>
    ensures { IfOk result (λ v. map (λ t. t.items) v.items ≡ map (λ t. t.items) streams.now) }
{
    let mut all = Vec::new(alloc);
    for stream in streams {
        all.push(copy_of(alloc, stream)?)?;
    }
    Ok(all)
}

/// The verdict on the text of a run of a network: whether it shows, for each output, exactly its full stream less the batches that
/// the text itself records of the drop above. There is a list of tuples for each source, whose times are ticks (below 2^40) that
/// don't fall. It fails only for want of memory.
#[tactic(auto, using(crate::proofs::AuditLemmas::points_few, crate::proofs::AuditLemmas::outputs_even, crate::proofs::AuditLemmas::outputs_few, crate::proofs::AuditLemmas::below_all, crate::proofs::AuditLemmas::names_differ))]
pub fn audit_text(
    alloc: Global,
    n: &Network,
    sources: &[Vec<Tuple>],
    text: &[u8],
) -> Result<Verdict, AllocError>
    requires sound { IsSound n.now }
    requires limits { KeepsDropLimits n.now }
    requires lists { length sources.now ≡ length n.now.sources }
    requires streams { All IsStream (map (λ t. t.items) sources.now) }
    ensures { IfOk result (λ v. v ≡ audit_of n.now (map (λ t. t.items) sources.now) text.now) }
{
    sound_is_placed(n);
    let points = points_in(alloc, n)?;
    let wanted = wanted_of(alloc, n, points.as_slice(), n.outputs.as_slice())?;
    let streams = full_streams(alloc, n, copies(alloc, sources)?)?;
    let drops = points.as_slice().len() as u32;
    verdict_of(alloc, wanted.as_slice(), streams.as_slice(), drops, text)
}
