// The box at which a key is lost.
ghost use Rattle.std.specs.Prelude.{◌≡◌, length, IfOk};
ghost use Rattle.std.specs.List.{find, list_all};
ghost use Rattle.sq_words.specs.Lists.{numbers_to};
ghost use Rattle.sq_net.specs.SoundNetworks.{IsSound};
ghost use Rattle.sq_shard.specs.Keys.{cut_at, is_known_cut, loses_key};

use crate::Cut;
use crate::boxes::cut_at;
use crate::cuts::{inputs_of, port_cut};
use sq_net::Network;
use std::alloc::{AllocError, Global};

fn is_known_cut(cut: &Cut) -> bool
    ensures { result ≡ is_known_cut cut.now }
{
    match cut {
        Cut::Whole => true,
        Cut::By { columns } => !columns.as_slice().is_empty(),
    }
}

fn are_known(alloc: Global, cuts: &[Cut], inputs: &[u32]) -> Result<bool, AllocError>
    ensures { IfOk result (λ b. b ≡ list_all (λ s. is_known_cut (cut_at cuts.now s)) inputs.now) }
{
    for stream in inputs {
        if !is_known_cut(&cut_at(alloc, cuts, *stream as usize)?) {
            return Ok(false);
        }
    }
    Ok(true)
}

fn loses_key(
    alloc: Global,
    n: &Network,
    on_time: bool,
    cuts: &[Cut],
    at: u32,
) -> Result<bool, AllocError>
    requires sound { IsSound n.now }
    ensures { IfOk result (λ b. b ≡ loses_key n.now on_time (cut_at cuts.now) at) }
{
    if !are_known(alloc, cuts, inputs_of(&n.wires, at))? {
        return Ok(false);
    }
    Ok(!is_known_cut(&port_cut(alloc, n, on_time, cuts, at)?))
}

/// The first box, by its number, that loses the key, where these are the cuts of all streams.
pub fn first_loss(
    alloc: Global,
    n: &Network,
    on_time: bool,
    cuts: &[Cut],
) -> Result<Option<u32>, AllocError>
    requires sound { IsSound n.now }
    ensures { IfOk result (λ o. o ≡ find (loses_key n.now on_time (cut_at cuts.now)) (numbers_to (length n.now.boxes))) }
{
    for at in 0..n.boxes.as_slice().len() as u32 {
        if loses_key(alloc, n, on_time, cuts, at)? {
            return Ok(Some(at));
        }
    }
    Ok(None)
}
