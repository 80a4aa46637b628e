//! The network file: a TOML document of sources, boxes and outputs, read as a typed network.
//!
//! The contract of `read_network` promises the network that the file says, a sound one, where the file keeps every rule,
//! and else the first broken rule with its first place; want of memory aside. What stands here goes by columns: the schemas
//! of sources, the boxes typed on what they take, outputs, and the drop points of what came of it. Below stand the file's
//! tables and the rules on them that need no columns, the typed network with its drop points, the expressions, the quality
//! graphs and the values.
#![tactic(auto)]

ghost use Rattle.std.specs.Prelude.{◌≡◌, ◌++◌, ◌∷◌, [], IfOk, OnOk};
ghost use Rattle.sq_net.specs.SoundNetworks.{IsSound};
ghost use Rattle.sq_points.specs.Limits.{KeepsDropLimits};
ghost use Rattle.sq_reader.specs.Networks.{network_in};
ghost use Rattle.sq_tables.specs.Refusals.{IsAnswerOf};

mod bodies;
mod boxes;
mod drops;
mod expressions;
mod functions;
mod network;
mod nodes;
mod outputs;
mod pairs;
mod sources;

use sq_net::{NetErr, Network};
use sq_tables::network_table_of;
use std::alloc::{AllocError, Global};

pub(crate) fn push<T: Drop>(list: &mut Vec<T>, item: T) -> Result<(), AllocError>
    ensures { OnOk result (list.new.items ≡ list.old.items ++ item ∷ []) }
{
    list.push(item)?;
    Ok(())
}

/// The network that a file's bytes say, which is sound and keeps the limits on drop points, or the first rule that they break,
/// with its first place.
#[tactic(auto, using(crate::proofs::SoundLemmas::answer_sound))]
pub fn read_network(alloc: Global, bytes: &[u8]) -> Result<Network, NetErr>
    ensures answer { IsAnswerOf result (network_in bytes.now) }
    ensures sound { IfOk result IsSound }
    ensures limits { IfOk result KeepsDropLimits }
{
    let raw = network_table_of(alloc, bytes)?;
    let network = network::typed_network(alloc, &raw)?;
    drops::limited_network(alloc, network)
}
