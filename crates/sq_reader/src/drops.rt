// The rule on drop points.
ghost use Rattle.std.specs.Prelude.{◌≡◌, IfOk};
ghost use Rattle.sq_net.specs.declared.NetErr.TheVariants as broken;
ghost use Rattle.sq_net.specs.declared.Part.TheVariants as part;
ghost use Rattle.sq_net.specs.SoundNetworks.{IsSound};
ghost use Rattle.sq_points.specs.Limits.{KeepsDropLimits};
ghost use Rattle.sq_reader.specs.Networks.{limited_network};
ghost use Rattle.sq_tables.specs.Places.{part_place};
ghost use Rattle.sq_tables.specs.Refusals.{IsAnswerOf};

use sq_net::{NetErr, Network, Part};
use sq_place::PlaceErr;
use sq_points::network_points;
use sq_rules::part_place;
use std::alloc::Global;

fn out_of_limits(drop: u32) -> NetErr
    ensures { result ≡ broken.Limit (part_place part.Drop drop) }
{
    NetErr::Limit(part_place(Part::Drop, drop as usize))
}

/// The network, where none of its drop points has a batch that is too long or an extent that is too wide.
#[tactic(auto, using(crate::proofs::DropLemmas::limits_kept, crate::proofs::DropLemmas::long_refused, crate::proofs::DropLemmas::wide_refused))]
pub(crate) fn limited_network(alloc: Global, network: Network) -> Result<Network, NetErr>
    requires { IsSound network }
    ensures answer { IsAnswerOf result (limited_network network) }
    ensures sound { IfOk result IsSound }
    ensures limits { IfOk result KeepsDropLimits }
{
    match network_points(alloc, &network) {
        Ok(_) => Ok(network),
        Err(PlaceErr::LongBatch { drop }) => Err(out_of_limits(drop)),
        Err(PlaceErr::WideExtent { drop }) => Err(out_of_limits(drop)),
        Err(PlaceErr::Memory) => Err(NetErr::Memory),
    }
}
