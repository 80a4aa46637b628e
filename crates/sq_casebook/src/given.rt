// What a run is over, as the top call reads it.
ghost use Rattle.std.specs.Prelude.{◌≡◌, IfSome, length, map};
ghost use Rattle.std.specs.List.{All};
ghost use Rattle.sq_value.specs.Values.{IsStream};
ghost use Rattle.sq_net.specs.SoundNetworks.{IsSound};
ghost use Rattle.sq_points.specs.Limits.{KeepsDropLimits};
ghost use Rattle.sq_work.specs.AcceptedViews.{CanRun};

use crate::case::Case;
use sq_net::Network;
use sq_outside::MemFolder;
use sq_plan::Capacities;
use sq_replay::Stream;
use sq_top::{Command, read_words};
use sq_value::Tuple;
use sq_work::{Accepted, prepare};
use std::alloc::Global;

/// A network, its recorded streams, the capacities and the seed.
#[derive(Drop)]
pub struct Given {
    pub network: Network,
    pub sources: Vec<Vec<Tuple>>,
    pub capacities: Capacities,
    pub seed: u64,
}

/// The tuples of each source, in the order of the network file.
fn sources_of(alloc: Global, streams: Vec<Stream>) -> Option<Vec<Vec<Tuple>>>
    ensures { IfSome result (λ v. map (λ xs. xs.items) v.items ≡ map (λ xs. xs.items) streams.items) }
{
    let mut sources = Vec::new(alloc);
    for stream in streams {
        match stream.into_tuples(alloc) {
            Ok(tuples) => sources.push(tuples).ok()?,
            Err(_) => return None,
        }
    }
    Some(sources)
}

/// What is accepted of the words and files of a case, where they ask for a run.
fn accepted_by(alloc: Global, case: Case) -> Option<Accepted>
    ensures { IfSome result CanRun }
{
    let Ok(Command::Run(args)) = read_words(alloc, &case.words) else {
        return None;
    };
    if args.train < 1 || args.frames < 2 {
        return None;
    }
    let mut folder = MemFolder::new(case.files, Vec::new(alloc));
    match prepare(alloc, args, &mut folder) {
        Ok(accepted) => Some(accepted),
        Err(_) => None,
    }
}

/// The same, with the tuples of each source.
pub fn given_by(alloc: Global, case: Case) -> Option<Given>
    ensures sound { IfSome result (λ g. IsSound g.network) }
    ensures limits { IfSome result (λ g. KeepsDropLimits g.network) }
    ensures lists { IfSome result (λ g. length g.sources.items ≡ length g.network.sources) }
    ensures streams { IfSome result (λ g. All IsStream (map (λ xs. xs.items) g.sources.items)) }
{
    let Accepted {
        network,
        sources,
        capacities,
        seed,
        ..
    } = accepted_by(alloc, case)?;
    let sources = sources_of(alloc, sources)?;
    Some(Given {
        network,
        sources,
        capacities,
        seed,
    })
}
