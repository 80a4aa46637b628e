// A tap: the network, the query, and the tuples of the network's sources.
ghost use Rattle.std.specs.Prelude.{◌≡◌, ℕ, ◌^◌, ◌<◌, ◌≤◌, [], Err, IfErr, IfOk, List, Ok, OnOk, length};
ghost use Rattle.sq_net.specs.SoundNetworks.{IsSound};
ghost use Rattle.sq_points.specs.Limits.{KeepsDropLimits};
ghost use Rattle.sq_tap.specs.Names.{stream_named};
ghost use Rattle.sq_work.specs.FolderStates.{folder_state};
ghost use Rattle.sq_work.specs.Reads.{LeadsWith};
ghost use Rattle.sq_work.specs.Scripts.{after_query, query_script};
ghost use Rattle.sq_work.specs.Taps.{first_tick, tapped};
ghost use Rattle.sq_work.specs.AcceptedViews.{CanRun, IsAskedBy, IsPrepared};
ghost use Rattle.sq_work.specs.Refusals.{IsStopped, IsQueryRefused, IsTapRefused, IsBadTap};

use crate::generating::{FRAMES, TRAIN};
use crate::reading::{Accepted, Stopped, network_file, refused_by, stopped_by, streams_of};
use sq_net::{NetErr, Network};
use sq_outside::Folder;
use sq_plan::Capacities;
use sq_sched::Rule;
use sq_status::Status;
use sq_tap::{Grafted, TapErr, graft, stream_named};
use sq_value::Name;
use std::alloc::Global;

/// What a tap is asked for.
#[derive(Drop)]
pub struct Asked {
    pub net: Name,
    pub stream: Name,
    /// The first tick of which the query is fed.
    pub from: u64,
    pub query: Name,
}

/// The first tick of so long a history before a tick.
pub fn first_tick(tick: u64, history: u64) -> u64
    ensures { result ≡ first_tick tick history }
{
    if tick < history {
        return 0;
    }
    tick - history
}

/// How an error of the query's file ends a tap.
fn query_refused(e: NetErr) -> Status
    ensures { IsQueryRefused e result }
{
    match e {
        NetErr::Memory => Status::Memory,
        _ => Status::BadQuery(e),
    }
}

/// How a query that can't be joined ends a tap.
fn tap_refused(e: TapErr) -> Status
    ensures { IsTapRefused e result }
{
    match e {
        TapErr::Memory => Status::Memory,
        _ => Status::BadTap(e),
    }
}

/// The network, or the status of a tap that has none.
fn tapped_network<F: Folder>(
    alloc: Global,
    asked: &Asked,
    folder: &mut F,
) -> Result<Network, Status>
    ensures sound { IfOk result IsSound }
    ensures leads { IfOk result (λ n. (words : List (List ℕ)) → IsAskedBy asked.now words
        → LeadsWith (folder_state F.Folder folder.old) (folder_state F.Folder folder.new) words n
        (query_script asked.now.stream asked.now.from asked.now.query n)) }
    ensures stopped { IfErr result (λ s. (words : List (List ℕ)) → IsAskedBy asked.now words
        → IsStopped words (folder_state F.Folder folder.old) (folder_state F.Folder folder.new) s []) }
    ensures files { F.files folder.new ≡ F.files folder.old }
    ensures no_fault { OnOk result (F.faults folder.new ≡ F.faults folder.old) }
    ensures later { (F.faults folder.old ≤ F.faults folder.new) × (F.taken folder.old ≤ F.taken folder.new) }
{
    match network_file(alloc, &asked.net, folder) {
        Ok(Ok(network)) => Ok(network),
        Ok(Err(e)) => Err(refused_by(e)),
        Err(status) => Err(status),
    }
}

/// The network and the query, or the status of a tap that hasn't both.
fn both_networks<F: Folder>(
    alloc: Global,
    asked: &Asked,
    folder: &mut F,
) -> Result<(Network, Network), Status>
    ensures sound { IfOk result (λ p. IsSound p.0) }
    ensures query { IfOk result (λ p. IsSound p.1) }
    ensures leads { IfOk result (λ p. (words : List (List ℕ)) → IsAskedBy asked.now words
        → LeadsWith (folder_state F.Folder folder.old) (folder_state F.Folder folder.new) words p.0
        (after_query p.0 asked.now.stream asked.now.from (Ok p.1))) }
    ensures stopped { IfErr result (λ s. (words : List (List ℕ)) → IsAskedBy asked.now words
        → IsStopped words (folder_state F.Folder folder.old) (folder_state F.Folder folder.new) s []) }
    ensures files { F.files folder.new ≡ F.files folder.old }
    ensures no_fault { OnOk result (F.faults folder.new ≡ F.faults folder.old) }
    ensures later { (F.faults folder.old ≤ F.faults folder.new) × (F.taken folder.old ≤ F.taken folder.new) }
{
    let network = match tapped_network(alloc, asked, folder) {
        Ok(network) => network,
        Err(status) => return Err(status),
    };
    match network_file(alloc, &asked.query, folder) {
        Ok(Ok(query)) => Ok((network, query)),
        Ok(Err(e)) => Err(query_refused(e)),
        Err(status) => Err(status),
    }
}

/// The query joined to the stream with this name, or the status of a tap that can't join it.
fn join(
    alloc: Global,
    network: Network,
    stream: &str,
    from: u64,
    query: Network,
) -> Result<Grafted, Status>
    requires sound { IsSound network }
    requires query { IsSound query }
    requires tick { from < 2 ^ 40 }
    ensures tapped { IfOk result (λ g. tapped network (stream_named network stream.now) from query ≡ Ok (record { network = g.net; first = g.first })) }
    ensures sources { IfOk result (λ g. g.net.sources ≡ network.sources) }
    ensures first { IfOk result (λ g. g.first ≤ length g.net.boxes) }
    ensures sound { IfOk result (λ g. IsSound g.net) }
    ensures limits { IfOk result (λ g. KeepsDropLimits g.net) }
    ensures refused { IfErr result (λ s. IsBadTap (tapped network (stream_named network stream.now) from query) s) }
{
    let Some(number) = stream_named(&network, stream) else {
        return Err(Status::BadTap(TapErr::NoStream));
    };
    match graft(alloc, network, number, from, query) {
        Ok(grafted) => Ok(grafted),
        Err(e) => Err(tap_refused(e)),
    }
}

/// The joined network and its sources' tuples, or the status of a tap that stops at them.
pub fn prepare_tap<F: Folder>(
    alloc: Global,
    asked: &Asked,
    folder: &mut F,
) -> Result<Accepted, Stopped>
    requires { asked.now.from < 2 ^ 40 }
    ensures runs { IfOk result CanRun }
    ensures prepared { (words : List (List ℕ)) → IsAskedBy asked.now words
        → IsPrepared words (folder_state F.Folder folder.old) (folder_state F.Folder folder.new) result }
    ensures files { F.files folder.new ≡ F.files folder.old }
    ensures no_fault { OnOk result (F.faults folder.new ≡ F.faults folder.old) }
    ensures later { (F.faults folder.old ≤ F.faults folder.new) × (F.taken folder.old ≤ F.taken folder.new) }
{
    let (network, query) = match both_networks(alloc, asked, folder) {
        Ok(both) => both,
        Err(status) => return Err(stopped_by(status)),
    };
    let joined = match join(alloc, network, asked.stream.as_str(), asked.from, query) {
        Ok(joined) => joined,
        Err(status) => return Err(stopped_by(status)),
    };
    match streams_of(alloc, &joined.net, folder) {
        Ok(sources) => Ok(Accepted {
            network: joined.net,
            sources,
            capacities: Capacities::new(Vec::new(alloc)),
            seed: 0,
            rule: Rule::RoundRobin,
            picks: Vec::new(alloc),
            train: TRAIN,
            frames: FRAMES,
            text: Vec::new(alloc),
            first: joined.first,
        }),
        Err(stopped) => Err(stopped),
    }
}
