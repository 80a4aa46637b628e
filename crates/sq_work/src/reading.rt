// The files of a run, read in the order of work.
ghost use Rattle.std.specs.Prelude.{true, ◌≡◌, ◌⊎◌, ℕ, ◌+◌, ◌++◌, ◌∷◌, ◌^◌, ◌<◌, ◌≤◌, IfOk, IfErr, List, None, Ok, OnErr, OnOk, Some, [], length, map};
ghost use Rattle.sq_net.specs.SoundNetworks.{IsSound, source_within};
ghost use Rattle.sq_points.specs.Limits.{KeepsDropLimits};
ghost use Rattle.sq_replay.specs.Laws.{ReadsStreams};
ghost use Rattle.sq_replay.specs.Streams.{stream_in};
ghost use Rattle.sq_command.specs.declared.Command.TheVariants as Command;
ghost use Rattle.sq_command.specs.Commands.{command_in};
ghost use Rattle.sq_work.specs.Scripts.{Done, AcceptedReplay, after_streams, capacities_script, picks_script, with_sources};
ghost use Rattle.sq_work.specs.FolderStates.{folder_state};
ghost use Rattle.sq_work.specs.Reads.{AreBytesOf, ScriptLeads, LeadsWith};
ghost use Rattle.sq_work.specs.AcceptedViews.{CanRun, IsPrepared};
ghost use Rattle.sq_work.specs.SourceFiles.{AreRecorded};
ghost use Rattle.sq_reader.specs.Limits.{settings_limit};
ghost use Rattle.sq_status.specs.Messages.{source_told};
ghost use Rattle.sq_work.specs.Refusals.{IsUnread, IsStopped, IsRefusedBy, IsNetworkFile, AreCapacitiesOf, HasNoCapacities, ArePicksOf, HasNoPicks, IsStreamOf, EndsAtBadLine, HasBadLine, HasNoStream, HasNoStreams};

use sq_command::RunArgs;
use sq_net::{NetErr, Network, Source};
use sq_outside::{Folder, FolderErr};
use sq_plan::Capacities;
use sq_reader::read_network;
use sq_replay::{LineErr, Stream, StreamErr, Why, read_capacities, read_picks};
use sq_sched::Rule;
use sq_status::Status;
use sq_value::{Name, copy_name};
use std::alloc::Global;

/// How many bytes a network, capacity or picks file may have.
const SETTINGS_LIMIT: u64 = 1_048_576;

/// How many bytes a stream may have.
const STREAM_LIMIT: u64 = 67_108_864;

/// The bytes of a file, or the status of a run that doesn't get them.
pub fn read_file<F: Folder>(
    alloc: Global,
    folder: &mut F,
    name: &Name,
    limit: u64,
) -> Result<Vec<u8>, Status>
    ensures whole { IfOk result (λ bytes. AreBytesOf (F.files folder.old) name.now limit bytes.items) }
    ensures within { IfOk result (λ bytes. length bytes.items ≤ limit) }
    ensures unread { IfErr result (λ s. IsUnread (folder_state F.Folder folder.old) (folder_state F.Folder folder.new) name.now limit s) }
    ensures gives { IfOk result (λ bytes. F.read folder.new ≡ F.read folder.old ++ (name.now, bytes.items) ∷ []) }
    ensures refuses { OnErr result (F.read folder.new ≡ F.read folder.old) }
    ensures files { F.files folder.new ≡ F.files folder.old }
    ensures no_fault { OnOk result (F.faults folder.new ≡ F.faults folder.old) }
    ensures later { (F.faults folder.old ≤ F.faults folder.new) × (F.taken folder.old ≤ F.taken folder.new) }
{
    match folder.read_whole(alloc, name.as_str(), limit) {
        Ok(bytes) => Ok(bytes),
        Err(FolderErr::Memory) => Err(Status::Memory),
        Err(FolderErr::Failed) => match copy_name(name) {
            Ok(name) => Err(Status::FolderFault { name }),
            Err(_) => Err(Status::Memory),
        },
        Err(FolderErr::TooLong) => match copy_name(name) {
            Ok(name) => Err(Status::TooLong { name }),
            Err(_) => Err(Status::Memory),
        },
    }
}

/// How an error of the network file ends a run.
pub(crate) fn refused_by(e: NetErr) -> Status
    ensures { IsRefusedBy e result }
{
    match e {
        NetErr::Memory => Status::Memory,
        _ => Status::BadNetwork(e),
    }
}

/// What the file with this name says as a network's, or the status of a command that doesn't get it.
pub(crate) fn network_file<F: Folder>(
    alloc: Global,
    name: &Name,
    folder: &mut F,
) -> Result<Result<Network, NetErr>, Status>
    ensures sound { IfOk result (λ r. IfOk r IsSound) }
    ensures limits { IfOk result (λ r. IfOk r KeepsDropLimits) }
    ensures file { IfOk result (λ r. IsNetworkFile (folder_state F.Folder folder.old) (folder_state F.Folder folder.new) name.now r) }
    ensures unread { IfErr result (λ s. IsUnread (folder_state F.Folder folder.old) (folder_state F.Folder folder.new) name.now settings_limit s) }
    ensures refuses { OnErr result (F.read folder.new ≡ F.read folder.old) }
    ensures files { F.files folder.new ≡ F.files folder.old }
    ensures no_fault { OnOk result (F.faults folder.new ≡ F.faults folder.old) }
    ensures later { (F.faults folder.old ≤ F.faults folder.new) × (F.taken folder.old ≤ F.taken folder.new) }
{
    let bytes = match read_file(alloc, folder, name, SETTINGS_LIMIT) {
        Ok(bytes) => bytes,
        Err(status) => return Err(status),
    };
    Ok(read_network(alloc, bytes.as_slice()))
}

/// The network that is named, or the status of a run that has none.
fn network_for<F: Folder>(alloc: Global, args: &RunArgs, folder: &mut F) -> Result<Network, Status>
    ensures sound { IfOk result IsSound }
    ensures limits { IfOk result KeepsDropLimits }
    ensures leads { IfOk result (λ n. (words : List (List ℕ)) → command_in words ≡ Some (Command.Run args.now)
        → LeadsWith (folder_state F.Folder folder.old) (folder_state F.Folder folder.new) words n (capacities_script args.now n args.now.capacities)) }
    ensures stopped { IfErr result (λ s. (words : List (List ℕ)) → command_in words ≡ Some (Command.Run args.now)
        → IsStopped words (folder_state F.Folder folder.old) (folder_state F.Folder folder.new) s []) }
    ensures files { F.files folder.new ≡ F.files folder.old }
    ensures no_fault { OnOk result (F.faults folder.new ≡ F.faults folder.old) }
    ensures later { (F.faults folder.old ≤ F.faults folder.new) × (F.taken folder.old ≤ F.taken folder.new) }
{
    match network_file(alloc, &args.net, folder) {
        Ok(Ok(network)) => Ok(network),
        Ok(Err(e)) => Err(refused_by(e)),
        Err(status) => Err(status),
    }
}

/// The capacities of the file with this name, or the status of a run that doesn't get them.
fn capacities_in<F: Folder>(
    alloc: Global,
    name: &Name,
    folder: &mut F,
) -> Result<Capacities, Status>
    ensures capacities { IfOk result (λ c. AreCapacitiesOf (folder_state F.Folder folder.old) (folder_state F.Folder folder.new) (Some name.now) c) }
    ensures missing { IfErr result (λ s. HasNoCapacities (folder_state F.Folder folder.old) (folder_state F.Folder folder.new) (Some name.now) s) }
    ensures files { F.files folder.new ≡ F.files folder.old }
    ensures no_fault { OnOk result (F.faults folder.new ≡ F.faults folder.old) }
    ensures later { (F.faults folder.old ≤ F.faults folder.new) × (F.taken folder.old ≤ F.taken folder.new) }
{
    let bytes = match read_file(alloc, folder, name, SETTINGS_LIMIT) {
        Ok(bytes) => bytes,
        Err(status) => return Err(status),
    };
    match read_capacities(alloc, bytes.as_slice()) {
        Ok(capacities) => Ok(capacities),
        Err(LineErr::Bad { line }) => Err(Status::BadCapacities { line }),
        Err(LineErr::Memory) => Err(Status::Memory),
    }
}

/// The capacities, where a file of them is named; else there are none.
fn capacities_for<F: Folder>(
    alloc: Global,
    name: &Option<Name>,
    folder: &mut F,
) -> Result<Capacities, Status>
    ensures capacities { IfOk result (λ c. AreCapacitiesOf (folder_state F.Folder folder.old) (folder_state F.Folder folder.new) name.now c) }
    ensures missing { IfErr result (λ s. HasNoCapacities (folder_state F.Folder folder.old) (folder_state F.Folder folder.new) name.now s) }
    ensures files { F.files folder.new ≡ F.files folder.old }
    ensures no_fault { OnOk result (F.faults folder.new ≡ F.faults folder.old) }
    ensures later { (F.faults folder.old ≤ F.faults folder.new) × (F.taken folder.old ≤ F.taken folder.new) }
{
    match name {
        Some(name) => capacities_in(alloc, name, folder),
        None => Ok(Capacities::new(Vec::new(alloc))),
    }
}

/// The network that is named and the capacities, or the status of a run that has them not.
fn limits_for<F: Folder>(
    alloc: Global,
    args: &RunArgs,
    folder: &mut F,
) -> Result<(Network, Capacities), Status>
    ensures sound { IfOk result (λ r. IsSound r.0) }
    ensures limits { IfOk result (λ r. KeepsDropLimits r.0) }
    ensures leads { IfOk result (λ r. (words : List (List ℕ)) → command_in words ≡ Some (Command.Run args.now)
        → LeadsWith (folder_state F.Folder folder.old) (folder_state F.Folder folder.new) words r.0 (picks_script args.now r.0 r.1 args.now.picks)) }
    ensures stopped { IfErr result (λ s. (words : List (List ℕ)) → command_in words ≡ Some (Command.Run args.now)
        → IsStopped words (folder_state F.Folder folder.old) (folder_state F.Folder folder.new) s []) }
    ensures files { F.files folder.new ≡ F.files folder.old }
    ensures no_fault { OnOk result (F.faults folder.new ≡ F.faults folder.old) }
    ensures later { (F.faults folder.old ≤ F.faults folder.new) × (F.taken folder.old ≤ F.taken folder.new) }
{
    let network = match network_for(alloc, args, folder) {
        Ok(network) => network,
        Err(status) => return Err(status),
    };
    match capacities_for(alloc, &args.capacities, folder) {
        Ok(capacities) => Ok((network, capacities)),
        Err(status) => Err(status),
    }
}

/// The picks of the file with this name, or the status of a run that doesn't get them.
fn picks_in<F: Folder>(alloc: Global, name: &Name, folder: &mut F) -> Result<Vec<u32>, Status>
    ensures picks { IfOk result (λ v. ArePicksOf (folder_state F.Folder folder.old) (folder_state F.Folder folder.new) (Some name.now) v.items) }
    ensures missing { IfErr result (λ s. HasNoPicks (folder_state F.Folder folder.old) (folder_state F.Folder folder.new) (Some name.now) s) }
    ensures files { F.files folder.new ≡ F.files folder.old }
    ensures no_fault { OnOk result (F.faults folder.new ≡ F.faults folder.old) }
    ensures later { (F.faults folder.old ≤ F.faults folder.new) × (F.taken folder.old ≤ F.taken folder.new) }
{
    let bytes = match read_file(alloc, folder, name, SETTINGS_LIMIT) {
        Ok(bytes) => bytes,
        Err(status) => return Err(status),
    };
    match read_picks(alloc, bytes.as_slice()) {
        Ok(picks) => Ok(picks),
        Err(LineErr::Bad { line }) => Err(Status::BadPicks { line }),
        Err(LineErr::Memory) => Err(Status::Memory),
    }
}

/// The picks, where a file of them is named; else there are none.
fn picks_for<F: Folder>(
    alloc: Global,
    name: &Option<Name>,
    folder: &mut F,
) -> Result<Vec<u32>, Status>
    ensures picks { IfOk result (λ v. ArePicksOf (folder_state F.Folder folder.old) (folder_state F.Folder folder.new) name.now v.items) }
    ensures missing { IfErr result (λ s. HasNoPicks (folder_state F.Folder folder.old) (folder_state F.Folder folder.new) name.now s) }
    ensures files { F.files folder.new ≡ F.files folder.old }
    ensures no_fault { OnOk result (F.faults folder.new ≡ F.faults folder.old) }
    ensures later { (F.faults folder.old ≤ F.faults folder.new) × (F.taken folder.old ≤ F.taken folder.new) }
{
    match name {
        Some(name) => picks_in(alloc, name, folder),
        None => Ok(Vec::new(alloc)),
    }
}

/// A run that stops before anything is replayed: its status, and the name of the source of which a line is bad.
#[derive(Drop)]
pub struct Stopped {
    pub status: Status,
    pub source: Option<Name>,
}

/// A run that stops of no line.
pub fn stopped_by(status: Status) -> Stopped
    ensures { (result.status ≡ status) × (result.source ≡ None) }
{
    Stopped {
        status,
        source: None,
    }
}

/// A run that stops at a line of a source.
fn stopped_at(number: u32, source: &Source, line: u32, why: Why) -> Stopped
    ensures { EndsAtBadLine number source.now line why result.status (source_told result.source) ⊎ (result.status ≡ Status.Memory) }
{
    match copy_name(&source.name) {
        Ok(name) => Stopped {
            status: Status::BadStream {
                source: number,
                line,
                why,
            },
            source: Some(name),
        },
        Err(_) => stopped_by(Status::Memory),
    }
}

/// The tuples that the stream's text of the source with this number has.
pub(crate) fn tuples_of(
    alloc: Global,
    number: u32,
    source: &Source,
    bytes: Vec<u8>,
) -> Result<Stream, Stopped>
    requires within { source_within source.now ≡ true }
    requires few { length bytes.items + 1 < 2 ^ 32 }
    ensures tuples { IfOk result (λ xs. stream_in source.now.schema bytes.items ≡ Ok xs.items) }
    ensures recorded { IfOk result (λ xs. ReadsStreams source.now.schema xs.items) }
    ensures bad { IfErr result (λ s. HasBadLine number source.now bytes.items s.status (source_told s.source)) }
{
    match Stream::new(alloc, bytes, &source.schema) {
        Ok(tuples) => Ok(tuples),
        Err(StreamErr::Bad { line, why }) => Err(stopped_at(number, source, line, why)),
        Err(StreamErr::Memory) => Err(stopped_by(Status::Memory)),
    }
}

/// The tuples of the source with this number.
fn stream_of<F: Folder>(
    alloc: Global,
    number: u32,
    source: &Source,
    folder: &mut F,
) -> Result<Stream, Stopped>
    requires within { source_within source.now ≡ true }
    ensures stream { IfOk result (λ xs. IsStreamOf (folder_state F.Folder folder.old) (folder_state F.Folder folder.new) source.now xs.items) }
    ensures recorded { IfOk result (λ xs. ReadsStreams source.now.schema xs.items) }
    ensures stopped { IfErr result (λ s.
        HasNoStream (folder_state F.Folder folder.old) (folder_state F.Folder folder.new) number source.now s.status (source_told s.source)) }
    ensures files { F.files folder.new ≡ F.files folder.old }
    ensures no_fault { OnOk result (F.faults folder.new ≡ F.faults folder.old) }
    ensures later { (F.faults folder.old ≤ F.faults folder.new) × (F.taken folder.old ≤ F.taken folder.new) }
{
    let bytes = match read_file(alloc, folder, &source.file, STREAM_LIMIT) {
        Ok(bytes) => bytes,
        Err(status) => return Err(stopped_by(status)),
    };
    tuples_of(alloc, number, source, bytes)
}

/// The tuples of each source, in the order of the network file.
pub(crate) fn streams_of<F: Folder>(
    alloc: Global,
    network: &Network,
    folder: &mut F,
) -> Result<Vec<Stream>, Stopped>
    requires { IsSound network.now }
    ensures leads { IfOk result (λ v. (r : AcceptedReplay) → ScriptLeads (folder_state F.Folder folder.old) (folder_state F.Folder folder.new)
        (after_streams (with_sources r []) network.now.sources) (Done (with_sources r (map (λ xs. xs.items) v.items)))) }
    ensures recorded { IfOk result (λ v. AreRecorded network.now.sources (map (λ xs. xs.items) v.items)) }
    ensures stopped { IfErr result (λ s. (r : AcceptedReplay) → HasNoStreams (folder_state F.Folder folder.old) (folder_state F.Folder folder.new)
        (with_sources r []) network.now.sources s.status (source_told s.source)) }
    ensures files { F.files folder.new ≡ F.files folder.old }
    ensures no_fault { OnOk result (F.faults folder.new ≡ F.faults folder.old) }
    ensures later { (F.faults folder.old ≤ F.faults folder.new) × (F.taken folder.old ≤ F.taken folder.new) }
{
    let mut streams = Vec::new(alloc);
    'sources: for source in network.sources.as_slice() {
        let number = streams.len() as u32;
        match stream_of(alloc, number, source, folder) {
            Ok(stream) => match streams.push(stream) {
                Ok(()) => {}
                Err(_) => return Err(stopped_by(Status::Memory)),
            },
            Err(stopped) => return Err(stopped),
        }
    }
    Ok(streams)
}

/// What was accepted of words and files.
#[derive(Drop)]
pub struct Accepted {
    pub network: Network,
    /// The tuples of each source.
    pub sources: Vec<Stream>,
    pub capacities: Capacities,
    pub seed: u64,
    pub rule: Rule,
    pub picks: Vec<u32>,
    pub train: u32,
    pub frames: u32,
    /// The text that is audited; a run has none.
    pub text: Vec<u8>,
    /// The first box of which lines are shown at the end.
    pub first: u32,
}

/// What the files come to that are asked for, or the status of a run that stops at them.
pub fn prepare<F: Folder>(alloc: Global, args: RunArgs, folder: &mut F) -> Result<Accepted, Stopped>
    requires train { 1 ≤ args.train }
    requires frames { 2 ≤ args.frames }
    ensures runs { IfOk result CanRun }
    ensures first { IfOk result (λ a. a.first ≡ 0) }
    ensures prepared { (words : List (List ℕ)) → command_in words ≡ Some (Command.Run args)
        → IsPrepared words (folder_state F.Folder folder.old) (folder_state F.Folder folder.new) result }
    ensures files { F.files folder.new ≡ F.files folder.old }
    ensures no_fault { OnOk result (F.faults folder.new ≡ F.faults folder.old) }
    ensures later { (F.faults folder.old ≤ F.faults folder.new) × (F.taken folder.old ≤ F.taken folder.new) }
{
    let (network, capacities) = match limits_for(alloc, &args, folder) {
        Ok(named) => named,
        Err(status) => return Err(stopped_by(status)),
    };
    let picks = match picks_for(alloc, &args.picks, folder) {
        Ok(picks) => picks,
        Err(status) => return Err(stopped_by(status)),
    };
    match streams_of(alloc, &network, folder) {
        Ok(sources) => Ok(Accepted {
            network,
            sources,
            capacities,
            seed: args.seed,
            rule: args.rule,
            picks,
            train: args.train,
            frames: args.frames,
            text: Vec::new(alloc),
            first: 0,
        }),
        Err(stopped) => Err(stopped),
    }
}
