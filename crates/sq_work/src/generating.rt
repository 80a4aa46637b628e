// What a number makes, read as the files of a run are.
ghost use Rattle.std.specs.Prelude.{◌≡◌, ◌⊎◌, ℕ, ◌+◌, ◌++◌, ◌∷◌, ◌^◌, ◌<◌, ◌≤◌, IfErr, IfOk, List, OnOk, Ok, Err, [], false, length, map, true};
ghost use Rattle.sq_gen.specs.Files.{made_of};
ghost use Rattle.sq_net.specs.SoundNetworks.{IsSound, source_within};
ghost use Rattle.sq_net.specs.declared.NetErr.{NetErr};
ghost use Rattle.sq_points.specs.Limits.{KeepsDropLimits};
ghost use Rattle.sq_reader.specs.Networks.{network_in};
ghost use Rattle.sq_replay.specs.Entries.{capacities_in};
ghost use Rattle.sq_replay.specs.Laws.{ReadsStreams};
ghost use Rattle.sq_replay.specs.Streams.{stream_in};
ghost use Rattle.sq_tables.specs.Refusals.{is_memory};
ghost use Rattle.sq_value.specs.declared.Tuple.{Tuple};
ghost use Rattle.sq_work.specs.Generation.{HasBadMade, HasBadStreams};
ghost use Rattle.sq_work.specs.SourceFiles.{AreRecorded};
ghost use Rattle.sq_work.specs.Scripts.{Done, AcceptedReplay, made_script, made_streams, with_sources};
ghost use Rattle.sq_work.specs.AcceptedViews.{CanRun, replay_of};
ghost use Rattle.sq_status.specs.Messages.{source_told};
ghost use Rattle.sq_work.specs.Refusals.{IsRefusedBy, HasBadLine};

use crate::reading::{Accepted, Stopped, refused_by, stopped_by, tuples_of};
use sq_gen::generate;
use sq_net::{Network, Source};
use sq_plan::Capacities;
use sq_reader::read_network;
use sq_replay::{LineErr, Stream, read_capacities};
use sq_sched::Rule;
use sq_status::Status;
use sq_value::ListOf;
use std::alloc::Global;

/// How many atomic steps an actor does in a row.
pub(crate) const TRAIN: u32 = 16;

/// How many pages the queues keep in memory.
pub(crate) const FRAMES: u32 = 256;

/// The network that was made, or the status of a run that has none. Its text is let go.
fn made_network(alloc: Global, bytes: ListOf<u8>) -> Result<Network, Status>
    ensures network { IfOk result (λ n. network_in bytes ≡ Ok n) }
    ensures sound { IfOk result IsSound }
    ensures limits { IfOk result KeepsDropLimits }
    ensures refused { IfErr result (λ s. (e : NetErr) × IsRefusedBy e s × (is_memory e ≡ false → network_in bytes ≡ Err e)) }
{
    match read_network(alloc, bytes.as_slice()) {
        Ok(network) => Ok(network),
        Err(e) => Err(refused_by(e)),
    }
}

/// The capacities that were made, or the status of a run that has none. Their text is let go.
fn made_capacities(alloc: Global, bytes: ListOf<u8>) -> Result<Capacities, Status>
    requires { length bytes + 1 < 2 ^ 32 }
    ensures capacities { IfOk result (λ c. capacities_in bytes ≡ Ok c) }
    ensures bad { IfErr result (λ s. (s ≡ Status.Memory) ⊎ ((line : ℕ) × (capacities_in bytes ≡ Err line) × (s ≡ Status.BadCapacities line))) }
{
    match read_capacities(alloc, bytes.as_slice()) {
        Ok(capacities) => Ok(capacities),
        Err(LineErr::Bad { line }) => Err(Status::BadCapacities { line }),
        Err(LineErr::Memory) => Err(Status::Memory),
    }
}

/// Puts the tuples that a source has of a text behind those of the sources before it.
fn push_stream(
    alloc: Global,
    source: &Source,
    text: Vec<u8>,
    streams: &mut Vec<Stream>,
) -> Result<(), Stopped>
    requires within { source_within source.now ≡ true }
    requires few { length text.items + 1 < 2 ^ 32 }
    requires counted { length streams.old.items < 2 ^ 32 }
    ensures read { OnOk result ((xs : List Tuple) × (stream_in source.now.schema text.items ≡ Ok xs) × ReadsStreams source.now.schema xs
        × (map (λ s. s.items) streams.new.items ≡ map (λ s. s.items) streams.old.items ++ xs ∷ [])) }
    ensures bad { IfErr result (λ s. HasBadLine (length streams.old.items) source.now text.items s.status (source_told s.source)) }
{
    let number = streams.len() as u32;
    let stream = match tuples_of(alloc, number, source, text) {
        Ok(stream) => stream,
        Err(stopped) => return Err(stopped),
    };
    match streams.push(stream) {
        Ok(()) => Ok(()),
        Err(_) => Err(stopped_by(Status::Memory)),
    }
}

/// The tuples of each source of a network that was made: those of the stream that was made. The last source takes the text itself,
/// and those before it take copies.
fn made_tuples(alloc: Global, network: &Network, text: Vec<u8>) -> Result<Vec<Stream>, Stopped>
    requires sound { IsSound network.now }
    requires few { length text.items + 1 < 2 ^ 32 }
    ensures made { IfOk result (λ v. (r : AcceptedReplay) → made_streams text.items (with_sources r []) network.now.sources ≡ Done (with_sources r (map (λ xs. xs.items) v.items))) }
    ensures recorded { IfOk result (λ v. AreRecorded network.now.sources (map (λ xs. xs.items) v.items)) }
    ensures bad { IfErr result (λ s. HasBadStreams text.items network.now.sources s.status (source_told s.source)) }
{
    let Some((last, others)) = network.sources.as_slice().split_last() else {
        return Ok(Vec::new(alloc));
    };
    let mut streams = Vec::new(alloc);
    'sources: for source in others {
        let Ok(copy) = Vec::from_slice(alloc, text.as_slice()) else {
            return Err(stopped_by(Status::Memory));
        };
        match push_stream(alloc, source, copy, &mut streams) {
            Ok(()) => {}
            Err(stopped) => return Err(stopped),
        }
    }
    match push_stream(alloc, last, text, &mut streams) {
        Ok(()) => Ok(streams),
        Err(stopped) => Err(stopped),
    }
}

/// What a number makes, or the status of a run that stops at it.
pub fn prepare_made(alloc: Global, number: u64, rows: u32) -> Result<Accepted, Stopped>
    requires some { 1 ≤ rows }
    requires bound { rows ≤ 1000000 }
    ensures runs { IfOk result CanRun }
    ensures made { IfOk result (λ a. made_script number (made_of number rows) ≡ Done (replay_of a)) }
    ensures bad { IfErr result (λ s. HasBadMade number rows s.status (source_told s.source)) }
{
    let made = match generate(alloc, number, rows) {
        Ok(made) => made,
        Err(_) => return Err(stopped_by(Status::Memory)),
    };
    let network = match made_network(alloc, made.net) {
        Ok(network) => network,
        Err(status) => return Err(stopped_by(status)),
    };
    let capacities = match made_capacities(alloc, made.capacities) {
        Ok(capacities) => capacities,
        Err(status) => return Err(stopped_by(status)),
    };
    match made_tuples(alloc, &network, made.stream.into_vec()) {
        Ok(sources) => Ok(Accepted {
            network,
            sources,
            capacities,
            seed: number,
            rule: Rule::RoundRobin,
            picks: Vec::new(alloc),
            train: TRAIN,
            frames: FRAMES,
            text: Vec::new(alloc),
            first: 0,
        }),
        Err(stopped) => Err(stopped),
    }
}
