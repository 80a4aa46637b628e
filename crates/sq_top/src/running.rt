// A run, but for its message, and the message.
ghost use Rattle.std.specs.Prelude.{◌≡◌, ◌≢◌, ◌⊎◌, ℕ, ◌≤◌, IfErr, IfOk, List, OnOk, false, map, true};
ghost use Rattle.std.specs.String.{string_bytes};
ghost use Rattle.sq_outside.specs.Faults.{Rose};
ghost use Rattle.sq_words.specs.Lists.{IsPrefixOf};
ghost use Rattle.sq_pool.specs.Trust.{IsLater, Tells, known};
ghost use Rattle.sq_command.specs.Commands.{command_in, reads_folder, runs_engine};
ghost use Rattle.sq_top.specs.Ends.{DoesAll, Ends, KnowsDisk};
ghost use Rattle.sq_work.specs.FolderStates.{FolderState, folder_state};
ghost use Rattle.sq_due.specs.States.{SinkState, disk_state, sink_state};
ghost use Rattle.sq_top.specs.Outside.{outside};
ghost use Rattle.sq_top.specs.Running.{EndsEarly, IsReportedBy, WhoeverAsks};
ghost use Rattle.sq_sched.specs.Policies.{seed_words};
ghost use Rattle.sq_drive.specs.Failing.{FedNeeded, IsNewOf};
ghost use Rattle.sq_work.specs.AcceptedViews.{CanRun, IsPrepared, replay_of};
ghost use Rattle.sq_outside.specs.Sinks.{AppendsSuch};
ghost use Rattle.sq_status.specs.Messages.{TellsStatus, source_told};
ghost use Rattle.sq_status.specs.StatusKinds.{is_refusal, is_plain_end};

use crate::auditing::audit_files;
use sq_command::{Command, WordsErr, read_words};
use sq_core::Engine;
use sq_drive::{count, drive};
use sq_due::{write_ends, write_summary};
use sq_outside::{Folder, PageDisk, Sink, Steps, write_all};
use sq_sched::Policy;
use sq_status::{Status, message};
use sq_work::{
    Accepted, Asked, Stopped, first_tick, prepare, prepare_made, prepare_tap, stopped_by,
};
use std::alloc::Global;
use std::sync::ledger::Ledger;

/// How a run is told: by its lines, or by the summary of what a number makes.
#[derive(Clone, Copy)]
pub(crate) enum Report {
    Lines,
    Summary { number: u64, rows: u32 },
}

/// The engine of what was accepted, and the policy that it is driven by.
pub(crate) fn start(alloc: Global, accepted: Accepted) -> Result<(Engine, Policy), Status>
    requires { CanRun accepted }
    ensures new { IfOk result (λ e. IsNewOf (replay_of accepted) e.0) }
    ensures policy { IfOk result (λ e. e.1 ≡ record { rule = accepted.rule; picks = accepted.picks.items; words = seed_words accepted.seed; train = accepted.train }) }
    ensures memory { IfErr result (λ s. s ≡ Status.Memory) }
{
    let Accepted {
        network,
        sources,
        capacities,
        seed,
        rule,
        picks,
        train,
        frames,
        text: _,
        first: _,
    } = accepted;
    match Engine::replaying(alloc, network, sources, capacities, seed, frames) {
        Ok(engine) => Ok((engine, Policy::new(rule, picks, seed, train))),
        Err(_) => Err(Status::Memory),
    }
}

/// Runs what was accepted under its schedule, and writes all lines of it, at the end those of the boxes from the first on; or its summary.
fn run_accepted<D: PageDisk, S: Sink, L: Ledger>(
    alloc: Global,
    accepted: Accepted,
    report: Report,
    disk: &mut D,
    out: &mut S,
    steps: &mut Steps<L>,
) -> Result<(), Status>
    requires { CanRun accepted }
    ensures ok { OnOk result (WhoeverAsks report (disk_state D.PageDisk disk.old) (disk_state D.PageDisk disk.new)
        (sink_state S.Sink out.old) (sink_state S.Sink out.new) steps.old steps.new (λ c before after. KnowsDisk c after → DoesAll c (replay_of accepted) before after)) }
    ensures fed { OnOk result (Tells (known (D.log disk.new)) → FedNeeded (D.log disk.old) (D.log disk.new) (replay_of accepted)) }
    ensures cut { IfErr result (λ s. WhoeverAsks report (disk_state D.PageDisk disk.old) (disk_state D.PageDisk disk.new)
        (sink_state S.Sink out.old) (sink_state S.Sink out.new) steps.old steps.new (λ c before after. EndsEarly c (replay_of accepted) before after s)) }
    ensures later { IsLater (D.log disk.old) (D.log disk.new) }
    ensures faults { (D.faults disk.old ≤ D.faults disk.new) × (S.faults out.old ≤ S.faults out.new) }
{
    let first = accepted.first;
    let (engine, policy) = match start(alloc, accepted) {
        Ok(started) => started,
        Err(status) => return Err(status),
    };
    match report {
        Report::Lines => match drive(alloc, engine, policy, disk, out, steps) {
            Ok(engine) => write_ends(alloc, &engine, first, out),
            Err(status) => Err(status),
        },
        Report::Summary { number, rows } => match count(alloc, engine, policy, disk, steps) {
            Ok((engine, counts)) => write_summary(alloc, number, rows, &engine, &counts, out),
            Err(status) => Err(status),
        },
    }
}

/// Runs what was prepared, and says how that ended; or how its preparation did, where that stopped.
fn run_prepared<D: PageDisk, S: Sink, L: Ledger>(
    alloc: Global,
    prepared: Result<Accepted, Stopped>,
    report: Report,
    disk: &mut D,
    out: &mut S,
    steps: &mut Steps<L>,
) -> Stopped
    requires { IfOk prepared CanRun }
    ensures ends { (words : List (List ℕ)) (folder folder' : FolderState) (messages messages' : SinkState) → IsReportedBy report (command_in words)
        → IsPrepared words folder folder' prepared → OnOk prepared (folder'.faults ≡ folder.faults) → Ends words
        (outside folder (disk_state D.PageDisk disk.old) (sink_state S.Sink out.old) messages steps.old)
        (outside folder' (disk_state D.PageDisk disk.new) (sink_state S.Sink out.new) messages' steps.new)
        result.status (source_told result.source) }
    ensures disk { is_refusal result.status ≡ true → (D.log disk.new ≡ D.log disk.old) × (D.faults disk.new ≡ D.faults disk.old) }
    ensures later { IsLater (D.log disk.old) (D.log disk.new) }
    ensures faults { (D.faults disk.old ≤ D.faults disk.new) × (S.faults out.old ≤ S.faults out.new) }
{
    let accepted = match prepared {
        Ok(accepted) => accepted,
        Err(stopped) => return stopped,
    };
    match run_accepted(alloc, accepted, report, disk, out, steps) {
        Ok(()) => stopped_by(Status::Ok),
        Err(status) => stopped_by(status),
    }
}

/// Does what the words ask for, and says how it ended.
pub fn run<F: Folder, D: PageDisk, S: Sink, L: Ledger>(
    alloc: Global,
    words: &Vec<String>,
    folder: &mut F,
    disk: &mut D,
    out: &mut S,
    steps: &mut Steps<L>,
) -> Stopped
    ensures ends { (messages messages' : SinkState) → Ends (map string_bytes words.now.items)
        (outside (folder_state F.Folder folder.old) (disk_state D.PageDisk disk.old) (sink_state S.Sink out.old) messages steps.old)
        (outside (folder_state F.Folder folder.new) (disk_state D.PageDisk disk.new) (sink_state S.Sink out.new) messages' steps.new)
        result.status (source_told result.source) }
    ensures files { F.files folder.new ≡ F.files folder.old }
    ensures unread { reads_folder (command_in (map string_bytes words.now.items)) ≡ false → (F.faults folder.new ≡ F.faults folder.old)
        × (F.taken folder.new ≡ F.taken folder.old) × (F.read folder.new ≡ F.read folder.old) }
    ensures no_engine { runs_engine (command_in (map string_bytes words.now.items)) ≡ false → (is_plain_end result.status ≡ true)
        × (D.log disk.new ≡ D.log disk.old) × (D.faults disk.new ≡ D.faults disk.old) × (steps.new ≡ steps.old) }
    ensures disk { is_refusal result.status ≡ true → (D.log disk.new ≡ D.log disk.old) × (D.faults disk.new ≡ D.faults disk.old) }
    ensures later { IsLater (D.log disk.old) (D.log disk.new) }
    ensures counts { (F.faults folder.old ≤ F.faults folder.new) × (F.taken folder.old ≤ F.taken folder.new)
        × (D.faults disk.old ≤ D.faults disk.new) × (S.faults out.old ≤ S.faults out.new) }
{
    match read_words(alloc, words) {
        Ok(Command::Run(args)) => {
            let prepared = prepare(alloc, args, folder);
            run_prepared(alloc, prepared, Report::Lines, disk, out, steps)
        }
        Ok(Command::Gen { number, rows }) => {
            let prepared = prepare_made(alloc, number, rows);
            let report = Report::Summary { number, rows };
            run_prepared(alloc, prepared, report, disk, out, steps)
        }
        Ok(Command::Audit { net, text }) => audit_files(alloc, net, &text, folder, out),
        Ok(
            Command::Tap {
                net,
                stream,
                tick,
                history,
                query,
            },
        ) => {
            let from = first_tick(tick, history);
            let asked = Asked {
                net,
                stream,
                from,
                query,
            };
            let prepared = prepare_tap(alloc, &asked, folder);
            run_prepared(alloc, prepared, Report::Lines, disk, out, steps)
        }
        Err(WordsErr::Usage) => stopped_by(Status::Usage),
        Err(WordsErr::Memory) => stopped_by(Status::Memory),
    }
}

/// Writes a message as far as the sink takes it.
fn say<E: Sink>(err: &mut E, text: &[u8])
    ensures told { AppendsSuch (E.written err.old) (E.written err.new)
        (λ said. (said ≡ text.now) ⊎ (Rose (E.faults err.old) (E.faults err.new) × IsPrefixOf said text.now)) }
    ensures later { E.faults err.old ≤ E.faults err.new }
{
    let _ = write_all(err, text);
}

/// Tells the status of a run, or that memory ran out where there is none for the message. That the output failed takes none.
pub fn tell<E: Sink>(alloc: Global, stopped: Stopped, err: &mut E) -> Stopped
    ensures status { (result.status ≡ stopped.status) ⊎ ((result.status ≡ Status.Memory) × (stopped.status ≢ Status.SinkFault)) }
    ensures source { source_told result.source ≡ source_told stopped.source }
    ensures told { AppendsSuch (E.written err.old) (E.written err.new)
        (TellsStatus (source_told result.source) (E.faults err.old) (E.faults err.new) result.status) }
    ensures later { E.faults err.old ≤ E.faults err.new }
{
    if let Status::SinkFault = stopped.status {
        say(err, b"aurora: output failed\n");
        return stopped;
    }
    match message(alloc, &stopped.source, &stopped.status) {
        Ok(text) => {
            say(err, text.as_str().as_bytes());
            stopped
        }
        Err(_) => {
            say(err, b"aurora: out of memory\n");
            Stopped {
                status: Status::Memory,
                source: stopped.source,
            }
        }
    }
}
