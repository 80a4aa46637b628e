// A run, driven to its end before an audience.
ghost use Rattle.std.specs.Prelude.{◌≡◌, ℕ, ◌≤◌, ◌<◌, IfErr, IfOk, OnOk, length};
ghost use Rattle.sq_pool.specs.Trust.{IsLater, known};
ghost use Rattle.sq_flow.specs.Flows.{measure_of};
ghost use Rattle.sq_due.specs.States.{disk_state, sink_state, unseen};
ghost use Rattle.sq_drive.specs.Stopping.{status_of};
ghost use Rattle.sq_drive.specs.Turns.{CanTurn, CountEnds, DriveEnds, DriveFails, IsDrivable, KeepsRun, RunsOut, TurnFails, TurnsOn, moment, run_state};
ghost use Rattle.sq_core.specs.Runs.{flow_of, ready_of};

use sq_core::{Engine, RunErr};
use sq_due::{Audience, Counts, LineWriter, no_counts};
use sq_oper::Event;
use sq_outside::{PageDisk, Sink, Steps};
use sq_sched::Policy;
use sq_status::Status;
use std::alloc::Global;
use std::sync::ledger::Ledger;

/// How a run ends whose engine stopped.
fn status_of(e: RunErr) -> Status
    ensures { result ≡ status_of e }
{
    match e {
        RunErr::Disk => Status::DiskFault,
        RunErr::Garbled { page, kept, got } => Status::Garbled { page, kept, got },
        RunErr::NotAPage { page, bytes } => Status::NotAPage { page, bytes },
        RunErr::Strange { arc, item } => Status::Strange { arc, item },
        RunErr::TooMuch => Status::TooMuch,
        RunErr::Memory => Status::Memory,
    }
}

/// Up to a train of steps of the actor that the policy picks, of which the events are shown.
fn step_once<D: PageDisk, O, A: Audience<O>, L: Ledger>(
    engine: &mut Engine,
    policy: &mut Policy,
    disk: &mut D,
    events: &mut Vec<Event>,
    audience: &mut A,
    out: &mut O,
    steps: &mut Steps<L>,
) -> Result<(), Status>
    requires ready { CanTurn A.Audience (moment D.PageDisk engine.old disk.old steps.old audience.old out.old) }
    requires runs { 0 < length (ready_of engine.old) }
    ensures keeps { KeepsRun (run_state D.PageDisk engine.old disk.old steps.old) (run_state D.PageDisk engine.new disk.new steps.new) }
    ensures falls { OnOk result (measure_of (flow_of engine.new) < measure_of (flow_of engine.old)) }
    ensures ok { OnOk result (TurnsOn A.Audience engine.old.network
        (moment D.PageDisk engine.old disk.old steps.old audience.old out.old) (moment D.PageDisk engine.new disk.new steps.new audience.new out.new)) }
    ensures err { IfErr result (TurnFails A.Audience engine.old.network
        (moment D.PageDisk engine.old disk.old steps.old audience.old out.old) (moment D.PageDisk engine.new disk.new steps.new audience.new out.new)) }
    ensures later { A.faults out.old ≤ A.faults out.new }
{
    let pick = policy.next(engine.ready(), engine.waits());
    events.clear();
    match engine.step(pick, disk, events, steps) {
        Ok(_) => audience.show(&engine.network, events.as_slice(), out),
        Err(e) => Err(status_of(e)),
    }
}

/// Steps an engine that another owns until it has ended, and shows its events. Where it fails, its owner alone lets it go.
fn step_to_end<D: PageDisk, O, A: Audience<O>, L: Ledger>(
    alloc: Global,
    engine: &mut Engine,
    policy: &mut Policy,
    disk: &mut D,
    audience: &mut A,
    out: &mut O,
    steps: &mut Steps<L>,
) -> Result<(), Status>
    requires { CanTurn A.Audience (moment D.PageDisk engine.old disk.old steps.old audience.old out.old) }
    ensures keeps { KeepsRun (run_state D.PageDisk engine.old disk.old steps.old) (run_state D.PageDisk engine.new disk.new steps.new) }
    ensures ok { OnOk result (RunsOut A.Audience
        (moment D.PageDisk engine.old disk.old steps.old audience.old out.old) (moment D.PageDisk engine.new disk.new steps.new audience.new out.new)) }
    ensures err { IfErr result (TurnFails A.Audience engine.old.network
        (moment D.PageDisk engine.old disk.old steps.old audience.old out.old) (moment D.PageDisk engine.new disk.new steps.new audience.new out.new)) }
    ensures later { A.faults out.old ≤ A.faults out.new }
{
    let mut events = Vec::new(alloc);
    'steps: while !engine.ended() {
        match step_once(engine, policy, disk, &mut events, audience, out, steps) {
            Ok(()) => {}
            Err(status) => return Err(status),
        }
    }
    engine.all_shown();
    engine.nothing_left();
    match audience.close(out) {
        Ok(()) => Ok(()),
        Err(status) => Err(status),
    }
}

/// Steps an engine by the picks of a policy until it has ended, and writes the line of each event. Whatever the engine has shown
/// before, where the disk is known this is exactly what is pending of its answers, its records and its plans.
///
/// # Errors
/// `DiskFault` where the disk had a fault, `Garbled`, `NotAPage` and `Strange` where a page came back that isn't the one which was
/// put, `SinkFault` where the output failed, `TooMuch` where more is to be fed than is counted, `Memory`. Where the disk is
/// honest, or no page came back changed with the digest of what was put, what was written by then begins the lines of such a run.
pub fn drive<D: PageDisk, S: Sink, L: Ledger>(
    alloc: Global,
    mut engine: Engine,
    mut policy: Policy,
    disk: &mut D,
    out: &mut S,
    steps: &mut Steps<L>,
) -> Result<Engine, Status>
    requires { IsDrivable (known (D.log disk.old)) engine }
    ensures ok { IfOk result (λ e. DriveEnds (run_state D.PageDisk engine disk.old steps.old) (run_state D.PageDisk e disk.new steps.new)
        (S.written out.old) (S.written out.new)) }
    ensures err { IfErr result (DriveFails (run_state D.PageDisk engine disk.old steps.old) (disk_state D.PageDisk disk.new) steps.new
        (sink_state S.Sink out.old) (sink_state S.Sink out.new)) }
    ensures faults { (D.faults disk.old ≤ D.faults disk.new) × (S.faults out.old ≤ S.faults out.new) }
    ensures later { IsLater (D.log disk.old) (D.log disk.new) }
{
    let mut lines = LineWriter::new(alloc);
    match step_to_end(
        alloc,
        &mut engine,
        &mut policy,
        disk,
        &mut lines,
        out,
        steps,
    ) {
        Ok(()) => Ok(engine),
        Err(status) => Err(status),
    }
}

/// Steps an engine by the picks of a policy until it has ended, and counts the line of each event.
pub fn count<D: PageDisk, L: Ledger>(
    alloc: Global,
    mut engine: Engine,
    mut policy: Policy,
    disk: &mut D,
    steps: &mut Steps<L>,
) -> Result<(Engine, Counts), Status>
    requires { IsDrivable (known (D.log disk.old)) engine }
    ensures ok { IfOk result (λ c. CountEnds (run_state D.PageDisk engine disk.old steps.old) (run_state D.PageDisk c.0 disk.new steps.new) c.1) }
    ensures err { IfErr result (λ s. (before now : ℕ) → DriveFails (run_state D.PageDisk engine disk.old steps.old) (disk_state D.PageDisk disk.new) steps.new
        (unseen before) (unseen now) s) }
    ensures faults { D.faults disk.old ≤ D.faults disk.new }
    ensures later { IsLater (D.log disk.old) (D.log disk.new) }
{
    let mut counts = match no_counts(alloc, &engine) {
        Ok(counts) => counts,
        Err(_) => return Err(Status::Memory),
    };
    let mut nowhere = ();
    match step_to_end(
        alloc,
        &mut engine,
        &mut policy,
        disk,
        &mut counts,
        &mut nowhere,
        steps,
    ) {
        Ok(()) => Ok((engine, counts)),
        Err(status) => Err(status),
    }
}
