// An audit, and the line that it writes.
ghost use Rattle.std.specs.Prelude.{◌≡◌, ℕ, ◌≤◌, true, IfErr, IfOk, List, OnOk, Some, map};
ghost use Rattle.sq_outside.specs.Sinks.{appended};
ghost use Rattle.sq_command.specs.declared.Command.TheVariants as Command;
ghost use Rattle.sq_command.specs.Commands.{command_in};
ghost use Rattle.sq_top.specs.Ends.{Ends};
ghost use Rattle.sq_work.specs.FolderStates.{folder_state};
ghost use Rattle.sq_due.specs.States.{DiskState, SinkState, sink_state};
ghost use Rattle.sq_top.specs.Outside.{outside};
ghost use Rattle.sq_top.specs.Texts.{verdict_text};
ghost use Rattle.sq_work.specs.AcceptedViews.{CanRun, replay_of};
ghost use Rattle.sq_due.specs.Writing.{LosesWhole};
ghost use Rattle.sq_value.specs.CommandWords.{may_name};
ghost use Rattle.sq_status.specs.Messages.{source_told};
ghost use Rattle.sq_status.specs.StatusKinds.{is_plain_end};

use sq_audit::{append_verdict_line, audit_text};
use sq_outside::{Failed, Folder, Sink, write_all};
use sq_replay::Stream;
use sq_status::Status;
use sq_value::{Name, Tuple};
use sq_work::{Accepted, Stopped, prepare_audit, stopped_by};
use std::alloc::{AllocError, Global};

/// The tuples of each stream, to its end.
fn all_tuples(alloc: Global, streams: Vec<Stream>) -> Result<Vec<Vec<Tuple>>, AllocError>
    ensures { IfOk result (λ v. map (λ xs. xs.items) v.items ≡ map (λ xs. xs.items) streams.items) }
{
    let mut lists = Vec::new(alloc);
    for stream in streams {
        lists.push(stream.into_tuples(alloc)?)?;
    }
    Ok(lists)
}

/// The line of the verdict on a text.
fn verdict_line(alloc: Global, accepted: Accepted) -> Result<Vec<u8>, AllocError>
    requires { CanRun accepted }
    ensures { IfOk result (λ line. line.items ≡ verdict_text (replay_of accepted)) }
{
    let Accepted {
        network,
        sources,
        text,
        ..
    } = accepted;
    let sources = all_tuples(alloc, sources)?;
    let verdict = audit_text(alloc, &network, sources.as_slice(), text.as_slice())?;
    let mut line = Vec::new(alloc);
    append_verdict_line(verdict, &mut line)?;
    Ok(line)
}

/// Writes the line of the verdict on a text: all of it at once, when it is whole.
fn write_verdict<S: Sink>(alloc: Global, accepted: Accepted, out: &mut S) -> Result<(), Status>
    requires { CanRun accepted }
    ensures ok { OnOk result (S.written out.new ≡ appended (S.written out.old) (verdict_text (replay_of accepted))) }
    ensures err { IfErr result (LosesWhole (sink_state S.Sink out.old) (sink_state S.Sink out.new) (verdict_text (replay_of accepted))) }
    ensures later { S.faults out.old ≤ S.faults out.new }
{
    let line = match verdict_line(alloc, accepted) {
        Ok(line) => line,
        Err(_) => return Err(Status::Memory),
    };
    match write_all(out, line.as_slice()) {
        Ok(()) => Ok(()),
        Err(Failed) => Err(Status::SinkFault),
    }
}

/// Does what an audit asks for, and says how it ended.
pub(crate) fn audit_files<F: Folder, S: Sink>(
    alloc: Global,
    net: Name,
    text: &Name,
    folder: &mut F,
    out: &mut S,
) -> Stopped
    requires { may_name net ≡ true }
    ensures ends { (words : List (List ℕ)) (disk : DiskState) (messages messages' : SinkState) (steps : ℕ)
        → command_in words ≡ Some (Command.Audit net text.now) → Ends words
        (outside (folder_state F.Folder folder.old) disk (sink_state S.Sink out.old) messages steps)
        (outside (folder_state F.Folder folder.new) disk (sink_state S.Sink out.new) messages' steps)
        result.status (source_told result.source) }
    ensures plain { (words : List (List ℕ)) → command_in words ≡ Some (Command.Audit net text.now) → is_plain_end result.status ≡ true }
    ensures files { F.files folder.new ≡ F.files folder.old }
    ensures later { (F.faults folder.old ≤ F.faults folder.new) × (F.taken folder.old ≤ F.taken folder.new) × (S.faults out.old ≤ S.faults out.new) }
{
    let accepted = match prepare_audit(alloc, net, text, folder) {
        Ok(accepted) => accepted,
        Err(stopped) => return stopped,
    };
    match write_verdict(alloc, accepted, out) {
        Ok(()) => stopped_by(Status::Ok),
        Err(status) => stopped_by(status),
    }
}
