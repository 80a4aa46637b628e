//! The top call: what the words ask for, done over a folder, a disk and two sinks.
//!
//! `run_words` carries the promise of the whole engine, by the names and the bytes that the folder's reads gave in
//! that run, over sinks that tell what they hold, and where the disk is honest, or no page came back changed with the
//! digest of what was put: a run that ends Ok has written exactly the lines that belong to each class and taken
//! exactly the steps of its work; any other end leaves a prefix of each class and has a cause of its own, whatever the
//! schedule and however few pages stay in memory. Where a folder tells its files, they decide
//! (`told_files_decide`). A run of what a number makes is a replay as any other, of which the numbers of lines are written in
//! their place. An audit runs no engine: it reads a network, the streams of its sources and a text, and writes the verdict on
//! the text as one line. A tap is a run of the network that `sq_tap` joins of two, of which at the end the query's boxes are
//! shown. Below stand `sq_command` for words, `sq_status` for how a call ends, `sq_work` for what is read and accepted,
//! `sq_drive` for a run on its way, `sq_audit` for verdicts, and `sq_outside` for the objects.
#![tactic(auto)]

ghost use Rattle.std.specs.Prelude.{map};
ghost use Rattle.std.specs.String.{string_bytes};
ghost use Rattle.sq_top.specs.Ends.{CallEnds};
ghost use Rattle.sq_work.specs.FolderStates.{folder_state};
ghost use Rattle.sq_due.specs.States.{disk_state, sink_state};
ghost use Rattle.sq_top.specs.Outside.{outside};

mod auditing;
mod laws;
mod running;

pub use laws::{folders_have_causes, runs_keep_the_headline, taps_show_parts, told_files_decide};
use running::{run, tell};
pub use sq_command::{Command, RunArgs, WordsErr, read_words};
pub use sq_drive::drive;
use sq_outside::{Folder, PageDisk, Sink, Steps};
pub use sq_status::Status;
use std::alloc::Global;
use std::sync::ledger::Ledger;

/// Does what the words ask for, and tells any status but Ok to `err`.
pub fn run_words<F: Folder, D: PageDisk, S: Sink, E: Sink, L: Ledger>(
    alloc: Global,
    words: &Vec<String>,
    folder: &mut F,
    disk: &mut D,
    out: &mut S,
    err: &mut E,
    steps: &mut Steps<L>,
) -> Status
    // What stands outside before the call and after it: the folder, the disk, the output, the messages and the steps. By the names and the
    // bytes that the folder's reads gave in this call the script of the words came to what is left of it, and by that the call ends, tells
    // its status, and leaves the rest as it was.
    ensures ends { CallEnds (map string_bytes words.now.items)
        (outside (folder_state F.Folder folder.old) (disk_state D.PageDisk disk.old) (sink_state S.Sink out.old) (sink_state E.Sink err.old) steps.old)
        (outside (folder_state F.Folder folder.new) (disk_state D.PageDisk disk.new) (sink_state S.Sink out.new) (sink_state E.Sink err.new) steps.new)
        result }
{
    let stopped = run(alloc, words, folder, disk, out, steps);
    if let Status::Ok = stopped.status {
        return Status::Ok;
    }
    tell(alloc, stopped, err).status
}
