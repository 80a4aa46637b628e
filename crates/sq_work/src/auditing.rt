// An audit: what a run of the network's file reads, and then the text.
ghost use Rattle.std.specs.Prelude.{◌≡◌, ℕ, ◌≤◌, true, IfOk, List, OnOk, Some};
ghost use Rattle.sq_command.specs.declared.Command.TheVariants as Command;
ghost use Rattle.sq_command.specs.Commands.{command_in};
ghost use Rattle.sq_value.specs.CommandWords.{may_name};
ghost use Rattle.sq_work.specs.AcceptedViews.{CanRun, IsPrepared};
ghost use Rattle.sq_work.specs.FolderStates.{folder_state};
ghost use Rattle.sq_work.specs.Scripts.{plain_args};

use crate::reading::{Accepted, Stopped, prepare, read_file, stopped_by};
use sq_command::RunArgs;
use sq_outside::Folder;
use sq_sched::Rule;
use sq_value::Name;
use std::alloc::Global;

/// How many bytes a text may have that is audited.
const TEXT_LIMIT: u64 = 268_435_456;

/// What a run is asked for that reads a network and its sources, and no capacities or picks.
fn plain_args(net: Name) -> RunArgs
    ensures { result ≡ plain_args net }
{
    RunArgs {
        net,
        capacities: None,
        seed: 0,
        rule: Rule::RoundRobin,
        picks: None,
        train: 16,
        frames: 256,
    }
}

/// The network, its sources' tuples and the text, or the status of an audit that stops at them.
pub fn prepare_audit<F: Folder>(
    alloc: Global,
    net: Name,
    text: &Name,
    folder: &mut F,
) -> Result<Accepted, Stopped>
    requires { may_name net ≡ true }
    ensures runs { IfOk result CanRun }
    ensures prepared { (words : List (List ℕ)) → command_in words ≡ Some (Command.Audit net text.now)
        → IsPrepared words (folder_state F.Folder folder.old) (folder_state F.Folder folder.new) result }
    ensures files { F.files folder.new ≡ F.files folder.old }
    ensures no_fault { OnOk result (F.faults folder.new ≡ F.faults folder.old) }
    ensures later { (F.faults folder.old ≤ F.faults folder.new) × (F.taken folder.old ≤ F.taken folder.new) }
{
    let mut accepted = match prepare(alloc, plain_args(net), folder) {
        Ok(accepted) => accepted,
        Err(stopped) => return Err(stopped),
    };
    match read_file(alloc, folder, text, TEXT_LIMIT) {
        Ok(bytes) => {
            accepted.text = bytes;
            Ok(accepted)
        }
        Err(status) => Err(stopped_by(status)),
    }
}
