//! How far slices of a run by time reach into the sources of a network, and where they may end: what `aurora_slices` does.
//!
//! The contract of `run_slices` promises over every folder and every sink: where the words ask for a network, the text that is
//! written is that of its definition, for the network that the bytes say which the folder gave in this run. A refusal is that of the
//! first rule that is broken, want of memory aside. Below stand `sq_slices` for slices and why they make the whole, `sq_reader` for
//! networks, and `sq_teller` for what both programs do.
#![tactic(auto)]

ghost use Rattle.std.specs.Prelude.{◌≡◌, ◌≢◌, ◌≤◌, map};
ghost use Rattle.std.specs.String.{string_bytes};
ghost use Rattle.sq_net.specs.declared.NetErr.TheVariants as net;
ghost use Rattle.sq_outside.specs.Sinks.{AppendsSuch};
ghost use Rattle.sq_teller.specs.Ends.{TellsEnding, around};
ghost use Rattle.sq_slicer.specs.Ends.{SlicesEnd};
ghost use Rattle.sq_slicer.specs.Words.{slices_asked};

mod answers;
mod lines;
mod words;

pub use lines::slices_text;
use sq_command::WordsErr;
use sq_net::NetErr;
use sq_outside::{Folder, Sink};
use sq_teller::{Ending, Program, answered, told};
use sq_value::Name;
use std::alloc::Global;
pub use words::read_words;

/// What words ask for.
#[derive(Drop)]
pub struct SlicesAsked {
    /// How many ticks after the time in its field a tuple may come to a BSort: the user's word for it.
    pub delay: Option<u64>,
    /// The network's file.
    pub net: Name,
}

// Does what the words ask for, and says how it ended.
fn run<F: Folder, S: Sink>(
    alloc: Global,
    words: &Vec<String>,
    folder: &mut F,
    out: &mut S,
) -> Ending
    ensures ends { SlicesEnd (slices_asked (map string_bytes words.now.items)) (around F.Folder folder.old folder.new S.Sink out.old out.new) result }
    ensures no_memory { result ≢ Ending.BadNetwork net.Memory }
    ensures files { F.files folder.new ≡ F.files folder.old }
    ensures later { (F.faults folder.old ≤ F.faults folder.new) × (F.taken folder.old ≤ F.taken folder.new) × (S.faults out.old ≤ S.faults out.new) }
{
    match read_words(alloc, words) {
        Ok(asked) => answered(alloc, &asked, folder, out),
        Err(WordsErr::Usage) => Ending::Usage,
        Err(WordsErr::Memory) => Ending::Memory,
    }
}

/// Does what the words ask for, and tells any status but Ok and Lost to `err`.
pub fn run_slices<F: Folder, S: Sink, E: Sink>(
    alloc: Global,
    words: &Vec<String>,
    folder: &mut F,
    out: &mut S,
    err: &mut E,
) -> Ending
    // By the bytes that the folder gave: the one read of this call, of the file that the words name.
    ensures ends { SlicesEnd (slices_asked (map string_bytes words.now.items)) (around F.Folder folder.old folder.new S.Sink out.old out.new) result }
    ensures tells { AppendsSuch (E.written err.old) (E.written err.new) (TellsEnding Program.Slices (E.faults err.old) (E.faults err.new) result) }
    ensures no_memory { result ≢ Ending.BadNetwork net.Memory }
    ensures same_files { F.files folder.new ≡ F.files folder.old }
    ensures later { (F.faults folder.old ≤ F.faults folder.new) × (F.taken folder.old ≤ F.taken folder.new)
        × (S.faults out.old ≤ S.faults out.new) × (E.faults err.old ≤ E.faults err.new) }
{
    let status = run(alloc, words, folder, out);
    told(alloc, Program::Slices, status, err)
}
