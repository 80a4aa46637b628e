//! Whether the outputs of a network can be had from runs in parts, and by which columns: what `aurora_keys` does.
//!
//! The contract of `run_keys` promises over every folder and every sink: where the words ask for a network and name sources
//! with the fields by which they are cut, the text that is written is that of its definition, for the network that the bytes say
//! which the folder gave in this run. A refusal is that of the first rule that is broken, want of memory aside. Below stand
//! `sq_shard` for where keys stand, `sq_reader` for networks, and `sq_teller` for what both programs do.
#![tactic(auto)]

ghost use Rattle.std.specs.Prelude.{◌≡◌, ◌≢◌, ◌≤◌, map};
ghost use Rattle.std.specs.String.{string_bytes};
ghost use Rattle.sq_net.specs.declared.NetErr.TheVariants as net;
ghost use Rattle.sq_outside.specs.Sinks.{AppendsSuch};
ghost use Rattle.sq_teller.specs.Ends.{TellsEnding, around};
ghost use Rattle.sq_keys.specs.Ends.{KeysEnds};
ghost use Rattle.sq_keys.specs.Words.{asked_in};

mod answers;
mod keys;
mod lines;
mod words;

pub use keys::cuts_asked;
pub use lines::keys_text;
use sq_command::WordsErr;
use sq_net::NetErr;
use sq_outside::{Folder, Sink};
use sq_teller::{Ending, KeyWhy, Program, answered, told};
use sq_value::{ListOf, Name};
use std::alloc::Global;
pub use words::read_words;

/// A source and the field by which it is cut, by name.
#[derive(Drop)]
pub struct Pair {
    pub source: Name,
    pub field: Name,
}

/// What words ask for.
#[derive(Drop)]
pub struct KeysAsked {
    /// No BSort leaves out a tuple: the user's word for it.
    pub on_time: bool,
    /// The network's file.
    pub net: Name,
    pub pairs: ListOf<Pair>,
}

/// The pairs that words name are no keys.
#[derive(Clone, Copy, PartialEq, Eq, Drop)]
pub enum KeysErr {
    /// The first pair, by its number from 1, that breaks a rule, and the first rule that it breaks.
    Bad { key: u32, why: KeyWhy },
    Memory,
}

// Does what the words ask for, and says how it ended.
fn run<F: Folder, S: Sink>(
    alloc: Global,
    words: &Vec<String>,
    folder: &mut F,
    out: &mut S,
) -> Ending
    ensures ends { KeysEnds (asked_in (map string_bytes words.now.items)) (around F.Folder folder.old folder.new S.Sink out.old out.new) result }
    ensures no_memory { result ≢ Ending.BadNetwork net.Memory }
    ensures files { F.files folder.new ≡ F.files folder.old }
    ensures later { (F.faults folder.old ≤ F.faults folder.new) × (F.taken folder.old ≤ F.taken folder.new) × (S.faults out.old ≤ S.faults out.new) }
{
    match read_words(alloc, words) {
        Ok(asked) => answered(alloc, &asked, folder, out),
        Err(WordsErr::Usage) => Ending::Usage,
        Err(WordsErr::Memory) => Ending::Memory,
    }
}

/// Does what the words ask for, and tells any status but Ok and Lost to `err`.
pub fn run_keys<F: Folder, S: Sink, E: Sink>(
    alloc: Global,
    words: &Vec<String>,
    folder: &mut F,
    out: &mut S,
    err: &mut E,
) -> Ending
    // By the bytes that the folder gave: the one read of this call, of the file that the words name.
    ensures ends { KeysEnds (asked_in (map string_bytes words.now.items)) (around F.Folder folder.old folder.new S.Sink out.old out.new) result }
    ensures tells { AppendsSuch (E.written err.old) (E.written err.new) (TellsEnding Program.Keys (E.faults err.old) (E.faults err.new) result) }
    ensures no_memory { result ≢ Ending.BadNetwork net.Memory }
    ensures same_files { F.files folder.new ≡ F.files folder.old }
    ensures later { (F.faults folder.old ≤ F.faults folder.new) × (F.taken folder.old ≤ F.taken folder.new)
        × (S.faults out.old ≤ S.faults out.new) × (E.faults err.old ≤ E.faults err.new) }
{
    let status = run(alloc, words, folder, out);
    told(alloc, Program::Keys, status, err)
}
