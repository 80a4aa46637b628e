//! What the words of a call ask for.
//!
//! `read_words` promises that words are a command exactly where `command_in` says so, and then that one; else it says that they are none,
//! or that memory ran out. A new command begins here: its form among the words, and its variant. Below stand names and schedules.
#![tactic(auto)]

mod words;

use sq_sched::Rule;
use sq_value::Name;
pub use words::{may_name, read_words};

/// What the words of a run ask for.
#[derive(Drop)]
pub struct RunArgs {
    /// The network's file.
    pub net: Name,
    /// The file of capacities, if one is named: without it capacity is unlimited.
    pub capacities: Option<Name>,
    /// What the generator starts from that chooses under the rule Seeded.
    pub seed: u64,
    /// How the next actor is chosen: RoundRobin where the words don't say.
    pub rule: Rule,
    /// The file of picks, exactly where the rule is Picks.
    pub picks: Option<Name>,
    /// How many atomic steps an actor may do in a row: 1 to 4096.
    pub train: u32,
    /// How many pages the queues may keep in memory: 2 to 16,384.
    pub frames: u32,
}

/// What words ask for.
#[derive(Drop)]
pub enum Command {
    /// A run of the files of a network.
    Run(RunArgs),
    /// A run of what a number makes, with so many rows, of which the summary is written.
    Gen {
        number: u64,
        /// 1 to 1,000,000.
        rows: u32,
    },
    /// An audit of a text beside the files of a network, of which the verdict is written.
    Audit {
        /// The network's file.
        net: Name,
        /// The text's file.
        text: Name,
    },
    /// A run of a query that is joined to a stream of a network's files, from so far back before a tick on.
    Tap {
        /// The network's file.
        net: Name,
        /// The stream's name: a source's, or a port's of a box.
        stream: Name,
        tick: u64,
        history: u64,
        /// The query's file.
        query: Name,
    },
}

/// Why words are no command.
#[derive(Clone, Copy, PartialEq, Eq, Drop)]
pub enum WordsErr {
    Usage,
    Memory,
}
