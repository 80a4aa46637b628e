//! Cases of the top call, kept as data: files, words and calls that are to fail, and what a run over them gives.
//!
//! It promises nothing of its own. For each case of a text `show_cases` runs `run_words` of
//! `sq_top` over objects in memory, and prints the number of the status, what was written and what was told. Where a run ended
//! well, its lines are also compared with what the slow definitions of `sq_model` give for the same files: each output with
//! its answer, each drop with its record, and where nothing may be dropped the end lines with how many tuples each box is fed
//! and how many are late. What differs is shown, and runs that were compared are counted. Below stand the top call, the readers
//! and the slow definitions.
//!
//! A case begins with a line `= TITLE`. Settings follow, if any, of which each counts where it first stands; then files, each `- NAME` and
//! its lines; then rows, each `| ROW`, and each a run with the row in place of `$`. A line that ends in `\` has no end of line, `\n` and `\r` are ends of
//! lines, and `~COUNT TEXT~` is so many copies, with the number of each in place of `#`. The settings:
//! - `words: run,a.toml`; `made: 7,20000` (the files that the generator makes of a number and so many lines);
//! - `folder fails: 0,2`, `out fails: 9`, `err fails: 0`, `disk fails: 2` (calls that fail), `takes: 1` (how many bytes a call of
//!   a sink takes), `flips: 0`, `swaps: 0` (gets of the disk that answer a byte wrongly, or another page), `byte: 17` (which byte);
//! - `turns: out fails` (each call that such a setting numbers fails in turn, until a run is the whole one: shown is how many didn't, and
//!   with which status they ended);
//! - `classes: @plan,o` (the lines with these first fields are shown class by class, and then all others, where the order of the
//!   classes isn't fixed), `counted: o` (of these only how many lines there are), `puts: 5` (so many pages are put at least);
//! - `work: 10` (of a compared run: by the slow definitions so many tuples are fed to all boxes, drops and outputs);
//! - `compared: no` (the slow definitions aren't asked, which go through every batch and take too long for some runs).
#![tactic(auto)]

mod beside;
mod case;
mod given;
mod running;
mod showing;
mod texts;
mod turns;

pub use showing::show_cases;
