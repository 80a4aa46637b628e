//! The program `aurora`: what the words after its name ask for, a run of the working folder's files or of what a number
//! makes, over the standard streams.
//!
//! It promises nothing beyond `run_words` of `sq_top`, which it calls once over the real objects of `sq_system`: what
//! that says of answers, refusals and messages is about the very bytes that were read, all that the outputs took, and
//! a spill file that may change what it keeps, as long as a changed page has another SHA-256. Its exit code is that of
//! the status.
#![tactic(auto)]

ghost use Rattle.std.specs.Prelude.{◌≡◌, ◌<◌};

use sq_outside::{Steps, write_all};
use sq_system::{NamelessFile, OpenFolder, Out, SpillFile, take_closed_streams, words_after_name};
use sq_top::{Status, run_words};
use std::marker::Brand;
use std::process::ExitCode;
use std::sync::ledger::{Blank, Ledger};

/// Does what the words ask for, and says how it ended.
fn run<L: Ledger>(rt: &HostRuntime, blank: Blank) -> Status
    requires name { blank.name ≡ L.name }
    requires parts { blank.parts ≡ L.parts }
    requires some { 0 < blank.parts }
{
    let mut err = Out::new(rt.stderr());
    let Ok(words) = words_after_name(rt) else {
        let _ = write_all(&mut err, b"aurora: out of memory\n");
        return Status::Memory;
    };
    let mut folder = OpenFolder::new(rt);
    let mut disk = SpillFile::new(NamelessFile::new(rt));
    let mut out = Out::new(rt.stdout());
    let mut steps = Steps::<L>::open(blank);
    run_words(
        rt.alloc(),
        &words,
        &mut folder,
        &mut disk,
        &mut out,
        &mut err,
        &mut steps,
    )
}

fn main(rt: HostRuntime) -> ExitCode {
    let _kept = take_closed_streams(&rt);
    let status = run::<Brand>(&rt, Blank::new(1));
    ExitCode::from(status.code())
}
