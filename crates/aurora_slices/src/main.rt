//! The program `aurora_slices`: how far slices of a run by time reach into the sources of a network, and where they may end, told of
//! the network file that the words after its name name.
//!
//! It promises nothing beyond `run_slices` of `sq_slicer`, which it calls once over the working folder and the standard streams of
//! `sq_system`. Its exit code is that of the status.
#![tactic(auto)]

use sq_outside::write_all;
use sq_slicer::run_slices;
use sq_system::{OpenFolder, Out, take_closed_streams, words_after_name};
use sq_teller::Ending;
use std::process::ExitCode;

/// Does what the words ask for, and says how it ended.
fn run(rt: &HostRuntime) -> Ending {
    let mut err = Out::new(rt.stderr());
    let Ok(words) = words_after_name(rt) else {
        let _ = write_all(&mut err, b"aurora_slices: out of memory\n");
        return Ending::Memory;
    };
    let mut folder = OpenFolder::new(rt);
    let mut out = Out::new(rt.stdout());
    run_slices(rt.alloc(), &words, &mut folder, &mut out, &mut err)
}

fn main(rt: HostRuntime) -> ExitCode {
    let _kept = take_closed_streams(&rt);
    ExitCode::from(run(&rt).code())
}
