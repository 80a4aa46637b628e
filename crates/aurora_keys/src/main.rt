//! The program `aurora_keys`: which outputs of a network can be had from runs in parts, and by which columns, told of the
//! network file that the words after its name name.
//!
//! It promises nothing beyond `run_keys` of `sq_keys`, which it calls once over the working folder and the standard streams of
//! `sq_system`. Its exit code is that of the status.
#![tactic(auto)]

use sq_keys::run_keys;
use sq_outside::write_all;
use sq_system::{OpenFolder, Out, take_closed_streams, words_after_name};
use sq_teller::Ending;
use std::process::ExitCode;

/// Does what the words ask for, and says how it ended.
fn run(rt: &HostRuntime) -> Ending {
    let mut err = Out::new(rt.stderr());
    let Ok(words) = words_after_name(rt) else {
        let _ = write_all(&mut err, b"aurora_keys: out of memory\n");
        return Ending::Memory;
    };
    let mut folder = OpenFolder::new(rt);
    let mut out = Out::new(rt.stdout());
    run_keys(rt.alloc(), &words, &mut folder, &mut out, &mut err)
}

fn main(rt: HostRuntime) -> ExitCode {
    let _kept = take_closed_streams(&rt);
    let status = run(&rt);
    ExitCode::from(status.code())
}
