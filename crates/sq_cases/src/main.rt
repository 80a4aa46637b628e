//! The program of cases: shows each case of the files that its words name, by `show_cases` of `sq_casebook`, and at the end
//! how many runs were compared with the slow definitions.
//!
//! It promises nothing of its own. The stored run compares what it prints with what was worked out by hand.
#![tactic(auto)]

use anyhow::Error;
use sq_casebook::show_cases;
use std::{env, fs};

fn main(rt: HostRuntime) -> Result<(), Error> {
    let mut compared = 0u64;
    for name in env::args(&rt)?.skip(1) {
        let text = fs::read_to_string(&rt, name.as_str())?;
        show_cases(&rt, text.as_str(), &mut compared)?;
    }
    println!(rt; "{compared} runs compared with the model")?;
    Ok(())
}
