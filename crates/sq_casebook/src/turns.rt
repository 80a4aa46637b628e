// Runs in which one call after another fails.
use crate::running::{Ran, run_text};
use crate::texts::push_line;
use std::alloc::{AllocError, Global};

/// No run here makes as many calls.
const MOST: u64 = 10_000;

/// The run of a case in which the call of this number fails, of those that a setting numbers.
fn run_in_turn(alloc: Global, case: &str, key: &str, number: u64) -> Result<Ran, AllocError> {
    let case = format!(in alloc; "{key}: {number}\n{case}")?;
    run_text(alloc, case.as_str())
}

/// Whether a run ended, wrote and told what the whole one did.
fn is_whole(ran: &Ran, whole: &Ran) -> bool {
    ran.code == whole.code
        && ran.out.bytes() == whole.out.bytes()
        && ran.err.bytes() == whole.err.bytes()
}

/// Runs a case in which one call fails, shows its status where that isn't the one before, and says whether nothing failed any more.
fn show_turn(
    alloc: Global,
    shown: &mut String,
    case: &str,
    key: &str,
    number: u64,
    before: &mut Option<u8>,
    whole: &Ran,
) -> Result<bool, AllocError> {
    let ran = run_in_turn(alloc, case, key, number)?;
    if is_whole(&ran, whole) {
        writeln!(shown, "{number} turns")?;
        return Ok(true);
    }
    if *before != Some(ran.code) {
        *before = Some(ran.code);
        writeln!(shown, "{}", ran.code)?;
    }
    Ok(false)
}

/// Shows each turn beside the whole run, until the last.
fn show_each(
    alloc: Global,
    shown: &mut String,
    case: &str,
    key: &str,
    whole: &Ran,
) -> Result<(), AllocError> {
    let mut before = None;
    for number in 0..MOST {
        if show_turn(alloc, shown, case, key, number, &mut before, whole)? {
            return Ok(());
        }
    }
    push_line(shown, "turns without end")
}

/// Shows in how many runs of a case a call fails that a setting numbers, each in its turn until all is as in the whole run, and with
/// which status these end.
pub fn show_turns(
    alloc: Global,
    shown: &mut String,
    case: &str,
    key: &str,
) -> Result<(), AllocError> {
    let whole = run_text(alloc, case)?;
    show_each(alloc, shown, case, key, &whole)
}
