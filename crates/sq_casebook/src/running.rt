// The runs of cases.
ghost use Rattle.std.specs.Prelude.{◌≡◌, ◌<◌};

use crate::case::{Case, Faults};
use sq_outside::{MemDisk, MemFolder, MemSink, Steps};
use sq_top::run_words;
use std::alloc::{AllocError, Global};
use std::marker::Brand;
use std::sync::ledger::{Blank, Ledger};

/// What a run gave.
pub struct Ran {
    pub code: u8,
    pub out: MemSink,
    pub err: MemSink,
    pub disk: MemDisk,
}

/// By hand, so that a proof above meets one call where a run is let go.
impl Drop for Ran {
    fn drop(self) {
        let Ran {
            code: _code,
            out: _out,
            err: _err,
            disk: _disk,
        } = self;
    }
}

impl Ran {
    /// What was written.
    pub fn written(&self) -> &str {
        str::from_utf8(self.out.bytes()).unwrap_or("?")
    }

    /// What was told.
    pub fn told(&self) -> &str {
        str::from_utf8(self.err.bytes()).unwrap_or("?")
    }
}

fn run_over<L: Ledger>(alloc: Global, case: Case, blank: Blank) -> Ran
    requires name { blank.name ≡ L.name }
    requires parts { blank.parts ≡ L.parts }
    requires some { 0 < blank.parts }
{
    let Faults {
        folder,
        out,
        err,
        disk,
        flips,
        swaps,
    } = case.faults;
    let mut folder = MemFolder::new(case.files, folder);
    let mut disk = MemDisk::hostile(alloc, disk, flips, swaps);
    let mut out = MemSink::new(alloc, out, case.takes.max(1));
    let mut err = MemSink::new(alloc, err, case.takes.max(1));
    let mut steps = Steps::<L>::open(blank);
    let status = run_words(
        alloc,
        &case.words,
        &mut folder,
        &mut disk,
        &mut out,
        &mut err,
        &mut steps,
    );
    Ran {
        code: status.code(),
        out,
        err,
        disk,
    }
}

/// The run of the case of a text.
pub fn run_text(alloc: Global, text: &str) -> Result<Ran, AllocError> {
    let case = Case::read(alloc, text)?;
    Ok(run_over::<Brand>(alloc, case, Blank::new(1)))
}
