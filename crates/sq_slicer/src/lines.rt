// What is written of each output and of the run.
ghost use Rattle.std.specs.Prelude.{◌≡◌, ◌<◌, ◌^◌, ◌++◌, IfOk, OnOk};
ghost use Rattle.std.specs.Option.{IfSome};
ghost use Rattle.std.specs.String.{string_bytes};
ghost use Rattle.sq_net.specs.SoundNetworks.{IsSound};
ghost use Rattle.sq_slicer.specs.Lines.{run_line, has_no_slices, reach_line, reach_lines, reach_text, shared_reach, slices_text};

use sq_net::{Network, Output};
use sq_slices::{Reach, first_uncut, output_reaches, outputs_reach, run_reach};
use sq_teller::put_box_line;
use std::alloc::{AllocError, Global};

fn reach_text(alloc: Global, reach: Reach) -> Result<String, AllocError>
    ensures { IfOk result (λ text. string_bytes text ≡ reach_text reach) }
{
    let back = reach.back;
    let ahead = reach.ahead;
    let step = reach.cuts.step;
    let phase = reach.cuts.phase;
    format!(in alloc; ",{back},{ahead},{step},{phase}\n")
}

fn put_reach(alloc: Global, reach: Reach, text: &mut Vec<u8>) -> Result<(), AllocError>
    ensures { OnOk result (text.new.items ≡ text.old.items ++ reach_text reach) }
{
    let said = reach_text(alloc, reach)?;
    text.extend_from_slice(said.as_str().as_bytes())?;
    Ok(())
}

fn put_output(
    alloc: Global,
    output: &Output,
    reach: Option<Reach>,
    text: &mut Vec<u8>,
) -> Result<(), AllocError>
    ensures { OnOk result (text.new.items ≡ text.old.items ++ reach_line output.now reach) }
{
    text.extend_from_slice(output.name.as_str().as_bytes())?;
    match reach {
        None => text.extend_from_slice(b",uncut\n")?,
        Some(reach) => {
            text.extend_from_slice(b",sliced")?;
            put_reach(alloc, reach, text)?;
        }
    }
    Ok(())
}

fn put_outputs(
    alloc: Global,
    outputs: &[Output],
    reaches: &[Option<Reach>],
    text: &mut Vec<u8>,
) -> Result<(), AllocError>
    ensures { OnOk result (text.new.items ≡ text.old.items ++ reach_lines outputs.now reaches.now) }
{
    for (i, output) in outputs.iter().enumerate() {
        match reaches.get(i) {
            Some(reach) => put_output(alloc, output, *reach, text)?,
            None => return Ok(()),
        }
    }
    Ok(())
}

fn shared_reach(alloc: Global, n: &Network, delay: Option<u64>) -> Result<Option<Reach>, AllocError>
    requires sound { IsSound n.now }
    requires delay { IfSome delay (λ d. d < 2 ^ 40) }
    ensures { IfOk result (λ r. r ≡ shared_reach n.now delay) }
{
    match delay {
        None => outputs_reach(alloc, n, None),
        Some(delay) => run_reach(alloc, n, delay),
    }
}

// The line of slices of the run, or of the first box that can't be sliced.
fn put_end(
    alloc: Global,
    n: &Network,
    delay: Option<u64>,
    shared: Option<Reach>,
    text: &mut Vec<u8>,
) -> Result<(), AllocError>
    requires sound { IsSound n.now }
    requires delay { IfSome delay (λ d. d < 2 ^ 40) }
    ensures { OnOk result (text.new.items ≡ text.old.items ++ run_line n.now delay shared) }
{
    match shared {
        None => {
            let at = first_uncut(alloc, n, delay)?;
            put_box_line("@uncut", n, at, text)
        }
        Some(reach) => {
            text.extend_from_slice(b"@run")?;
            put_reach(alloc, reach, text)
        }
    }
}

/// A line for each output, and one for slices of the run, or where there are none of the first box that is the reason; and whether
/// there are none.
pub fn slices_text(
    alloc: Global,
    n: &Network,
    delay: Option<u64>,
) -> Result<(Vec<u8>, bool), AllocError>
    requires sound { IsSound n.now }
    requires delay { IfSome delay (λ d. d < 2 ^ 40) }
    ensures text { IfOk result (λ r. r.0.items ≡ slices_text n.now delay) }
    ensures lost { IfOk result (λ r. r.1 ≡ has_no_slices n.now delay) }
{
    let reaches = output_reaches(alloc, n, delay)?;
    let shared = shared_reach(alloc, n, delay)?;
    let mut text = Vec::new(alloc);
    put_outputs(alloc, n.outputs.as_slice(), &reaches, &mut text)?;
    put_end(alloc, n, delay, shared, &mut text)?;
    Ok((text, shared.is_none()))
}
