// The message of each status.
ghost use Rattle.std.specs.Prelude.{◌≡◌, ◌⊎◌, ◌≤◌, IfOk, string_bytes};
ghost use Rattle.sq_outside.specs.Faults.{Rose};
ghost use Rattle.sq_outside.specs.Sinks.{AppendsSuch};
ghost use Rattle.sq_words.specs.Lists.{IsPrefixOf};
ghost use Rattle.sq_teller.specs.Ends.{IsEndingTold, TellsEnding};
ghost use Rattle.sq_teller.specs.Messages.{key_why_text, ending_message, name_text, usage_text};

use crate::{Ending, KeyWhy, Program};
use sq_net::NetErr;
use sq_outside::{Sink, write_all};
use sq_refusal::refusal_text;
use std::alloc::{AllocError, Global};

fn name_text(program: Program) -> &'static str
    ensures { result.now ≡ name_text program }
{
    match program {
        Program::Keys => "aurora_keys",
        Program::Slices => "aurora_slices",
    }
}

fn usage_text(program: Program) -> &'static str
    ensures { result.now ≡ usage_text program }
{
    match program {
        Program::Keys => "aurora_keys [--on-time] NET SOURCE=FIELD..",
        Program::Slices => "aurora_slices [--delay TICKS] NET",
    }
}

fn key_why_text(why: KeyWhy) -> &'static str
    ensures { result.now ≡ key_why_text why }
{
    match why {
        KeyWhy::NoSource => "NoSource",
        KeyWhy::Twice => "Twice",
        KeyWhy::NoField => "NoField",
    }
}

// The lines that take no memory.
fn failed_line(program: Program) -> &'static str
    ensures { result.now ≡ ending_message program Ending.SinkFault }
{
    match program {
        Program::Keys => "aurora_keys: output failed\n",
        Program::Slices => "aurora_slices: output failed\n",
    }
}

fn memory_line(program: Program) -> &'static str
    ensures { result.now ≡ ending_message program Ending.Memory }
{
    match program {
        Program::Keys => "aurora_keys: out of memory\n",
        Program::Slices => "aurora_slices: out of memory\n",
    }
}

fn network_message(alloc: Global, program: Program, e: NetErr) -> Result<String, AllocError>
    ensures { IfOk result (λ text. string_bytes text ≡ ending_message program (Ending.BadNetwork e)) }
{
    let name = name_text(program);
    let refusal = refusal_text(alloc, e)?;
    let said = refusal.as_str();
    format!(in alloc; "{name}: network: {said}\n")
}

// The line of a status.
fn ending_message(alloc: Global, program: Program, status: &Ending) -> Result<String, AllocError>
    ensures { IfOk result (λ text. string_bytes text ≡ ending_message program status.now) }
{
    let name = name_text(program);
    match status {
        Ending::Ok | Ending::Lost => String::from_str(alloc, ""),
        Ending::Usage => {
            let usage = usage_text(program);
            format!(in alloc; "{name}: usage: {usage}\n")
        }
        Ending::BadNetwork(e) => network_message(alloc, program, *e),
        Ending::FolderFault { name: file } => {
            let file = file.as_str();
            format!(in alloc; "{name}: cannot read {file}\n")
        }
        Ending::SinkFault => String::from_str(alloc, failed_line(program)),
        Ending::TooLong { name: file } => {
            let file = file.as_str();
            format!(in alloc; "{name}: file too long: {file}\n")
        }
        Ending::Memory => String::from_str(alloc, memory_line(program)),
        Ending::BadKey { key, why } => {
            let why = key_why_text(*why);
            format!(in alloc; "{name}: key {key}: {why}\n")
        }
    }
}

// Writes a message as far as the sink takes it.
fn say<E: Sink>(err: &mut E, text: &[u8])
    ensures told { AppendsSuch (E.written err.old) (E.written err.new) (λ said. (said ≡ text.now) ⊎ (Rose (E.faults err.old) (E.faults err.new) × IsPrefixOf said text.now)) }
    ensures later { E.faults err.old ≤ E.faults err.new }
{
    let _ = write_all(err, text);
}

/// Tells how a call ended, and how it ends with that: Ok and Lost have no line, and where there is no memory for the line, memory
/// ran out.
pub fn told<E: Sink>(alloc: Global, program: Program, status: Ending, err: &mut E) -> Ending
    ensures status { IsEndingTold status result }
    ensures told { AppendsSuch (E.written err.old) (E.written err.new) (TellsEnding program (E.faults err.old) (E.faults err.new) result) }
    ensures later { E.faults err.old ≤ E.faults err.new }
{
    match status {
        Ending::Ok => Ending::Ok,
        Ending::Lost => Ending::Lost,
        Ending::SinkFault => {
            say(err, failed_line(program).as_bytes());
            Ending::SinkFault
        }
        status => match ending_message(alloc, program, &status) {
            Ok(text) => {
                say(err, text.as_str().as_bytes());
                status
            }
            Err(_) => {
                say(err, memory_line(program).as_bytes());
                Ending::Memory
            }
        },
    }
}
