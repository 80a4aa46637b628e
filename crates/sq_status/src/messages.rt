// The message of each status.
ghost use Rattle.std.specs.Prelude.{◌≡◌, [], IfOk, string_bytes};
ghost use Rattle.sq_status.specs.Messages.{hex_byte, hex_text, message_of, tap_text, why_text, source_told};

use crate::Status;
use sq_net::NetErr;
use sq_pool::Digest;
use sq_refusal::refusal_text;
use sq_replay::Why;
use sq_tap::TapErr;
use sq_value::Name;
use std::alloc::{AllocError, Global};

fn why_text(why: Why) -> &'static str
    ensures { result.now ≡ why_text why }
{
    match why {
        Why::TooMany => "TooMany",
        Why::Cut => "Cut",
        Why::Fields => "Fields",
        Why::Utf8 => "Utf8",
        Why::Tick => "Tick",
        Why::Falls => "Falls",
        Why::NotInt => "NotInt",
        Why::NotBool => "NotBool",
        Why::TextLong => "TextLong",
    }
}

fn network_message(alloc: Global, e: NetErr) -> Result<String, AllocError>
    ensures { IfOk result (λ text. string_bytes text ≡ message_of [] (Status.BadNetwork e)) }
{
    let broken = refusal_text(alloc, e)?;
    format!(in alloc; "aurora: network: {broken}\n")
}

fn query_message(alloc: Global, e: NetErr) -> Result<String, AllocError>
    ensures { IfOk result (λ text. string_bytes text ≡ message_of [] (Status.BadQuery e)) }
{
    let broken = refusal_text(alloc, e)?;
    format!(in alloc; "aurora: query: {broken}\n")
}

/// The name of a rule of joining.
fn tap_text(e: TapErr) -> &'static str
    ensures { result.now ≡ tap_text e }
{
    match e {
        TapErr::NoStream => "NoStream",
        TapErr::Sources => "Sources",
        TapErr::Schema => "Schema",
        TapErr::Limit => "Limit",
        TapErr::Memory => "Memory",
    }
}

/// The two lower-case hexadecimal digits of a byte.
#[tactic(auto, using(std::proofs::lemmas::Fmt::hex_byte))]
fn hex_byte(alloc: Global, byte: u8) -> Result<String, AllocError>
    ensures { IfOk result (λ text. string_bytes text ≡ hex_byte byte) }
{
    format!(in alloc; "{byte:02x}")
}

fn hex_text(alloc: Global, bytes: &[u8]) -> Result<String, AllocError>
    ensures { IfOk result (λ text. string_bytes text ≡ hex_text bytes.now) }
{
    let mut text = String::new(alloc);
    'bytes: for byte in bytes {
        let digits = hex_byte(alloc, *byte)?;
        text.push_str(digits.as_str())?;
    }
    Ok(text)
}

fn changed_message(
    alloc: Global,
    page: u64,
    kept: &Digest,
    got: &Digest,
) -> Result<String, AllocError>
    ensures { IfOk result (λ text. string_bytes text ≡ message_of [] (Status.Garbled page kept.now got.now)) }
{
    let kept = hex_text(alloc, &kept.0)?;
    let got = hex_text(alloc, &got.0)?;
    format!(in alloc; "aurora: page {page} changed: {kept} {got}\n")
}

/// The name of a source, or nothing.
fn name_text(source: &Option<Name>) -> &str
    ensures { result.now ≡ source_told source.now }
{
    match source {
        Some(name) => name.as_str(),
        None => "",
    }
}

/// The line of a status, where the source has this name.
pub fn message(alloc: Global, source: &Option<Name>, status: &Status) -> Result<String, AllocError>
    ensures { IfOk result (λ text. string_bytes text ≡ message_of (source_told source.now) status.now) }
{
    match status {
        Status::Ok => String::from_str(alloc, ""),
        Status::Usage => String::from_str(alloc, "aurora: usage: aurora run NET [options]\n"),
        Status::BadNetwork(e) => network_message(alloc, *e),
        Status::BadQuery(e) => query_message(alloc, *e),
        Status::BadTap(e) => {
            let rule = tap_text(*e);
            format!(in alloc; "aurora: tap: {rule}\n")
        }
        Status::BadCapacities { line } => format!(in alloc; "aurora: capacities: line {line}\n"),
        Status::BadPicks { line } => format!(in alloc; "aurora: picks: line {line}\n"),
        Status::BadStream { line, why, .. } => {
            let source = name_text(source);
            let why = why_text(*why);
            format!(in alloc; "aurora: stream {source}: line {line}: {why}\n")
        }
        Status::FolderFault { name } => {
            let name = name.as_str();
            format!(in alloc; "aurora: cannot read {name}\n")
        }
        Status::DiskFault => String::from_str(alloc, "aurora: spill disk failed\n"),
        Status::Garbled { page, kept, got } => changed_message(alloc, *page, kept, got),
        Status::NotAPage { page, .. } => format!(in alloc; "aurora: page {page} is no page\n"),
        Status::Strange { arc, .. } => format!(in alloc; "aurora: arc {arc}: strange item\n"),
        Status::SinkFault => String::from_str(alloc, "aurora: output failed\n"),
        Status::TooLong { name } => {
            let name = name.as_str();
            format!(in alloc; "aurora: file too long: {name}\n")
        }
        Status::Memory => String::from_str(alloc, "aurora: out of memory\n"),
        Status::TooMuch => String::from_str(alloc, "aurora: too many tuples\n"),
    }
}
