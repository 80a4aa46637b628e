// The entries of a capacity file and the numbers of a picks file.
ghost use Rattle.std.specs.Prelude.{◌≡◌, ◌+◌, ◌++◌, ◌∷◌, [], ◌<◌, ◌^◌, length, map, IfErr, IfOk, None, OnOk, Ok};
ghost use Rattle.std.specs.List.{filter};
ghost use Rattle.sq_replay.specs.FileLines.{file_lines, has_text};
ghost use Rattle.sq_replay.specs.Entries.{IsBadLine, capacities_in, capacity_text, entries_from, entry_in, is_later, line_view, picks_from, picks_in, wide_number};

use crate::stream::{piece_at, without_mark, without_return};
use sq_csv::cut_first;
use sq_plan::Capacities;
use sq_value::read_short_number;
use std::alloc::{AllocError, Global};

/// Why a capacity or picks file isn't read.
#[derive(Clone, Copy, Debug, PartialEq, Eq, Drop)]
pub enum LineErr {
    /// The first bad line, counted from 1 among all lines.
    Bad { line: u32 },
    Memory,
}

/// An epoch has at most 13 digits.
const EPOCH_DIGITS: usize = 13;

/// Epochs are below this.
const EPOCH_LIMIT: u64 = 1 << 40;

/// A capacity has at most 24 digits.
const CAPACITY_DIGITS: usize = 24;

/// A pick has at most 10 digits.
const PICK_DIGITS: usize = 10;

/// Picks are below this.
const PICK_LIMIT: u64 = 1 << 32;

fn push_line<'a>(
    lines: &mut Vec<(u32, &'a [u8])>,
    number: u32,
    line: &'a [u8],
) -> Result<(), AllocError>
    ensures { OnOk result (map line_view lines.new.items ≡ map line_view lines.old.items ++ filter has_text ((number, line.now) ∷ [])) }
{
    if !line.is_empty() {
        lines.push((number, line))?;
    }
    Ok(())
}

/// The lines of a file that aren't empty, each with its number from 1 among all lines.
fn lines_of(alloc: Global, bytes: &[u8]) -> Result<Vec<(u32, &[u8])>, AllocError>
    requires { length bytes.now + 1 < 2 ^ 32 }
    ensures { IfOk result (λ v. map line_view v.items ≡ file_lines bytes.now) }
{
    let mut lines = Vec::new(alloc);
    let mut number = 0u32;
    let text = without_mark(bytes);
    let mut at = 0;
    while at <= text.len() {
        let (piece, next) = piece_at(text, at);
        at = next;
        number += 1;
        push_line(&mut lines, number, without_return(piece))?;
    }
    Ok(lines)
}

/// The number that 1 to 24 digits write.
fn read_wide(text: &[u8]) -> Option<u128>
    ensures { result ≡ wide_number text.now }
{
    if text.is_empty() || text.len() > CAPACITY_DIGITS {
        return None;
    }
    let mut number = 0u128;
    for byte in text {
        if *byte < 48 || *byte > 57 {
            return None;
        }
        number = number * 10 + u128::from(*byte - 48);
    }
    Some(number)
}

fn read_capacity(text: &[u8]) -> Option<Option<u128>>
    ensures { result ≡ capacity_text text.now }
{
    match text {
        [] => None,
        [b'-'] => Some(None),
        _ => match read_wide(text) {
            Some(capacity) => Some(Some(capacity)),
            None => None,
        },
    }
}

fn is_later(after: Option<u64>, epoch: u64) -> bool
    ensures { result ≡ is_later after epoch }
{
    match after {
        Some(last) => last < epoch,
        None => true,
    }
}

fn read_entry(after: Option<u64>, line: &[u8]) -> Option<(u64, Option<u128>)>
    ensures { result ≡ entry_in after line.now }
{
    let Some((first, second)) = cut_first(line, b',') else {
        return None;
    };
    if let Some((_third, _rest)) = cut_first(second, b',') {
        return None;
    }
    let Some(epoch) = read_short_number(first, EPOCH_DIGITS, EPOCH_LIMIT) else {
        return None;
    };
    if !is_later(after, epoch) {
        return None;
    }
    match read_capacity(second) {
        Some(capacity) => Some((epoch, capacity)),
        None => None,
    }
}

fn read_entries(alloc: Global, lines: &[(u32, &[u8])]) -> Result<Vec<(u64, Option<u128>)>, LineErr>
    ensures entries { IfOk result (λ v. entries_from None (map line_view lines.now) ≡ Ok v.items) }
    ensures bad { IfErr result (λ e. IsBadLine e (entries_from None (map line_view lines.now))) }
{
    let mut entries = Vec::new(alloc);
    let mut after = None;
    for line in lines {
        let Some(entry) = read_entry(after, line.1) else {
            return Err(LineErr::Bad { line: line.0 });
        };
        after = Some(entry.0);
        if entries.push(entry).is_err() {
            return Err(LineErr::Memory);
        }
    }
    Ok(entries)
}

/// The capacities of a file, or its first bad line: a line is an epoch, 1 to 13 digits of a number below 2^40 that is greater
/// than the epoch of the line before, a comma, and `-` for unlimited or 1 to 24 digits. A mark of byte order, the ends of
/// lines and empty lines are as in a stream.
pub fn read_capacities(alloc: Global, bytes: &[u8]) -> Result<Capacities, LineErr>
    requires { length bytes.now + 1 < 2 ^ 32 }
    ensures entries { IfOk result (λ c. capacities_in bytes.now ≡ Ok c) }
    ensures bad { IfErr result (λ e. IsBadLine e (capacities_in bytes.now)) }
{
    let Ok(lines) = lines_of(alloc, bytes) else {
        return Err(LineErr::Memory);
    };
    match read_entries(alloc, &lines) {
        Ok(entries) => Ok(Capacities::new(entries)),
        Err(e) => Err(e),
    }
}

fn read_numbers(alloc: Global, lines: &[(u32, &[u8])]) -> Result<Vec<u32>, LineErr>
    ensures numbers { IfOk result (λ v. picks_from (map line_view lines.now) ≡ Ok v.items) }
    ensures bad { IfErr result (λ e. IsBadLine e (picks_from (map line_view lines.now))) }
{
    let mut numbers = Vec::new(alloc);
    for line in lines {
        let Some(number) = read_short_number(line.1, PICK_DIGITS, PICK_LIMIT) else {
            return Err(LineErr::Bad { line: line.0 });
        };
        if numbers.push(number as u32).is_err() {
            return Err(LineErr::Memory);
        }
    }
    Ok(numbers)
}

/// The numbers of a picks file, or its first bad line: a line is 1 to 10 digits of a number below 2^32. A mark of byte order,
/// the ends of lines and empty lines are as in a stream.
pub fn read_picks(alloc: Global, bytes: &[u8]) -> Result<Vec<u32>, LineErr>
    requires { length bytes.now + 1 < 2 ^ 32 }
    ensures numbers { IfOk result (λ v. picks_in bytes.now ≡ Ok v.items) }
    ensures bad { IfErr result (λ e. IsBadLine e (picks_in bytes.now)) }
{
    let Ok(lines) = lines_of(alloc, bytes) else {
        return Err(LineErr::Memory);
    };
    match read_numbers(alloc, &lines) {
        Ok(numbers) => Ok(numbers),
        Err(e) => Err(e),
    }
}
