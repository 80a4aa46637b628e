// The time of a line that breaks no rule, told without making its values. Which rule a line breaks isn't asked here, and of
// the lines that break none nothing is told of those with a number or a boolean in quotes.
ghost use Rattle.std.specs.Prelude.{◌≡◌, ◌≤◌, IfOk, IfSome, List, drop, false, length, true};
ghost use Rattle.std.specs.List.{list_all};
ghost use Rattle.sq_csv.specs.Cuts.{begins_quoted, below_128, ends_line};
ghost use Rattle.sq_value.specs.declared.Value.{Value as V};
ghost use Rattle.sq_replay.specs.Cuts.{AreRead, ReadsAt, ReadsField, ReadsLine};

use crate::plain::{cut_int, cut_tick, is_ascii, text_of};
use sq_csv::{cut_bare, cut_quote, line_ends_at, skip_digits, stands_at, unquote};
use sq_value::{Kind, read_value};
use std::alloc::{AllocError, Global};

/// A text value has at most so many bytes.
const TEXT_LENGTH: usize = 255;

/// The end of a field at a place, if it is a value of a kind without texts.
#[inline(always)]
fn behind_read(alloc: Global, kind: Kind, text: &[u8], from: usize) -> Option<usize>
    requires within { from ≤ length text.now }
    requires bare { begins_quoted (drop from text.now) ≡ false }
    ensures { IfSome result (λ at. (v : V) × ReadsAt kind text.now from v at) }
{
    let Some((at, ascii)) = cut_bare(text, from) else {
        return None;
    };
    let Some(read) = text_of(&text[from..at], ascii) else {
        return None;
    };
    match read_value(alloc, kind, read) {
        Ok(_) => Some(at),
        Err(_) => None,
    }
}

/// Whether a field is a text value, or empty. `ascii` tells whether all its bytes are of ASCII.
#[inline(always)]
fn is_text(field: &[u8], ascii: bool) -> bool
    requires { ascii ≡ list_all below_128 field.now }
    ensures { result ≡ true → (v : V) × ReadsField Kind.Text field.now v }
{
    if field.len() > TEXT_LENGTH {
        return false;
    }
    match text_of(field, ascii) {
        Some(_) => true,
        None => false,
    }
}

/// The end of a field at a place, if it is a text value.
#[inline(always)]
fn behind_text(text: &[u8], from: usize) -> Option<usize>
    requires within { from ≤ length text.now }
    requires bare { begins_quoted (drop from text.now) ≡ false }
    ensures { IfSome result (λ at. (v : V) × ReadsAt Kind.Text text.now from v at) }
{
    let Some((at, ascii)) = cut_bare(text, from) else {
        return None;
    };
    if is_text(&text[from..at], ascii) {
        return Some(at);
    }
    None
}

/// The end of a field at a place, if it is empty or a number of so few digits that 64 bits hold any of them.
#[inline(always)]
fn behind_int(alloc: Global, text: &[u8], from: usize) -> Option<usize>
    requires within { from ≤ length text.now }
    requires bare { begins_quoted (drop from text.now) ≡ false }
    ensures { IfSome result (λ at. (v : V) × ReadsAt Kind.Int text.now from v at) }
{
    if let Some(at) = skip_digits(text, from) {
        return Some(at);
    }
    match cut_int(text, from) {
        Some((_, at)) => Some(at),
        None => behind_read(alloc, Kind::Int, text, from),
    }
}

#[inline(always)]
fn behind_bare(alloc: Global, kind: Kind, text: &[u8], from: usize) -> Option<usize>
    requires within { from ≤ length text.now }
    requires bare { begins_quoted (drop from text.now) ≡ false }
    ensures { IfSome result (λ at. (v : V) × ReadsAt kind text.now from v at) }
{
    match kind {
        Kind::Int => behind_int(alloc, text, from),
        Kind::Text => behind_text(text, from),
        Kind::Bool => behind_read(alloc, Kind::Bool, text, from),
    }
}

/// The end of a text value that has quotes within its quotes.
fn behind_doubled(
    text: &[u8],
    from: usize,
    unquoted: &mut Vec<u8>,
) -> Result<Option<usize>, AllocError>
    requires { begins_quoted (drop from text.now) ≡ true }
    ensures { IfOk result (λ o. IfSome o (λ at. (v : V) × ReadsAt Kind.Text text.now from v at)) }
{
    let Some(at) = unquote(text, from + 1, unquoted)? else {
        return Ok(None);
    };
    let field = unquoted.as_slice();
    if is_text(field, is_ascii(field)) {
        return Ok(Some(at));
    }
    Ok(None)
}

/// The end of a text value that stands in quotes.
#[inline(always)]
fn behind_quoted(
    text: &[u8],
    from: usize,
    unquoted: &mut Vec<u8>,
) -> Result<Option<usize>, AllocError>
    requires { begins_quoted (drop from text.now) ≡ true }
    ensures { IfOk result (λ o. IfSome o (λ at. (v : V) × ReadsAt Kind.Text text.now from v at)) }
{
    let Some((quote, ascii)) = cut_quote(text, from + 1) else {
        return Ok(None);
    };
    if stands_at(text, quote + 1, b'"') {
        return behind_doubled(text, from, unquoted);
    }
    if is_text(&text[from + 1..quote], ascii) {
        return Ok(Some(quote + 1));
    }
    Ok(None)
}

/// The end of the field at `from`, if the fast path accepts it. None: the slow path has to look.
#[inline(always)]
fn behind_first(
    alloc: Global,
    kind: Kind,
    text: &[u8],
    from: usize,
    unquoted: &mut Vec<u8>,
) -> Result<Option<usize>, AllocError>
    requires { from ≤ length text.now }
    ensures { IfOk result (λ o. IfSome o (λ at. (v : V) × ReadsAt kind text.now from v at)) }
{
    match (kind, stands_at(text, from, b'"')) {
        (Kind::Text, true) => behind_quoted(text, from, unquoted),
        (_, true) => Ok(None),
        (_, false) => Ok(behind_bare(alloc, kind, text, from)),
    }
}

/// The end of the line, if the fast path accepts the fields that are left. None: the slow path has to look.
#[inline(always)]
fn behind_values(
    alloc: Global,
    kinds: &[Kind],
    text: &[u8],
    from: usize,
    unquoted: &mut Vec<u8>,
) -> Result<Option<usize>, AllocError>
    requires { from ≤ length text.now }
    ensures { IfOk result (λ o. IfSome o (λ end. (vs : List V) × AreRead kinds.now text.now from vs end × (ends_line (drop end text.now) ≡ true))) }
{
    let mut at = from;
    for kind in kinds {
        if !stands_at(text, at, b',') {
            return Ok(None);
        }
        let Some(next) = behind_first(alloc, *kind, text, at + 1, unquoted)? else {
            return Ok(None);
        };
        at = next;
    }
    if !line_ends_at(text, at) {
        return Ok(None);
    }
    Ok(Some(at))
}

/// The tick of the tuple of the line at `from`, and the line's end, if the fast path accepts it and no tuple before it is later
/// than `latest`. None: the slow path has to look.
#[inline(always)]
pub(crate) fn time_at_once(
    alloc: Global,
    kinds: &[Kind],
    latest: u64,
    text: &[u8],
    from: usize,
    unquoted: &mut Vec<u8>,
) -> Result<Option<(u64, usize)>, AllocError>
    requires { from ≤ length text.now }
    ensures { IfOk result (λ o. IfSome o (λ p. (vs : List V) × ReadsLine kinds.now latest text.now from (record { time = p.0; fields = vs }) p.1)) }
{
    let Some((time, at)) = cut_tick(latest, text, from) else {
        return Ok(None);
    };
    match behind_values(alloc, kinds, text, at, unquoted)? {
        Some(end) => Ok(Some((time, end))),
        None => Ok(None),
    }
}
