// The tuples of a text, line by line.
ghost use Rattle.std.specs.Prelude.{◌≡◌, ◌<◌, ◌≤◌, ◌++◌, ◌∷◌, [], ◌+◌, ℕ, List, None, IfOk, IfSome, MatchOption, OnErr, OnOk, drop, length};
ghost use Rattle.sq_value.specs.declared.Kind.{Kind as K};
ghost use Rattle.sq_replay.specs.FileLines.{pieces_of, without_mark};
ghost use Rattle.sq_replay.specs.RecordedTuples.{and_then, tuples_recorded, tuples_left};
ghost use Rattle.sq_replay.specs.Streams.{tuple_of_line};
ghost use Rattle.sq_replay.specs.RestOfText.{all_to_come, unread_tuples, with_next};

use crate::line::{TupleErr, read_tuple};
use crate::plain::read_into;
use crate::stream::{piece_at, without_return};
use sq_csv::stands_at;
use sq_value::{Kind, Tuple, Value};
use std::alloc::{AllocError, Global};
use std::collections::VecDeque;

/// A text of which the lines from a place on are still to be read.
#[derive(Drop)]
pub(crate) struct Unread {
    text: Vec<u8>,
    at: usize,
    kinds: Vec<Kind>,
    latest: u64,
    // Where a field that stands in quotes is put.
    unquoted: Vec<u8>,
    // Whether the last line that was cut off ended in CR LF: the next one most likely does too.
    returns: bool,
}

/// How many bytes a mark of byte order takes at the start.
fn mark_length(bytes: &[u8]) -> usize
    ensures mark { drop result bytes.now ≡ without_mark bytes.now }
    ensures within { result ≤ length bytes.now }
{
    match bytes {
        [0xEF, 0xBB, 0xBF, ..] => 3,
        _ => 0,
    }
}

impl Unread {
    /// A stream file of which nothing is read yet.
    fn new(alloc: Global, text: Vec<u8>, kinds: &[Kind]) -> Result<Unread, AllocError>
        ensures { IfOk result (λ u. unread_tuples u ≡ tuples_left kinds.now 0 (pieces_of (without_mark text.items))) }
    {
        let at = mark_length(&text);
        let kinds = Vec::from_slice(alloc, kinds)?;
        Ok(Unread {
            text,
            at,
            kinds,
            latest: 0,
            unquoted: Vec::new(alloc),
            returns: false,
        })
    }

    /// No text.
    pub(crate) fn none(alloc: Global) -> Unread
        ensures { unread_tuples result ≡ [] }
    {
        Unread {
            text: Vec::new(alloc),
            at: 0,
            kinds: Vec::new(alloc),
            latest: 0,
            unquoted: Vec::new(alloc),
            returns: false,
        }
    }
}

/// The first line of a text from a place on that isn't empty, and where the next one begins.
#[inline(always)]
fn next_line(text: &[u8], at: usize) -> Option<(&[u8], usize)>
    ensures line { MatchOption result ((ks : List K) (latest : ℕ) → tuples_recorded ks latest text.now at ≡ [])
        (λ p. (ks : List K) (latest : ℕ) → tuples_recorded ks latest text.now at ≡ and_then (tuple_of_line ks latest p.0.now) (λ t. tuples_recorded ks t.time text.now p.1)) }
    ensures further { IfSome result (λ p. (at < p.1) × (p.1 ≤ length text.now + 1)) }
{
    let mut next = at;
    while next <= text.len() {
        let (piece, behind) = piece_at(text, next);
        next = behind;
        let line = without_return(piece);
        if !line.is_empty() {
            return Some((line, next));
        }
    }
    None
}

/// Puts all tuples of a text from a place on behind others.
pub(crate) fn read_rest(
    alloc: Global,
    kinds: &[Kind],
    after: u64,
    text: &[u8],
    from: usize,
    tuples: &mut Vec<Tuple>,
) -> Result<(), AllocError>
    ensures { OnOk result (tuples.new.items ≡ tuples.old.items ++ tuples_recorded kinds.now after text.now from) }
{
    let mut unquoted = Vec::new(alloc);
    let (mut latest, mut at) = (after, from);
    while let Some((line, next)) = next_line(text, at) {
        match read_tuple(alloc, kinds, 0, latest, line, &mut unquoted) {
            Ok(tuple) => {
                latest = tuple.time;
                at = next;
                tuples.push(tuple)?;
            }
            Err(TupleErr::Bad(_)) => return Ok(()),
            Err(TupleErr::Memory) => return Err(AllocError),
        }
    }
    Ok(())
}

/// Reads the next tuple of a text, where there is one.
#[inline(never)]
fn read_next(unread: &mut Unread) -> Result<Option<Tuple>, AllocError>
    ensures read { IfOk result (λ o. with_next o (unread_tuples unread.new) ≡ unread_tuples unread.old) }
    ensures err { OnErr result (unread_tuples unread.new ≡ unread_tuples unread.old) }
{
    let alloc = *unread.text.allocator();
    let Some((line, next)) = next_line(&unread.text, unread.at) else {
        return Ok(None);
    };
    match read_tuple(
        alloc,
        &unread.kinds,
        0,
        unread.latest,
        line,
        &mut unread.unquoted,
    ) {
        Ok(tuple) => {
            unread.latest = tuple.time;
            unread.at = next;
            unread.returns = next >= 2 && stands_at(&unread.text, next - 2, b'\r');
            Ok(Some(tuple))
        }
        Err(TupleErr::Bad(_)) => Ok(None),
        Err(TupleErr::Memory) => Err(AllocError),
    }
}

/// Reads the next tuple of a text in place, where its line lets itself be read so. None says nothing, and then none is read.
#[inline(always)]
fn read_in_place(unread: &mut Unread, values: Vec<Value>) -> Result<Option<Tuple>, AllocError>
    requires empty { values.items ≡ [] }
    ensures read { IfOk result (λ o. IfSome o (λ t. t ∷ unread_tuples unread.new ≡ unread_tuples unread.old)) }
    ensures none { IfOk result (λ o. o ≡ None → unread_tuples unread.new ≡ unread_tuples unread.old) }
    ensures err { OnErr result (unread_tuples unread.new ≡ unread_tuples unread.old) }
{
    if unread.returns || unread.at > unread.text.len() {
        return Ok(None);
    }
    let alloc = *unread.text.allocator();
    let mut end = 0usize;
    let Some(tuple) = read_into(
        alloc,
        &unread.kinds,
        unread.latest,
        &unread.text,
        unread.at,
        &mut unread.unquoted,
        values,
        &mut end,
    )?
    else {
        return Ok(None);
    };
    unread.latest = tuple.time;
    unread.at = end + 1;
    Ok(Some(tuple))
}

/// The first tuple of a stream file, where there is one, and what stands behind it.
pub(crate) fn begun(
    alloc: Global,
    text: Vec<u8>,
    kinds: &[Kind],
) -> Result<(Option<Tuple>, Unread), AllocError>
    ensures { IfOk result (λ p. with_next p.0 (unread_tuples p.1) ≡ tuples_left kinds.now 0 (pieces_of (without_mark text.items))) }
{
    let mut unread = Unread::new(alloc, text, kinds)?;
    let next = read_next(&mut unread)?;
    Ok((next, unread))
}

/// Takes the tuple that stands first, of a list or else of a text, where there is one.
#[inline(never)]
fn take_first(
    listed: &mut VecDeque<Tuple>,
    unread: &mut Unread,
) -> Result<Option<Tuple>, AllocError>
    ensures taken { IfOk result (λ o. all_to_come o listed.new.items unread.new ≡ listed.old.items ++ unread_tuples unread.old) }
    ensures err { OnErr result (listed.new.items ++ unread_tuples unread.new ≡ listed.old.items ++ unread_tuples unread.old) }
{
    if listed.is_empty() {
        return read_next(unread);
    }
    Ok(listed.pop_front())
}

/// Takes the next tuple, where there is one, and reads the one behind it ahead; the values of that one may go into an empty vector. What is
/// read in place is put in its place at once: where it met what comes by other ways it would be copied, and the copy would wait for what was
/// just written.
pub(crate) fn take_next(
    next: &mut Option<Tuple>,
    listed: &mut VecDeque<Tuple>,
    unread: &mut Unread,
    values: Vec<Value>,
) -> Result<Option<Tuple>, AllocError>
    requires empty { values.items ≡ [] }
    ensures taken { IfOk result (λ o. MatchOption o
        ((all_to_come next.old listed.old.items unread.old ≡ []) × (all_to_come next.new listed.new.items unread.new ≡ []))
        (λ t. all_to_come next.old listed.old.items unread.old ≡ t ∷ all_to_come next.new listed.new.items unread.new)) }
    ensures err { OnErr result (all_to_come next.new listed.new.items unread.new ≡ all_to_come next.old listed.old.items unread.old) }
{
    if next.is_none() {
        return Ok(None);
    }
    if listed.is_empty() {
        if let Some(tuple) = read_in_place(unread, values)? {
            return Ok(next.replace(tuple));
        }
    }
    let behind = take_first(listed, unread)?;
    Ok(std::mem::replace(next, behind))
}

/// All tuples that are left, in order.
pub(crate) fn all_left(
    alloc: Global,
    next: Option<Tuple>,
    mut listed: VecDeque<Tuple>,
    unread: Unread,
) -> Result<Vec<Tuple>, AllocError>
    ensures { IfOk result (λ v. v.items ≡ all_to_come next listed.items unread) }
{
    let Some(first) = next else {
        return Ok(Vec::new(alloc));
    };
    listed.push_front(first)?;
    let mut tuples = Vec::from(listed);
    read_rest(
        alloc,
        &unread.kinds,
        unread.latest,
        &unread.text,
        unread.at,
        &mut tuples,
    )?;
    Ok(tuples)
}
