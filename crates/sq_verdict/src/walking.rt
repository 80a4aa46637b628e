// One walk over a text: the first fault, or what is missing.
ghost use Rattle.std.specs.Prelude.{◌≡◌, ◌≢◌, ◌<◌, ◌+◌, ◌^◌, ◌∷◌, ◌++◌, [], ℕ, List, None, true, false, map, max, is_some, length, IfOk, IfSome, if◌then◌else◌, slice_get, slice_index, nat_lt, not, ◌||◌, ◌==◌, replicate};
ghost use Rattle.std.specs.List.{All, find, list_any};
ghost use Rattle.sq_words.specs.Lists.{are_distinct, same_bytes};
ghost use Rattle.sq_lines.specs.Classes.{first_field, whole_lines};
ghost use Rattle.sq_verdict.specs.Faults.{Lines, class_fault, drop_told_in, fault_of, has_word, is_end, output_told_in, recorded, batch_rises, word_fault};
ghost use Rattle.sq_wanted.specs.Showing.{count_of, has_first, is_next, IsBelow, shown_one, is_line_of};
ghost use Rattle.sq_verdict.specs.Wanting.{shown_of, verdict_of};
ghost use Rattle.sq_verdict.specs.Walking.{AreAtPlaces, IsAfter, IsMost, found_in, line_fault};
ghost use Rattle.sq_wanted.specs.Places.{HoldRecord, IsAtPlace};

use crate::cutting::{cut_field, cut_line};
use crate::dropping::drop_told_in;
use crate::recording::recorded_in;
use crate::{AuditWhy, Verdict};
use sq_lines::{Quoter, append_output_line};
use sq_value::{Name, Tuple, same_bytes, stream_in};
use sq_wanted::{Wanted, has_more, next_place};
use std::alloc::{AllocError, Global};
use std::collections::BTreeSet;

fn is_end(line: &[u8]) -> bool
    ensures { result ≡ is_end line.now }
{
    same_bytes(line, b"@end\n")
}

/// Whether a line of this first field begins with a word that may stand there.
fn has_word(field: &[u8], line: &[u8]) -> bool
    requires { field.now ≡ first_field line.now }
    ensures { result ≡ has_word line.now }
{
    same_bytes(field, b"@plan")
        || same_bytes(field, b"@drop")
        || same_bytes(field, b"@box")
        || same_bytes(field, b"@late")
        || is_end(line)
}

/// Whether what a line records is above what was recorded of its drop.
fn batch_rises(most: &Vec<u64>, found: Option<(u64, u64)>) -> bool
    requires { IfSome found (λ d. d.0 < length most.now.items) }
    ensures { (before : List (List ℕ)) → IsMost (length most.now.items) most.now.items before → result ≡ batch_rises (length most.now.items) before found }
{
    match found {
        None => false,
        Some((w, b)) => most[w as usize] <= b,
    }
}

/// The fault of a line that is no output's; what it records was found.
fn word_fault(
    most: &Vec<u64>,
    found: Option<(u64, u64)>,
    field: &[u8],
    line: &[u8],
) -> Option<AuditWhy>
    requires field { field.now ≡ first_field line.now }
    requires found { found ≡ drop_told_in (length most.now.items) line.now }
    requires inside { IfSome found (λ d. d.0 < length most.now.items) }
    ensures { (before : List (List ℕ)) → IsMost (length most.now.items) most.now.items before → result ≡ word_fault (length most.now.items) before line.now }
{
    if !has_word(field, line) {
        return Some(AuditWhy::Form);
    }
    if !same_bytes(field, b"@drop") || batch_rises(most, found) {
        return None;
    }
    Some(AuditWhy::Drop)
}

/// The first output of this name.
fn output_of(outputs: &[Wanted], field: &[u8]) -> Option<usize>
    ensures found { (shown : Lines) → map (λ o. o.0) shown ≡ map (λ o. o.name) outputs.now → find (λ o. same_bytes field.now o.0) shown ≡ found_in shown result }
    ensures inside { IfSome result (λ i. i < length outputs.now) }
{
    for (i, output) in outputs.iter().enumerate() {
        if same_bytes(field, output.name.as_str().as_bytes()) {
            return Some(i);
        }
    }
    None
}

/// The line that is expected, in memory that is used again, and what writes the fields of it that stand in quotes.
#[derive(Drop)]
struct Expected {
    text: Vec<u8>,
    quoter: Quoter,
}

/// Whether a line is that of the tuple at a place.
fn is_line_of(
    name: &Name,
    tuples: &[Tuple],
    at: usize,
    line: &[u8],
    expected: &mut Expected,
) -> Result<bool, AllocError>
    ensures next { IfOk result (λ b. b ≡ is_line_of name.now (slice_get tuples.now at) line.now) }
    ensures inside { IfOk result (λ b. b ≡ true → at < length tuples.now) }
{
    match tuples.get(at) {
        None => Ok(false),
        Some(t) => {
            expected.text.clear();
            append_output_line(name, t, &mut expected.quoter, &mut expected.text)?;
            Ok(same_bytes(line, expected.text.as_slice()))
        }
    }
}

/// The place behind the next tuple of an output, where a line is that tuple's.
fn place_behind(
    sets: &[BTreeSet<u64>],
    streams: &[Vec<Tuple>],
    output: &Wanted,
    place: usize,
    line: &[u8],
    expected: &mut Expected,
) -> Result<Option<usize>, AllocError>
    requires below { IsBelow (length sets.now) output.now }
    ensures next { IfOk result (λ p. (record_at : ℕ → List ℕ) (before : List (List ℕ)) → HoldRecord sets.now record_at → IsAtPlace record_at (map (λ t. t.items) streams.now) output.now place before
        → is_some p ≡ is_next before (shown_one record_at (map (λ t. t.items) streams.now) output.now) line.now) }
    ensures behind { IfOk result (λ p. (record_at : ℕ → List ℕ) (before : List (List ℕ)) → HoldRecord sets.now record_at → IsAtPlace record_at (map (λ t. t.items) streams.now) output.now place before
        → IfSome p (λ at. has_first output.now.name line.now ≡ true → IsAtPlace record_at (map (λ t. t.items) streams.now) output.now at (before ++ line.now ∷ []))) }
{
    let tuples = stream_in(streams, output.stream);
    let at = next_place(sets, output.above, tuples, place);
    if is_line_of(&output.name, tuples, at, line, expected)? {
        return Ok(Some(at + 1));
    }
    Ok(None)
}

/// The fault of a line of output `i`; where it has none, the output's place is behind the tuple.
fn output_fault(
    sets: &[BTreeSet<u64>],
    streams: &[Vec<Tuple>],
    output: &Wanted,
    places: &mut Vec<usize>,
    i: usize,
    line: &[u8],
    expected: &mut Expected,
) -> Result<Option<AuditWhy>, AllocError>
    requires inside { i < length places.old.items }
    requires below { IsBelow (length sets.now) output.now }
    ensures length { length places.new.items ≡ length places.old.items }
    ensures fault { IfOk result (λ v. (record_at : ℕ → List ℕ) (before : List (List ℕ)) → HoldRecord sets.now record_at
        → IsAtPlace record_at (map (λ t. t.items) streams.now) output.now (slice_index places.old.items i) before
        → v ≡ line_fault (is_next before (shown_one record_at (map (λ t. t.items) streams.now) output.now) line.now)) }
    ensures hit { IfOk result (λ v. v ≡ None → (record_at : ℕ → List ℕ) (before : List (List ℕ)) → HoldRecord sets.now record_at
        → has_first output.now.name line.now ≡ true
        → IsAtPlace record_at (map (λ t. t.items) streams.now) output.now (slice_index places.old.items i) before
        → IsAtPlace record_at (map (λ t. t.items) streams.now) output.now (slice_index places.new.items i) (before ++ line.now ∷ [])) }
    ensures miss { (j : ℕ) → j ≢ i → slice_index places.new.items j ≡ slice_index places.old.items j }
{
    let place = places[i];
    match place_behind(sets, streams, output, place, line, expected)? {
        Some(behind) => {
            places[i] = behind;
            Ok(None)
        }
        None => Ok(Some(AuditWhy::Line)),
    }
}

/// What a walk knows: whether the end has come, what each drop's next batch has to reach, and how far each output has come in
/// its stream.
#[derive(Drop)]
struct Walk {
    ended: bool,
    most: Vec<u64>,
    places: Vec<usize>,
}

/// The fault of a line where no end line came before; where it has none, its output's place is behind the tuple.
fn class_fault(
    sets: &[BTreeSet<u64>],
    streams: &[Vec<Tuple>],
    outputs: &[Wanted],
    most: &Vec<u64>,
    found: Option<(u64, u64)>,
    places: &mut Vec<usize>,
    line: &[u8],
    expected: &mut Expected,
) -> Result<Option<AuditWhy>, AllocError>
    requires found { found ≡ drop_told_in (length most.now.items) line.now }
    requires inside { IfSome found (λ d. d.0 < length most.now.items) }
    requires below { All (IsBelow (length sets.now)) outputs.now }
    requires counted { length places.old.items ≡ length outputs.now }
    requires distinct { are_distinct (map (λ o. o.name) outputs.now) ≡ true }
    ensures length { length places.new.items ≡ length places.old.items }
    ensures fault { IfOk result (λ v. (record_at : ℕ → List ℕ) (before : List (List ℕ)) → HoldRecord sets.now record_at → IsMost (length most.now.items) most.now.items before
        → AreAtPlaces record_at (map (λ t. t.items) streams.now) outputs.now places.old.items before
        → v ≡ class_fault (length most.now.items) before line.now (output_told_in (shown_of record_at (map (λ t. t.items) streams.now) outputs.now) line.now)) }
    ensures places { IfOk result (λ v. v ≡ None → (record_at : ℕ → List ℕ) (before : List (List ℕ)) → HoldRecord sets.now record_at
        → AreAtPlaces record_at (map (λ t. t.items) streams.now) outputs.now places.old.items before
        → AreAtPlaces record_at (map (λ t. t.items) streams.now) outputs.now places.new.items (before ++ line.now ∷ [])) }
{
    let (field, _) = cut_field(line);
    match output_of(outputs, field) {
        None => Ok(word_fault(most, found, field, line)),
        Some(i) => output_fault(sets, streams, &outputs[i], places, i, line, expected),
    }
}

/// Raises what is known of one drop.
fn raise(most: &mut Vec<u64>, w: u64, b: u64)
    requires inside { w < length most.old.items }
    requires small { b < 2 ^ 40 }
    ensures length { length most.new.items ≡ length most.old.items }
    ensures hit { slice_index most.new.items w ≡ max (slice_index most.old.items w) (b + 1) }
    ensures miss { (j : ℕ) → j ≢ w → slice_index most.new.items j ≡ slice_index most.old.items j }
{
    let up = most[w as usize].max(b + 1);
    most[w as usize] = up;
}

/// Notes what a line records.
fn note_drop(most: &mut Vec<u64>, found: Option<(u64, u64)>)
    requires inside { IfSome found (λ d. (d.0 < length most.old.items) × (d.1 < 2 ^ 40)) }
    ensures length { length most.new.items ≡ length most.old.items }
    ensures most { (drops : ℕ) (before : List (List ℕ)) (line : List ℕ) → found ≡ drop_told_in drops line → IsMost drops most.old.items before → IsMost drops most.new.items (before ++ line ∷ []) }
{
    if let Some((w, b)) = found {
        raise(most, w, b);
    }
}

/// The fault of a line, or else a step over it.
fn step(
    sets: &[BTreeSet<u64>],
    streams: &[Vec<Tuple>],
    outputs: &[Wanted],
    walk: &mut Walk,
    line: &[u8],
    expected: &mut Expected,
) -> Result<Option<AuditWhy>, AllocError>
    requires below { All (IsBelow (length sets.now)) outputs.now }
    requires most { length walk.old.most.items ≡ length sets.now }
    requires counted { length walk.old.places.items ≡ length outputs.now }
    requires distinct { are_distinct (map (λ o. o.name) outputs.now) ≡ true }
    ensures counted { length walk.new.places.items ≡ length walk.old.places.items }
    ensures most { length walk.new.most.items ≡ length walk.old.most.items }
    ensures fault { IfOk result (λ v. (record_at : ℕ → List ℕ) (before : List (List ℕ)) → HoldRecord sets.now record_at
        → IsAfter record_at (map (λ t. t.items) streams.now) outputs.now (length sets.now) walk.old.ended walk.old.most.items walk.old.places.items before
        → v ≡ fault_of (shown_of record_at (map (λ t. t.items) streams.now) outputs.now) (length sets.now) before line.now) }
    ensures after { IfOk result (λ v. v ≡ None → (record_at : ℕ → List ℕ) (before : List (List ℕ)) → HoldRecord sets.now record_at
        → IsAfter record_at (map (λ t. t.items) streams.now) outputs.now (length sets.now) walk.old.ended walk.old.most.items walk.old.places.items before
        → IsAfter record_at (map (λ t. t.items) streams.now) outputs.now (length sets.now) walk.new.ended walk.new.most.items walk.new.places.items (before ++ line.now ∷ [])) }
{
    if walk.ended {
        return Ok(Some(AuditWhy::End));
    }
    let found = drop_told_in(sets.len() as u64, line, &mut expected.text)?;
    let fault = class_fault(
        sets,
        streams,
        outputs,
        &walk.most,
        found,
        &mut walk.places,
        line,
        expected,
    )?;
    note_drop(&mut walk.most, found);
    walk.ended = is_end(line);
    Ok(fault)
}

/// Whether an output has fewer lines than it is to show.
fn lacks(
    sets: &[BTreeSet<u64>],
    streams: &[Vec<Tuple>],
    outputs: &[Wanted],
    places: &[usize],
) -> bool
    requires below { All (IsBelow (length sets.now)) outputs.now }
    requires counted { length places.now ≡ length outputs.now }
    ensures { (record_at : ℕ → List ℕ) (before : List (List ℕ)) → HoldRecord sets.now record_at → AreAtPlaces record_at (map (λ t. t.items) streams.now) outputs.now places.now before
        → result ≡ list_any (λ o. nat_lt (count_of before o.0) (length o.1)) (shown_of record_at (map (λ t. t.items) streams.now) outputs.now) }
{
    for (i, output) in outputs.iter().enumerate() {
        if has_more(sets, streams, output, places[i]) {
            return true;
        }
    }
    false
}

/// Whether something is missing behind lines without a fault.
fn is_short(
    sets: &[BTreeSet<u64>],
    streams: &[Vec<Tuple>],
    outputs: &[Wanted],
    walk: &Walk,
    left: &[u8],
) -> bool
    requires below { All (IsBelow (length sets.now)) outputs.now }
    requires counted { length walk.now.places.items ≡ length outputs.now }
    ensures { (record_at : ℕ → List ℕ) (before : List (List ℕ)) → HoldRecord sets.now record_at → AreAtPlaces record_at (map (λ t. t.items) streams.now) outputs.now walk.now.places.items before
        → result ≡ (not (length left.now == 0) || not walk.now.ended || list_any (λ o. nat_lt (count_of before o.0) (length o.1)) (shown_of record_at (map (λ t. t.items) streams.now) outputs.now)) }
{
    if !left.is_empty() || !walk.ended {
        return true;
    }
    lacks(sets, streams, outputs, walk.places.as_slice())
}

fn ending(short: bool, number: u64) -> Verdict
    requires { number + 1 < 2 ^ 64 }
    ensures { result ≡ (if short then Verdict.No (number + 1) AuditWhy.Short else Verdict.Yes) }
{
    if short {
        return Verdict::No {
            line: number + 1,
            why: AuditWhy::Short,
        };
    }
    Verdict::Yes
}

/// A walk that has seen no line.
fn new_walk(alloc: Global, drops: usize, outputs: usize) -> Result<Walk, AllocError>
    ensures ended { IfOk result (λ w. w.ended ≡ false) }
    ensures most { IfOk result (λ w. w.most.items ≡ replicate drops 0) }
    ensures places { IfOk result (λ w. w.places.items ≡ replicate outputs 0) }
{
    Ok(Walk {
        ended: false,
        most: vec![in alloc; 0; drops]?,
        places: vec![in alloc; 0; outputs]?,
    })
}

/// The verdict on a text, where these sets have what it records of each drop.
fn walk_text(
    alloc: Global,
    sets: &[BTreeSet<u64>],
    streams: &[Vec<Tuple>],
    outputs: &[Wanted],
    text: &[u8],
) -> Result<Verdict, AllocError>
    requires below { All (IsBelow (length sets.now)) outputs.now }
    requires distinct { are_distinct (map (λ o. o.name) outputs.now) ≡ true }
    requires held { HoldRecord sets.now (recorded (length sets.now) (whole_lines text.now)) }
    ensures { IfOk result (λ v. v ≡ verdict_of outputs.now (map (λ t. t.items) streams.now) (length sets.now) text.now) }
{
    let mut walk = new_walk(alloc, sets.len(), outputs.len())?;
    let mut expected = Expected {
        text: Vec::new(alloc),
        quoter: Quoter::new(),
    };
    let mut number = 0u64;
    let mut left = text;
    while let Some((line, rest)) = cut_line(left) {
        let fault = step(sets, streams, outputs, &mut walk, line, &mut expected)?;
        number += 1;
        left = rest;
        if let Some(why) = fault {
            return Ok(Verdict::No { line: number, why });
        }
    }
    let short = is_short(sets, streams, outputs, &walk, left);
    Ok(ending(short, number))
}

/// The verdict on a text: whether it shows each of these outputs, which have different names, with its stream less the batches
/// that the text records, where there are so many drops. It fails only for want of memory.
pub fn verdict_of(
    alloc: Global,
    outputs: &[Wanted],
    streams: &[Vec<Tuple>],
    drops: u32,
    text: &[u8],
) -> Result<Verdict, AllocError>
    requires below { All (IsBelow drops) outputs.now }
    requires distinct { are_distinct (map (λ o. o.name) outputs.now) ≡ true }
    ensures { IfOk result (λ v. v ≡ verdict_of outputs.now (map (λ t. t.items) streams.now) drops text.now) }
{
    let sets = recorded_in(alloc, drops, text)?;
    walk_text(alloc, sets.as_slice(), streams, outputs, text)
}
