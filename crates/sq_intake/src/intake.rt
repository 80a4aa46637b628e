// The tuples of a stream that comes in pieces.
ghost use Rattle.std.specs.Prelude.{◌≡◌, ◌+◌, ◌<◌, ◌≤◌, ◌++◌, [], Err, List, ℕ, IfErr, IfOk, Ok, OnErr, OnOk, None, drop, false, length, max, take, true};
ghost use Rattle.sq_csv.specs.Cuts.{Lacks};
ghost use Rattle.sq_lines.specs.Classes.{last_piece};
ghost use Rattle.sq_replay.specs.Answers.{IsTupleRefused};
ghost use Rattle.sq_replay.specs.FileLines.{pieces_of};
ghost use Rattle.sq_intake.specs.Incoming.{MovesBy, NoneAfter, bare_line, brings, incoming, nothing_passed, punctuation_in};
ghost use Rattle.sq_intake.specs.Intakes.{AreWhole, IsHaltedBy, IsOverfull, IsOverlong, Overfills};
ghost use Rattle.sq_words.specs.Lists.{IsPrefixOf};

use sq_replay::{
    TICK_DIGITS, TICK_LIMIT, TupleErr, Why, piece_at, read_at_once, read_tuple, without_mark,
    without_return,
};
use sq_value::{Kind, Schema, Tuple, read_short_number};
use std::alloc::{AllocError, Global};
use std::marker::Model;

/// A line has at most so many bytes.
const LINE: usize = 67_108_864;

/// Why a stream that comes in pieces is taken in no further.
#[derive(Clone, Copy, Debug, PartialEq, Eq, Drop)]
pub enum IntakeErr {
    /// The first bad line, counted from 1 among all lines, and the first rule that it breaks.
    Bad { line: u64, why: Why },
    /// A line has more than 67,108,864 bytes.
    TooLong,
    /// 2^64 - 1 lines have passed.
    TooMany,
    Memory,
}

/// A stream that comes in pieces, cut anywhere. It keeps the lines that are whole and haven't passed and the bytes behind them, and of
/// those that have passed how many they were and the tick before which no tuple comes any more.
#[derive(Drop)]
pub struct Intake {
    kinds: Vec<Kind>,
    latest: u64,
    passed: u64,
    // Whole lines, of which those before `at` have passed.
    lines: Vec<u8>,
    at: usize,
    // The bytes of the line behind them.
    kept: Vec<u8>,
    // Where a field that stands in quotes is put.
    unquoted: Vec<u8>,
}

impl Model for Intake {
    ghost use Rattle.sq_intake.specs.Incoming.{Incoming};

    ghost Value = { Incoming };

    ghost use Rattle.std.specs.Prelude.{◌++◌, drop};
    ghost use Rattle.sq_intake.specs.Intakes.{KeepsLines};

    ghost view = { λ a. record { kinds = a.kinds.items; latest = a.latest; passed = a.passed; text = drop a.at a.lines.items ++ a.kept.items } };

    ghost invariant = { λ a. KeepsLines a.lines.items a.at a.kept.items };
}

/// The tick of a punctuation.
fn read_punctuation(line: &[u8]) -> Option<u64>
    ensures { result ≡ punctuation_in line.now }
{
    match line {
        [b'@', digits @ ..] => read_short_number(digits, TICK_DIGITS, TICK_LIMIT),
        _ => None,
    }
}

/// What a line brings: a tuple or none, and the tick before which nothing comes behind it.
fn read_brought(
    alloc: Global,
    kinds: &[Kind],
    latest: u64,
    line: &[u8],
    unquoted: &mut Vec<u8>,
) -> Result<(Option<Tuple>, u64), TupleErr>
    ensures brings { IfOk result (λ p. brings kinds.now latest line.now ≡ Ok p) }
    ensures refused { IfErr result (λ e. IsTupleRefused e (brings kinds.now latest line.now)) }
{
    if line.is_empty() {
        return Ok((None, latest));
    }
    match read_tuple(alloc, kinds, 0, latest, line, unquoted) {
        Ok(tuple) => {
            let time = tuple.time;
            Ok((Some(tuple), time))
        }
        Err(TupleErr::Bad(why)) => match read_punctuation(line) {
            Some(tick) => Ok((None, latest.max(tick))),
            None => Err(TupleErr::Bad(why)),
        },
        Err(TupleErr::Memory) => Err(TupleErr::Memory),
    }
}

/// A line without a carriage return at its end, and the first without a mark.
fn bare_line(number: u64, piece: &[u8]) -> &[u8]
    ensures { result.now ≡ bare_line number piece.now }
{
    if number == 1 {
        return without_return(without_mark(piece));
    }
    without_return(piece)
}

/// How many bytes the whole lines at the start of a piece take.
fn whole_length(piece: &[u8]) -> usize
    ensures whole { AreWhole (take result piece.now) }
    ensures rest { Lacks 10 (drop result piece.now) }
    ensures within { result ≤ length piece.now }
{
    let mut at = piece.len();
    while at > 0 {
        if piece[at - 1] == b'\n' {
            return at;
        }
        at -= 1;
    }
    0
}

/// Puts the tuples of whole lines, from a place on, behind others until there are `most`. `passed` lines stand before them, and no
/// tuple is to come before `latest`. Tells both as they are then, and the place behind the lines that have passed. Most lines are
/// tuples and are read at once; the others as a whole.
fn read_lines(
    alloc: Global,
    kinds: &[Kind],
    latest: u64,
    passed: u64,
    text: &[u8],
    from: usize,
    most: usize,
    unquoted: &mut Vec<u8>,
    tuples: &mut Vec<Tuple>,
) -> Result<(u64, u64, usize), IntakeErr>
    requires whole { AreWhole text.now }
    requires within { from ≤ length text.now }
    ensures ok { IfOk result (λ p. MovesBy (incoming kinds.now latest passed (drop from text.now)) (incoming kinds.now p.0 p.1 (drop p.2 text.now)) [] tuples.old.items tuples.new.items) }
    ensures within { IfOk result (λ p. p.2 ≤ length text.now) }
    ensures more { IfOk result (λ p. p.2 < length text.now → most ≤ length tuples.new.items) }
    ensures further { IfOk result (λ p. length tuples.old.items < most → p.2 < length text.now → from < p.2) }
    ensures bad { IfErr result (λ e. IsHaltedBy e (incoming kinds.now latest passed (drop from text.now)) tuples.old.items tuples.new.items) }
    ensures behind { IsPrefixOf tuples.old.items tuples.new.items }
    ensures few { length tuples.new.items ≤ max most (length tuples.old.items) }
    ensures ahead { IfOk result (λ p. NoneAfter latest tuples.old.items → NoneAfter p.0 tuples.new.items) }
{
    let (mut latest, mut passed, mut at, mut returns) = (latest, passed, from, false);
    'lines: while at < text.len() && tuples.len() < most {
        let Some(number) = passed.checked_add(1) else {
            return Err(IntakeErr::TooMany);
        };
        if passed > 0 && !returns {
            let mut end = 0usize;
            match read_at_once(alloc, kinds, latest, text, at, unquoted, &mut end) {
                Ok(Some(tuple)) => {
                    latest = tuple.time;
                    passed = number;
                    at = end + 1;
                    if tuples.push(tuple).is_err() {
                        return Err(IntakeErr::Memory);
                    }
                    continue;
                }
                Ok(None) => {}
                Err(_) => return Err(IntakeErr::Memory),
            }
        }
        let (piece, next) = piece_at(text, at);
        let line = bare_line(number, piece);
        returns = line.len() < piece.len();
        match read_brought(alloc, kinds, latest, line, unquoted) {
            Ok((brought, later)) => {
                latest = later;
                passed = number;
                at = next;
                if let Some(tuple) = brought {
                    if tuples.push(tuple).is_err() {
                        return Err(IntakeErr::Memory);
                    }
                }
            }
            Err(TupleErr::Bad(why)) => return Err(IntakeErr::Bad { line: number, why }),
            Err(TupleErr::Memory) => return Err(IntakeErr::Memory),
        }
    }
    Ok((latest, passed, at))
}

/// Puts what was kept of a line, and the lines that a piece makes whole, in place of lines that have passed.
fn fill_lines(lines: &mut Vec<u8>, kept: &[u8], more: &[u8]) -> Result<(), AllocError>
    ensures ok { OnOk result (lines.new.items ≡ kept.now ++ more.now) }
    ensures err { OnErr result (lines.new.items ≡ []) }
{
    lines.clear();
    let filled = lines.extend_from_slice(kept).is_ok() && lines.extend_from_slice(more).is_ok();
    if filled {
        return Ok(());
    }
    lines.clear();
    Err(AllocError)
}

/// Keeps the bytes of a line that isn't whole.
fn keep_rest(text: &mut Vec<u8>, rest: &[u8]) -> Result<(), IntakeErr>
    ensures ok { OnOk result ((text.new.items ≡ text.old.items ++ rest.now) × (length text.new.items ≤ 67108864)) }
    ensures err { IfErr result (λ e. Overfills e text.old.items text.new.items rest.now) }
{
    if text.extend_from_slice(rest).is_err() {
        return Err(IntakeErr::Memory);
    }
    if text.len() > LINE {
        return Err(IntakeErr::TooLong);
    }
    Ok(())
}

/// Takes a piece in, where all whole lines have passed.
fn take_in(
    lines: &mut Vec<u8>,
    at: &mut usize,
    kept: &mut Vec<u8>,
    piece: &[u8],
) -> Result<(), IntakeErr>
    requires whole { AreWhole lines.old.items }
    requires lacks { Lacks 10 kept.old.items }
    requires within { at.old ≤ length lines.old.items }
    requires passed { Lacks 10 (drop at.old lines.old.items ++ kept.old.items) }
    ensures given { OnOk result (drop at.new lines.new.items ++ kept.new.items ≡ (drop at.old lines.old.items ++ kept.old.items) ++ piece.now) }
    ensures short { OnOk result (length (last_piece (pieces_of (drop at.new lines.new.items ++ kept.new.items))) ≤ 67108864) }
    ensures halts { IfErr result (λ e. IsOverfull e (drop at.old lines.old.items ++ kept.old.items) (drop at.new lines.new.items ++ kept.new.items) piece.now) }
    ensures whole { AreWhole lines.new.items }
    ensures lacks { Lacks 10 kept.new.items }
    ensures within { at.new ≤ length lines.new.items }
{
    let count = whole_length(piece);
    if count == 0 {
        return keep_rest(kept, piece);
    }
    *at = 0;
    if fill_lines(lines, kept, &piece[..count]).is_err() {
        return Err(IntakeErr::Memory);
    }
    kept.clear();
    keep_rest(kept, &piece[count..])
}

impl Intake {
    ghost use Rattle.sq_value.specs.Values.{kinds_of};

    /// A stream of which no line has passed.
    pub fn new(alloc: Global, schema: &Schema) -> Result<Intake, AllocError>
        ensures { IfOk result (λ a. a ≡ nothing_passed (kinds_of schema.now)) }
    {
        Ok(Intake {
            kinds: Vec::from_slice(alloc, schema.kinds())?,
            latest: 0,
            passed: 0,
            lines: Vec::new(alloc),
            at: 0,
            kept: Vec::new(alloc),
            unquoted: Vec::new(alloc),
        })
    }

    /// The tick before which no tuple comes any more.
    pub fn ahead(&self) -> u64
        ensures { result ≡ self.now.latest }
    {
        self.latest
    }

    /// Takes a piece in, where all whole lines have passed. At a stream's end it is to be given a line feed, since a last line
    /// without one counts.
    pub fn give(&mut self, piece: &[u8]) -> Result<(), IntakeErr>
        requires { Lacks 10 self.old.text }
        ensures given { OnOk result (self.new ≡ record self.old { text = self.old.text ++ piece.now }) }
        ensures short { OnOk result (length (last_piece (pieces_of self.new.text)) ≤ 67108864) }
        ensures halts { IfErr result (λ e. IsOverlong e self.old self.new piece.now) }
    {
        take_in(&mut self.lines, &mut self.at, &mut self.kept, piece)
    }

    /// Puts the tuples of the next whole lines behind others until there are `most`, and says whether all whole lines have passed.
    /// After an `Err` nothing is known of what is still to come.
    pub fn read(&mut self, most: usize, tuples: &mut Vec<Tuple>) -> Result<bool, IntakeErr>
        ensures moves { OnOk result (MovesBy self.old self.new [] tuples.old.items tuples.new.items) }
        ensures all { IfOk result (λ all. all ≡ true → self.new.text ≡ last_piece (pieces_of self.old.text)) }
        ensures last { OnOk result (last_piece (pieces_of self.new.text) ≡ last_piece (pieces_of self.old.text)) }
        ensures lacks { IfOk result (λ all. all ≡ true → Lacks 10 self.new.text) }
        ensures more { IfOk result (λ all. all ≡ false → most ≤ length tuples.new.items) }
        ensures few { length tuples.new.items ≤ max most (length tuples.old.items) }
        ensures less { IfOk result (λ all. all ≡ false → length tuples.old.items < most → length self.new.text < length self.old.text) }
        ensures halts { IfErr result (λ e. IsHaltedBy e self.old tuples.old.items tuples.new.items) }
        ensures behind { IsPrefixOf tuples.old.items tuples.new.items }
        ensures ahead { OnOk result (NoneAfter self.old.latest tuples.old.items → NoneAfter self.new.latest tuples.new.items) }
        ensures kinds { self.new.kinds ≡ self.old.kinds }
    {
        let alloc = *self.lines.allocator();
        match read_lines(
            alloc,
            &self.kinds,
            self.latest,
            self.passed,
            &self.lines,
            self.at,
            most,
            &mut self.unquoted,
            tuples,
        ) {
            Ok((latest, passed, at)) => {
                self.latest = latest;
                self.passed = passed;
                self.at = at;
                Ok(at == self.lines.len())
            }
            Err(e) => Err(e),
        }
    }
}
