// What words ask for.
ghost use Rattle.std.specs.Prelude.{◌≡◌, ◌^◌, Err, IfOk, None, Some, map};
ghost use Rattle.std.specs.List.{list_all};
ghost use Rattle.std.specs.Option.{option_map};
ghost use Rattle.std.specs.String.{string_bytes};
ghost use Rattle.sq_value.specs.Texts.{is_digit, read_number};
ghost use Rattle.sq_command.specs.Commands.{args_of, audit_args, command_in, dashed_piece, gen_args, given_from, is_known_option, lone, named_piece, number_or, number_within, piece_of, rule_named, rule_of, run_args, same_option, tap_args, tick_in, option_values, whole_piece};
ghost use Rattle.sq_value.specs.CommandWords.{may_name};
ghost use Rattle.sq_command.specs.WordViews.{text_view, piece_view, given_view, wanted_view};

use crate::{Command, RunArgs, WordsErr};
use sq_sched::Rule;
use sq_value::{Name, read_short_number, same_text};
use std::alloc::{AllocError, Global};

/// A word by itself.
#[derive(Clone, Copy, Drop)]
enum Piece<'a> {
    /// A word that doesn't begin with a dash.
    Plain(&'a str),
    /// `--name=value`.
    Whole(&'a str, &'a str),
    /// `--name`, of which the value is the next word.
    Opens(&'a str),
    /// None of these.
    Bad,
}

/// A value, and the option that it is given to. None is for a word that stands by itself.
#[derive(Clone, Copy, Drop)]
struct OptionGiven<'a> {
    option: Option<&'a str>,
    value: &'a str,
}

/// What is asked for, in the words' own bytes.
#[derive(Clone, Copy, Drop)]
struct RunWords<'a> {
    net: &'a str,
    capacities: Option<&'a str>,
    seed: u64,
    rule: Rule,
    picks: Option<&'a str>,
    train: u32,
    frames: u32,
}

fn whole_piece<'a>(name: &'a str, value: &'a str) -> Piece<'a>
    ensures { piece_view result ≡ whole_piece name.now value.now }
{
    if value.is_empty() {
        return Piece::Bad;
    }
    Piece::Whole(name, value)
}

/// What stands behind two dashes.
fn named_piece(named: &str) -> Piece<'_>
    ensures { piece_view result ≡ named_piece named.now }
{
    match named.split_once('=') {
        Some((name, value)) => whole_piece(name, value),
        None => Piece::Opens(named),
    }
}

/// What stands behind a dash.
fn dashed_piece(dashed: &str) -> Piece<'_>
    ensures { piece_view result ≡ dashed_piece dashed.now }
{
    match dashed.strip_prefix('-') {
        Some(named) => named_piece(named),
        None => Piece::Bad,
    }
}

fn piece_of(word: &str) -> Piece<'_>
    ensures { piece_view result ≡ piece_of word.now }
{
    if word.is_empty() {
        return Piece::Bad;
    }
    match word.strip_prefix('-') {
        Some(dashed) => dashed_piece(dashed),
        None => Piece::Plain(word),
    }
}

/// What the words give, or Usage where one isn't allowed at its place.
fn read_given(alloc: Global, words: &[String]) -> Result<Vec<OptionGiven<'_>>, WordsErr>
    ensures given { IfOk result (λ v. given_from (map string_bytes words.now) None ≡ Some (map given_view v.items)) }
    ensures usage { result ≡ Err WordsErr.Usage → given_from (map string_bytes words.now) None ≡ None }
{
    let mut given = Vec::new(alloc);
    let mut pending = None;
    for word in words {
        let one = match (pending, piece_of(word.as_str())) {
            (option, Piece::Plain(value)) => OptionGiven { option, value },
            (None, Piece::Whole(name, value)) => OptionGiven {
                option: Some(name),
                value,
            },
            (None, Piece::Opens(name)) => {
                pending = Some(name);
                continue;
            }
            _ => return Err(WordsErr::Usage),
        };
        pending = None;
        if given.push(one).is_err() {
            return Err(WordsErr::Memory);
        }
    }
    match pending {
        Some(_) => Err(WordsErr::Usage),
        None => Ok(given),
    }
}

fn is_known_option(option: Option<&str>) -> bool
    ensures { result ≡ is_known_option (text_view option.entry) }
{
    match option {
        None => true,
        Some(name) => {
            same_text(name, "capacities")
                || same_text(name, "seed")
                || same_text(name, "policy")
                || same_text(name, "picks")
                || same_text(name, "train")
                || same_text(name, "frames")
        }
    }
}

fn all_known(given: &[OptionGiven<'_>]) -> bool
    ensures { result ≡ list_all (λ g. is_known_option g.0) (map given_view given.now) }
{
    for one in given {
        if !is_known_option(one.option) {
            return false;
        }
    }
    true
}

fn same_option(a: Option<&str>, b: Option<&str>) -> bool
    ensures { result ≡ same_option (text_view a.entry) (text_view b.entry) }
{
    match (a, b) {
        (None, None) => true,
        (Some(a), Some(b)) => same_text(a, b),
        _ => false,
    }
}

/// The value that an option is given, if any. The answer is None where it is given twice.
fn value_of<'a>(given: &[OptionGiven<'a>], option: Option<&str>) -> Option<Option<&'a str>>
    ensures { option_map text_view result ≡ lone (option_values (text_view option.entry) (map given_view given.now)) }
{
    let mut found = None;
    for one in given {
        if !same_option(one.option, option) {
            continue;
        }
        if found.is_some() {
            return None;
        }
        found = Some(one.value);
    }
    Some(found)
}

fn are_digits(text: &[u8]) -> bool
    ensures { result ≡ list_all is_digit text.now }
{
    text.iter().all(|byte| *byte >= b'0' && *byte <= b'9')
}

/// The number that 1 to 20 digits write, where it is one of 64 bits.
fn number_in(text: &str) -> Option<u64>
    ensures { result ≡ read_number 20 (2 ^ 64) text.now }
{
    if text.len() > 20 || !are_digits(text.as_bytes()) {
        return None;
    }
    match text.parse::<u64>() {
        Ok(number) => Some(number),
        Err(_) => None,
    }
}

fn number_within(low: u64, high: u64, text: &str) -> Option<u64>
    ensures { result ≡ number_within low high text.now }
{
    match number_in(text) {
        Some(number) if low <= number && number <= high => Some(number),
        _ => None,
    }
}

/// The number that is given, within limits, or the default where none is.
fn number_or(default: u64, low: u64, high: u64, given: Option<&str>) -> Option<u64>
    ensures { result ≡ number_or default low high (text_view given.entry) }
{
    match given {
        Some(text) => number_within(low, high, text),
        None => Some(default),
    }
}

fn rule_named(policy: &str) -> Option<Rule>
    ensures { result ≡ rule_named policy.now }
{
    if same_text(policy, "rr") {
        return Some(Rule::RoundRobin);
    }
    if same_text(policy, "long") {
        return Some(Rule::Longest);
    }
    if same_text(policy, "seeded") {
        return Some(Rule::Seeded);
    }
    None
}

/// A policy and picks exclude each other.
fn rule_of(policy: Option<&str>, picks: Option<&str>) -> Option<Rule>
    ensures { result ≡ rule_of (text_view policy.entry) (text_view picks.entry) }
{
    match (policy, picks) {
        (None, None) => Some(Rule::RoundRobin),
        (None, Some(_)) => Some(Rule::Picks),
        (Some(policy), None) => rule_named(policy),
        (Some(_), Some(_)) => None,
    }
}

/// What is asked for, where each option is given at most once and with a value of its own.
fn wanted_of<'a>(given: &[OptionGiven<'a>]) -> Option<RunWords<'a>>
    ensures { option_map wanted_view result ≡ args_of (map given_view given.now) }
{
    let net = value_of(given, None)??;
    let capacities = value_of(given, Some("capacities"))?;
    let seed = value_of(given, Some("seed"))?;
    let policy = value_of(given, Some("policy"))?;
    let picks = value_of(given, Some("picks"))?;
    let train = value_of(given, Some("train"))?;
    let frames = value_of(given, Some("frames"))?;
    let seed = number_or(0, 0, u64::MAX, seed)?;
    let train = number_or(16, 1, 4096, train)?;
    let frames = number_or(256, 2, 16_384, frames)?;
    let rule = rule_of(policy, picks)?;
    Some(RunWords {
        net,
        capacities,
        seed,
        rule,
        picks,
        train: train as u32,
        frames: frames as u32,
    })
}

fn copied(alloc: Global, name: Option<&str>) -> Result<Option<Name>, AllocError>
    ensures { IfOk result (λ n. n ≡ text_view name.entry) }
{
    match name {
        Some(name) => Ok(Some(Name::new(alloc, name)?)),
        None => Ok(None),
    }
}

fn args_from(alloc: Global, wanted: RunWords<'_>) -> Result<RunArgs, AllocError>
    ensures { IfOk result (λ a. a ≡ wanted_view wanted.entry) }
{
    Ok(RunArgs {
        net: Name::new(alloc, wanted.net)?,
        capacities: copied(alloc, wanted.capacities)?,
        seed: wanted.seed,
        rule: wanted.rule,
        picks: copied(alloc, wanted.picks)?,
        train: wanted.train,
        frames: wanted.frames,
    })
}

/// What the words behind `run` ask for.
fn run_args(alloc: Global, words: &[String]) -> Result<RunArgs, WordsErr>
    ensures args { IfOk result (λ a. run_args (map string_bytes words.now) ≡ Some a) }
    ensures usage { result ≡ Err WordsErr.Usage → run_args (map string_bytes words.now) ≡ None }
{
    let given = match read_given(alloc, words) {
        Ok(given) => given,
        Err(e) => return Err(e),
    };
    if !all_known(&given) {
        return Err(WordsErr::Usage);
    }
    let Some(wanted) = wanted_of(&given) else {
        return Err(WordsErr::Usage);
    };
    match args_from(alloc, wanted) {
        Ok(args) => Ok(args),
        Err(_) => Err(WordsErr::Memory),
    }
}

/// What the words behind `gen` ask for.
fn gen_args(words: &[String]) -> Option<Command>
    ensures { result ≡ gen_args (map string_bytes words.now) }
{
    let [number, rows] = words else {
        return None;
    };
    let number = number_within(0, u64::MAX, number.as_str())?;
    let rows = number_within(1, 1_000_000, rows.as_str())?;
    Some(Command::Gen {
        number,
        rows: rows as u32,
    })
}

/// Whether a word may name a file: it isn't empty and doesn't begin with a dash.
pub fn may_name(word: &str) -> bool
    ensures { result ≡ may_name word.now }
{
    match word.as_bytes() {
        [] => false,
        [first, ..] => *first != b'-',
    }
}

fn audit_of(alloc: Global, net: &str, text: &str) -> Result<Command, AllocError>
    ensures { IfOk result (λ c. c ≡ Command.Audit net.now text.now) }
{
    Ok(Command::Audit {
        net: Name::new(alloc, net)?,
        text: Name::new(alloc, text)?,
    })
}

/// What the words behind `audit` ask for.
fn audit_args(alloc: Global, words: &[String]) -> Result<Command, WordsErr>
    ensures command { IfOk result (λ c. audit_args (map string_bytes words.now) ≡ Some c) }
    ensures usage { result ≡ Err WordsErr.Usage → audit_args (map string_bytes words.now) ≡ None }
{
    let [net, text] = words else {
        return Err(WordsErr::Usage);
    };
    if !may_name(net.as_str()) || !may_name(text.as_str()) {
        return Err(WordsErr::Usage);
    }
    match audit_of(alloc, net.as_str(), text.as_str()) {
        Ok(command) => Ok(command),
        Err(_) => Err(WordsErr::Memory),
    }
}

/// 1 to 13 digits of a number below 2^40.
fn tick_in(text: &str) -> Option<u64>
    ensures { result ≡ tick_in text.now }
{
    read_short_number(text.as_bytes(), 13, 1 << 40)
}

fn tap_of(
    alloc: Global,
    net: &str,
    stream: &str,
    tick: u64,
    history: u64,
    query: &str,
) -> Result<Command, AllocError>
    ensures { IfOk result (λ c. c ≡ Command.Tap net.now stream.now tick history query.now) }
{
    Ok(Command::Tap {
        net: Name::new(alloc, net)?,
        stream: Name::new(alloc, stream)?,
        tick,
        history,
        query: Name::new(alloc, query)?,
    })
}

/// What the words behind `tap` ask for.
fn tap_args(alloc: Global, words: &[String]) -> Result<Command, WordsErr>
    ensures command { IfOk result (λ c. tap_args (map string_bytes words.now) ≡ Some c) }
    ensures usage { result ≡ Err WordsErr.Usage → tap_args (map string_bytes words.now) ≡ None }
{
    let [net, stream, tick, history, query] = words else {
        return Err(WordsErr::Usage);
    };
    let (net, stream, query) = (net.as_str(), stream.as_str(), query.as_str());
    let Some(tick) = tick_in(tick.as_str()) else {
        return Err(WordsErr::Usage);
    };
    let Some(history) = tick_in(history.as_str()) else {
        return Err(WordsErr::Usage);
    };
    if !may_name(net) || !may_name(stream) || !may_name(query) {
        return Err(WordsErr::Usage);
    }
    match tap_of(alloc, net, stream, tick, history, query) {
        Ok(command) => Ok(command),
        Err(_) => Err(WordsErr::Memory),
    }
}

/// What words ask for: `run NET [--capacities FILE] [--seed N] [--policy rr|long|seeded] [--picks FILE] [--train N] [--frames N]`,
/// where each option stands once at most, as `--name value` or `--name=value`, and a policy excludes picks. A seed has 64 bits,
/// a train is 1 to 4096, frames are 2 to 16,384. Or `gen NUMBER ROWS`, where the number has 64 bits and the rows are 1 to 1,000,000.
/// Or `audit NET OUT`, where neither is empty or begins with a dash. Or `tap NET STREAM TICK HISTORY QUERY`, of which each name is such a
/// word, and TICK and HISTORY are 1 to 13 digits of numbers below 2^40.
pub fn read_words(alloc: Global, words: &Vec<String>) -> Result<Command, WordsErr>
    ensures command { IfOk result (λ c. command_in (map string_bytes words.now.items) ≡ Some c) }
    ensures usage { result ≡ Err WordsErr.Usage → command_in (map string_bytes words.now.items) ≡ None }
{
    let [first, rest @ ..] = words.as_slice() else {
        return Err(WordsErr::Usage);
    };
    if same_text(first.as_str(), "run") {
        return match run_args(alloc, rest) {
            Ok(args) => Ok(Command::Run(args)),
            Err(e) => Err(e),
        };
    }
    if same_text(first.as_str(), "audit") {
        return audit_args(alloc, rest);
    }
    if same_text(first.as_str(), "gen") {
        return match gen_args(rest) {
            Some(command) => Ok(command),
            None => Err(WordsErr::Usage),
        };
    }
    if !same_text(first.as_str(), "tap") {
        return Err(WordsErr::Usage);
    }
    tap_args(alloc, rest)
}
