// What words ask for.
ghost use Rattle.std.specs.Prelude.{◌≡◌, ◌≤◌, Err, IfOk, None, Some, length, map};
ghost use Rattle.std.specs.String.{string_bytes};
ghost use Rattle.sq_keys.specs.Words.{asked_behind, asked_in, pair_in, pairs_in, whole_pair};

use crate::{KeysAsked, Pair};
use sq_command::{WordsErr, may_name};
use sq_value::{ListOf, Name, same_text};
use std::alloc::{AllocError, Global};

fn pair_from(alloc: Global, source: &str, field: &str) -> Result<Pair, AllocError>
    ensures { IfOk result (λ p. p ≡ record { source = source.now; field = field.now }) }
{
    Ok(Pair {
        source: Name::new(alloc, source)?,
        field: Name::new(alloc, field)?,
    })
}

fn whole_pair(alloc: Global, source: &str, field: &str) -> Result<Pair, WordsErr>
    ensures pair { IfOk result (λ p. whole_pair source.now field.now ≡ Some p) }
    ensures usage { result ≡ Err WordsErr.Usage → whole_pair source.now field.now ≡ None }
{
    if source.is_empty() || field.is_empty() {
        return Err(WordsErr::Usage);
    }
    match pair_from(alloc, source, field) {
        Ok(pair) => Ok(pair),
        Err(_) => Err(WordsErr::Memory),
    }
}

// `SOURCE=FIELD`.
fn pair_in(alloc: Global, word: &str) -> Result<Pair, WordsErr>
    ensures pair { IfOk result (λ p. pair_in word.now ≡ Some p) }
    ensures usage { result ≡ Err WordsErr.Usage → pair_in word.now ≡ None }
{
    match word.split_once('=') {
        Some((source, field)) => whole_pair(alloc, source, field),
        None => Err(WordsErr::Usage),
    }
}

fn pairs_in(alloc: Global, words: &[String]) -> Result<Vec<Pair>, WordsErr>
    ensures pairs { IfOk result (λ v. pairs_in (map string_bytes words.now) ≡ Some v.items) }
    ensures count { IfOk result (λ v. length v.items ≡ length words.now) }
    ensures usage { result ≡ Err WordsErr.Usage → pairs_in (map string_bytes words.now) ≡ None }
{
    let mut pairs = Vec::new(alloc);
    for word in words {
        let pair = match pair_in(alloc, word.as_str()) {
            Ok(pair) => pair,
            Err(e) => return Err(e),
        };
        if pairs.push(pair).is_err() {
            return Err(WordsErr::Memory);
        }
    }
    Ok(pairs)
}

// What words behind `--on-time` ask for, or all words where it doesn't stand before them.
fn asked_behind(alloc: Global, on_time: bool, words: &[String]) -> Result<KeysAsked, WordsErr>
    ensures asked { IfOk result (λ a. asked_behind on_time (map string_bytes words.now) ≡ Some a) }
    ensures few { IfOk result (λ a. length a.pairs ≤ 8) }
    ensures usage { result ≡ Err WordsErr.Usage → asked_behind on_time (map string_bytes words.now) ≡ None }
{
    let [net, rest @ ..] = words else {
        return Err(WordsErr::Usage);
    };
    if !may_name(net.as_str()) || rest.is_empty() || rest.len() > 8 {
        return Err(WordsErr::Usage);
    }
    let pairs = match pairs_in(alloc, rest) {
        Ok(pairs) => pairs,
        Err(e) => return Err(e),
    };
    match Name::new(alloc, net.as_str()) {
        Ok(net) => Ok(KeysAsked {
            on_time,
            net,
            pairs: ListOf::new(pairs),
        }),
        Err(_) => Err(WordsErr::Memory),
    }
}

/// What words ask for: `[--on-time] NET SOURCE=FIELD..`, with one pair to eight. The network's name isn't empty and doesn't begin
/// with a dash, and neither side of a pair is empty.
pub fn read_words(alloc: Global, words: &Vec<String>) -> Result<KeysAsked, WordsErr>
    ensures asked { IfOk result (λ a. asked_in (map string_bytes words.now.items) ≡ Some a) }
    ensures few { IfOk result (λ a. length a.pairs ≤ 8) }
    ensures usage { result ≡ Err WordsErr.Usage → asked_in (map string_bytes words.now.items) ≡ None }
{
    let [first, rest @ ..] = words.as_slice() else {
        return Err(WordsErr::Usage);
    };
    if same_text(first.as_str(), "--on-time") {
        return asked_behind(alloc, true, rest);
    }
    asked_behind(alloc, false, words.as_slice())
}
