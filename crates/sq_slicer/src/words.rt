// What words ask for.
ghost use Rattle.std.specs.Prelude.{◌≡◌, ◌<◌, ◌^◌, Err, IfOk, None, Some, map};
ghost use Rattle.std.specs.Option.{IfSome};
ghost use Rattle.std.specs.String.{string_bytes};
ghost use Rattle.sq_slicer.specs.Words.{slices_asked, asked_of, asked_with};

use crate::SlicesAsked;
use sq_command::{WordsErr, may_name};
use sq_value::{Name, read_short_number, same_text};
use std::alloc::Global;

fn asked_of(alloc: Global, delay: Option<u64>, net: &str) -> Result<SlicesAsked, WordsErr>
    ensures asked { IfOk result (λ a. asked_of delay net.now ≡ Some a) }
    ensures delay { IfOk result (λ a. a.delay ≡ delay) }
    ensures usage { result ≡ Err WordsErr.Usage → asked_of delay net.now ≡ None }
{
    if !may_name(net) {
        return Err(WordsErr::Usage);
    }
    match Name::new(alloc, net) {
        Ok(net) => Ok(SlicesAsked { delay, net }),
        Err(_) => Err(WordsErr::Memory),
    }
}

// `--delay TICKS NET`.
fn asked_with(alloc: Global, option: &str, ticks: &str, net: &str) -> Result<SlicesAsked, WordsErr>
    ensures asked { IfOk result (λ a. asked_with option.now ticks.now net.now ≡ Some a) }
    ensures low { IfOk result (λ a. IfSome a.delay (λ d. d < 2 ^ 40)) }
    ensures usage { result ≡ Err WordsErr.Usage → asked_with option.now ticks.now net.now ≡ None }
{
    if !same_text(option, "--delay") {
        return Err(WordsErr::Usage);
    }
    match read_short_number(ticks.as_bytes(), 13, 1 << 40) {
        Some(delay) => asked_of(alloc, Some(delay), net),
        None => Err(WordsErr::Usage),
    }
}

/// What words ask for: `[--delay TICKS] NET`, where TICKS is 1 to 13 digits of a number below 2^40. The network's name isn't empty
/// and doesn't begin with a dash.
pub fn read_words(alloc: Global, words: &Vec<String>) -> Result<SlicesAsked, WordsErr>
    ensures asked { IfOk result (λ a. slices_asked (map string_bytes words.now.items) ≡ Some a) }
    ensures low { IfOk result (λ a. IfSome a.delay (λ d. d < 2 ^ 40)) }
    ensures usage { result ≡ Err WordsErr.Usage → slices_asked (map string_bytes words.now.items) ≡ None }
{
    match words.as_slice() {
        [net] => asked_of(alloc, None, net.as_str()),
        [option, ticks, net] => asked_with(alloc, option.as_str(), ticks.as_str(), net.as_str()),
        _ => Err(WordsErr::Usage),
    }
}
