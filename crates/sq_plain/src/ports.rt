//! The port of a tuple, guessed by the value of a field, where each predicate of a Filter asks for another value of it.

ghost use Rattle.std.specs.Prelude.{◌≡◌, ◌+◌, ◌<◌, ◌^◌, true, length, IfSome};
ghost use Rattle.sq_value.specs.Values.{field};
ghost use Rattle.sq_expr.specs.Checking.{trees};
ghost use Rattle.sq_plain.specs.Ports.{guess_of, slot_of, value_word, AreGuessed};

use sq_expr::{Typed, fixed_field};
use sq_value::{Tuple, Value};
use std::alloc::Global;
use std::hash::{FoldHasher, Hasher};

/// As few predicates are tried one after another as fast.
const FEWEST: usize = 4;

/// How many slots there are: with one for each of fifteen values, two seeds of three part them.
const SLOTS: usize = 256;

/// The first seed. Its odd multiples are the next ones.
const SEED: u64 = 0x9e37_79b9_7f4a_7c15;

/// How many seeds are tried.
const SEEDS: u64 = 32;

/// The number of the only predicate that may be true of a tuple, by the slot of the value at one place.
#[derive(Drop)]
pub(crate) struct Ports {
    place: usize,
    seed: u64,
    slots: Vec<usize>,
}

/// A number's size, and of a text its hash.
fn value_word(value: &Value) -> u64
    ensures { result ≡ value_word value.now }
{
    match value {
        Value::Null => 0,
        Value::Int(number) => number.unsigned_abs(),
        Value::Bool(truth) => { if *truth { 1 } else { 0 } }
        Value::Text(text) => {
            let mut hasher = FoldHasher::default();
            hasher.write(text.as_bytes());
            hasher.finish()
        }
    }
}

impl Ports {
    /// The slot of a value.
    fn slot_of(&self, value: &Value) -> usize
        ensures { result ≡ slot_of self.now.seed value.now }
    {
        (value_word(value).wrapping_mul(self.seed) >> 56) as usize
    }

    /// The number of the predicate that may be true where a value stands at the place.
    fn guess_of(&self, value: &Value) -> usize
        ensures { result ≡ guess_of self.now value.now }
    {
        match self.slots.get(self.slot_of(value)) {
            Some(number) => *number,
            None => 0,
        }
    }

    /// The number of the predicate that may be true of a tuple.
    #[inline(always)]
    pub(crate) fn guess(&self, tuple: &Tuple) -> usize
        ensures { result ≡ guess_of self.now (field tuple.now.fields self.now.place) }
    {
        match tuple.fields.as_slice().get(self.place) {
            Some(value) => self.guess_of(value),
            None => self.guess_of(&Value::Null),
        }
    }

    /// Whether predicates, numbered from one on, ask each for a value at the place by which its number is guessed.
    fn are_guessed(&self, first: usize, preds: &[Typed]) -> bool
        requires { first + length preds.now < 2 ^ 64 }
        ensures { result ≡ true → AreGuessed self.now first (trees preds.now) }
    {
        match preds {
            [] => true,
            [pred, more @ ..] => match fixed_field(pred) {
                Some((place, value)) => {
                    place == self.place
                        && self.guess_of(value) == first
                        && self.are_guessed(first + 1, more)
                }
                None => false,
            },
        }
    }

    /// Puts the number of each predicate into the slot of the value that it asks for.
    fn fill(&mut self, preds: &[Typed]) {
        for (number, pred) in preds.iter().enumerate() {
            if let Some((_place, value)) = fixed_field(pred) {
                let slot = self.slot_of(value);
                if slot < self.slots.len() {
                    self.slots[slot] = number;
                }
            }
        }
    }

    /// The ports by one seed, if it parts the values.
    fn with_seed(alloc: Global, place: usize, seed: u64, preds: &[Typed]) -> Option<Ports>
        requires { length preds.now < 2 ^ 32 }
        ensures { IfSome result (λ ports. AreGuessed ports 0 (trees preds.now)) }
    {
        let slots = vec![in alloc; 0; SLOTS].ok()?;
        let mut ports = Ports { place, seed, slots };
        ports.fill(preds);
        if ports.are_guessed(0, preds) {
            Some(ports)
        } else {
            None
        }
    }

    /// The ports of some predicates, where each asks for another value of one field, and there is memory.
    pub(crate) fn of(alloc: Global, preds: &[Typed]) -> Option<Ports>
        requires { length preds.now < 2 ^ 32 }
        ensures { IfSome result (λ ports. AreGuessed ports 0 (trees preds.now)) }
    {
        if preds.len() < FEWEST {
            return None;
        }
        let (place, _value) = fixed_field(preds.first()?)?;
        for i in 0..SEEDS {
            let seed = SEED.wrapping_mul(2 * i + 1);
            if let Some(ports) = Ports::with_seed(alloc, place, seed, preds) {
                return Some(ports);
            }
        }
        None
    }
}
