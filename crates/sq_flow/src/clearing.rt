//! Whether the replay may go on, by what is known of its sources.

ghost use Rattle.std.specs.Prelude.{◌≡◌, ◌<◌, ◌^◌, true, false, None, IfSome, length};
ghost use Rattle.sq_left.specs.Heads.{key_before};
ghost use Rattle.sq_flow.specs.Sources.{is_preceded, is_clear_of, is_clear};

use sq_replay::Stream;

/// A tuple of this time and source comes before one from a tick on of another.
#[inline(always)]
fn comes_before(time: u64, source: usize, from: u64, other: usize) -> bool
    ensures { result ≡ key_before time source from other }
{
    time < from || (time == from && source < other)
}

/// What is known of some source comes before all that may come of this one from a tick on.
fn is_preceded(sources: &Vec<Stream>, source: usize, from: u64) -> bool
    ensures { result ≡ is_preceded sources.now.items source from }
{
    for other in 0..sources.len() {
        if let Some(time) = sources[other].time() {
            if comes_before(time, other, from, source) {
                return true;
            }
        }
    }
    false
}

/// A source holds back no other: it begins, no more comes of it, or what may come is preceded.
fn is_clear_of(sources: &Vec<Stream>, ahead: &Vec<Option<u64>>, source: usize) -> bool
    requires there { source < length sources.now.items }
    requires told { length ahead.now.items ≡ length sources.now.items }
    ensures { result ≡ is_clear_of sources.now.items ahead.now.items source }
{
    if sources[source].time().is_some() {
        return true;
    }
    match ahead[source] {
        None => true,
        Some(from) => is_preceded(sources, source, from),
    }
}

/// No source holds back another.
pub(crate) fn is_clear(sources: &Vec<Stream>, ahead: &Vec<Option<u64>>) -> bool
    requires { length ahead.now.items ≡ length sources.now.items }
    ensures { result ≡ is_clear sources.now.items ahead.now.items }
{
    for source in 0..sources.len() {
        if !is_clear_of(sources, ahead, source) {
            return false;
        }
    }
    true
}

/// The first source that holds back another.
pub(crate) fn first_held(sources: &Vec<Stream>, ahead: &Vec<Option<u64>>) -> Option<u32>
    requires told { length ahead.now.items ≡ length sources.now.items }
    requires few { length sources.now.items < 2 ^ 32 }
    ensures none { result ≡ None → is_clear sources.now.items ahead.now.items ≡ true }
    ensures some { IfSome result (λ source. (source < length sources.now.items) × (is_clear_of sources.now.items ahead.now.items source ≡ false)) }
{
    for source in 0..sources.len() {
        if !is_clear_of(sources, ahead, source) {
            return Some(source as u32);
        }
    }
    None
}
