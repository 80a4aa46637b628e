// Streams by number.
ghost use Rattle.std.specs.Prelude.{◌≡◌, map};
ghost use Rattle.sq_words.specs.Lists.{nth};

use crate::Tuple;

/// The stream of this number among some, or no tuples where there is none.
pub fn stream_in(streams: &[Vec<Tuple>], stream: u32) -> &[Tuple]
    ensures { result.now ≡ nth (map (λ v. v.items) streams.now) stream }
{
    match streams.get(stream as usize) {
        Some(tuples) => tuples.as_slice(),
        None => &[],
    }
}
