// A list of pairs of byte strings that only clauses read.
ghost use Rattle.std.specs.Prelude.{◌≡◌, ℕ, List, [], ◌∷◌, ◌++◌};
ghost use Rattle.std.specs.Borrow.{ftrue};

use std::marker::{Model, PhantomData};

/// What was noted, pair by pair, which a clause reads as `all`: a file's name and the bytes that were read, or what was
/// put under a page's number and what came back.
///
/// As with `Pieces` no memory holds the list, and its functions do nothing at run time. So it binds all that is given
/// an object which notes what goes through it, and not that object. The lines that call `note` are to be read.
#[derive(Drop)]
pub struct Pairs {
    marker: PhantomData<u8>,
    pub ghost all: { List (List ℕ × List ℕ) },
}

impl Model for Pairs {
    ghost also_owns = { λ _. ftrue };
}

impl Pairs {
    /// Nothing was noted yet.
    pub fn new() -> Pairs
        ensures { result.all ≡ [] }
    {
        Pairs {
            marker: PhantomData,
        }
    }

    /// One pair more.
    pub fn note(&mut self, _first: &[u8], _second: &[u8])
        ensures { self.new.all ≡ self.old.all ++ (_first.now, _second.now) ∷ [] }
    {}
}
