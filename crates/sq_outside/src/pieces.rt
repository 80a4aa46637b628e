// A list of pieces of bytes that only clauses read.
ghost use Rattle.std.specs.Prelude.{◌≡◌, ℕ, List, [], ◌∷◌, ◌++◌};
ghost use Rattle.std.specs.Borrow.{ftrue};

use std::marker::{Model, PhantomData};

/// What was noted, piece by piece, which a clause reads as `all`.
///
/// No memory holds the list, and its functions do nothing at run time. So it binds all that is given an object which
/// notes what goes through it, and not that object: one that notes what it never read or wrote would prove as well.
/// The lines that call `note` are to be read.
#[derive(Drop)]
pub struct Pieces {
    marker: PhantomData<u8>,
    pub ghost all: { List (List ℕ) },
}

impl Model for Pieces {
    ghost also_owns = { λ _. ftrue };
}

impl Pieces {
    /// Nothing was noted yet.
    pub fn new() -> Pieces
        ensures { result.all ≡ [] }
    {
        Pieces {
            marker: PhantomData,
        }
    }

    /// One piece more.
    pub fn note(&mut self, _piece: &[u8])
        ensures { self.new.all ≡ self.old.all ++ _piece.now ∷ [] }
    {}
}
