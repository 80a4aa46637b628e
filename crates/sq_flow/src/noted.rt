//! What an actor decided, which clauses alone read.

ghost use Rattle.std.specs.Prelude.{◌≡◌, List, [], ◌∷◌, ◌++◌};
ghost use Rattle.std.specs.Borrow.{ftrue};
ghost use Rattle.sq_oper.specs.declared.outs.Decision.{Decision};

use sq_oper::Decision;
use std::marker::{Model, PhantomData};

/// The batches that were dropped.
///
/// No memory holds the list, and the functions do nothing at run time: what is noted says nothing by itself. The outlet that
/// notes what it decides promises that all of it, and no more, was shown (`Came`).
#[derive(Drop)]
pub(crate) struct Noted {
    marker: PhantomData<u8>,
    pub ghost drops: { List Decision },
}

impl Model for Noted {
    ghost also_owns = { λ _. ftrue };
}

impl Noted {
    /// Nothing was noted yet.
    #[inline(always)]
    pub(crate) fn new() -> Noted
        ensures { result.drops ≡ [] }
    {
        Noted {
            marker: PhantomData,
        }
    }

    /// One decision more.
    #[inline(always)]
    pub(crate) fn with(&self, _decision: &Decision) -> Noted
        ensures { result.drops ≡ self.now.drops ++ _decision.now ∷ [] }
    {
        Noted {
            marker: PhantomData,
        }
    }
}
