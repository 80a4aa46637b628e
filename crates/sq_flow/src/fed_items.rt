//! What an operator was fed, or gave, which clauses alone read.

ghost use Rattle.std.specs.Prelude.{◌≡◌, ℕ, List, [], ◌∷◌, ◌++◌};
ghost use Rattle.std.specs.Borrow.{ftrue};
ghost use Rattle.sq_item.specs.declared.Item.{Item};

use sq_item::Item;
use std::marker::{Model, PhantomData};

/// The items that an operator was fed, or that it gave, each with its port, in order.
///
/// No memory holds the list, and the functions do nothing at run time: what stands in it says nothing by itself. The feed that
/// puts an item there promises that the operator was fed this one, at this port (`FedSeat`), and the outlet that does so that
/// all that was given, and no more, stands in the queues or was shown (`Came`).
#[derive(Drop)]
pub struct FedItems {
    marker: PhantomData<u8>,
    pub ghost items: { List (ℕ × Item) },
}

impl Model for FedItems {
    ghost also_owns = { λ _. ftrue };
}

impl FedItems {
    ghost use Rattle.sq_flow.specs.Seats.{unfed};

    /// The list of an operator that was fed nothing, or gave nothing.
    #[inline(always)]
    pub fn new() -> FedItems
        ensures { result ≡ unfed }
    {
        FedItems {
            marker: PhantomData,
        }
    }

    /// The same list with an item behind it, at its port.
    #[inline(always)]
    pub(crate) fn with(&self, _port: u32, _item: &Item) -> FedItems
        ensures { result.items ≡ self.now.items ++ (_port, _item.now) ∷ [] }
    {
        FedItems {
            marker: PhantomData,
        }
    }
}
