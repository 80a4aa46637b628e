//! Where what operators give goes.

ghost use Rattle.std.specs.Prelude.{◌≡◌, ℕ, ◌==◌, ◌++◌, ◌∷◌, List, [], OnOk, OnErr, if◌then◌else◌};
ghost use Rattle.sq_words.specs.Lists.{IsPrefixOf};
ghost use Rattle.sq_item.specs.declared.Item.{Item};
ghost use Rattle.sq_item.specs.SoundItems.{IsSoundItem};
ghost use Rattle.sq_item.specs.Things.{spread};
ghost use Rattle.sq_oper.specs.declared.outs.Decision.{Decision};
ghost use Rattle.sq_oper.specs.Outflow.{given, ItemsSound};

use crate::{Decision, Outs};
use sq_item::Item;
use sq_value::{Fields, Value};
use std::alloc::{AllocError, Global};

/// Takes what an operator gives, one item after another, so that no list of it has to stand anywhere.
///
/// An `Err` says that it takes no more: memory ran out, or it met a fault of its own, which it keeps.
pub trait Outlet {
    /// What was given, each item with its port.
    ghost items: { Self → List (ℕ × Item) };

    /// The batches that were dropped.
    ghost drops: { Self → List Decision };

    /// It takes more.
    ghost ready: { Self → Type 0 };

    /// The second is what the first became by what went out since.
    ghost came: { Self → Self → Type 0 };

    /// Memory for what goes out.
    fn alloc(&self) -> Global;

    /// An item goes out at a port.
    fn give(&mut self, port: u32, item: Item) -> Result<(), AllocError>
        requires is_ready { ready self.old }
        requires is_sound { IsSoundItem item }
        ensures one { OnOk result (items self.new ≡ items self.old ++ (record { 0 = port; 1 = item } ∷ [])) }
        ensures given { OnOk result ((q : ℕ) → given q (items self.new) ≡ given q (items self.old) ++ (if port == q then spread item else [])) }
        ensures err { OnErr result (items self.new ≡ items self.old) }
        ensures sound { ItemsSound (items self.old) → ItemsSound (items self.new) }
        ensures extends { IsPrefixOf (items self.old) (items self.new) }
        ensures drops { drops self.new ≡ drops self.old }
        ensures stays_ready { OnOk result (ready self.new) }
        ensures came { (start : Self) → came start self.old → came start self.new };

    /// Takes values that are done with: their vector may be used again.
    fn let_go(&mut self, fields: Fields)
        ensures { self.new ≡ self.old };

    /// A vector without values, which may have memory.
    fn reuse(&mut self) -> Vec<Value>
        ensures empty { result.items ≡ [] }
        ensures same { self.new ≡ self.old };

    /// A batch is dropped.
    fn decide(&mut self, decision: Decision) -> Result<(), AllocError>
        requires is_ready { ready self.old }
        ensures decided { OnOk result (drops self.new ≡ drops self.old ++ decision ∷ []) }
        ensures err { OnErr result (drops self.new ≡ drops self.old) }
        ensures items { items self.new ≡ items self.old }
        ensures stays_ready { OnOk result (ready self.new) }
        ensures came { (start : Self) → came start self.old → came start self.new };
}

impl Outlet for Outs {
    ghost items = { λ s. s.items.items };

    ghost drops = { λ s. s.drops.items };

    ghost ready = { λ s. Unit {0} };

    ghost came = { λ start s. Unit {0} };

    fn alloc(&self) -> Global {
        *self.items.allocator()
    }

    #[tactic(auto, using(crate::proofs::GivenLemmas::given_lemmas))]
    #[inline(always)]
    fn give(&mut self, port: u32, item: Item) -> Result<(), AllocError> {
        self.items.reserve(1)?;
        self.items.push_reserved((port, item));
        Ok(())
    }

    fn let_go(&mut self, _fields: Fields) {}

    fn reuse(&mut self) -> Vec<Value> {
        Vec::new(self.alloc())
    }

    #[tactic(auto, using(crate::proofs::GivenLemmas::given_lemmas))]
    fn decide(&mut self, decision: Decision) -> Result<(), AllocError> {
        self.drops.push(decision)?;
        Ok(())
    }
}
