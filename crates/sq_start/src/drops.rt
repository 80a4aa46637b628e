//! The window drops and the outputs of a network as new actors.

ghost use Rattle.std.specs.Prelude.{◌≡◌, ◌<◌, ◌≤◌, ◌^◌, ◌*◌, ◌==◌, ℕ, true, List, [], Option};
ghost use Rattle.sq_value.specs.declared.Value.{Value};
ghost use Rattle.sq_oper.specs.declared.tally.Position.{Position};
ghost use Rattle.std.specs.List.{AllByRecursion};
ghost use Rattle.sq_oper.specs.Entries.{Entry};
ghost use Rattle.sq_oper.specs.Order.{IsFuture};
ghost use Rattle.sq_windrop.specs.Gates.{IsLength};
ghost use Rattle.sq_start.specs.Starts.{DropStarts, OutputStarts};

use sq_actor::Actor;
use sq_below::early_drop_is_sound;
use sq_oper::Operator;
use sq_place::DropPoint;
use sq_windrop::{GateBox, WinDropBox};

/// A window drop that nothing was fed to, as an actor.
pub fn drop_actor(w: u32, p: &DropPoint, epoch: u64, seed: u64) -> Actor
    requires length { (1 ≤ p.now.length) × (p.now.length ≤ 2 ^ 34) }
    requires keep { p.now.keep < 4096 * p.now.length }
    requires epoch { 1 ≤ epoch }
    ensures starts { DropStarts w p.now epoch seed (⟦<Actor as Operator>⟧.takes_marks result) (⟦<Actor as Operator>⟧.fits result) (⟦<Actor as Operator>⟧.rest result) (⟦<Actor as Operator>⟧.decides result) }
    ensures owns { (table : ℕ → ℕ → ℕ) (future : List Entry) → IsFuture (⟦<Actor as Operator>⟧.takes_marks result) (⟦<Actor as Operator>⟧.fits result) Position.Start future
        → AllByRecursion (λ d. d.drop ≡ w) (⟦<Actor as Operator>⟧.decides result table future) }
    ensures fits { (port : ℕ) (fields : List Value) → ⟦<Actor as Operator>⟧.fits result port fields ≡ (port == 0) }
    ensures none { (table : ℕ → ℕ → ℕ) (port : ℕ) → ⟦<Actor as Operator>⟧.rest result table [] port ≡ [] }
    ensures none_lost { (future : List Entry) → ⟦<Actor as Operator>⟧.lost result future ≡ 0 }
    ensures reads { (of : ℕ) → ⟦<Actor as Operator>⟧.reads result of ≡ (of == epoch) }
    ensures start { (⟦<Actor as Operator>⟧.place result ≡ Position.Start) × (⟦<Actor as Operator>⟧.taken result ≡ 0) }
    ensures valid { ⟦<Actor as Operator>⟧.valid result × (⟦<Actor as Operator>⟧.running result ≡ true) }
{
    early_drop_is_sound();
    Actor::Shed(WinDropBox::new(w, p.length, p.keep, epoch, seed))
}

/// An output that nothing was fed to, as an actor: below a window drop it is told the length of its batches.
pub fn gate_actor(length: Option<u64>) -> Actor
    requires { IsLength length }
    ensures starts { OutputStarts length (⟦<Actor as Operator>⟧.takes_marks result) (⟦<Actor as Operator>⟧.fits result) (⟦<Actor as Operator>⟧.rest result) }
    ensures decides { (table : ℕ → ℕ → ℕ) (future : List Entry) → ⟦<Actor as Operator>⟧.decides result table future ≡ [] }
    ensures fits { (port : ℕ) (fields : List Value) → ⟦<Actor as Operator>⟧.fits result port fields ≡ true }
    ensures takes { (port : ℕ) → ⟦<Actor as Operator>⟧.takes_marks result port ≡ (port == 0) }
    ensures none { (table : ℕ → ℕ → ℕ) (port : ℕ) → ⟦<Actor as Operator>⟧.rest result table [] port ≡ [] }
    ensures none_lost { (future : List Entry) → ⟦<Actor as Operator>⟧.lost result future ≡ 0 }
    ensures reads { (epoch : ℕ) → ⟦<Actor as Operator>⟧.reads result epoch ≡ true }
    ensures start { (⟦<Actor as Operator>⟧.place result ≡ Position.Start) × (⟦<Actor as Operator>⟧.taken result ≡ 0) }
    ensures valid { ⟦<Actor as Operator>⟧.valid result × (⟦<Actor as Operator>⟧.running result ≡ true) }
{
    early_drop_is_sound();
    Actor::Gate(GateBox::new(length))
}
