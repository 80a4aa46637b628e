//! The state of a group in a window.

ghost use Rattle.std.specs.Prelude.{◌≡◌};

use std::marker::Model;

/// Where a joined state lies.
#[derive(Drop)]
enum Lying<'a, S> {
    Lent(&'a S),
    Own(S),
}

/// The join of the states that a window covers: the one state itself, lent, where it covers one, so that nothing is copied.
/// Contracts see the state.
#[derive(Drop)]
pub struct Joined<'a, S> {
    lying: Lying<'a, S>,
}

impl<'a, S> Model for Joined<'a, S> {
    ghost use Rattle.sq_pane.specs.JoinedStates.{state_lying};

    ghost Value = { S };

    ghost view = { λ j. state_lying j.lying };
}

impl<'a, S> Joined<'a, S> {
    /// A state that is held elsewhere.
    #[inline(always)]
    pub fn lent(state: &'a S) -> Joined<'a, S>
        ensures { result ≡ state.now }
    {
        Joined {
            lying: Lying::Lent(state),
        }
    }

    /// A state that was made of some.
    #[inline(always)]
    pub fn own(state: S) -> Joined<'a, S>
        ensures { result ≡ state }
    {
        Joined {
            lying: Lying::Own(state),
        }
    }

    /// The state.
    #[inline(always)]
    pub fn get(&self) -> &S
        ensures { result.now ≡ self.now }
    {
        match &self.lying {
            Lying::Lent(state) => state,
            Lying::Own(state) => state,
        }
    }
}
