//! A step of the road while it is sorted.

ghost use Rattle.std.specs.Prelude.{◌≤◌};

/// A step whose numbers are small enough to be multiplied.
#[derive(Clone, Copy, Drop)]
pub struct Offer {
    /// The drop, counted from 0.
    pub drop: u32,
    /// Which step of the drop it is, 1 to 20.
    pub k: u32,
    /// What it loses.
    pub loss: u64,
    /// The load that it saves.
    pub gain: u64,
    pub ghost gains: { 1 ≤ gain },
}
