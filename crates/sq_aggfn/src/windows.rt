//! Where windows start, and what they cover.

ghost use Rattle.std.specs.Prelude.{◌≡◌, ◌↔◌, ℕ, ◌+◌, ◌-◌, ◌^◌, ◌<◌, ◌≤◌};
ghost use Rattle.sq_aggfn.specs.Windows.{IsWindow, start_of, started, covers};

use crate::WindowSpec;

impl WindowSpec {
    /// The start of the window with a number. Windows are numbered from 0, in the order of their starts.
    pub fn start_of(self, number: u64) -> u64
        requires { start_of self number < 2 ^ 64 }
        ensures { result ≡ start_of self number }
    {
        number * self.advance + self.phase
    }

    /// How many windows start at or before a tick.
    pub fn started(self, tick: u64) -> u64
        requires moves { 1 ≤ self.advance }
        requires tick { tick < 2 ^ 64 - 1 }
        ensures count { result ≡ started self tick }
        ensures those { (k : ℕ) → (k < result) ↔ (start_of self k ≤ tick) }
    {
        if tick < self.phase {
            0
        } else {
            (tick - self.phase) / self.advance + 1
        }
    }

    /// Whether the window that starts at a tick covers another.
    pub fn covers(self, start: u64, tick: u64) -> bool
        requires { start + self.size < 2 ^ 64 }
        ensures { result ≡ covers self start tick }
    {
        start <= tick && tick < start + self.size
    }

    /// The number of the first window that ends after a tick, so the first that covers it.
    pub fn first_covering(self, tick: u64) -> u64
        requires { IsWindow self }
        ensures before { (k : ℕ) → k < result → start_of self k + self.size ≤ tick }
        ensures after { tick < start_of self result + self.size }
        ensures begun { result ≤ started self tick }
    {
        let first_end = self.phase + self.size;
        if tick < first_end {
            0
        } else {
            (tick - first_end) / self.advance + 1
        }
    }
}
