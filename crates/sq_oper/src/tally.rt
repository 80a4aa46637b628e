//! What each operator keeps of the items that it was fed.

ghost use Rattle.std.specs.Prelude.{◌≡◌, ◌+◌, ◌-◌, ◌^◌, ◌<◌, is_some, true, if◌then◌else◌};
ghost use Rattle.sq_oper.specs.Entries.{entries};
ghost use Rattle.sq_oper.specs.Order.{after_all, marked_at};

use sq_item::Item;
use sq_outside::Steps;
use std::sync::ledger::Ledger;

/// How far the merge of an operator's inputs has come: the time and the port of the last item, and whether a mark of its time was fed.
#[derive(Clone, Copy, PartialEq, Eq, Drop)]
pub enum Position {
    Start,
    At { time: u64, port: u32, marked: bool },
}

impl Position {
    /// Whether a mark of this time was fed.
    pub fn is_marked_at(self, time: u64) -> bool
        ensures { result ≡ marked_at self time }
    {
        match self {
            Position::Start => false,
            Position::At {
                time: last,
                port: _,
                marked,
            } => last == time && marked,
        }
    }
}

/// The position of the last item, how many tuples were fed, and whether the operator isn't finished.
#[derive(Drop)]
pub struct Tally {
    pub place: Position,
    pub taken: u64,
    pub running: bool,
}

impl Tally {
    /// Nothing was fed.
    pub fn new() -> Tally
        ensures { result ≡ record { place = Position.Start; taken = 0; running = true } }
    {
        Tally {
            place: Position::Start,
            taken: 0,
            running: true,
        }
    }

    /// Counts an item that is fed at a port.
    #[inline(always)]
    pub fn note(&mut self, port: u32, item: &Item)
        requires { is_some item.now.body ≡ true → self.old.taken < 2 ^ 62 - 1 }
        ensures place { self.new.place ≡ after_all self.old.place (entries port item.now) }
        ensures taken { self.new.taken ≡ self.old.taken + (if is_some item.now.body then 1 else 0) }
        ensures running { self.new.running ≡ self.old.running }
    {
        let time = item.time;
        match (item.mark.is_some(), item.body.is_some()) {
            (false, false) => {}
            (false, true) => {
                let marked = self.place.is_marked_at(time);
                self.place = Position::At { time, port, marked };
                self.taken += 1;
            }
            (true, false) => {
                self.place = Position::At {
                    time,
                    port,
                    marked: true,
                };
            }
            (true, true) => {
                self.place = Position::At {
                    time,
                    port,
                    marked: true,
                };
                self.taken += 1;
            }
        }
    }
}

/// Counts a step where a tuple was fed.
#[inline(always)]
pub fn tick_if<L: Ledger>(steps: &mut Steps<L>, fed: bool)
    ensures { steps.new ≡ steps.old + (if fed then 1 else 0) }
{
    if fed {
        steps.tick();
    }
}
