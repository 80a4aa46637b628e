// Who is shown the events of a run.
ghost use Rattle.std.specs.Prelude.{◌≤◌, ℕ, ◌++◌, IfErr, List, OnOk};
ghost use Rattle.std.specs.List.{AllByRecursion};
ghost use Rattle.sq_net.specs.declared.Network.{Network};
ghost use Rattle.sq_oper.specs.declared.outs.Event.{Event};
ghost use Rattle.sq_due.specs.Histories.{IsEventAt};
ghost use Rattle.sq_due.specs.Writing.{LosesRest};

use sq_net::Network;
use sq_oper::Event;
use sq_status::Status;

/// Takes the events that a run shows, one list after another, and keeps them in a form of its own or hands them on to an output.
pub trait Audience<O> {
    /// Events of this network may be shown.
    ghost ready: { Self → Network → Type 0 };

    /// Since the output was the first, these events of a network were shown: it is the second now, and the rest is held.
    ghost shown: { O → Self → O → Network → List Event → Type 0 };

    /// They were, and nothing is held back.
    ghost whole: { O → Self → O → Network → List Event → Type 0 };

    /// Since the output was the first, a beginning of these events went out to it.
    ghost begun: { O → O → Network → List Event → Type 0 };

    /// How many calls of the output had a fault.
    ghost faults: { O → ℕ };

    /// Shows events, behind those that were shown before.
    fn show(&mut self, network: &Network, events: &[Event], out: &mut O) -> Result<(), Status>
        requires there { AllByRecursion (IsEventAt network.now) events.now }
        requires ready { ready self.old network.now }
        ensures ready { OnOk result (ready self.new network.now) }
        ensures ok { OnOk result ((from : O) (before : List Event) → shown from self.old out.old network.now before
            → shown from self.new out.new network.now (before ++ events.now)) }
        ensures err { IfErr result (LosesRest ((from : O) (before : List Event) → shown from self.old out.old network.now before
            → begun from out.new network.now (before ++ events.now)) (faults out.old) (faults out.new)) }
        ensures later { faults out.old ≤ faults out.new };

    /// Nothing more is to be shown: what is held back goes out.
    fn close(&mut self, out: &mut O) -> Result<(), Status>
        ensures ready { (n : Network) → ready self.old n → OnOk result (ready self.new n) }
        ensures ok { OnOk result ((from : O) (n : Network) (events : List Event) → shown from self.old out.old n events
            → whole from self.new out.new n events) }
        ensures err { IfErr result (LosesRest ((from : O) (n : Network) (events : List Event) → shown from self.old out.old n events
            → begun from out.new n events) (faults out.old) (faults out.new)) }
        ensures later { faults out.old ≤ faults out.new };

    ghost begins: { (from : O) (held : Self) (now : O) (n : Network) (events : List Event) → shown from held now n events → begun from now n events };
}
