// Laws, each the contract of a function that does nothing.
ghost use Rattle.std.specs.Prelude.{Option, ℕ, ◌<◌, ◌^◌};
ghost use Rattle.sq_net.specs.SoundNetworks.{IsSound};
ghost use Rattle.sq_points.specs.Limits.{KeepsDropLimits};
ghost use Rattle.sq_model.specs.Shedding.{Replay};
ghost use Rattle.sq_slices.specs.Drops.{SlicesDropTheSame, SlicesPlanTheSame, SlicesShowTheRun, SlicesShowTheSame};
ghost use Rattle.sq_slices.specs.Laws.{SlicesAnswerSlices, SlicesMakeThemAll, SlicesMakeTheRun, SlicesMakeTheWhole, UncutAreNamed};
ghost use Rattle.sq_slices.specs.Reaches.{FollowsReaches, reach_numbered, reaches_of};
ghost use Rattle.sq_slices.specs.declared.Reach.{Reach};

use sq_net::Network;

/// What `reaches` answers follows the boxes.
pub fn reaches_follow(n: &Network)
    requires { IsSound n.now }
    ensures { (delay : Option ℕ) → FollowsReaches n.now delay (reach_numbered (reaches_of n.now delay)) }
{
    let _n = n;
}

/// Where a stream that is there can't be sliced, some box is the reason.
pub fn uncut_are_named(n: &Network)
    requires { IsSound n.now }
    ensures { (delay : Option ℕ) (reaches : ℕ → Option Reach) → FollowsReaches n.now delay reaches → UncutAreNamed n.now delay reaches }
{
    let _n = n;
}

/// Where reaches of all streams follow the boxes, a part that has the same tuples as the sources, as far as a slice of a stream
/// reaches, answers the same in that slice. Where a delay is told, no BSort leaves out a tuple, in the whole nor in the part, and
/// none is fed one that came later than that.
pub fn slices_answer_slices(n: &Network)
    requires { IsSound n.now }
    ensures { (delay : Option ℕ) (reaches : ℕ → Option Reach) → FollowsReaches n.now delay reaches → SlicesAnswerSlices n.now delay reaches }
{
    let _n = n;
}

/// Slices of all ticks that end at cuts, one behind the other, answer what the whole does: the same tuples in the same order.
pub fn slices_make_the_whole(n: &Network)
    requires { IsSound n.now }
    ensures { (delay : Option ℕ) (reaches : ℕ → Option Reach) → FollowsReaches n.now delay reaches → SlicesMakeTheWhole n.now delay reaches }
{
    let _n = n;
}

/// The same slices do so for several streams, where they reach as far as all of them: for all outputs of a run.
pub fn slices_make_them_all(n: &Network)
    requires { IsSound n.now }
    ensures { (delay : Option ℕ) (reaches : ℕ → Option Reach) → FollowsReaches n.now delay reaches → SlicesMakeThemAll n.now delay reaches }
{
    let _n = n;
}

/// Slices that reach as far as all streams do, and the delay further back, make the whole where each of them by itself is in
/// time. Nothing is asked of the whole, which nobody has run.
pub fn slices_make_the_run(n: &Network)
    requires { IsSound n.now }
    ensures { (delay : ℕ) → delay < 2 ^ 40 → SlicesMakeTheRun n.now delay }
{
    let _n = n;
}

/// Where a part agrees with the sources as far as a slice of an output reaches, and for whole batches at the drop above it and the
/// epoch before them, it shows the same there, whatever the plans dropped.
pub fn slices_show_the_same()
    ensures { (r : Replay) → SlicesShowTheSame r }
{}

/// Where it agrees so for a drop, it drops the same of the batches that begin in the slice, at the same levels.
pub fn slices_drop_the_same()
    ensures { (r : Replay) → SlicesDropTheSame r }
{}

/// Where a part agrees with the sources from the epoch before a slice on, it shows the same plans for the epochs that begin in the slice,
/// as far as there are tuples in or behind them.
pub fn slices_plan_the_same()
    ensures { (r : Replay) → SlicesPlanTheSame r }
{}

/// What a part shows and what it drops, by how far the outputs and the drops reach.
pub fn slices_show_the_run()
    ensures { (r : Replay) (delay : Option ℕ) (reaches : ℕ → Option Reach) → IsSound r.network → KeepsDropLimits r.network → FollowsReaches r.network delay reaches → SlicesShowTheRun r delay reaches }
{}
