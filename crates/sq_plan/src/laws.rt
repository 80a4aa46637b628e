// That small counts are not cut off at the greatest rate, as the contract of a function that does nothing.
ghost use Rattle.std.specs.Prelude.{◌≡◌, ℕ, ◌*◌, ◌≤◌, List, Some, slice_index};
ghost use Rattle.sq_graph.specs.declared.Wiring.{Wiring};
ghost use Rattle.sq_graph.specs.declared.Producer.TheVariants as producer;
ghost use Rattle.sq_graph.specs.Wires.{producer_of};
ghost use Rattle.sq_plan.specs.declared.Toll.{Toll};
ghost use Rattle.sq_plan.specs.Rates.{rate_of};

/// A source of at most 281,474,976 tuples in an epoch counts whole: nothing of its rate is cut off at the greatest rate.
#[tactic(auto, using(crate::proofs::SourceLaws::source_is_counted))]
pub fn sources_are_counted()
    ensures { (w : Wiring) (tolls : List Toll) (counts : List ℕ) (stream source : ℕ) → producer_of w stream ≡ Some (producer.Source source)
        → slice_index counts source ≤ 281474976 → rate_of w tolls counts stream ≡ 1000000 * slice_index counts source }
{}
