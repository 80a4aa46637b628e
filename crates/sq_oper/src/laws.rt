// The law of two streams that come at two ports, as the contract of a function that does nothing.
ghost use Rattle.std.specs.Prelude.{◌≡◌, [], ◌∷◌, List};
ghost use Rattle.sq_value.specs.declared.Tuple.{Tuple};
ghost use Rattle.sq_oper.specs.Order.{merge};
ghost use Rattle.sq_oper.specs.Streams.{things, tuples_at};

/// What comes at the two ports of the merge of a left and a right stream is these streams.
pub fn ports_have_their_streams()
    ensures left { (left right : List Tuple) → tuples_at 0 (merge (things left ∷ things right ∷ [])) ≡ left }
    ensures right { (left right : List Tuple) → tuples_at 1 (merge (things left ∷ things right ∷ [])) ≡ right }
{}
