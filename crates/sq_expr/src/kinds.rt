// Kinds of columns, compared one by one.
ghost use Rattle.std.specs.Prelude.{◌≡◌};
ghost use Rattle.sq_expr.specs.Kinds.{same_kind, same_kinds};

use sq_value::Kind;

fn same_kind(a: Kind, b: Kind) -> bool
    ensures { result ≡ same_kind a b }
{
    matches!(
        (a, b),
        (Kind::Int, Kind::Int) | (Kind::Bool, Kind::Bool) | (Kind::Text, Kind::Text)
    )
}

/// Whether two lists have the same kinds in the same order.
pub fn same_kinds(a: &[Kind], b: &[Kind]) -> bool
    ensures { result ≡ same_kinds a.now b.now }
{
    match a {
        [] => match b {
            [] => true,
            [_, ..] => false,
        },
        [x, more_a @ ..] => match b {
            [] => false,
            [y, more_b @ ..] => same_kind(*x, *y) && same_kinds(more_a, more_b),
        },
    }
}
