// The columns of the pairs that a Join makes, and of the left tuples in what a Resample gives.
ghost use Rattle.std.specs.Prelude.{◌≡◌, ◌+◌, ◌≤◌, ◌++◌, ◌∷◌, [], IfOk, OnOk, codes, length, map};
ghost use Rattle.sq_net.specs.Columns.{pair_columns};

use crate::sources::schema_of;
use sq_value::{Kind, Name, Schema};
use std::alloc::{AllocError, Global};

fn prefixed(alloc: Global, letters: &str, name: &Name) -> Result<Name, AllocError>
    ensures { IfOk result (λ n. n ≡ letters.now ++ name.now) }
{
    let name = name.as_str();
    let text = format!(in alloc; "{letters}{name}")?;
    Name::new(alloc, text.as_str())
}

fn push_prefixed(
    alloc: Global,
    names: &mut Vec<Name>,
    letters: &str,
    more: &[Name],
) -> Result<(), AllocError>
    ensures { OnOk result (names.new.items ≡ names.old.items ++ map (λ w. letters.now ++ w) more.now) }
{
    for name in more {
        names.push(prefixed(alloc, letters, name)?)?;
    }
    Ok(())
}

/// The names of left columns in what is made of them.
pub(crate) fn left_names(alloc: Global, left: &[Name]) -> Result<Vec<Name>, AllocError>
    ensures { IfOk result (λ v. v.items ≡ map (λ w. codes "l_" ++ w) left.now) }
{
    let mut names = Vec::new(alloc);
    push_prefixed(alloc, &mut names, "l_", left)?;
    Ok(names)
}

fn pair_names(alloc: Global, left: &[Name], right: &[Name]) -> Result<Vec<Name>, AllocError>
    ensures { IfOk result (λ v. v.items ≡ map (λ w. codes "l_" ++ w) left.now ++ map (λ w. codes "r_" ++ w) right.now) }
{
    let mut names = left_names(alloc, left)?;
    push_prefixed(alloc, &mut names, "r_", right)?;
    Ok(names)
}

/// Some kinds, then others.
pub(crate) fn kinds_of_both(
    alloc: Global,
    left: &[Kind],
    right: &[Kind],
) -> Result<Vec<Kind>, AllocError>
    ensures { IfOk result (λ v. v.items ≡ left.now ++ right.now) }
{
    let mut kinds = Vec::from_slice(alloc, left)?;
    kinds.extend_from_slice(right)?;
    Ok(kinds)
}

/// The columns of the pairs of these: the left ones, then the right ones.
pub(crate) fn pair_schema(
    alloc: Global,
    left: &Schema,
    right: &Schema,
) -> Result<Schema, AllocError>
    requires { length left.now + length right.now ≤ 16 }
    ensures { IfOk result (λ s. s ≡ pair_columns (left.now ∷ right.now ∷ [])) }
{
    let names = pair_names(alloc, left.names(), right.names())?;
    let kinds = kinds_of_both(alloc, left.kinds(), right.kinds())?;
    Ok(schema_of(names, kinds))
}
