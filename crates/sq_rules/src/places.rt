// Places in a network file.
ghost use Rattle.std.specs.Prelude.{◌≡◌, ◌<◌, ◌^◌};
ghost use Rattle.sq_tables.specs.Places.{part_place, place_at};

use sq_net::{Part, Place};

/// An item of a list of a part: the part by its number, the item by its number in the list.
pub fn place_at(part: Part, number: usize, item: usize) -> Place
    requires number { number < 2 ^ 32 }
    requires item { item < 2 ^ 32 }
    ensures { result ≡ place_at part number item }
{
    Place {
        part,
        number: number as u32,
        item: item as u32,
    }
}

/// The place of a part as a whole, by its number.
pub fn part_place(part: Part, number: usize) -> Place
    requires { number < 2 ^ 32 }
    ensures { result ≡ part_place part number }
{
    place_at(part, number, 0)
}
