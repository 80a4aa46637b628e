// What stands above: the first of some drops below which an output, a box or an arc lies.
ghost use Rattle.std.specs.Prelude.{◌≡◌, ◌<◌, ◌==◌, length, IfSome};
ghost use Rattle.std.specs.List.{list_any, position};
ghost use Rattle.sq_words.specs.Lists.{contains_number};
ghost use Rattle.sq_points.specs.Above.{first_drop, distance_of, found_at};

use sq_place::DropPoint;

fn output_position(points: &[DropPoint], output: u32) -> Option<usize>
    ensures first { result ≡ position (λ p. contains_number p.outputs output) points.now }
    ensures inside { IfSome result (λ w. w < length points.now) }
{
    points
        .iter()
        .position(|p| p.outputs.as_slice().contains(&output))
}

/// The number of the first of these drops below which an output lies.
pub fn above_output(points: &[DropPoint], output: u32) -> Option<usize>
    ensures first { first_drop (λ p. contains_number p.outputs output) 0 points.now ≡ found_at result points.now }
    ensures inside { IfSome result (λ w. w < length points.now) }
{
    output_position(points, output)
}

fn box_position(points: &[DropPoint], at: u32) -> Option<usize>
    ensures first { result ≡ position (λ p. contains_number p.boxes at) points.now }
    ensures inside { IfSome result (λ w. w < length points.now) }
{
    points.iter().position(|p| p.boxes.as_slice().contains(&at))
}

/// The number of the first of these drops below which a box lies.
pub fn above_box(points: &[DropPoint], at: u32) -> Option<usize>
    ensures first { first_drop (λ p. contains_number p.boxes at) 0 points.now ≡ found_at result points.now }
    ensures inside { IfSome result (λ w. w < length points.now) }
{
    box_position(points, at)
}

fn reaches(p: &DropPoint, arc: u32) -> bool
    ensures { result ≡ list_any (λ d. d.0 == arc) p.now.reach }
{
    p.reach.as_slice().iter().any(|d| d.0 == arc)
}

fn arc_position(points: &[DropPoint], arc: u32) -> Option<usize>
    ensures first { result ≡ position (λ p. list_any (λ d. d.0 == arc) p.reach) points.now }
    ensures inside { IfSome result (λ w. w < length points.now) }
{
    points.iter().position(|p| reaches(p, arc))
}

/// The number of the first of these drops below which an arc lies.
pub fn above_arc(points: &[DropPoint], arc: u32) -> Option<usize>
    ensures first { first_drop (λ p. list_any (λ d. d.0 == arc) p.reach) 0 points.now ≡ found_at result points.now }
    ensures inside { IfSome result (λ w. w < length points.now) }
{
    arc_position(points, arc)
}

/// The distance of an arc below a drop, 0 where it isn't below it.
pub fn distance_below(p: &DropPoint, arc: u32) -> u64
    ensures { result ≡ distance_of p.now arc }
{
    for d in p.reach.as_slice() {
        if d.0 == arc {
            return d.1;
        }
    }
    0
}
