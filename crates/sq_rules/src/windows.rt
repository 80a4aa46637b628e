// The rule on the windows of Aggregates.
ghost use Rattle.std.specs.Prelude.{◌≡◌, ◌≤◌, length};
ghost use Rattle.sq_rules.specs.Limits.{first_failing};
ghost use Rattle.sq_rules.specs.Windows.{has_window, is_span, is_window, window_place};

use crate::places::part_place;
use sq_net::{Part, Place};
use sq_tables::{BodyTable, BoxTable, NetworkTable};

fn is_span(size: i64, advance: i64) -> bool
    ensures { result ≡ is_span size advance }
{
    1 <= advance && advance <= size && size <= 1 << 32 && size <= 4096 * advance
}

fn is_window(size: i64, advance: i64, phase: i64) -> bool
    ensures { result ≡ is_window size advance phase }
{
    is_span(size, advance) && 0 <= phase && !(advance <= phase)
}

fn has_window(body: &BodyTable) -> bool
    ensures { result ≡ has_window body.now }
{
    match body {
        BodyTable::Aggregate {
            size,
            advance,
            phase,
            ..
        } => is_window(*size, *advance, *phase),
        BodyTable::Filter { .. }
        | BodyTable::Map { .. }
        | BodyTable::Union
        | BodyTable::BSort { .. }
        | BodyTable::Join { .. }
        | BodyTable::Resample { .. } => true,
    }
}

fn box_without_window(boxes: &[BoxTable]) -> Option<usize>
    ensures { result ≡ first_failing (λ b. has_window b.body) boxes.now }
{
    boxes.iter().position(|b| !has_window(&b.body))
}

/// The first Aggregate whose size, advance and phase are no window.
pub(crate) fn window_place(raw: &NetworkTable) -> Option<Place>
    requires { length raw.now.boxes ≤ 128 }
    ensures { result ≡ window_place raw.now }
{
    match box_without_window(raw.boxes.as_slice()) {
        Some(number) => Some(part_place(Part::Box, number)),
        None => None,
    }
}
