// How many of the 16 bytes at a place of a text, from the first, are of a class.
ghost use Rattle.std.specs.Prelude.{◌≡◌, ◌+◌, ◌≤◌, drop, length, take};
ghost use Rattle.std.specs.List.{prefix_len};
ghost use Rattle.sq_value.specs.Texts.{is_digit};
ghost use Rattle.sq_csv.specs.Cuts.{below_128, joins, stays_quoted};
ghost use Rattle.sq_csv.specs.Lanes.{first_set};

use std::simd::prelude::*;

pub(crate) const LANES: usize = 16;

// The lowest bit that is set, or 16.
#[inline(always)]
fn first_set(mask: u64) -> usize
    ensures { result ≡ first_set mask }
{
    if mask == 0 {
        LANES
    } else {
        mask.trailing_zeros() as usize
    }
}

#[inline(always)]
pub(crate) fn bare_run(text: &[u8], at: usize) -> usize
    requires { at + 16 ≤ length text.now }
    ensures { result ≡ prefix_len joins (take 16 (drop at text.now)) }
{
    let bytes = u8x16::from_slice(&text[at..]);
    let ends = bytes.simd_eq(u8x16::splat(b'\r')) | bytes.simd_eq(u8x16::splat(b'\n'));
    first_set((bytes.simd_eq(u8x16::splat(b',')) | ends).to_bitmask())
}

#[inline(always)]
pub(crate) fn quoted_run(text: &[u8], at: usize) -> usize
    requires { at + 16 ≤ length text.now }
    ensures { result ≡ prefix_len stays_quoted (take 16 (drop at text.now)) }
{
    let bytes = u8x16::from_slice(&text[at..]);
    let stops = bytes.simd_eq(u8x16::splat(b'"')) | bytes.simd_eq(u8x16::splat(b'\n'));
    first_set(stops.to_bitmask())
}

#[inline(always)]
pub(crate) fn ascii_run(text: &[u8], at: usize) -> usize
    requires { at + 16 ≤ length text.now }
    ensures { result ≡ prefix_len below_128 (take 16 (drop at text.now)) }
{
    let others = u8x16::from_slice(&text[at..]).simd_ge(u8x16::splat(128));
    first_set(others.to_bitmask())
}

#[inline(always)]
pub(crate) fn digit_run(text: &[u8], at: usize) -> usize
    requires { at + 16 ≤ length text.now }
    ensures { result ≡ prefix_len is_digit (take 16 (drop at text.now)) }
{
    let bytes = u8x16::from_slice(&text[at..]);
    let others = bytes.simd_lt(u8x16::splat(b'0')) | bytes.simd_gt(u8x16::splat(b'9'));
    first_set(others.to_bitmask())
}
