// The digits among the 8 bytes at a place of a text, told by one word that holds them, the first byte lowest.
ghost use Rattle.std.specs.Prelude.{◌≡◌, ◌+◌, ◌-◌, ◌*◌, ◌%◌, ◌^◌, ◌<◌, ◌≤◌, ℕ, List, drop, length, map, slice_range, take};
ghost use Rattle.std.specs.Int.Digits.{number_from_digits};
ghost use Rattle.std.specs.List.{prefix_len};
ghost use Rattle.sq_value.specs.Texts.{is_digit, number_in};
ghost use Rattle.sq_csv.specs.Lanes.{AreEight, less_zero, flag};
ghost use lib.Lanes.{number_l};

pub(crate) const BYTES: usize = 8;

#[inline(always)]
fn word_at(text: &[u8], at: usize) -> u64
    requires { at + 8 ≤ length text.now }
    ensures { result ≡ number_l 256 (take 8 (drop at text.now)) }
{
    // Byte by byte it is no single load where the first byte was looked at before.
    match text[at..].first_chunk::<8>() {
        Some(bytes) => u64::from_le_bytes(*bytes),
        None => unreachable!(),
    }
}

// The high bit of each byte that is no digit: only there is its lane 10 or more. No sum carries into the next byte.
#[inline(always)]
fn flags_of_others(lanes: u64) -> u64
    ensures { (bytes : List ℕ) → AreEight 256 bytes → lanes ≡ number_l 256 (map less_zero bytes) → result ≡ number_l 256 (map flag bytes) }
{
    ((lanes & 0x7f7f_7f7f_7f7f_7f7f) + 0x7676_7676_7676_7676 | lanes) & 0x8080_8080_8080_8080
}

// The word with its first bytes, fewer than 8, moved up to the end.
#[inline(always)]
fn keep_first(word: u64, count: u32) -> u64
    requires { count < 8 }
    ensures { result ≡ word * 256 ^ (8 - count) % 2 ^ 64 }
{
    // Two shifts, since a shift by 64 is not defined.
    word << (56 - 8 * count) << 8
}

// The number that eight digits write.
#[inline(always)]
fn value_of_eight(word: u64) -> u64
    ensures { (ds : List ℕ) → AreEight 10 ds → word ≡ number_l 256 ds → result ≡ number_from_digits 10 ds }
{
    let pairs = word.wrapping_mul(10).wrapping_add(word >> 8);
    let first = (pairs & 0x0000_00ff_0000_00ff).wrapping_mul(100 + (1_000_000 << 32));
    let second = ((pairs >> 16) & 0x0000_00ff_0000_00ff).wrapping_mul(1 + (10_000 << 32));
    first.wrapping_add(second) >> 32
}

/// How many of the 8 bytes at a place of a text are digits, from the first, and the number that these write, where not all are.
#[inline(always)]
pub(crate) fn up_to_eight(text: &[u8], at: usize) -> (usize, u64)
    requires { at + 8 ≤ length text.now }
    ensures count { result.0 ≡ prefix_len is_digit (take 8 (drop at text.now)) }
    ensures number { result.0 < 8 → result.1 ≡ number_in (slice_range text.now at (at + result.0)) }
{
    let lanes = word_at(text, at) ^ 0x3030_3030_3030_3030;
    let others = flags_of_others(lanes);
    if others == 0 {
        return (BYTES, 0);
    }
    let count = others.trailing_zeros() / 8;
    (count as usize, value_of_eight(keep_first(lanes, count)))
}
