// The least common multiple, as far as it is of use.
ghost use Rattle.std.specs.Prelude.{◌≡◌};
ghost use Rattle.sq_seen.specs.Numbers.{gcd_of, lcm_of};
ghost use Rattle.sq_seen.specs.Reaches.{capped};

// One more than the greatest length of a batch: a greater number is as good as this one.
const CAP: u64 = 17_179_869_185;

fn gcd(a: u64, b: u64) -> u64
    ensures { result ≡ gcd_of a b }
{
    let mut divided = a;
    let mut by = b;
    for _ in 0..128u32 {
        if by == 0 {
            return divided;
        }
        let rest = divided % by;
        divided = by;
        by = rest;
    }
    divided
}

pub fn capped(n: u64) -> u64
    ensures { result ≡ capped n }
{
    n.min(CAP)
}

/// The least common multiple, or `CAP` where it is greater.
pub fn capped_lcm(a: u64, b: u64) -> u64
    ensures { result ≡ capped (lcm_of a b) }
{
    if a == 0 {
        return 0;
    }
    let multiple = u128::from(a / gcd(a, b)) * u128::from(b);
    if multiple > u128::from(CAP) {
        return CAP;
    }
    multiple as u64
}
