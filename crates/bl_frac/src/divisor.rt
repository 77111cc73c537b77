//! Greatest common divisors.
ghost use Rattle.std.specs.Prelude.{◌≡◌, ◌<◌, ◌≤◌};
ghost use Rattle.bl_simplex.specs.Gcd.{gcd as gcd_of};

/// The greatest common divisor, by 64-bit divisions as soon as both numbers are that small.
pub fn gcd(a: u128, b: u128) -> u128
    ensures value { result ≡ gcd_of a b }
    ensures positive { 0 < b → 0 < result }
    ensures bound { 0 < b → result ≤ b }
{
    if b == 1 {
        return 1;
    }
    let mut greater = a;
    let mut less = b;
    while less != 0 {
        if let (Ok(p), Ok(q)) = (u64::try_from(greater), u64::try_from(less)) {
            return u128::from(gcd_of_words(p, q));
        }
        let rest = greater % less;
        greater = less;
        less = rest;
    }
    greater
}

fn gcd_of_words(a: u64, b: u64) -> u64
    ensures { result ≡ gcd_of a b }
{
    let mut greater = a;
    let mut less = b;
    while less != 0 {
        let rest = greater % less;
        greater = less;
        less = rest;
    }
    greater
}
