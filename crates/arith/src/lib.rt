#![tactic(auto)]
// Greatest common divisor and least common multiple.
ghost use Rattle.std.specs.Prelude.{◌≡◌};
ghost use Rattle.arith.specs.Gcd.{gcd_of};
ghost use Rattle.arith.specs.Lcm.{lcm_of};

// Euclid: the pair falls to the remainder pair until one is 0.
pub fn gcd(a: u16, b: u16) -> u16
    ensures { result ≡ gcd_of a b }
{
    if b == 0 { a } else { gcd(b, a % b) }
}

pub fn lcm(a: u16, b: u16) -> u32
    ensures { result ≡ lcm_of a b }
{
    let g = gcd(a, b);
    if g == 0 {
        return 0;
    }
    let parts = a / g;
    (parts as u32) * (b as u32)
}
