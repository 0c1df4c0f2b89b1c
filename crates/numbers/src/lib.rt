// Greatest common divisors and least common multiples, for every pair of numbers, and never past what a number holds.
#![tactic(auto)]

ghost use Rattle.numbers.specs.Divisors.{GreatestCommonDivisor, LeastWithin};

// The greatest number that divides both, by which every other that does divides too; 0 where both are 0.
pub fn gcd(a: u32, b: u32) -> u32
    ensures greatest_common_divisor { GreatestCommonDivisor a b result }
{
    let mut left = a;
    let mut right = b;
    while right != 0 {
        let rest = left % right;
        left = right;
        right = rest;
    }
    left
}

// The least common multiple where it is at most `ceiling`, and `None` where it is larger; it is 0 where a number is 0.
pub fn lcm_within(a: u32, b: u32, ceiling: u32) -> Option<u32>
    ensures least_within_ceiling { LeastWithin a b ceiling result }
{
    let common = gcd(a, b);
    if common == 0 {
        return Some(0);
    }
    let least = (a / common).checked_mul(b)?;
    (least <= ceiling).then_some(least)
}
