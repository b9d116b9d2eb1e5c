// The root of a whole number from 1 to 6,591²: the least number whose square is not below it.
ghost use Rattle.std.specs.Prelude.{◌≡◌, ◌*◌, ◌^◌, ◌≤◌, ◌<◌};
ghost use Rattle.whole.specs.Number.{ceil_div};
ghost use Rattle.rates.specs.RateLaws.{root_of};
ghost use Rattle.rates.specs.RootLaws.{Moved, Near, Root};

// How often q is multiplied by four to lie from 2^24 up to below 2^26, where a word of 32 bits has 6 or 7 leading zeros.
fn times_up(q: u32) -> u32
    requires fact_1 { 1 ≤ q }
    requires fact_2 { q < 67108864 }
    ensures { Moved q result }
{
    (u32::leading_zeros(q) - 6) / 2
}

// A number less than 64 from the exact root of s, by two lines: one up to 2^25, one from there.
fn near(s: u32) -> u32
    requires fact_1 { 16777216 ≤ s }
    requires fact_2 { s < 67108864 }
    ensures { Near s result }
{
    let m = s / 4096;
    if m < 8192 {
        return 2436 + 106 * m / 256;
    }
    3445 + 75 * m / 256
}

// The root of s, by one step of Heron's from a number near it: that gives the root or one less.
fn large_root(s: u32) -> u32
    requires fact_1 { 16777216 ≤ s }
    requires fact_2 { s < 67108864 }
    ensures { Root s result }
{
    let x = near(s);
    let half = (x + s / x) / 2;
    if half * half < s { half + 1 } else { half }
}

// large / 2^k, rounded up: a shift, where `div_ceil` divides.
fn moved_back(large: u32, k: u32) -> u32
    requires fact_1 { k ≤ 12 }
    requires fact_2 { large ≤ 8192 }
    ensures { result ≡ ceil_div large (2 ^ k) }
{
    let times = 1u32 << k;
    (large + (times - 1)) >> k
}

// By the root of 4^k times q, of which the root of q is the part 1 / 2^k, rounded up. All in 32 bits, and no search.
pub fn root(q: u64) -> u64
    requires fact_1 { 1 ≤ q }
    requires fact_2 { q ≤ 6591 * 6591 }
    ensures { result ≡ root_of q }
{
    let square = q as u32;
    let k = times_up(square);
    let large = large_root(square << (2 * k));
    moved_back(large, k) as u64
}
