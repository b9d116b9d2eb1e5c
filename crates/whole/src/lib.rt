// Signed whole numbers: tests of range in the words of the definitions, and rounding down. Every contract is exact.
#![tactic(auto)]

ghost use Rattle.std.specs.Prelude.{◌≡◌, ◌*◌, ◌%◌, ◌≤◌, ◌<◌, ◌^◌, cond, nat_abs};
ghost use Rattle.whole.specs.Number as N;

// Whether x lies between lo and hi. It stays beside `contains` of a range: its clause is the definitions' own word, where that of `contains` speaks of an
// order and the range's ends, so that a chain of tests would have to be translated one by one.
pub fn between(x: i64, lo: i64, hi: i64) -> bool
    ensures { result ≡ N.between lo hi x }
{
    lo <= x && x <= hi
}

// Whether x is at most `most` in size: two comparisons, and no size is worked out. The definitions' own word too.
pub fn within(x: i64, most: u64) -> bool
    requires { most < 2 ^ 63 }
    ensures { result ≡ N.within most x }
{
    let top = most as i64;
    between(x, 0 - top, top)
}

// Which of n things, counted from 0, the number x names.
pub fn index_of(x: i64, n: usize) -> Option<usize>
    ensures { result ≡ cond (N.is_one_of n x) (Some (nat_abs x)) None }
{
    usize::try_from(x).ok().filter(|i| *i < n)
}

// How far x is below 0, or 0.
pub fn takes_away(x: i64) -> i64
    requires { nat_abs x < 2 ^ 62 }
    ensures { result ≡ N.takes_away x }
{
    (0 - x).max(0)
}

// To round down, a number is moved up by so many whole units that it is not below 0, where dividing rounds down, and the units are taken off again: one
// division, and no test of a sign that nobody can foretell.
const MOVED_UP: i64 = 4000000000000000000;

// raw / UNIT rounded down, toward minus infinity.
pub fn floor_div<const UNIT: u64>(raw: i64) -> i64
    requires size { nat_abs raw ≤ 4 * 10 ^ 18 }
    requires unit { 0 < UNIT }
    requires whole_units { 4 * 10 ^ 18 % UNIT ≡ 0 }
    ensures { result ≡ N.floor_div raw UNIT }
{
    ((raw + MOVED_UP) as u64 / UNIT) as i64 - (MOVED_UP as u64 / UNIT) as i64
}
