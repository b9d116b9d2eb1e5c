// What the programs of the gate count by: how many words of two lists differ.
#![tactic(auto)]

ghost use Rattle.std.specs.Prelude.{◌≡◌, not, ◌≤◌, eqb};
ghost use Rattle.whole.specs.Counting.{one_if};
ghost use Rattle.tally.specs.Tally.{other, differing};

pub fn differ(x: i64, y: i64) -> u64
    ensures fact_1 { result ≡ one_if (other x y) }
    ensures fact_2 { result ≤ 1 }
{
    u64::from(x != y)
}

// How many words of two lists of one length differ; 1 where they have not one length. A loop: of a zip that is filtered and counted, the proof left open
// which pairs it holds.
pub fn altered(a: &[i64], b: &[i64]) -> u64
    ensures { result ≡ differing a.now b.now }
{
    if a.len() != b.len() {
        return 1;
    }
    let mut count = 0;
    for (x, y) in a.iter().zip(b) {
        count += differ(*x, *y);
    }
    count
}

// 1 where a count is not 0: a sum of a few of these neither wraps nor comes out 0 where a count was not.
pub fn some(count: u64) -> u64
    ensures fact_1 { result ≡ one_if (not (eqb count 0)) }
    ensures fact_2 { result ≤ 1 }
{
    u64::from(count != 0)
}
