// The refusals of loss sharing (document 01, "Numbers returned").
ghost use Rattle.std.specs.Prelude.{◌≡◌, length};
ghost use Rattle.shares.specs.Loss as L;
ghost use Rattle.shares.specs.Refused.{number};

use rules::Refusal;

// Five lists of one length, 1 to 64.
fn one_length(n: usize, differences: usize, marks: usize, first: usize, second: usize) -> bool
    ensures { result ≡ L.one_length n differences marks first second }
{
    (1..=64).contains(&n) && differences == n && marks == n && first == n && second == n
}

// A member's figures are in range, a defaulter's too.
fn member_ok(deposit: i64, difference: i64, mark: i64) -> bool
    ensures { result ≡ L.member_ok deposit difference mark }
{
    (0..=1000000000000).contains(&deposit)
        && (-1000000000000..=1000000000000).contains(&difference)
        && (0..=1).contains(&mark)
}

// Every member's figures are in range.
fn members_ok(deposits: &[i64], differences: &[i64], marks: &[i64]) -> bool
    requires fact_1 { length differences.now ≡ length deposits.now }
    requires fact_2 { length marks.now ≡ length deposits.now }
    ensures { result ≡ L.members_ok deposits.now differences.now marks.now }
{
    (0..deposits.len()).all(|i| member_ok(deposits[i], differences[i], marks[i]))
}

// The lowest refusal that applies, if one does.
#[tactic(auto, unfolding(crate::specs::Loss::refusal))]
pub fn refusal(
    loss: i64,
    deposits: &[i64],
    differences: &[i64],
    marks: &[i64],
    first: usize,
    second: usize,
) -> Option<Refusal>
    ensures { number result ≡ L.refusal loss deposits.now differences.now marks.now first second }
{
    if !one_length(
        deposits.len(),
        differences.len(),
        marks.len(),
        first,
        second,
    ) {
        Some(Refusal::Lists)
    } else if !(0..=100000000000000).contains(&loss) {
        Some(Refusal::Amount)
    } else if !members_ok(deposits, differences, marks) {
        Some(Refusal::OutOfRange)
    } else {
        None
    }
}
