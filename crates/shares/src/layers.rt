// The two layers of a loss that is accepted, and their shares (document 01, "Sharing a default loss"; source 000, article 12-7(2)).
ghost use Rattle.std.specs.Prelude.{◌≡◌, ◌≤◌, nat_abs, length};
ghost use Rattle.whole.specs.Counting.{total, listed};
ghost use Rattle.whole.specs.Reps.{Each};
ghost use Rattle.portions.specs.Bounds.{most_members};
ghost use Rattle.shares.specs.Loss as L;
ghost use Rattle.shares.specs.Accepted.{Lengths};

use portions::share;

// What a member weighs in a layer: a survivor's figure, where it is positive. A defaulter weighs nothing.
#[tactic(auto, unfolding(crate::specs::Loss::weight_of))]
fn weight_of(mark: i64, figure: i64) -> u64
    ensures { result ≡ L.weight_of mark figure }
{
    if mark != 0 || figure < 0 {
        0
    } else {
        figure as u64
    }
}

// A defaulter's negative difference, in absolute value. A survivor's counts for nothing.
#[tactic(auto, unfolding(crate::specs::Loss::negative_of))]
fn negative_of(mark: i64, difference: i64) -> u64
    requires { nat_abs difference ≤ L.most_figure }
    ensures { result ≡ L.negative_of mark difference }
{
    if mark == 0 || 0 <= difference {
        0
    } else {
        difference.unsigned_abs()
    }
}

// The members by one of their figures: the deposit or the difference.
#[derive(Clone, Copy)]
struct Members<'a> {
    marks: &'a [i64],
    figures: &'a [i64],
    ghost one_length: { length marks.now ≡ length figures.now },
    ghost few: { length figures.now ≤ most_members },
    ghost in_range: { Each L.most_figure figures.now },
}

impl Members<'_> {
    // Writes every member's weight and answers their sum, so that they need not be read back for it.
    fn weigh(self, weights: &mut [u64]) -> u64
        requires { length weights.old ≡ length self.figures.now }
        ensures value { result ≡ total (length self.entry.figures.now) (L.weight self.entry.marks.now self.entry.figures.now) }
        ensures weights_after { weights.new ≡ listed (length self.entry.figures.now) (L.weight self.entry.marks.now self.entry.figures.now) }
    {
        let mut sum: u64 = 0;
        for (i, figure) in self.figures.iter().enumerate() {
            let weight = weight_of(self.marks[i], *figure);
            weights[i] = weight;
            sum += weight;
        }
        sum
    }

    // The defaulters' negative figures together, in absolute value.
    fn negatives(self) -> u64
        ensures { result ≡ L.negatives self.entry.marks.now self.entry.figures.now }
    {
        let mut sum: u64 = 0;
        for (i, figure) in self.figures.iter().enumerate() {
            sum += negative_of(self.marks[i], *figure);
        }
        sum
    }

    // Shares a layer of at most `most`, and says how large it is. There is room lent for the weights: they are left in `weights`.
    fn layer(self, most: u64, weights: &mut [u64], out: &mut [i64]) -> u64
        requires weights_long { length weights.old ≡ length self.figures.now }
        requires out_long { length out.old ≡ length self.figures.now }
        requires most_in { most ≤ L.most_loss }
        ensures value { result ≡ L.layer most self.entry.marks.now self.entry.figures.now }
        ensures out_after { out.new ≡ L.layer_shares most self.entry.marks.now self.entry.figures.now }
        ensures weights_after { weights.new ≡ listed (length self.entry.figures.now) (L.weight self.entry.marks.now self.entry.figures.now) }
    {
        let sum = self.weigh(weights);
        let amount = most.min(sum);
        share(amount, sum, weights, out);
        amount
    }
}

// Shares both layers; what remains of the loss. There is room for the weights of N members.
fn shared_in<const N: usize>(
    loss: u64,
    deposits: Members,
    differences: Members,
    first: &mut [i64],
    second: &mut [i64],
) -> u64
    requires room { length deposits.figures.now ≤ N }
    requires small { N ≤ most_members }
    requires same { (deposits.marks.now ≡ differences.marks.now) × (length deposits.figures.now ≡ length differences.figures.now) }
    requires long { (length first.old ≡ length deposits.figures.now) × (length second.old ≡ length deposits.figures.now) }
    requires loss_in { loss ≤ L.most_loss }
    ensures value { result ≡ L.remains loss deposits.entry.figures.now differences.entry.figures.now deposits.entry.marks.now }
    ensures first_after { first.new ≡ L.shares_one loss deposits.entry.figures.now deposits.entry.marks.now }
    ensures second_after { second.new ≡ L.shares_two loss deposits.entry.figures.now differences.entry.figures.now deposits.entry.marks.now }
{
    let mut room: [u64; N] = [0; N];
    let weights = &mut room[..deposits.figures.len()];
    let one = deposits.layer(loss, weights, first);
    let rest = loss - one;
    let most = rest.min(differences.negatives());
    let two = differences.layer(most, weights, second);
    rest - two
}

// The same of three lists: eight members or fewer need no room for 64.
pub fn shared(
    loss: u64,
    deposits: &[i64],
    differences: &[i64],
    marks: &[i64],
    first: &mut [i64],
    second: &mut [i64],
) -> u64
    requires lengths { Lengths (length deposits.now) (length differences.now) (length marks.now) (length deposits.now) (length first.old) (length second.old) }
    requires each_1 { Each L.most_figure deposits.now }
    requires each_2 { Each L.most_figure differences.now }
    requires each_3 { loss ≤ L.most_loss }
    ensures value { result ≡ L.remains loss deposits.now differences.now marks.now }
    ensures first_after { first.new ≡ L.shares_one loss deposits.now marks.now }
    ensures second_after { second.new ≡ L.shares_two loss deposits.now differences.now marks.now }
{
    let few = deposits.len() <= 8;
    let deposits = Members {
        marks,
        figures: deposits,
    };
    let differences = Members {
        marks,
        figures: differences,
    };
    if few {
        shared_in::<8>(loss, deposits, differences, first, second)
    } else {
        shared_in::<64>(loss, deposits, differences, first, second)
    }
}
