// One amount shared by weights, to the yen: document 01, "Sharing a default loss", the house rule on shares.
#![tactic(auto)]

ghost use Rattle.std.specs.Prelude.{not, ◌≡◌, ℕ, ◌+◌, ◌≤◌, ◌<◌, pos, nat_abs, ◌+ℤ◌, length, get_or, ltb, count_by};
ghost use Rattle.whole.specs.Counting.{one_if, listed};
ghost use Rattle.whole.specs.Reps.{Each};
ghost use Rattle.portions.specs.Share as S;
ghost use Rattle.portions.specs.Cut.{Cuts, Seen, remainders_of};
ghost use Rattle.portions.specs.Bounds.{Weights, most_amount, most_members};

use crate::divide::Ratio;

mod divide;

// What is shared: an amount, by weights that are not all 0.
#[derive(Clone, Copy)]
struct Sharing<'a> {
    amount: u64,
    sum: u64,
    weights: &'a [u64],
    ghost amount_in: { amount ≤ most_amount },
    ghost sum_is: { sum ≡ S.sum_of weights.now },
    ghost some: { 0 < sum },
    ghost weights_in: { Weights weights.now },
}

impl Sharing<'_> {
    // Writes each member's floor, and his remainder beside it; the yen left.
    fn floors(self, remainders: &mut [u64], out: &mut [i64]) -> u64
        requires remainders_long { length remainders.old ≡ length self.weights.now }
        requires out_long { length out.old ≡ length self.weights.now }
        ensures value { result ≡ S.left (length self.entry.weights.now) (S.of_member self.entry.weights.now) self.entry.amount }
        ensures remainders_after { remainders.new ≡ remainders_of self.entry.amount self.entry.weights.now }
        ensures out_after { out.new ≡ S.floors self.entry.amount self.entry.weights.now }
    {
        let ratio = Ratio::of(self.amount, self.sum);
        let mut given: u64 = 0;
        for (i, weight) in self.weights.iter().enumerate() {
            let part = ratio.part_of(*weight);
            remainders[i] = part.remainder;
            out[i] = part.quotient as i64;
            given += part.quotient;
        }
        self.amount - given
    }

    // Each word of `out`, the caller's own list, is that member's share. The remainders have room of their own.
    fn share(self, remainders: &mut [u64], out: &mut [i64])
        requires remainders_long { length remainders.old ≡ length self.weights.now }
        requires out_long { length out.old ≡ length self.weights.now }
        ensures { out.new ≡ S.shares self.entry.amount self.entry.weights.now }
    {
        let yen = self.floors(remainders, out);
        let last = Remainders { of: remainders }.last_owner(yen, self.sum);
        hand_out(last, remainders, out);
    }

    // The same with room for the remainders of N members.
    fn share_in<const N: usize>(self, out: &mut [i64])
        requires room { length self.weights.now ≤ N }
        requires small { N ≤ most_members }
        requires out_long { length out.old ≡ length self.weights.now }
        ensures { out.new ≡ S.shares self.entry.amount self.entry.weights.now }
    {
        let mut room: [u64; N] = [0; N];
        self.share(&mut room[..self.weights.len()], out);
    }
}

// A member in the order in which the yen left are given: his remainder and his number.
#[derive(Clone, Copy)]
struct Member {
    remainder: u64,
    number: usize,
}

impl Member {
    // Whether this member comes before the other: the larger remainder first, the lower account on a tie. A derived order would turn the
    // remainder round.
    fn comes_before(self, other: Member) -> bool
        ensures { result ≡ S.comes_before self.remainder self.number other.remainder other.number }
    {
        if self.remainder == other.remainder {
            self.number < other.number
        } else {
            other.remainder < self.remainder
        }
    }
}

// What is known of the cut between the members who get a yen and those who get none: the last found to get one, and the largest remainder of one found
// to get none.
#[derive(Clone, Copy)]
struct Cut {
    last: Member,
    next: u64,
}

// How many of the remainders are above x. Taken as a number, a comparison is no branch.
fn how_many_above(x: u64, remainders: &[u64]) -> u64
    requires { length remainders.now ≤ most_members }
    ensures { result ≡ count_by (ltb x) remainders.now }
{
    remainders.iter().map(|y| u64::from(x < *y)).sum()
}

// The members' remainders.
#[derive(Clone, Copy)]
struct Remainders<'a> {
    of: &'a [u64],
    ghost few: { length of.now ≤ most_members },
}

impl Remainders<'_> {
    // How many members come before member i, whose remainder is not 0: lower accounts with a remainder no smaller, higher ones with a larger one. Two plain
    // counts compare less than one that asks of each member who comes first.
    fn how_many_before(self, i: usize) -> u64
        requires i_in { i < length self.of.now }
        requires some { 0 < S.of_member self.of.now i }
        ensures { result ≡ S.how_many_before (length self.entry.of.now) (S.of_member self.entry.of.now) i }
    {
        let own = self.of[i];
        how_many_above(own - 1, &self.of[..i]) + how_many_above(own, &self.of[i..])
    }

    // Looks at member i. How many come before him is counted only where his remainder stands between the two. On a tie with one of them he comes after
    // that one, who was seen first.
    #[tactic(auto, using(crate::specs::Cut::owns, crate::specs::Cut::lacks))]
    fn narrow(self, yen: u64, i: usize, cut: Cut) -> Cut
        requires i_in { i < length self.of.now }
        requires seen { Seen (length self.of.now) (S.of_member self.of.now) yen i cut.last.remainder cut.last.number cut.next }
        ensures { Seen (length self.entry.of.now) (S.of_member self.entry.of.now) yen (i + 1) result.last.remainder result.last.number result.next }
    {
        let own = self.of[i];
        if cut.last.remainder < own || own <= cut.next {
            return cut;
        }
        if self.how_many_before(i) < yen {
            Cut {
                last: Member {
                    remainder: own,
                    number: i,
                },
                ..cut
            }
        } else {
            Cut { next: own, ..cut }
        }
    }

    // The last owner of a yen, when all members are seen. `sum` is above every remainder, and nobody without a remainder gets a yen.
    fn last_owner(self, yen: u64, sum: u64) -> Member
        requires below_sum { (i : ℕ) → i < length self.of.now → S.of_member self.of.now i < sum }
        requires by_index { (i : ℕ) → i < length self.of.now → S.how_many_before (length self.of.now) (S.of_member self.of.now) i < yen → 0 < S.of_member self.of.now i }
        ensures { Cuts (length self.entry.of.now) (S.of_member self.entry.of.now) yen result.remainder result.number }
    {
        let mut cut = Cut {
            last: Member {
                remainder: sum,
                number: 0,
            },
            next: 0,
        };
        for i in 0..self.of.len() {
            cut = self.narrow(yen, i, cut);
        }
        cut.last
    }
}

// Gives a yen to each member whom the last owner does not come before.
fn hand_out(last: Member, remainders: &[u64], out: &mut [i64])
    requires fact_1 { length out.old ≡ length remainders.now }
    requires fact_2 { Each most_amount out.old }
    ensures { out.new ≡ listed (length out.old) (λ i. get_or out.old i (pos 0) +ℤ pos (one_if (not (S.comes_before last.remainder last.number (S.of_member remainders.now i) i)))) }
{
    for (number, remainder) in remainders.iter().enumerate() {
        let member = Member {
            remainder: *remainder,
            number,
        };
        out[number] += i64::from(!last.comes_before(member));
    }
}

// Each member's share is his whole weight. It stands beside `fill(0)`, which needs no weights.
fn give_all(weights: &[u64], out: &mut [i64])
    requires fact_1 { Weights weights.now }
    requires fact_2 { length out.old ≡ length weights.now }
    ensures { out.new ≡ listed (length weights.now) (λ i. pos (S.of_member weights.now i)) }
{
    for (i, weight) in weights.iter().enumerate() {
        out[i] = *weight as i64;
    }
}

// Shares an amount by weights, whose sum is known: each word of `out` is that member's share. The amount may pass the sum of the weights; where there is
// nothing to share, or nobody to share it, all get 0. Eight members or fewer need no room for 64.
pub fn share(amount: u64, sum: u64, weights: &[u64], out: &mut [i64])
    requires fact_1 { Weights weights.now }
    requires fact_2 { amount ≤ most_amount }
    requires fact_3 { length out.old ≡ length weights.now }
    requires fact_4 { sum ≡ S.sum_of weights.now }
    ensures { out.new ≡ S.shares amount weights.now }
{
    if amount == 0 || sum == 0 {
        out.fill(0);
        return;
    }
    // A layer that takes all that the members have: nothing to divide, and no yen left.
    if amount == sum {
        give_all(weights, out);
        return;
    }
    let sharing = Sharing {
        amount,
        sum,
        weights,
    };
    if weights.len() <= 8 {
        sharing.share_in::<8>(out);
    } else {
        sharing.share_in::<64>(out);
    }
}
