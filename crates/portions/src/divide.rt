// amount × weight / sum, exact though the product passes 64 bits.
ghost use Rattle.std.specs.Prelude.{◌≡◌, ◌*◌, ◌/◌, ◌%◌, ◌^◌, ◌+◌, ◌≤◌, ◌<◌};
ghost use Rattle.portions.specs.Ratio as R;

#[derive(Clone, Copy)]
pub struct Quot {
    pub quotient: u64,
    pub remainder: u64,
}

// One digit of 32 bits more of a long division by c, whose highest bit is set: what was left so far is taken 2^32 times, the digit is added, and the sum is
// divided. What was left, divided by the upper half of c, is the quotient or, with so high a c, at most two more; these are taken off.
fn divide_digit(left: u64, digit: u64, c: u64) -> Quot
    requires left_in { left < c }
    requires digit_in { digit < 2 ^ 32 }
    requires highest_bit { 2 ^ 63 ≤ c }
    ensures { (result.quotient * c + result.remainder ≡ left * 2 ^ 32 + digit) × (result.remainder < c) }
{
    let whole = u128::from(c);
    let next = u128::from(left) * 0x1_0000_0000 + u128::from(digit);
    let mut quotient = left / (c / 0x1_0000_0000);
    while next < u128::from(quotient) * whole {
        quotient -= 1;
    }
    Quot {
        quotient,
        remainder: (next - u128::from(quotient) * whole) as u64,
    }
}

// a * b / c, where b is at most c: the quotient is at most a. The product has 128 bits. It is not divided by `/`: a division of 128 bits is a call of a
// function that a library for C would need from outside. So it is a long division in two digits of 32 bits, each by a division of 64. For it b and c are
// moved up until the highest bit of c is set: the quotient stays, and the remainder is moved down again.
fn mul_div(a: u64, b: u64, c: u64) -> Quot
    requires part { b ≤ c }
    requires some { 0 < c }
    ensures { (result.quotient ≡ a * b / c) × (result.remainder ≡ a * b % c) }
{
    let up = c.leading_zeros();
    let whole = c << up;
    let part = b << up;
    let product = u128::from(a) * u128::from(part);
    let high = (product >> 64) as u64;
    let low = (product % 0x1_0000_0000_0000_0000) as u64;
    let upper = divide_digit(high, low / 0x1_0000_0000, whole);
    let lower = divide_digit(upper.remainder, low % 0x1_0000_0000, whole);
    Quot {
        quotient: upper.quotient * 0x1_0000_0000 + lower.quotient,
        remainder: lower.remainder >> up,
    }
}

// A narrow ratio made ready for many weights: 2^15 and 2^30 times the amount, divided by the sum once.
#[derive(Clone, Copy)]
pub struct Ready {
    pub quotient15: u64,
    pub remainder15: u64,
    pub quotient30: u64,
    pub remainder30: u64,
}

// The two divisions, the second on top of the first.
fn divided(amount: u64, sum: u64) -> Ready
    requires fact_1 { amount ≤ sum }
    requires fact_2 { 0 < sum }
    requires fact_3 { sum ≤ 2 ^ 46 }
    ensures { result ≡ R.divided amount sum }
{
    let first = amount * 32768;
    let quotient15 = first / sum;
    let remainder15 = first % sum;
    let second = remainder15 * 32768;
    Ready {
        quotient15,
        remainder15,
        quotient30: quotient15 * 32768 + second / sum,
        remainder30: second % sum,
    }
}

// The ratio is narrow where the amount is at most the sum and the sum at most 2^46: every layer of document 01 is. Where it is not, nothing is divided.
#[tactic(auto, unfolding(crate::specs::Ratio::ratio_of))]
fn ratio_of(amount: u64, sum: u64) -> Option<Ready>
    requires { 0 < sum }
    ensures { result ≡ R.ratio_of amount sum }
{
    if amount <= sum && sum <= 0x4000_0000_0000 {
        Some(divided(amount, sum))
    } else {
        None
    }
}

// The ratio of an amount to a sum. It is made ready where it is narrow: with a division of 128 bits for each of 64 members a whole sharing took 1,304 in
// place of 1,232 nanoseconds.
#[derive(Clone, Copy)]
pub struct Ratio {
    pub amount: u64,
    pub sum: u64,
    pub ready: Option<Ready>,
    ghost some: { 0 < sum },
    ghost is_ready: { ready ≡ R.ratio_of amount sum },
}

impl Ratio {
    pub fn of(amount: u64, sum: u64) -> Ratio
        requires { 0 < sum }
        ensures { (result.amount ≡ amount) × (result.sum ≡ sum) }
    {
        let ready = ratio_of(amount, sum);
        Ratio { amount, sum, ready }
    }

    // With a narrow ratio a weight takes one division: its three digits of 15 bits (the highest may have 16) take so many times the quotients and remainders
    // made ready, and what the remainders come to is below 2^63.
    fn part_narrow(self, ready: Ready, weight: u64) -> Quot
        requires fact_1 { R.Ratio self.amount self.sum ready.quotient15 ready.remainder15 ready.quotient30 ready.remainder30 }
        requires fact_2 { weight ≤ self.sum }
        ensures { (result.quotient ≡ self.amount * weight / self.sum) × (result.remainder ≡ self.amount * weight % self.sum) }
    {
        let upper = weight / 32768;
        let high = upper / 32768;
        let middle = upper % 32768;
        let low = weight % 32768;
        let rest = high * ready.remainder30 + middle * ready.remainder15 + low * self.amount;
        Quot {
            quotient: high * ready.quotient30 + middle * ready.quotient15 + rest / self.sum,
            remainder: rest % self.sum,
        }
    }

    // amount × weight / sum and its remainder.
    pub fn part_of(self, weight: u64) -> Quot
        requires { weight ≤ self.sum }
        ensures { (result.quotient ≡ self.amount * weight / self.sum) × (result.remainder ≡ self.amount * weight % self.sum) }
    {
        match self.ready {
            Some(ready) => self.part_narrow(ready, weight),
            None => mul_div(self.amount, weight, self.sum),
        }
    }
}
