// A window: one list of figures that the caller lends. One pass over it, and the least square that a rate has to reach.
ghost use Rattle.std.specs.Prelude.{◌≡◌, ◌+◌, ◌≤◌, ◌<◌, pos, nat_abs, ◌-ℤ◌, ◌+ℤ◌, ◌*ℤ◌, length, cond, Some, None};
ghost use Rattle.std.specs.Option.{option_map};
ghost use Rattle.whole.specs.Number.{within};
ghost use Rattle.rates.specs.MarginRate.{most_count, most_size, figures_ok};
ghost use Rattle.rates.specs.SumsLaws.{Accepted, Summed, sums_to, sums_of};
ghost use Rattle.rates.specs.RateLaws.{most_spread, least_square, square_of};

// What a pass leaves: the sum of the figures and that of their squares.
#[derive(Clone, Copy)]
pub struct Sums {
    pub sum: i64,
    pub squares: i64,
}

impl Sums {
    // With one figure more, unless it is out of range.
    fn with(self, x: i64) -> Option<Sums>
        requires sum_in { nat_abs self.sum ≤ 10400000 }
        requires squares_in { nat_abs self.squares ≤ 208000000000 }
        ensures { result ≡ cond (within most_size x) (Some (record { sum = self.sum +ℤ x; squares = self.squares +ℤ x *ℤ x })) None }
    {
        if (-20000..=20000).contains(&x) {
            Some(Sums {
                sum: self.sum + x,
                squares: self.squares + x * x,
            })
        } else {
            None
        }
    }
}

// `sums` are of the figures before figure `from`; the result takes in all the others.
fn others_added(sums: Sums, window: &[i64], from: usize) -> Option<Sums>
    requires from_in { from ≤ length window.now }
    requires few { length window.now ≤ most_count }
    requires before { Some sums ≡ sums_to window.now from }
    ensures { result ≡ sums_of window.now }
{
    let mut sums = sums;
    for x in &window[from..] {
        sums = sums.with(*x)?;
    }
    Some(sums)
}

// One pass for the range and both sums, four figures a turn: the loop's own test comes once in four. A plain loop over 40 and 520 figures took 759
// nanoseconds in place of 543.
fn sums_of(window: &[i64]) -> Option<Sums>
    requires { length window.now ≤ most_count }
    ensures { result ≡ sums_of window.now }
{
    let (fours, _) = window.as_chunks::<4>();
    let mut sums = Sums { sum: 0, squares: 0 };
    for four in fours {
        sums = sums
            .with(four[0])?
            .with(four[1])?
            .with(four[2])?
            .with(four[3])?;
    }
    others_added(sums, window, fours.len() * 4)
}

// m × squares - sum², which is never below 0: of 520 figures at most 1.1 × 10^14.
fn spread_of(m: u64, sum: i64, squares: i64) -> u64
    requires { Summed m sum squares }
    ensures { result ≡ nat_abs ((pos m *ℤ squares) -ℤ (sum *ℤ sum)) }
{
    (m as i64 * squares - sum * sum).unsigned_abs()
}

// The least number that the square of a rate has to reach: 233² × spread / (10^6 × m × (m - 1)) rounded up, at least 1. The dividend is
// below 6 × 10^18; the quotient of any window is below 4.4 × 10^7, so that its root is found in 32 bits.
fn least_square(m: u64, spread: u64) -> u64
    requires fact_1 { 2 ≤ m }
    requires fact_2 { m ≤ most_count }
    requires fact_3 { spread ≤ most_spread }
    ensures { result ≡ least_square m spread }
{
    let base = 1000000 * (m * (m - 1));
    (54289 * spread).div_ceil(base).max(1)
}

// A window that was read, and its sums.
#[derive(Clone, Copy)]
pub struct Window<'a> {
    pub figures: &'a [i64],
    pub sums: Sums,
    ghost accepted: { Accepted figures.now },
    ghost summed: { Some sums ≡ sums_of figures.now },
}

impl Window<'_> {
    // A list of the right length, unless a figure is out of range.
    pub fn read(figures: &[i64]) -> Option<Window<'_>>
        requires two { 2 ≤ length figures.now }
        requires few { length figures.now ≤ most_count }
        ensures { option_map (λ w. w.figures) result ≡ cond (figures_ok figures.now) (Some figures.entry) None }
    {
        let sums = sums_of(figures)?;
        Some(Window { figures, sums })
    }

    // The least square of the window.
    pub fn square(self) -> u64
        ensures { result ≡ square_of self.entry.figures.now }
    {
        let m = self.figures.len() as u64;
        least_square(m, spread_of(m, self.sums.sum, self.sums.squares))
    }
}
