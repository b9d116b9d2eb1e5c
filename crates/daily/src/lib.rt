// The figures of a close (01, "The day", Close, and "The margin rules"): the tests of its four lists, the new dues of an account, and the margin of a lot
// of a product. Figures are read by place from the ledger's words.
#![tactic(auto)]

ghost use Rattle.std.specs.Prelude.{◌≡◌, ◌<◌, ◌≤◌, pos, nat_abs, length};
ghost use Rattle.whole.specs.Counting.{all, listed};
ghost use Rattle.rules.specs.Sizes.{most_price, most_gross};
ghost use Rattle.places.specs.Place.{get, dues, product_kind, quote, cash};
ghost use Rattle.places.specs.PlaceLaws.{Sized};
ghost use Rattle.places.specs.ByAccount.{by_account};
ghost use Rattle.soundness.specs.Sound.{product_at};
ghost use Rattle.whole.specs.Counting.{figure_at};
ghost use Rattle.daily.specs.DailyFigures as F;
ghost use Rattle.daily.specs.Ranges.{Lengths, Rates, Lags, Named, Row, EachDueIn};
ghost use Rattle.daily.specs.Given.{of_lists};
ghost use Rattle.daily.specs.DueLaws.{moved_gross};
ghost use Rattle.daily.specs.Once.{single_of};

use places::Shape;
use rules::Product;

// The last due that a lag can name.
const LAST_LAG: i64 = places::DUES as i64 - 1;

// No close adds more than this, in size, to an account's dues together: 3 × 10^13 for each of 16 products.
pub const MOST_ADDED: u64 = 480000000000000;

// ---- the four lists of a close

// What a close is called with, a list each: the new price, the two rates and the lag of each product.
#[derive(Clone, Copy)]
pub struct Figures<'a> {
    pub prices: &'a [i64],
    pub rates8: &'a [i64],
    pub rates104: &'a [i64],
    pub lags: &'a [i64],
}

// Whether each list has a word for each of p products.
pub fn lengths_ok(p: usize, figures: Figures) -> bool
    ensures { result ≡ of_lists figures.entry F.lengths_ok p }
{
    figures.prices.len() == p
        && figures.rates8.len() == p
        && figures.rates104.len() == p
        && figures.lags.len() == p
}

// The highest price of the product j: a yen price and a cross price have ranges of their own.
fn highest_price(words: &[i64], s: Shape, j: usize) -> i64
    requires sized { Sized s words.now }
    requires j_lt_p { j < s.p }
    ensures { result ≡ pos (most_price (get by_account s words.now (product_kind j))) }
{
    rules::products::most_price(places::prod_word(words, s, j, places::PRODUCT_KIND))
}

// Whether the product j's price, rates and lag are in range.
fn figure_ok(words: &[i64], s: Shape, j: usize, figures: Figures) -> bool
    requires sized { Sized s words.now }
    requires lengths { Lengths s.p figures.prices.now figures.rates8.now figures.rates104.now figures.lags.now }
    requires j_lt_p { j < s.p }
    ensures { result ≡ of_lists figures.entry F.figure_ok (get by_account s words.now) j }
{
    whole::between(figures.prices[j], 1, highest_price(words, s, j))
        && whole::between(figures.rates8[j], 1, rules::sizes::MOST_RATE)
        && whole::between(figures.rates104[j], 1, rules::sizes::MOST_RATE)
        && whole::between(figures.lags[j], 0, LAST_LAG)
}

pub fn lists_ok(words: &[i64], s: Shape, figures: Figures) -> bool
    requires sized { Sized s words.now }
    requires lengths { Lengths s.p figures.prices.now figures.rates8.now figures.rates104.now figures.lags.now }
    ensures { result ≡ all s.p (of_lists figures.entry F.figure_ok (get by_account s words.now)) }
{
    (0..s.p).all(|j| figure_ok(words, s, j, figures))
}

// ---- dues

// What stands at the due after d; after the last, 0: due 0 becomes due 1, due 1 becomes due 2, due 2 becomes 0.
pub fn next_due(words: &[i64], s: Shape, a: usize, d: usize) -> i64
    requires sized { Sized s words.now }
    requires a_lt_n { (a < s.n) × (d < dues) }
    ensures { result ≡ F.next_due (get by_account s words.now) a d }
{
    if d + 1 < places::DUES {
        return places::acct_word(words, s, a, places::FIRST_DUE + (d + 1));
    }
    0
}

// The new yen price of what the product j names as its quote.
pub fn quoted_at(words: &[i64], s: Shape, j: usize, prices: &[i64]) -> i64
    requires sized { Sized s words.now }
    requires named { Named prices.now s (get by_account s words.now) }
    requires j_lt_p { j < s.p }
    ensures { result ≡ figure_at prices.now (nat_abs (get by_account s words.now (quote j))) }
{
    let quote = places::prod_word(words, s, j, places::QUOTE).unsigned_abs() as usize;
    prices[quote]
}

// The difference of a position, in yen, rounded down; a cross's by the quote's new yen price.
fn difference(words: &[i64], s: Shape, a: usize, j: usize, prices: &[i64]) -> i64
    requires sized { Sized s words.now }
    requires named { Named prices.now s (get by_account s words.now) × Row prices.now s (get by_account s words.now) a }
    requires a_lt_n { (a < s.n) × (j < s.p) }
    ensures { result ≡ F.difference prices.now (get by_account s words.now) a j }
{
    rules::products::difference_of(
        places::prod_word(words, s, j, places::PRODUCT_KIND),
        places::held_word(words, s, a, j, places::LOTS),
        places::held_word(words, s, a, j, places::BOOK),
        prices[j],
        quoted_at(words, s, j, prices),
    )
}

// The dues, moved down by one.
fn moved_down(words: &[i64], s: Shape, a: usize) -> [i64; places::DUES]
    requires sized { Sized s words.now }
    requires a_lt_n { a < s.n }
    ensures { result ≡ listed dues (F.next_due (get by_account s words.now) a) }
{
    std::array::from_fn(|d| next_due(words, s, a, d))
}

// Each product's difference is added to the due that its lag names.
fn add_differences(words: &[i64], s: Shape, a: usize, figures: Figures, new: &mut [i64])
    requires sized { Sized s words.now }
    requires named { Named figures.prices.now s (get by_account s words.now) × Row figures.prices.now s (get by_account s words.now) a }
    requires each_due_in { EachDueIn (get by_account s words.now) a }
    requires lags { Lags s.p figures.lags.now }
    requires a_lt_n { (a < s.n) × (new.old ≡ listed dues (F.next_due (get by_account s words.now) a)) }
    ensures { new.new ≡ listed dues (F.new_due figures.entry.prices.now figures.entry.lags.now s (get by_account s words.now) a) }
{
    for j in 0..s.p {
        let d = figures.lags[j].unsigned_abs() as usize;
        new[d] += difference(words, s, a, j, figures.prices);
    }
}

// The new dues of an account.
pub fn new_dues(words: &[i64], s: Shape, a: usize, figures: Figures) -> [i64; places::DUES]
    requires sized { Sized s words.now }
    requires named { Named figures.prices.now s (get by_account s words.now) × Row figures.prices.now s (get by_account s words.now) a }
    requires each_due_in { EachDueIn (get by_account s words.now) a }
    requires lags { Lags s.p figures.lags.now }
    requires a_lt_n { a < s.n }
    ensures { result ≡ listed dues (F.new_due figures.entry.prices.now figures.entry.lags.now s (get by_account s words.now) a) }
{
    let mut new = moved_down(words, s, a);
    add_differences(words, s, a, figures, &mut new);
    new
}

// The gross of an account whose dues have moved down, before any difference is added.
pub fn moved_gross(words: &[i64], s: Shape, a: usize) -> u64
    requires sized { Sized s words.now }
    requires each_due_in { EachDueIn (get by_account s words.now) a }
    requires a_lt_n { (a < s.n) × (nat_abs (get by_account s words.now (cash a)) ≤ most_gross) }
    ensures { result ≡ moved_gross (get by_account s words.now) a }
{
    let mut gross = places::acct_word(words, s, a, places::CASH).unsigned_abs();
    for d in 0..places::DUES {
        gross += next_due(words, s, a, d).unsigned_abs();
    }
    gross
}

// ---- the margin of a lot

fn product_at(words: &[i64], s: Shape, j: usize) -> Product
    requires sized { Sized s words.now }
    requires j_lt_p { j < s.p }
    ensures { result ≡ product_at (get by_account s words.now) j }
{
    Product {
        kind: places::prod_word(words, s, j, places::PRODUCT_KIND),
        mark: places::prod_word(words, s, j, places::FLOOR_MARK),
        price: places::prod_word(words, s, j, places::PRICE),
        principal: places::prod_word(words, s, j, places::PRINCIPAL),
        quote: places::prod_word(words, s, j, places::QUOTE),
    }
}

// The margin of a lot of the product j, from the new price of the principal currency against yen and the new rates.
pub fn single_at(words: &[i64], s: Shape, j: usize, figures: Figures) -> u64
    requires sized { Sized s words.now }
    requires named { Named figures.prices.now s (get by_account s words.now) }
    requires rates { Rates s.p figures.rates8.now figures.rates104.now }
    requires j_lt_p { j < s.p }
    ensures { result ≡ single_of figures.entry.prices.now figures.entry.rates8.now figures.entry.rates104.now (get by_account s words.now) j }
{
    let product = product_at(words, s, j);
    let rate = rules::products::rate_of(product.mark, figures.rates8[j], figures.rates104[j]);
    rules::products::lot_margin(
        figures.prices[rules::products::yen_product(product, j)],
        rate,
    )
}
