// The margin rules and the daily difference on one product (document 01, "The margin rules" and "Close").
ghost use Rattle.std.specs.Prelude.{◌≡◌, ◌≤◌, pos, nat_abs, ◌≤ℤ◌};
ghost use Rattle.rules.specs.Sizes.{is_yen, most_price, most_book, most_lots, most_rate};
ghost use Rattle.rules.specs.Product.{least_rate, rate_of, yen_product, margin_of, difference_of};
ghost use Rattle.rules.specs.ProductLaws.{Fair, lot_margin, margin_at, most_lot_margin};

use crate::{Product, sizes};

// A margin and the difference of a cross are in hundred-thousandths of a yen.
const LAKH: u64 = 100000;

// Whether a product of this kind is a yen product.
pub fn is_yen(kind: i64) -> bool
    ensures { result ≡ is_yen kind }
{
    kind == 0
}

// The highest price of a product of this kind.
pub fn most_price(kind: i64) -> i64
    ensures { result ≡ pos (most_price kind) }
{
    if is_yen(kind) {
        sizes::MOST_YEN_PRICE
    } else {
        sizes::MOST_CROSS_PRICE
    }
}

// The largest book, in size, of a product of this kind.
pub fn most_book(kind: i64) -> u64
    ensures { result ≡ most_book kind }
{
    if is_yen(kind) {
        sizes::MOST_YEN_BOOK
    } else {
        sizes::MOST_CROSS_BOOK
    }
}

// Source 001, article 4: 400 where the floor mark stands.
fn least_rate(mark: i64) -> i64
    ensures { result ≡ least_rate mark }
{
    if mark == 0 { 0 } else { 400 }
}

// Source 001, article 4: the larger of the two rates, and at least the floor.
pub fn rate_of(mark: i64, rate8: i64, rate104: i64) -> i64
    ensures { result ≡ rate_of mark rate8 rate104 }
{
    rate8.max(rate104).max(least_rate(mark))
}

// The number of the product whose price is Y, for the product j: a cross's margin goes by its principal currency, never by its quote's.
pub fn yen_product(product: Product, j: usize) -> usize
    ensures { result ≡ yen_product product j }
{
    if is_yen(product.kind) {
        return j;
    }
    product.principal.unsigned_abs() as usize
}

// The margin of one lot, before the division by 100,000 and its rounding: Y × rate. The same for every position in a product.
pub fn lot_margin(y: i64, rate: i64) -> u64
    requires pos_bound_1 { pos 1 ≤ℤ y }
    requires pos_bound_2 { y ≤ℤ pos 5000000 }
    requires pos_bound_2_1 { pos 1 ≤ℤ rate }
    requires pos_bound_2_2 { rate ≤ℤ pos most_rate }
    ensures { result ≡ lot_margin y rate }
{
    y as u64 * rate as u64
}

// The margin of a position, rounded up, by the margin of a lot of its product.
// By a sum and a division: `div_ceil` makes a product and a comparison more of it, and with it a full close took 1.00 of plain Rust, and so 0.81.
pub fn margin_at(lots: i64, single: u64) -> u64
    requires lots_bound { nat_abs lots ≤ most_lots }
    requires single_le_most_lot_margin { single ≤ most_lot_margin }
    ensures { result ≡ margin_at lots single }
{
    (lots.unsigned_abs() * single + (LAKH - 1)) / LAKH
}

// Source 001, 2(13): the margin of a position, rounded up.
pub fn margin_of(lots: i64, y: i64, rate: i64) -> i64
    requires lots_bound { nat_abs lots ≤ most_lots }
    requires pos_bound_1 { pos 1 ≤ℤ y }
    requires pos_bound_2 { y ≤ℤ pos 5000000 }
    requires pos_bound_2_1 { pos 1 ≤ℤ rate }
    requires pos_bound_2_2 { rate ≤ℤ pos most_rate }
    ensures { result ≡ pos (margin_of lots y rate) }
{
    margin_at(lots, lot_margin(y, rate)) as i64
}

// The daily difference of a position, in yen, rounded down toward minus infinity: a loss is never made smaller.
pub fn difference_of(kind: i64, lots: i64, book: i64, price: i64, quoted: i64) -> i64
    requires { Fair kind lots book price quoted }
    ensures { result ≡ difference_of kind lots book price quoted }
{
    let raw = lots * price - book;
    if is_yen(kind) {
        return whole::floor_div::<10>(raw);
    }
    whole::floor_div::<LAKH>(raw * quoted)
}
