// Positions: lots and books in range, and each product's lots adding to zero, in one walk over each product's positions (01, "The ledger's
// words").
ghost use Rattle.std.specs.Prelude.{◌≡◌, cond, ◌&&◌, ◌+◌, ◌<◌, ◌≤◌, ◌^◌, ltb};
ghost use Rattle.whole.specs.Number.{within};
ghost use Rattle.whole.specs.Counting.{all};
ghost use Rattle.rules.specs.Sizes.{most_lots, most_book};
ghost use Rattle.places.specs.Place.{get, product_kind};
ghost use Rattle.places.specs.Act.{most_products};
ghost use Rattle.places.specs.PlaceLaws.{Sized};
ghost use Rattle.places.specs.ByAccount.{by_account};
ghost use Rattle.soundness.specs.Sound as S;

use places::Shape;

const MOST_LOTS: u64 = rules::sizes::MOST_LOTS as u64;

// Whether a position's lots are in range, and its book at most `most` in size.
pub fn held_in(lots: i64, book: i64, most: u64) -> bool
    requires { most < 2 ^ 63 }
    ensures { result ≡ (within most_lots lots && within most book) }
{
    whole::within(lots, MOST_LOTS) && whole::within(book, most)
}

// The position of the account a in the product j, whose book may be at most `most` in size.
fn position_ok(words: &[i64], s: Shape, a: usize, j: usize, most: u64) -> bool
    requires sized { Sized s words.now }
    requires a_lt_n { (a < s.n) × (j < s.p) × (most ≡ most_book (get by_account s words.now (product_kind j))) }
    ensures { result ≡ S.held_ok (get by_account s words.now) j a }
{
    let lots = places::held_word(words, s, a, j, places::LOTS);
    let book = places::held_word(words, s, a, j, places::BOOK);
    held_in(lots, book, most)
}

// The positions in the products j and k, in one walk over the accounts: two side by side take less time than one after the other. Each word is tested
// before it is added.
fn two_ok(words: &[i64], s: Shape, j: usize, k: usize) -> bool
    requires sized { Sized s words.now }
    requires j_lt_p { (j < s.p) × (k < s.p) }
    ensures { result ≡ (S.positions_ok s.n (get by_account s words.now) j && S.positions_ok s.n (get by_account s words.now) k) }
{
    let most = rules::products::most_book(places::prod_word(words, s, j, places::PRODUCT_KIND));
    let other = rules::products::most_book(places::prod_word(words, s, k, places::PRODUCT_KIND));
    let mut sum: i64 = 0;
    let mut rest: i64 = 0;
    for a in 0..s.n {
        if !position_ok(words, s, a, j, most) {
            return false;
        }
        if !position_ok(words, s, a, k, other) {
            return false;
        }
        sum += places::held_word(words, s, a, j, places::LOTS);
        rest += places::held_word(words, s, a, k, places::LOTS);
    }
    sum == 0 && rest == 0
}

// The product that is looked at beside j: the next one, or the last of them beside itself.
fn beside(j: usize, p: usize) -> usize
    requires { (j < p) × (p ≤ most_products) }
    ensures { result ≡ cond (ltb (j + 1) p) (j + 1) j }
{
    if j + 1 < p { j + 1 } else { j }
}

// A `while`: the next turn begins behind k, which is j itself where one product is left over. `step_by(2)` would count on without saying so.
pub fn all_positions_ok(words: &[i64], s: Shape) -> bool
    requires { Sized s words.now }
    ensures { result ≡ all s.p (S.positions_ok s.n (get by_account s words.now)) }
{
    let p = s.p;
    let mut j = 0;
    while j < p {
        let k = beside(j, p);
        if !two_ok(words, s, j, k) {
            return false;
        }
        j = k + 1;
    }
    true
}
