// A trade, behind the gate: the words are a sound ledger of the shape s (01, "The day").
ghost use Rattle.std.specs.Prelude.{◌≡◌, true, ◌&&◌, [], ◌∷◌, ◌<◌, ◌≤◌, ◌^◌, pos, nat_abs, ◌+ℤ◌};
ghost use Rattle.whole.specs.Number.{is_one_of, between, unless};
ghost use Rattle.rules.specs.Refusal.{answer_of};
ghost use Rattle.rules.specs.Sizes.{most_price, most_lots};
ghost use Rattle.places.specs.Place.{get, puts, ◌≔◌, kind};
ghost use Rattle.places.specs.Place as L;
ghost use Rattle.places.specs.PlaceLaws.{Sized};
ghost use Rattle.places.specs.ByAccount.{by_account};
ghost use Rattle.places.specs.Act.{finish};
ghost use Rattle.soundness.specs.SoundLaws.{Ledger};
ghost use Rattle.soundness.specs.Perform.{refuse};
ghost use Rattle.acts.specs.Trade as T;

use places::Shape;
use rules::Refusal;

// A position in one product.
#[derive(Clone, Copy)]
pub struct Position {
    pub lots: i64,
    pub book: i64,
}

// The position of the account a in the product j after a change of its lots and of its book.
fn position_after(words: &[i64], s: Shape, a: usize, j: usize, lots: i64, book: i64) -> Position
    requires ledger { Ledger by_account s words.now }
    requires a_lt_n { (a < s.n) × (j < s.p) }
    requires lots_bound_1 { nat_abs lots ≤ 10 ^ 15 }
    requires lots_bound_2 { nat_abs book ≤ 10 ^ 15 }
    ensures { (result.lots ≡ get by_account s words.now (L.lots a j) +ℤ lots) × (result.book ≡ get by_account s words.now (L.book a j) +ℤ book) }
{
    Position {
        lots: places::held_word(words, s, a, j, places::LOTS) + lots,
        book: places::held_word(words, s, a, j, places::BOOK) + book,
    }
}

// Whether a position in the product j is in range, by the product's kind.
fn position_ok(words: &[i64], s: Shape, j: usize, position: Position) -> bool
    requires sized { Sized s words.now }
    requires j_lt_p { j < s.p }
    ensures { result ≡ T.position_in (get by_account s words.now) j position.lots position.book }
{
    let most = rules::products::most_book(places::prod_word(words, s, j, places::PRODUCT_KIND));
    soundness::positions::held_in(position.lots, position.book, most)
}

fn put_position(words: &mut [i64], s: Shape, a: usize, j: usize, position: Position)
    requires sized { Sized s words.old }
    requires a_lt_n { (a < s.n) × (j < s.p) }
    ensures { words.new ≡ puts by_account s words.old ((L.lots a j ≔ position.lots) ∷ (L.book a j ≔ position.book) ∷ []) }
{
    places::put_held(words, s, a, j, places::LOTS, position.lots);
    places::put_held(words, s, a, j, places::BOOK, position.book);
}

// Both positions after the trade are worked out and tested before either is written.
fn trade_at(
    words: &mut [i64],
    s: Shape,
    buyer: usize,
    seller: usize,
    j: usize,
    lots: i64,
    price: i64,
) -> Result<i64, Refusal>
    requires ledger { Ledger by_account s words.old }
    requires buyer_lt_n { (buyer < s.n) × (seller < s.n) × (j < s.p) }
    requires lots_bound_1 { nat_abs lots ≤ most_lots }
    requires lots_bound_2 { nat_abs price ≤ 5000000 }
    ensures { (answer_of result, words.new) ≡ finish by_account s words.old (T.traded buyer seller j lots price (get by_account s words.old)) }
{
    let value = lots * price;
    let bought = position_after(words, s, buyer, j, lots, value);
    if !position_ok(words, s, j, bought) {
        return Err(Refusal::PositionTooLarge);
    }
    let sold = position_after(words, s, seller, j, 0 - lots, 0 - value);
    if !position_ok(words, s, j, sold) {
        return Err(Refusal::PositionTooLarge);
    }
    put_position(words, s, buyer, j, bought);
    put_position(words, s, seller, j, sold);
    Ok(0)
}

// Whether the accounts are one F and one L.
fn one_of_each(words: &[i64], s: Shape, buyer: usize, seller: usize) -> bool
    requires sized { Sized s words.now }
    requires buyer_lt_n { (buyer < s.n) × (seller < s.n) }
    ensures { result ≡ T.one_of_each (get by_account s words.now (kind buyer)) (get by_account s words.now (kind seller)) }
{
    let k = places::acct_word(words, s, buyer, places::KIND);
    let l = places::acct_word(words, s, seller, places::KIND);
    k == 0 && l == 1 || k == 1 && l == 0
}

// Whether lots and price of a trade are in range, the price by the product's kind.
fn terms_ok(words: &[i64], s: Shape, j: usize, lots: i64, price: i64) -> bool
    requires sized { Sized s words.now }
    requires j_lt_p { j < s.p }
    ensures { result ≡ T.terms_ok (get by_account s words.now) j lots price }
{
    let kind = places::prod_word(words, s, j, places::PRODUCT_KIND);
    whole::between(lots, 1, rules::sizes::MOST_LOTS)
        && whole::between(price, 1, rules::products::most_price(kind))
}

// The trade between two accounts of the ledger, in one of its products.
fn trade_between(
    words: &mut [i64],
    s: Shape,
    buyer: usize,
    seller: usize,
    j: usize,
    lots: i64,
    price: i64,
) -> Result<i64, Refusal>
    requires ledger { Ledger by_account s words.old }
    requires buyer_lt_n { (buyer < s.n) × (seller < s.n) × (j < s.p) }
    ensures { (answer_of result, words.new) ≡ finish by_account s words.old (T.trade_between buyer seller j lots price (get by_account s words.old)) }
{
    if !one_of_each(words, s, buyer, seller) {
        return Err(Refusal::WrongKind);
    }
    if !terms_ok(words, s, j, lots, price) {
        return Err(Refusal::OutOfRange);
    }
    trade_at(words, s, buyer, seller, j, lots, price)
}

// A trade: 3, 4, then 6, 8, 9.
pub fn trade_in(
    words: &mut [i64],
    s: Shape,
    buyer: i64,
    seller: i64,
    product: i64,
    lots: i64,
    price: i64,
) -> Result<i64, Refusal>
    requires { Ledger by_account s words.old }
    ensures { (answer_of result, words.new) ≡ finish by_account s words.old (T.trade_rule buyer seller product lots price s (get by_account s words.old)) }
{
    let Some(buyer) = whole::index_of(buyer, s.n) else {
        return Err(Refusal::NoSuchAccount);
    };
    let Some(seller) = whole::index_of(seller, s.n) else {
        return Err(Refusal::NoSuchAccount);
    };
    let Some(j) = whole::index_of(product, s.p) else {
        return Err(Refusal::NoSuchProduct);
    };
    trade_between(words, s, buyer, seller, j, lots, price)
}
