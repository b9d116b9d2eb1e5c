// Products: kind, floor mark, price in range by the kind, and a cross's two yen products (01, "The ledger's words").
ghost use Rattle.std.specs.Prelude.{◌≡◌, ◌<◌};
ghost use Rattle.whole.specs.Number.{between};
ghost use Rattle.whole.specs.Counting.{all};
ghost use Rattle.places.specs.Place.{Has, prod, get};
ghost use Rattle.places.specs.PlaceLaws.{Sized};
ghost use Rattle.places.specs.ByAccount.{by_account};
ghost use Rattle.soundness.specs.Sound as S;

use places::Shape;

fn prod_between(words: &[i64], s: Shape, j: usize, f: usize, lo: i64, hi: i64) -> bool
    requires sized { Sized s words.now }
    requires has { Has s (prod j f) }
    ensures { result ≡ between lo hi (get by_account s words.now (prod j f)) }
{
    whole::between(places::prod_word(words, s, j, f), lo, hi)
}

// Whether a word of the product j names a yen product of lower number.
fn names_yen(words: &[i64], s: Shape, j: usize, f: usize) -> bool
    requires sized { Sized s words.now }
    requires has { Has s (prod j f) }
    ensures { result ≡ S.names_yen (get by_account s words.now) j (prod j f) }
{
    match whole::index_of(places::prod_word(words, s, j, f), j) {
        Some(k) => prod_between(words, s, k, places::PRODUCT_KIND, 0, 0),
        None => false,
    }
}

fn yen_pair(words: &[i64], s: Shape, j: usize) -> bool
    requires sized { Sized s words.now }
    requires j_lt_p { j < s.p }
    ensures { result ≡ S.yen_pair (get by_account s words.now) j }
{
    prod_between(words, s, j, places::PRINCIPAL, 0, 0)
        && prod_between(words, s, j, places::QUOTE, 0, 0)
}

fn cross_pair(words: &[i64], s: Shape, j: usize) -> bool
    requires sized { Sized s words.now }
    requires j_lt_p { j < s.p }
    ensures { result ≡ S.cross_pair (get by_account s words.now) j }
{
    if !names_yen(words, s, j, places::PRINCIPAL) {
        return false;
    }
    if !names_yen(words, s, j, places::QUOTE) {
        return false;
    }
    places::prod_word(words, s, j, places::PRINCIPAL).unsigned_abs()
        != places::prod_word(words, s, j, places::QUOTE).unsigned_abs()
}

pub fn pair_ok(words: &[i64], s: Shape, j: usize) -> bool
    requires sized { Sized s words.now }
    requires j_lt_p { j < s.p }
    ensures { result ≡ S.pair_ok (get by_account s words.now) j }
{
    if prod_between(words, s, j, places::PRODUCT_KIND, 0, 0) {
        return yen_pair(words, s, j);
    }
    cross_pair(words, s, j)
}

fn product_ok(words: &[i64], s: Shape, j: usize) -> bool
    requires sized { Sized s words.now }
    requires j_lt_p { j < s.p }
    ensures { result ≡ S.product_ok (get by_account s words.now) j }
{
    if !prod_between(words, s, j, places::PRODUCT_KIND, 0, 1) {
        return false;
    }
    if !prod_between(words, s, j, places::FLOOR_MARK, 0, 1) {
        return false;
    }
    let most = rules::products::most_price(places::prod_word(words, s, j, places::PRODUCT_KIND));
    if !prod_between(words, s, j, places::PRICE, 1, most) {
        return false;
    }
    pair_ok(words, s, j)
}

pub fn products_ok(words: &[i64], s: Shape) -> bool
    requires { Sized s words.now }
    ensures { result ≡ all s.p (S.product_ok (get by_account s words.now)) }
{
    for j in 0..s.p {
        if !product_ok(words, s, j) {
            return false;
        }
    }
    true
}
