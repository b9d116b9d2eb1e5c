// What a sound ledger is: the test of any list of words, clause by clause (01, "The ledger's words"), and the gate that every call passes.
#![tactic(auto)]

ghost use Rattle.std.specs.Prelude.{◌≡◌, true, cond, ◌&&◌, ℕ, ◌-◌, ◌<◌, ◌≤◌, length, pos, nat_abs};
ghost use Rattle.whole.specs.Number.{within, between, is};
ghost use Rattle.whole.specs.Counting.{all};
ghost use Rattle.rules.specs.Sizes as Z;
ghost use Rattle.rules.specs.Account.{account_ok};
ghost use Rattle.places.specs.Place.{Has, prod, get, due};
ghost use Rattle.places.specs.PlaceLaws.{Sized};
ghost use Rattle.places.specs.ByAccount.{by_account};
ghost use Rattle.places.specs.Act.{most_accounts, most_products, shape_of, shape_ok};
ghost use Rattle.soundness.specs.Sound as S;
ghost use Rattle.soundness.specs.SoundLaws.{records_ok};

use places::Shape;
use rules::Account;

// What the words may state: accounts n 1..64, products p 1..16.
const MOST_ACCOUNTS: i64 = places::MOST_ACCOUNTS as i64;

const MOST_PRODUCTS: i64 = places::MOST_PRODUCTS as i64;

pub mod positions;
pub mod products;
pub mod run;

// ---- accounts

// The record of the account a.
pub fn account_at(words: &[i64], s: Shape, a: usize) -> Account
    requires sized { Sized s words.now }
    requires a_lt_n { a < s.n }
    ensures { result ≡ S.account_at (get by_account s words.now) a }
{
    Account {
        kind: places::acct_word(words, s, a, places::KIND),
        cash: places::acct_word(words, s, a, places::CASH),
        guarantee: places::acct_word(words, s, a, places::GUARANTEE),
        cap: places::acct_word(words, s, a, places::CAP),
        margin: places::acct_word(words, s, a, places::MARGIN),
        due0: places::acct_word(words, s, a, places::FIRST_DUE),
        due1: places::acct_word(words, s, a, places::FIRST_DUE + 1),
        due2: places::acct_word(words, s, a, places::FIRST_DUE + 2),
    }
}

fn accounts_ok(words: &[i64], s: Shape) -> bool
    requires { Sized s words.now }
    ensures { result ≡ all s.n (λ a. account_ok (S.account_at (get by_account s words.now) a)) }
{
    for a in 0..s.n {
        if !rules::accounts::account_ok(account_at(words, s, a)) {
            return false;
        }
    }
    true
}

// ---- all places

// House and phase in range.
fn head_ok(words: &[i64], s: Shape) -> bool
    requires { Sized s words.now }
    ensures { result ≡ S.head_ok s (get by_account s words.now) }
{
    whole::within(
        places::head_word(words, s, places::HOUSE),
        rules::sizes::MOST_HOUSE,
    ) && whole::between(
        places::head_word(words, s, places::PHASE),
        0,
        (s.n + 1) as i64,
    )
}

// Head, products and accounts in range: what the clauses of the run stand on.
fn records_ok(words: &[i64], s: Shape) -> bool
    requires { Sized s words.now }
    ensures { result ≡ records_ok s (get by_account s words.now) }
{
    head_ok(words, s) && products::products_ok(words, s) && accounts_ok(words, s)
}

// The positions are most of the words. They come last, after the clauses of the run, so that no other figure is kept during the walk over them.
fn places_ok(words: &[i64], s: Shape) -> bool
    requires { Sized s words.now }
    ensures { result ≡ S.places_ok s (get by_account s words.now) }
{
    records_ok(words, s) && run::run_ok(words, s) && positions::all_positions_ok(words, s)
}

// ---- the gate

// A count that the words state: x where it is between 1 and `most`, else 0.
fn stated_count(x: i64, most: i64) -> usize
    ensures { result ≡ cond (between (pos 1) most x) (nat_abs x) 0 }
{
    if whole::between(x, 1, most) {
        x as usize
    } else {
        0
    }
}

// The numbers of accounts and of products that the words state, each 0 where it is out of range.
pub fn shape_of(words: &[i64]) -> Shape
    requires { 2 ≤ length words.now }
    ensures { result ≡ shape_of words.now }
{
    let n = stated_count(words[places::ACCOUNTS], MOST_ACCOUNTS);
    let p = stated_count(words[places::PRODUCTS], MOST_PRODUCTS);
    Shape { n, p }
}

// Whether the words have the length of a ledger of their shape, of one account and one product at least.
fn shape_ok(words: &[i64], s: Shape) -> bool
    requires { (s.n ≤ most_accounts) × (s.p ≤ most_products) }
    ensures { result ≡ shape_ok words.now s }
{
    1 <= s.n && 1 <= s.p && words.len() == places::words_of(s)
}

// The shape of a sound ledger. The counts are tested before the length is computed.
#[tactic(auto, unfolding(places::specs::Act::sound_by))]
pub fn sound_shape(words: &[i64]) -> Option<Shape>
    ensures { result ≡ cond (S.sound by_account words.now) (Some (shape_of words.now)) None }
{
    if words.len() < places::HEADS {
        return None;
    }
    let s = shape_of(words);
    if !shape_ok(words, s) {
        return None;
    }
    if !places_ok(words, s) {
        return None;
    }
    Some(s)
}

// Whether the words are a sound ledger.
pub fn sound(words: &[i64]) -> bool
    ensures { result ≡ S.sound by_account words.now }
{
    sound_shape(words).is_some()
}
