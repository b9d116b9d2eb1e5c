// Which clause of soundness a list of words fails first (01, "The ledger's words"), found by the tests of soundness themselves, so that whoever
// wrote the words can be told what to mend.
#![tactic(auto)]

ghost use Rattle.std.specs.Prelude.{◌≡◌, true, ◌<◌, ◌≤◌, ◌+◌, length, pos};
ghost use Rattle.whole.specs.Number as N;
ghost use Rattle.whole.specs.Counting.{all, sum};
ghost use Rattle.places.specs.Place.{get, heads, lots};
ghost use Rattle.places.specs.PlaceLaws.{Sized};
ghost use Rattle.places.specs.ByAccount.{by_account};
ghost use Rattle.places.specs.Act.{most_accounts, most_products};
ghost use Rattle.soundness.specs.Sound as S;
ghost use Rattle.clauses.specs.Clauses as F;
ghost use Rattle.clauses.specs.Clauses.{FirstOf, number_of};
ghost use Rattle.clauses.specs.declared.Clause as Clause;

use places::Shape;
use rules::Account;

// The clauses, by their numbers in docs/RULES.md (3.3). They are tested in this order, those of one product, account or position together.
#[derive(Clone, Copy, PartialEq, Eq)]
pub enum Clause {
    // The list:
    Heads,
    Accounts,
    Products,
    Length,
    // the head:
    House,
    Phase,
    // a product:
    ProductKind,
    Mark,
    Price,
    Pair,
    // an account:
    Kind,
    Guarantee,
    Cap,
    Margin,
    Gross,
    // a position, and a product's positions together:
    Lots,
    Book,
    Balance,
    // a run that is on:
    Done,
    ToCome,
}

impl Clause {
    pub fn number(self) -> u64
        ensures { result ≡ number_of self }
    {
        match self {
            Clause::Heads => 1,
            Clause::Accounts => 2,
            Clause::Products => 3,
            Clause::Length => 4,
            Clause::House => 5,
            Clause::Phase => 6,
            Clause::ProductKind => 7,
            Clause::Mark => 8,
            Clause::Price => 9,
            Clause::Pair => 10,
            Clause::Kind => 11,
            Clause::Guarantee => 12,
            Clause::Cap => 13,
            Clause::Margin => 14,
            Clause::Gross => 15,
            Clause::Lots => 16,
            Clause::Book => 17,
            Clause::Balance => 18,
            Clause::Done => 19,
            Clause::ToCome => 20,
        }
    }
}

// A clause that fails, of which account and which product (0 where it is of none), and the figure that fails it: the word itself, of a balance
// the sum of the lots, and 0 of a clause on the list's length or on several words.
#[derive(Clone, Copy, PartialEq, Eq)]
pub struct Failing {
    pub clause: Clause,
    pub account: usize,
    pub product: usize,
    pub figure: i64,
}

fn fails(clause: Clause, account: usize, product: usize, figure: i64) -> Option<Failing>
    ensures { result ≡ F.fails clause account product figure }
{
    Some(Failing {
        clause,
        account,
        product,
        figure,
    })
}

// The first that fails of of(0), of(1), .. of(n - 1). It is a loop, since `find_map` of a range asks that `of` may be called at any index.
fn first_of<F: Fn(usize) -> Option<Failing>>(n: usize, of: F) -> Option<Failing>
    requires { (i : _) → i < n → F.pre of i }
    ensures { FirstOf n (F.post of) result }
{
    for i in 0..n {
        if let Some(f) = of(i) {
            return Some(f);
        }
    }
    None
}

// ---- the list and its head

fn of_shape(words: &[i64], s: Shape) -> Option<Failing>
    requires n_le_most_accounts { (s.n ≤ most_accounts) × (s.p ≤ most_products) }
    requires heads_in_bounds { heads ≤ length words.now }
    ensures { result ≡ F.of_shape words.now s }
{
    if s.n == 0 {
        return fails(Clause::Accounts, 0, 0, words[places::ACCOUNTS]);
    }
    if s.p == 0 {
        return fails(Clause::Products, 0, 0, words[places::PRODUCTS]);
    }
    if words.len() != places::words_of(s) {
        return fails(Clause::Length, 0, 0, 0);
    }
    None
}

fn of_head(words: &[i64], s: Shape) -> Option<Failing>
    requires { Sized s words.now }
    ensures { result ≡ F.of_head s (get by_account s words.now) }
{
    let house = places::head_word(words, s, places::HOUSE);
    if !whole::within(house, rules::sizes::MOST_HOUSE) {
        return fails(Clause::House, 0, 0, house);
    }
    let phase = places::head_word(words, s, places::PHASE);
    if !(0..=s.n as i64 + 1).contains(&phase) {
        return fails(Clause::Phase, 0, 0, phase);
    }
    None
}

// ---- a product

fn of_product(words: &[i64], s: Shape, j: usize) -> Option<Failing>
    requires sized { Sized s words.now }
    requires j_lt_p { j < s.p }
    ensures { result ≡ F.of_product (get by_account s words.now) j }
{
    let kind = places::prod_word(words, s, j, places::PRODUCT_KIND);
    if !(0..=1).contains(&kind) {
        return fails(Clause::ProductKind, 0, j, kind);
    }
    let mark = places::prod_word(words, s, j, places::FLOOR_MARK);
    if !(0..=1).contains(&mark) {
        return fails(Clause::Mark, 0, j, mark);
    }
    let price = places::prod_word(words, s, j, places::PRICE);
    if !(1..=rules::products::most_price(kind)).contains(&price) {
        return fails(Clause::Price, 0, j, price);
    }
    if !soundness::products::pair_ok(words, s, j) {
        return fails(Clause::Pair, 0, j, 0);
    }
    None
}

// ---- an account

fn of_account(account: Account, a: usize) -> Option<Failing>
    ensures { result ≡ F.of_account account a }
{
    let limit = rules::accounts::guarantee_limit(account);
    if !(0..=1).contains(&account.kind) {
        return fails(Clause::Kind, a, 0, account.kind);
    }
    if !(0..=limit).contains(&account.guarantee) {
        return fails(Clause::Guarantee, a, 0, account.guarantee);
    }
    if !(0..=limit).contains(&account.cap) {
        return fails(Clause::Cap, a, 0, account.cap);
    }
    if !(0..=rules::sizes::MOST_MARGIN).contains(&account.margin) {
        return fails(Clause::Margin, a, 0, account.margin);
    }
    if !rules::accounts::gross_ok(account) {
        return fails(Clause::Gross, a, 0, 0);
    }
    None
}

// ---- the positions in a product

fn of_position(words: &[i64], s: Shape, j: usize, a: usize) -> Option<Failing>
    requires sized { Sized s words.now }
    requires j_lt_p { (j < s.p) × (a < s.n) }
    ensures { result ≡ F.of_position (get by_account s words.now) j a }
{
    let lots = places::held_word(words, s, a, j, places::LOTS);
    if !whole::within(lots, rules::sizes::MOST_LOTS as u64) {
        return fails(Clause::Lots, a, j, lots);
    }
    let kind = places::prod_word(words, s, j, places::PRODUCT_KIND);
    let book = places::held_word(words, s, a, j, places::BOOK);
    if !whole::within(book, rules::products::most_book(kind)) {
        return fails(Clause::Book, a, j, book);
    }
    None
}

fn first_position(words: &[i64], s: Shape, j: usize) -> Option<Failing>
    requires sized { Sized s words.now }
    requires j_lt_p { j < s.p }
    ensures { result ≡ F.first_of s.n (F.of_position (get by_account s words.now) j) }
{
    first_of(s.n, |a| of_position(words, s, j, a))
}

// The sum of the lots in the product j, where each is in range.
fn lots_sum(words: &[i64], s: Shape, j: usize) -> i64
    requires sized { Sized s words.now }
    requires j_lt_p { j < s.p }
    requires j_value { all s.n (S.held_ok (get by_account s words.now) j) ≡ true }
    ensures { result ≡ sum s.n (λ a. get by_account s words.now (lots a j)) }
{
    let mut sum: i64 = 0;
    for a in 0..s.n {
        sum += places::held_word(words, s, a, j, places::LOTS);
    }
    sum
}

// Where each of the lots is in range.
fn of_balance(words: &[i64], s: Shape, j: usize) -> Option<Failing>
    requires sized { Sized s words.now }
    requires j_lt_p { j < s.p }
    requires j_value { all s.n (S.held_ok (get by_account s words.now) j) ≡ true }
    ensures { result ≡ F.of_balance s.n (get by_account s words.now) j }
{
    let sum = lots_sum(words, s, j);
    if sum != 0 {
        return fails(Clause::Balance, 0, j, sum);
    }
    None
}

#[tactic(auto, using(crate::proofs::ClauseLaws::held_where_none))]
fn of_positions(words: &[i64], s: Shape, j: usize) -> Option<Failing>
    requires sized { Sized s words.now }
    requires j_lt_p { j < s.p }
    ensures { result ≡ F.of_positions s.n (get by_account s words.now) j }
{
    first_position(words, s, j).or_else(|| of_balance(words, s, j))
}

// ---- the run, and all of it

fn of_done(words: &[i64], s: Shape, a: usize) -> Option<Failing>
    requires sized { Sized s words.now }
    requires a_lt_n { a < s.n }
    ensures { result ≡ F.of_done (get by_account s words.now) a }
{
    let due = places::acct_word(words, s, a, places::FIRST_DUE);
    if due != 0 {
        return fails(Clause::Done, a, 0, due);
    }
    None
}

// Of a run whose turn is at `done` and one more.
#[tactic(auto, using(soundness::specs::SoundLaws::dues_in, soundness::specs::SoundLaws::records_in))]
fn of_to_come(words: &[i64], s: Shape, done: usize) -> Option<Failing>
    requires sized { Sized s words.now }
    requires words_value { S.figures_ok s (get by_account s words.now) ≡ true }
    requires turn_value { S.turn (get by_account s words.now) ≡ done + 1 }
    ensures { result ≡ N.unless (S.to_come_ok s (get by_account s words.now)) (F.fails Clause.ToCome 0 0 (pos 0)) F.none }
{
    let house = places::head_word(words, s, places::HOUSE);
    if !soundness::run::stays(words, s, house, done) {
        return fails(Clause::ToCome, 0, 0, 0);
    }
    None
}

fn of_run(words: &[i64], s: Shape) -> Option<Failing>
    requires sized { Sized s words.now }
    requires words_value { S.figures_ok s (get by_account s words.now) ≡ true }
    ensures { result ≡ F.of_run s (get by_account s words.now) }
{
    let turn = places::head_word(words, s, places::PHASE).unsigned_abs() as usize;
    let done = turn.checked_sub(1)?;
    first_of(done, |a| of_done(words, s, a)).or_else(|| of_to_come(words, s, done))
}

fn of_figures(words: &[i64], s: Shape) -> Option<Failing>
    requires { Sized s words.now }
    ensures { result ≡ F.of_figures s (get by_account s words.now) }
{
    of_head(words, s)
        .or_else(|| first_of(s.p, |j| of_product(words, s, j)))
        .or_else(|| first_of(s.n, |a| of_account(soundness::account_at(words, s, a), a)))
        .or_else(|| first_of(s.p, |j| of_positions(words, s, j)))
}

#[tactic(auto, using(crate::proofs::ClauseLaws::figures_where_none))]
fn of_places(words: &[i64], s: Shape) -> Option<Failing>
    requires { Sized s words.now }
    ensures { result ≡ F.of_places s (get by_account s words.now) }
{
    of_figures(words, s).or_else(|| of_run(words, s))
}

// The clause that any words fail first; none exactly where they are a sound ledger.
pub fn first_failing(words: &[i64]) -> Option<Failing>
    ensures { (result ≡ F.first_failing by_account words.now) × (F.is_none result ≡ S.sound by_account words.now) }
{
    if words.len() < places::HEADS {
        return fails(Clause::Heads, 0, 0, 0);
    }
    let s = soundness::shape_of(words);
    of_shape(words, s).or_else(|| of_places(words, s))
}
