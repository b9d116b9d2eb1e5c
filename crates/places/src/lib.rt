// The ledger's words as places: which word a place is, reads and writes by place. Only the functions `.._at` know the layout; above
// them no index is seen (01, "The ledger's words").
#![tactic(auto)]

ghost use Rattle.std.specs.Prelude.{◌≡◌, ◌<◌, ◌≤◌};
ghost use Rattle.places.specs.Place.{Has, head, prod, acct, held, get, put, words_of};
ghost use Rattle.places.specs.Act.{most_accounts, most_products};
ghost use Rattle.places.specs.PlaceLaws.{Sized};
ghost use Rattle.places.specs.ByAccount.{by_account};

// How many accounts and how many products a ledger has.
#[derive(Clone, Copy)]
pub struct Shape {
    pub n: usize,
    pub p: usize,
}

// The widths: words before the products, of a product, of an account before its positions, of a position.
pub const HEADS: usize = 4;

const PRODUCT_FIELDS: usize = 5;

pub const DUES: usize = 3;

pub const FIRST_DUE: usize = 5;

pub const FIELDS: usize = FIRST_DUE + DUES;

const HELD_FIELDS: usize = 2;

// The largest ledger: its accounts and products, its words, its positions.
pub const MOST_ACCOUNTS: usize = 64;

pub const MOST_PRODUCTS: usize = 16;

pub const MOST_WORDS: usize = HEADS
    + PRODUCT_FIELDS * MOST_PRODUCTS
    + MOST_ACCOUNTS * (FIELDS + HELD_FIELDS * MOST_PRODUCTS);

pub const MOST_HELD: usize = MOST_ACCOUNTS * MOST_PRODUCTS;

// The words by name: places of a list that C lends, as its header names them.
pub const ACCOUNTS: usize = 0;

pub const PRODUCTS: usize = 1;

pub const PHASE: usize = 2;

pub const HOUSE: usize = 3;

pub const PRODUCT_KIND: usize = 0;

pub const FLOOR_MARK: usize = 1;

pub const PRICE: usize = 2;

pub const PRINCIPAL: usize = 3;

pub const QUOTE: usize = 4;

pub const KIND: usize = 0;

pub const CASH: usize = 1;

pub const GUARANTEE: usize = 2;

pub const CAP: usize = 3;

pub const MARGIN: usize = 4;

pub const LOTS: usize = 0;

pub const BOOK: usize = 1;

// ---- the layout: which word a place is

// How many words a ledger has.
pub fn words_of(s: Shape) -> usize
    requires { (s.n ≤ most_accounts) × (s.p ≤ most_products) }
    ensures { result ≡ words_of s }
{
    HEADS + PRODUCT_FIELDS * s.p + s.n * (FIELDS + HELD_FIELDS * s.p)
}

pub fn prod_at(s: Shape, j: usize, f: usize) -> usize
    requires n_le_most_accounts { (s.n ≤ most_accounts) × (s.p ≤ most_products) }
    requires has { Has s (prod j f) }
    ensures { (result ≡ by_account.at s (prod j f)) × (result < words_of s) }
{
    HEADS + PRODUCT_FIELDS * j + f
}

pub fn acct_at(s: Shape, a: usize, f: usize) -> usize
    requires n_le_most_accounts { (s.n ≤ most_accounts) × (s.p ≤ most_products) }
    requires has { Has s (acct a f) }
    ensures { (result ≡ by_account.at s (acct a f)) × (result < words_of s) }
{
    HEADS + PRODUCT_FIELDS * s.p + a * (FIELDS + HELD_FIELDS * s.p) + f
}

fn held_at(s: Shape, a: usize, j: usize, f: usize) -> usize
    requires n_le_most_accounts { (s.n ≤ most_accounts) × (s.p ≤ most_products) }
    requires has { Has s (held a j f) }
    ensures { (result ≡ by_account.at s (held a j f)) × (result < words_of s) }
{
    HEADS + PRODUCT_FIELDS * s.p + a * (FIELDS + HELD_FIELDS * s.p) + (FIELDS + HELD_FIELDS * j + f)
}

// ---- reads

pub fn head_word(words: &[i64], s: Shape, k: usize) -> i64
    requires sized { Sized s words.now }
    requires has { Has s (head k) }
    ensures { result ≡ get by_account s words.now (head k) }
{
    words[k]
}

pub fn prod_word(words: &[i64], s: Shape, j: usize, f: usize) -> i64
    requires sized { Sized s words.now }
    requires has { Has s (prod j f) }
    ensures { result ≡ get by_account s words.now (prod j f) }
{
    let i = prod_at(s, j, f);
    words[i]
}

pub fn acct_word(words: &[i64], s: Shape, a: usize, f: usize) -> i64
    requires sized { Sized s words.now }
    requires has { Has s (acct a f) }
    ensures { result ≡ get by_account s words.now (acct a f) }
{
    let i = acct_at(s, a, f);
    words[i]
}

pub fn held_word(words: &[i64], s: Shape, a: usize, j: usize, f: usize) -> i64
    requires sized { Sized s words.now }
    requires has { Has s (held a j f) }
    ensures { result ≡ get by_account s words.now (held a j f) }
{
    let i = held_at(s, a, j, f);
    words[i]
}

// ---- writes

pub fn put_head(words: &mut [i64], s: Shape, k: usize, v: i64)
    requires sized { Sized s words.old }
    requires has { Has s (head k) }
    ensures { words.new ≡ put by_account s words.old (head k) v }
{
    words[k] = v;
}

pub fn put_prod(words: &mut [i64], s: Shape, j: usize, f: usize, v: i64)
    requires sized { Sized s words.old }
    requires has { Has s (prod j f) }
    ensures { words.new ≡ put by_account s words.old (prod j f) v }
{
    let i = prod_at(s, j, f);
    words[i] = v;
}

pub fn put_acct(words: &mut [i64], s: Shape, a: usize, f: usize, v: i64)
    requires sized { Sized s words.old }
    requires has { Has s (acct a f) }
    ensures { words.new ≡ put by_account s words.old (acct a f) v }
{
    let i = acct_at(s, a, f);
    words[i] = v;
}

pub fn put_held(words: &mut [i64], s: Shape, a: usize, j: usize, f: usize, v: i64)
    requires sized { Sized s words.old }
    requires has { Has s (held a j f) }
    ensures { words.new ≡ put by_account s words.old (held a j f) v }
{
    let i = held_at(s, a, j, f);
    words[i] = v;
}
