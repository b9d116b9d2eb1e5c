// The day file, read (01, "The day file and the sheet"), line by line through the view of `reader`: the table of contents; the bodies, of which
// `sections` has all but the calls. What reads a line gives the next place, or LOST. The number of a line goes up only past a good line, so that the
// first bad one needs no search.
#![tactic(auto)]

pub mod reader;
mod sections;

ghost use Rattle.std.specs.Prelude.{not, ◌==◌, ◌≡◌, ◌∷◌, [], ◌+◌, ◌<◌, ◌≤◌, pos, length, replicate, get_or};
ghost use Rattle.std.specs.List.{take_while};
ghost use Rattle.std.proofs.lemmas.List.Edits.{sets};
ghost use Rattle.whole.specs.Counting.{figure_at};
ghost use Rattle.places.specs.Place.{words_of};
ghost use Rattle.places.specs.Act.{most_products};
ghost use Rattle.lines.specs.Lines.{lost, line_start_of, first_lost};
ghost use Rattle.dayfile.specs.CallLines.{most_figures, figures_of, gap, call_at, calls_from, column};
ghost use Rattle.dayfile.specs.Day.{ended, start_of};
ghost use Rattle.dayfile.specs.InsideDayfile.{known, or_no_call, given_of, Modest, Bodied};
ghost use Rattle.dayfile.specs.Table.{table_of, contents_of, ledger_shape};

use lines::{LOST, LineStart};
use places::Shape;
use reader::Reader;

// The figures of an account's line: its letter is the kind, and the other words before its positions follow.
pub const ACCOUNT_FIGURES: usize = places::FIELDS - 1;

// The most figures that a call has: a close of the most products.
pub const MOST_FIGURES: usize = places::MOST_PRODUCTS * 4;

// A line of the table of contents: its count, and the next line.
#[derive(Clone, Copy)]
pub struct Counted {
    pub count: usize,
    pub next: usize,
}

// What a position's line says, and the next line, or LOST, as in a field of `lines`.
#[derive(Clone, Copy)]
pub struct Holding {
    pub account: i64,
    pub product: i64,
    pub lots: i64,
    pub book: i64,
    pub next: usize,
}

// The table of contents: its counts, the place behind it or LOST, and the number of the line there, or of the bad line. It is no Result, since the
// definition `contents_of` gives the counts of a bad table too.
#[derive(Clone, Copy)]
pub struct Contents {
    pub products: usize,
    pub accounts: usize,
    pub positions: usize,
    pub calls: usize,
    pub at: usize,
    pub line: usize,
}

// Where the bodies end, LOST where a line is bad, with the number of that line; and where the calls start.
#[derive(Clone, Copy)]
pub struct Bodies {
    pub at: usize,
    pub line: usize,
    pub calls_at: usize,
}

// ---- the table of contents

// How many of six places stand before the first that is lost.
fn good_before(places: [usize; 6]) -> usize
    ensures { result ≡ length (take_while (λ at. not (at == lost)) places) }
{
    places.iter().take_while(|at| **at != LOST).count()
}

// The number of the first of six places that is lost, or 7.
#[tactic(auto, using(crate::proofs::ContentsLaws::lost_after))]
fn first_lost(places: [usize; 6]) -> usize
    ensures { result ≡ first_lost 1 places }
{
    1 + good_before(places)
}

// What the six lines of the table say: where the first and the last ended, and the counts between them.
fn contents_of(first: usize, p: Counted, n: Counted, m: Counted, c: Counted, end: usize) -> Contents
    ensures { result ≡ table_of first p n m c end }
{
    Contents {
        products: p.count,
        accounts: n.count,
        positions: m.count,
        calls: c.count,
        at: end,
        line: first_lost([first, p.next, n.next, m.next, c.next, end]),
    }
}

// The table of contents: six lines in a row, each read where the one before it ended. Its words are compared byte for byte.
pub fn read_contents(text: &[u8]) -> Contents
    ensures { result ≡ contents_of text.now }
{
    let r = Reader::new(text);
    let first = r.header();
    let p = r.moved(first).products();
    let n = r.moved(p.next).accounts();
    let m = r.moved(n.next).positions();
    let c = r.moved(m.next).calls();
    let end = r.moved(c.next).end();
    contents_of(first, p, n, m, c, end)
}

// ---- calls

// How many figures follow a call's letter; None behind a byte that begins no call. A letter stays a byte: an enum of the seven would list them twice.
#[tactic(auto, unfolding(crate::specs::CallLines::figures_of))]
pub fn figures_of(p: usize, letter: u8) -> Option<usize>
    requires { p ≤ most_products }
    ensures { (or_no_call result ≡ figures_of p letter) × (result ≡ known (figures_of p letter)) }
{
    match letter {
        b'D' | b'W' => Some(2),
        b'G' => Some(3),
        b'B' | b'S' => Some(0),
        b'T' => Some(5),
        b'C' => Some(p * 4),
        _ => None,
    }
}

// A call's letter, through a view at its place. It and `call_line` stay beside the view's methods: `day` calls them, and docs/CONTRACTS.md lists them.
pub fn letter_there(text: &[u8], at: usize) -> u8
    ensures { result ≡ get_or text.now at 0 }
{
    Reader { text, at }.letter()
}

// A call's line, the same way: its figures.
pub fn call_line(text: &[u8], p: usize, at: usize, figures: &mut [i64]) -> usize
    requires { (p ≤ most_products) × (most_figures ≤ length figures.old) }
    ensures { (result ≡ (call_at text.now p at).next) × (figures.new ≡ sets figures.old 0 (call_at text.now p at).values) }
{
    Reader { text, at }.call(figures, p)
}

// The first pass over the calls: are their lines well formed? The loop is that of each of the `sections`, which says why it stands here too.
fn calls(text: &[u8], from: LineStart, count: usize, p: usize, figures: &mut [i64]) -> LineStart
    requires fact_1 { from.line + count < 18446744073709551616 }
    requires fact_2 { p ≤ most_products }
    requires fact_3 { most_figures ≤ length figures.old }
    ensures { result ≡ line_start_of (calls_from text.now from.at from.line p count) }
{
    let mut at = from.at;
    for i in 0..count {
        let next = call_line(text, p, at, figures);
        if next == LOST {
            return LineStart {
                at: LOST,
                line: from.line + i,
            };
        }
        at = next;
    }
    LineStart {
        at,
        line: from.line + count,
    }
}

// ---- the bodies

// The text ends behind the last call.
fn end_of(text: &[u8], at: usize) -> usize
    ensures { result ≡ ended text.now at }
{
    if at == text.len() { at } else { LOST }
}

// Products, accounts and positions, into words that are all 0.
fn start_into(text: &[u8], c: Contents, words: &mut [i64]) -> LineStart
    requires fact_1 { Modest c }
    requires fact_2 { words.old ≡ replicate (words_of (ledger_shape c)) (pos 0) }
    ensures { (result ≡ line_start_of (start_of text.now c)) × (words.new ≡ (start_of text.now c).held.words) }
{
    let s = Shape {
        n: c.accounts,
        p: c.products,
    };
    places::put_head(words, s, places::ACCOUNTS, s.n as i64);
    places::put_head(words, s, places::PRODUCTS, s.p as i64);
    let from = LineStart {
        at: c.at,
        line: c.line,
    };
    let a = sections::products(text, from, s, words);
    let b = sections::accounts(text, a, s, words);
    let mut marks = [0u8; places::MOST_HELD];
    sections::positions(text, b, c.positions, s, words, &mut marks)
}

// The bodies, into words that are all 0: the place behind the last call and that of the first.
pub fn bodies_into(text: &[u8], c: Contents, words: &mut [i64]) -> Bodies
    requires fact_1 { Modest c }
    requires fact_2 { words.old ≡ replicate (words_of (ledger_shape c)) (pos 0) }
    ensures { Bodied text.now c result words.new }
{
    let start = start_into(text, c, words);
    let mut figures = [0i64; MOST_FIGURES];
    let e = calls(text, start, c.calls, c.products, &mut figures);
    Bodies {
        at: end_of(text, e.at),
        line: e.line,
        calls_at: start.at,
    }
}

// How many figures a call's line gave.
#[tactic(auto, unfolding(crate::specs::InsideDayfile::given_of))]
pub fn given_of(p: usize, letter: u8) -> usize
    requires { p ≤ most_products }
    ensures { (result ≡ given_of p letter) × (result ≤ most_figures) }
{
    figures_of(p, letter).unwrap_or(0)
}

// ---- a close's columns

// A figure of a call, and 0 past the last.
pub fn figure_at(figures: &[i64], i: usize) -> i64
    ensures { result ≡ figure_at figures.now i }
{
    figures.get(i).copied().unwrap_or(0)
}

// Every fourth figure from the k-th on, for p products.
pub fn column_into(figures: &[i64], k: usize, p: usize, out: &mut [i64])
    requires fact_1 { k < 4 }
    requires fact_2 { p ≤ most_products }
    requires fact_3 { p ≤ length out.old }
    ensures { out.new ≡ sets out.old 0 (column k p figures.now) }
{
    for j in 0..p {
        out[j] = figure_at(figures, j * 4 + k);
    }
}
