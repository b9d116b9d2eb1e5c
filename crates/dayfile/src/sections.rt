// The sections of a day file but the calls: products, accounts, positions (01, "The day file and the sheet"). Each writes what its lines state
// into the ledger's words, up to the first bad line. Each has its loop written out, for what a line is read into differs (a row of the words; words
// and marks; of a call, nothing): one loop over a trait would need a type, an impl and a law for each, which is longer than the four loops.
ghost use Rattle.std.specs.Prelude.{◌≡◌, ◌+◌, ◌*◌, ◌<◌, ◌≤◌, length};
ghost use Rattle.lines.specs.Lines.{line_start_of};
ghost use Rattle.places.specs.Place.{Has, lots};
ghost use Rattle.places.specs.Act.{most_held};
ghost use Rattle.places.specs.PlaceLaws.{Sized};
ghost use Rattle.dayfile.specs.InsideDayfile.{Statement, Positioned, AllPositioned};
ghost use Rattle.dayfile.specs.Sections.{products_from, accounts_from, position_at, positions_from};

use super::Holding;
use super::reader::Reader;
use lines::{LOST, LineStart};
use places::Shape;

// The products' lines, up to the first bad one.
pub fn products(text: &[u8], from: LineStart, s: Shape, words: &mut [i64]) -> LineStart
    requires fact_1 { from.line + s.p < 18446744073709551616 }
    requires fact_2 { Sized s words.old }
    ensures { (result ≡ line_start_of (products_from text.now from.at from.line s words.old)) × (words.new ≡ (products_from text.now from.at from.line s words.old).held) }
{
    let mut at = from.at;
    for j in 0..s.p {
        let base = places::prod_at(s, j, places::PRODUCT_KIND);
        let next = Reader { text, at }.product(words, base);
        if next == LOST {
            return LineStart {
                at: LOST,
                line: from.line + j,
            };
        }
        at = next;
    }
    LineStart {
        at,
        line: from.line + s.p,
    }
}

// The accounts' lines, up to the first bad one.
pub fn accounts(text: &[u8], from: LineStart, s: Shape, words: &mut [i64]) -> LineStart
    requires fact_1 { from.line + s.n < 18446744073709551616 }
    requires fact_2 { Sized s words.old }
    ensures { (result ≡ line_start_of (accounts_from text.now from.at from.line s words.old)) × (words.new ≡ (accounts_from text.now from.at from.line s words.old).held) }
{
    let mut at = from.at;
    for a in 0..s.n {
        let base = places::acct_at(s, a, places::KIND);
        let next = Reader { text, at }.account(words, base);
        if next == LOST {
            return LineStart {
                at: LOST,
                line: from.line + a,
            };
        }
        at = next;
    }
    LineStart {
        at,
        line: from.line + s.n,
    }
}

// States a position that was not stated yet. A mark for each position tells a repeat, so that no line is compared with those before it. A mark is a byte
// and not a bool, since `stated` puts a 1.
fn state_position(
    words: &mut [i64],
    marks: &mut [u8],
    s: Shape,
    a: usize,
    j: usize,
    h: Holding,
) -> usize
    requires fact_1 { Sized s words.old }
    requires fact_2 { Has s (lots a j) }
    requires fact_3 { a * s.p + j < length marks.old }
    ensures { Statement s a j h.lots h.book h.next words.old marks.old result words.new marks.new }
{
    let k = a * s.p + j;
    if marks[k] != 0 {
        return LOST;
    }
    marks[k] = 1;
    places::put_held(words, s, a, j, places::LOTS, h.lots);
    places::put_held(words, s, a, j, places::BOOK, h.book);
    h.next
}

// A position's line: what it says is stated, if it is of an account and a product that there are.
fn position_line(text: &[u8], at: usize, s: Shape, words: &mut [i64], marks: &mut [u8]) -> usize
    requires fact_1 { Sized s words.old }
    requires fact_2 { most_held ≤ length marks.old }
    ensures { Positioned (position_at text.now s at (record { words = words.old; marks = marks.old })) result words.new marks.new }
{
    let h = Reader { text, at }.position();
    let Some(a) = whole::index_of(h.account, s.n) else {
        return LOST;
    };
    let Some(j) = whole::index_of(h.product, s.p) else {
        return LOST;
    };
    state_position(words, marks, s, a, j, h)
}

// The positions' lines, up to the first bad one.
pub fn positions(
    text: &[u8],
    from: LineStart,
    count: usize,
    s: Shape,
    words: &mut [i64],
    marks: &mut [u8],
) -> LineStart
    requires fact_1 { from.line + count < 18446744073709551616 }
    requires fact_2 { Sized s words.old }
    requires fact_3 { most_held ≤ length marks.old }
    ensures { AllPositioned (positions_from text.now from.at from.line s count (record { words = words.old; marks = marks.old })) result words.new marks.new }
{
    let mut at = from.at;
    for i in 0..count {
        let next = position_line(text, at, s, words, marks);
        if next == LOST {
            return LineStart {
                at: LOST,
                line: from.line + i,
            };
        }
        at = next;
    }
    LineStart {
        at,
        line: from.line + count,
    }
}
