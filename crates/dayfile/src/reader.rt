// The reader of a day file (01: "The reader is a view that holds the text and its place"): every line is read through it. A line of the table gives its
// count and the next line; a line of the bodies says what it states, or writes its figures where it is told, and gives the next line.
ghost use Rattle.std.specs.Prelude.{◌≡◌, ◌+◌, ◌≤◌, length, get_or};
ghost use Rattle.std.proofs.lemmas.List.Edits.{sets};
ghost use Rattle.lines.specs.Lines.{past};
ghost use Rattle.places.specs.Place.{product_fields, fields};
ghost use Rattle.places.specs.Act.{most_products};
ghost use Rattle.dayfile.specs.CallLines.{most_figures, gap, call_at};
ghost use Rattle.dayfile.specs.Sections.{product_figures, account_figures, holding_at};
ghost use Rattle.dayfile.specs.Table.{count_line, past_header, products_count, accounts_count, positions_count, calls_count, past_end};

use super::{ACCOUNT_FIGURES, Counted, Holding, figures_of};
use lines::LOST;

// A line of the table that can not be read. It is a Counted and not a None, since `contents_of` has its 0, and reads the next line at its place.
const NO_COUNT: Counted = Counted {
    count: 0,
    next: LOST,
};

// A text, and a place in it.
#[derive(Clone, Copy)]
pub struct Reader<'a> {
    pub text: &'a [u8],
    pub at: usize,
}

impl<'a> Reader<'a> {
    // A reader at the start of a text.
    pub fn new(text: &'a [u8]) -> Reader<'a>
        ensures { (result.text ≡ text.entry) × (result.at ≡ 0) }
    {
        Reader { text, at: 0 }
    }

    // The same text, at another place.
    pub fn moved(self, at: usize) -> Reader<'a>
        ensures { (result.text ≡ self.entry.text) × (result.at ≡ at) }
    {
        Reader {
            text: self.text,
            at,
        }
    }

    // The place behind a word that stands here, or LOST.
    fn past(self, word: &[u8]) -> usize
        ensures { result ≡ past self.entry.text.now self.entry.at word.now }
    {
        lines::past_word(self.text, self.at, word)
    }

    // A word and its count.
    #[tactic(auto, unfolding(crate::specs::Table::count_line))]
    fn count(self, word: &[u8], low: usize, high: usize) -> Counted
        ensures { result ≡ count_line self.entry.text.now self.entry.at word.now low high }
    {
        let f = lines::field_at(self.text, self.past(word), b'\n');
        let Ok(count) = usize::try_from(f.value) else {
            return NO_COUNT;
        };
        if !(low..=high).contains(&count) {
            return NO_COUNT;
        }
        Counted {
            count,
            next: f.next,
        }
    }

    // The place behind `FXDAY`.
    pub fn header(self) -> usize
        ensures { result ≡ past_header self.entry.text.now self.entry.at }
    {
        self.past(b"FXDAY\n")
    }

    // The counts of the four sections, in the order of the table. The words and the bounds are the paper's: "accounts n, products p 1..64, 1..16",
    // "calls 0..1,000, positions 0 or more".
    pub fn products(self) -> Counted
        ensures { result ≡ products_count self.entry.text.now self.entry.at }
    {
        self.count(b"PRODUCTS ", 1, places::MOST_PRODUCTS)
    }

    pub fn accounts(self) -> Counted
        ensures { result ≡ accounts_count self.entry.text.now self.entry.at }
    {
        self.count(b"ACCOUNTS ", 1, places::MOST_ACCOUNTS)
    }

    pub fn positions(self) -> Counted
        ensures { result ≡ positions_count self.entry.text.now self.entry.at }
    {
        self.count(b"POSITIONS ", 0, 9223372036854775807)
    }

    pub fn calls(self) -> Counted
        ensures { result ≡ calls_count self.entry.text.now self.entry.at }
    {
        self.count(b"CALLS ", 0, 1000)
    }

    // The place behind `END`.
    pub fn end(self) -> usize
        ensures { result ≡ past_end self.entry.text.now self.entry.at }
    {
        self.past(b"END\n")
    }

    // The lines of the bodies. A product's, `Y mark price` or `X mark price principal quote`: its five words, from a base on; and the next line.
    pub fn product(self, words: &mut [i64], base: usize) -> usize
        requires { base + product_fields ≤ length words.old }
        ensures { (result ≡ (product_figures self.entry.text.now self.entry.at).next) × (words.new ≡ sets words.old base (product_figures self.entry.text.now self.entry.at).values) }
    {
        lines::kind_line(self.text, self.at, b"Y ", 2, b"X ", 4, words, base)
    }

    // An account's, `F` or `L` and its seven figures: its first eight words, from a base on.
    pub fn account(self, words: &mut [i64], base: usize) -> usize
        requires { base + fields ≤ length words.old }
        ensures { (result ≡ (account_figures self.entry.text.now self.entry.at).next) × (words.new ≡ sets words.old base (account_figures self.entry.text.now self.entry.at).values) }
    {
        lines::kind_line(
            self.text,
            self.at,
            b"F ",
            ACCOUNT_FIGURES,
            b"L ",
            ACCOUNT_FIGURES,
            words,
            base,
        )
    }

    // A position's, account, product, lots, book: by value, since its account and product are to be tested before anything is written.
    pub fn position(self) -> Holding
        ensures { result ≡ holding_at self.entry.text.now self.entry.at }
    {
        let account = lines::field_at(self.text, self.at, b' ');
        let product = lines::field_at(self.text, account.next, b' ');
        let lots = lines::field_at(self.text, product.next, b' ');
        let book = lines::field_at(self.text, lots.next, b'\n');
        Holding {
            account: account.value,
            product: product.value,
            lots: lots.value,
            book: book.value,
            next: book.next,
        }
    }

    // A call's letter, which tells how many figures follow; 0 past the end of the text.
    pub fn letter(self) -> u8
        ensures { result ≡ get_or self.entry.text.now self.entry.at 0 }
    {
        lines::byte_at(self.text, self.at)
    }

    // What stands between a letter and its k figures: the place behind it.
    fn past_gap(self, k: usize) -> usize
        ensures { result ≡ past self.entry.text.now self.entry.at (gap k) }
    {
        self.past(if k == 0 { b"\n" } else { b" " })
    }

    // A call's, of a ledger of p products: its letter, and its figures.
    #[tactic(auto, using(crate::proofs::DayLaws::call_inside), unfolding(crate::specs::CallLines::call_at))]
    pub fn call(self, figures: &mut [i64], p: usize) -> usize
        requires { (p ≤ most_products) × (most_figures ≤ length figures.old) }
        ensures { (result ≡ (call_at self.entry.text.now p self.entry.at).next) × (figures.new ≡ sets figures.old 0 (call_at self.entry.text.now p self.entry.at).values) }
    {
        let Some(k) = figures_of(p, self.letter()) else {
            return LOST;
        };
        let from = self.moved(self.at + 1).past_gap(k);
        lines::figures_into(self.text, from, k, figures, 0)
    }
}
