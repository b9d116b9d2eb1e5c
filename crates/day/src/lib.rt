// The sheet of a day file (01, "The day file and the sheet"): the calls are done, and what they answer is printed. `sheet` is the entry
// point, text to text.
#![tactic(auto)]

ghost use Rattle.std.specs.Prelude.{◌≡◌, ◌+◌, ◌*◌, ◌<◌, ◌≤◌, pos, length, replicate};
ghost use Rattle.std.proofs.lemmas.List.Edits.{sets};
ghost use Rattle.places.specs.Place.{words_of};
ghost use Rattle.places.specs.PlaceLaws.{Sized};
ghost use Rattle.places.specs.Act.{most_words};
ghost use Rattle.places.specs.ByAccount.{by_account};
ghost use Rattle.soundness.specs.SoundLaws.{Ledger};
ghost use Rattle.lines.specs.Print.{numbers_line, bad_line};
ghost use Rattle.dayfile.specs.CallLines.{most_figures, calls_at};
ghost use Rattle.dayfile.specs.Day.{bodies_of, day_of};
ghost use Rattle.dayfile.specs.InsideDayfile.{Modest};
ghost use Rattle.dayfile.specs.Table.{ledger_shape};
ghost use Rattle.day.specs.InsideDay.{Turned};
ghost use Rattle.calls.specs.Ledger.{the_ledger};
ghost use Rattle.day.specs.Sheet.{reply_line, account_numbers, house_part, end_part, calls_part, day_sheet, sheet_of, answer_of};

use dayfile::Contents;
use lines::{LONGEST, LOST};
use places::Shape;
use rules::Reply;

// Room for every sheet.
const ROOM: usize = 65536;

// Where the next call's line starts, and where the next byte is written.
#[derive(Clone, Copy)]
pub struct Turn {
    pub at: usize,
    pub put: usize,
}

// `BAD` and a line's number.
fn put_bad(out: &mut [u8], k: usize) -> usize
    requires { 64 ≤ length out.old }
    ensures { (result ≡ 0 + length (bad_line k)) × (out.new ≡ sets out.old 0 (bad_line k)) }
{
    let at = lines::put_word(out, 0, b"BAD ");
    lines::put_count(out, at, k as u64, b'\n')
}

// A call's line: number and figure.
fn put_reply(out: &mut [u8], at: usize, reply: Reply) -> usize
    requires { at + 44 ≤ length out.old }
    ensures { (result ≡ at + length (reply_line reply)) × (out.new ≡ sets out.old at (reply_line reply)) }
{
    let e = lines::put_count(out, at, reply.number, b' ');
    lines::put_field(out, e, reply.figure, b'\n')
}

// An account's line: number, cash, dues, limit, shortfalls.
fn put_account(out: &mut [u8], at: usize, words: &[i64], s: Shape, a: usize) -> usize
    requires fact_1 { a < s.n }
    requires fact_2 { Ledger by_account s words.now }
    requires fact_3 { at + 176 ≤ length out.old }
    ensures { (result ≡ at + length (numbers_line (account_numbers the_ledger s a words.now))) × (out.new ≡ sets out.old at (numbers_line (account_numbers the_ledger s a words.now))) }
{
    let number = a as i64;
    let cash = places::acct_word(words, s, a, places::CASH);
    let due0 = places::acct_word(words, s, a, places::FIRST_DUE);
    let due1 = places::acct_word(words, s, a, places::FIRST_DUE + 1);
    let due2 = places::acct_word(words, s, a, places::FIRST_DUE + 2);
    let standing = calls::question(words, s, number);
    let line = [
        number,
        cash,
        due0,
        due1,
        due2,
        standing.limit,
        standing.first,
        standing.second,
    ];
    lines::put_line(out, at, &line)
}

// The house's line.
fn put_house(out: &mut [u8], at: usize, words: &[i64], s: Shape) -> usize
    requires fact_1 { Sized s words.now }
    requires fact_2 { at + 28 ≤ length out.old }
    ensures { (result ≡ at + length (house_part s words.now)) × (out.new ≡ sets out.old at (house_part s words.now)) }
{
    let house = places::head_word(words, s, places::HOUSE);
    let line = [house];
    let e = lines::put_word(out, at, b"HOUSE ");
    lines::put_line(out, e, &line)
}

// The accounts' lines and the house's.
fn put_end(out: &mut [u8], from: usize, words: &[i64], s: Shape) -> usize
    requires fact_1 { Ledger by_account s words.now }
    requires fact_2 { from + s.n * 176 + 28 ≤ length out.old }
    ensures { (result ≡ from + length (end_part the_ledger s words.now)) × (out.new ≡ sets out.old from (end_part the_ledger s words.now)) }
{
    let mut at = from;
    for a in 0..s.n {
        at = put_account(out, at, words, s, a);
    }
    put_house(out, at, words, s)
}

// One call: its line is read, the call is done, its number and figure are printed.
fn do_call(
    text: &[u8],
    at: usize,
    s: Shape,
    words: &mut [i64],
    figures: &mut [i64],
    out: &mut [u8],
    put: usize,
) -> Turn
    requires fact_1 { Ledger by_account s words.old }
    requires fact_2 { most_figures ≤ length figures.old }
    requires fact_3 { put + 44 ≤ length out.old }
    ensures { Turned the_ledger text.now s.p at words.old out.old put result words.new out.new }
{
    let letter = dayfile::letter_there(text, at);
    let k = dayfile::given_of(s.p, letter);
    let next = dayfile::call_line(text, s.p, at, figures);
    let reply = Reply::from(calls::act(words, s, letter, &figures[..k]));
    Turn {
        at: next,
        put: put_reply(out, put, reply),
    }
}

// The second pass over the calls, and the rest of the sheet.
fn run_calls(
    text: &[u8],
    from: usize,
    count: usize,
    s: Shape,
    words: &mut [i64],
    out: &mut [u8],
    start: usize,
) -> usize
    requires fact_1 { Ledger by_account s words.old }
    requires fact_2 { start + count * 44 + s.n * 176 + 28 ≤ length out.old }
    ensures { (result ≡ start + length (calls_part the_ledger s (calls_at text.now s.p from count) words.old)) × (out.new ≡ sets out.old start (calls_part the_ledger s (calls_at text.now s.p from count) words.old)) }
{
    let mut figures = [0i64; dayfile::MOST_FIGURES];
    let mut at = from;
    let mut put = start;
    for _done in 0..count {
        let t = do_call(text, at, s, words, &mut figures, out, put);
        at = t.at;
        put = t.put;
    }
    put_end(out, put, words, s)
}

// The sheet behind a table of contents, by way of words that are all 0.
fn day_sheet(text: &[u8], c: Contents, words: &mut [i64], out: &mut [u8]) -> usize
    requires fact_1 { Modest c }
    requires fact_2 { words.old ≡ replicate (words_of (ledger_shape c)) (pos 0) }
    requires fact_3 { 65536 ≤ length out.old }
    ensures { (result ≡ 0 + length (day_sheet the_ledger (bodies_of text.now c))) × (out.new ≡ sets out.old 0 (day_sheet the_ledger (bodies_of text.now c))) }
{
    let b = dayfile::bodies_into(text, c, words);
    if b.at == LOST {
        return put_bad(out, b.line);
    }
    if !calls::is_sound(words) {
        return put_bad(out, 0);
    }
    let s = Shape {
        n: c.accounts,
        p: c.products,
    };
    let start = lines::put_word(out, 0, b"FXSHEET\n");
    run_calls(text, b.calls_at, c.calls, s, words, out, start)
}

// The sheet, by way of words for the largest ledger.
fn sheet_by(text: &[u8], words: &mut [i64], out: &mut [u8]) -> usize
    requires fact_1 { words.old ≡ replicate most_words (pos 0) }
    requires fact_2 { 65536 ≤ length out.old }
    ensures { (result ≡ 0 + length (day_sheet the_ledger (day_of text.now))) × (out.new ≡ sets out.old 0 (day_sheet the_ledger (day_of text.now))) }
{
    let c = dayfile::read_contents(text);
    let s = Shape {
        n: c.accounts,
        p: c.products,
    };
    let len = places::words_of(s);
    day_sheet(text, c, &mut words[..len], out)
}

// The sheet of any bytes, at the start of `out`, and its length; 0, and `out` left alone, where `out` has less room than a sheet may take.
pub fn sheet(text: &[u8], out: &mut [u8]) -> usize
    ensures { (result, out.new) ≡ answer_of (sheet_of the_ledger text.now) out.old }
{
    if out.len() < ROOM {
        return 0;
    }
    if text.len() > LONGEST {
        return put_bad(out, 0);
    }
    let mut words = [0i64; places::MOST_WORDS];
    sheet_by(text, &mut words, out)
}
