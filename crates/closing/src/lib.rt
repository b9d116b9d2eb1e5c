// The close of a day (01, "The day", Close): its tests, the search for an account whose gross would pass its range, the writing pass. Nothing is written
// before all refusals are past. The writing pass goes product by product and makes each position's due, margin and book at once, where they stand in the
// ledger: in it what belongs to a product is worked out once, and each difference once. No room is needed beside the ledger but for the dues of one account.
#![tactic(auto)]

ghost use Rattle.std.specs.Prelude.{◌≡◌, true, ◌+◌, ◌<◌, ◌≤◌, length};
ghost use Rattle.whole.specs.Number.{is};
ghost use Rattle.whole.specs.Counting.{all};
ghost use Rattle.rules.specs.Refusal.{answer_of};
ghost use Rattle.rules.specs.ProductLaws.{Fair, most_lot_margin};
ghost use Rattle.places.specs.Place.{get, puts, each, dues, phase, lots, book};
ghost use Rattle.places.specs.PlaceLaws.{Sized};
ghost use Rattle.places.specs.ByAccount.{by_account};
ghost use Rattle.places.specs.Act.{most_accounts, finish};
ghost use Rattle.soundness.specs.Perform.{perform};
ghost use Rattle.soundness.specs.SoundLaws.{Ledger};
ghost use Rattle.daily.specs.DailyFigures.{figure_ok, over_gross};
ghost use Rattle.daily.specs.Ranges.{Lengths, Rates, Lags, Named, Ready};
ghost use Rattle.daily.specs.Given.{of_lists};
ghost use Rattle.closing.specs.Close as C;
ghost use Rattle.closing.specs.First.{first};
ghost use Rattle.closing.specs.Walk as W;
ghost use Rattle.closing.specs.WholeWalk.{Roomy, Column, Started};

use daily::Figures;
use places::Shape;
use rules::{Refusal, Reply};

// ---- the search behind 12

// An account with no more gross than this, when its dues have moved down, cannot pass its range, whatever its differences.
const FAR_GROSS: u64 = rules::sizes::MOST_GROSS - daily::MOST_ADDED;

// The lowest account whose gross would pass its range: account by account and due by due, on finished dues, left at the first excess. The dues of an
// account that is far from its range are not worked out.
fn first_over(words: &[i64], s: Shape, figures: Figures) -> Option<usize>
    requires ready { Ready figures.prices.now s (get by_account s words.now) }
    requires sized { Sized s words.now }
    requires lags { Lags s.p figures.lags.now }
    ensures { result ≡ first s.n (over_gross figures.entry.prices.now figures.entry.lags.now s (get by_account s words.now)) }
{
    // Left by a label, a form that the paper asks for (docs/DECISIONS.md, "Required forms"): so the account found is kept in a variable.
    let mut found = None;
    'search: for a in 0..s.n {
        if daily::moved_gross(words, s, a) <= FAR_GROSS {
            continue;
        }
        let new = daily::new_dues(words, s, a, figures);
        let mut gross = places::acct_word(words, s, a, places::CASH).unsigned_abs();
        for due in new.iter() {
            gross += due.unsigned_abs();
            let over = gross > rules::sizes::MOST_GROSS;
            if over {
                found = Some(a);
                break 'search;
            }
        }
    }
    found
}

// ---- the writing pass

// The account a's dues move down by one, from the first on, so that each is read before it is overwritten; its margin is 0. The products' walk adds to both.
fn start_account(words: &mut [i64], s: Shape, a: usize)
    requires sized { Sized s words.old }
    requires a_lt_n { a < s.n }
    ensures { words.new ≡ puts by_account s words.old (W.start_puts (get by_account s words.old) a) }
{
    for d in 0..places::DUES {
        let due = daily::next_due(words, s, a, d);
        places::put_acct(words, s, a, places::FIRST_DUE + d, due);
    }
    places::put_acct(words, s, a, places::MARGIN, 0);
}

fn start_accounts(words: &mut [i64], s: Shape)
    requires { Sized s words.old }
    ensures { words.new ≡ puts by_account s words.old (each s.n (W.start_puts (get by_account s words.old))) }
{
    for a in 0..s.n {
        start_account(words, s, a);
    }
}

// What the positions in a product are closed by on this day, read once for all accounts: its kind, its new price, the new yen price of its quote, the
// margin of a lot, and the due that its lag names.
#[derive(Clone, Copy)]
struct Terms {
    kind: i64,
    price: i64,
    quoted: i64,
    single: u64,
    due: usize,
}

// The account a's position in the product j: its difference is added to the due that the lag names, its margin to the account's, and its book is
// lots × price. All is read before it is written: the difference is taken against the book before the close.
fn close_position(words: &mut [i64], s: Shape, a: usize, j: usize, day: Terms)
    requires sized { Sized s words.old }
    requires fair { Fair day.kind (get by_account s words.old (lots a j)) (get by_account s words.old (book a j)) day.price day.quoted }
    requires roomy { Roomy (get by_account s words.old) a day.due }
    requires a_lt_n { (a < s.n) × (j < s.p) × (day.due < dues) × (day.single ≤ most_lot_margin) }
    ensures { words.new ≡ puts by_account s words.old (W.position_puts day.kind day.price day.quoted day.single day.due j (get by_account s words.old) a) }
{
    let lots = places::held_word(words, s, a, j, places::LOTS);
    let book = places::held_word(words, s, a, j, places::BOOK);
    let due = places::acct_word(words, s, a, places::FIRST_DUE + day.due);
    let margin = places::acct_word(words, s, a, places::MARGIN);
    let difference = rules::products::difference_of(day.kind, lots, book, day.price, day.quoted);
    let charge = rules::products::margin_at(lots, day.single) as i64;
    places::put_acct(words, s, a, places::FIRST_DUE + day.due, due + difference);
    places::put_acct(words, s, a, places::MARGIN, margin + charge);
    places::put_held(words, s, a, j, places::BOOK, lots * day.price);
}

// The product j: what belongs to it is read once, for all accounts; then its last price.
fn close_product(words: &mut [i64], s: Shape, j: usize, figures: Figures)
    requires sized { Sized s words.old }
    requires named { Named figures.prices.now s (get by_account s words.old) }
    requires rates { Rates s.p figures.rates8.now figures.rates104.now }
    requires lags { Lags s.p figures.lags.now }
    requires column { Column figures.prices.now figures.lags.now s (get by_account s words.old) j }
    requires j_lt_p { j < s.p }
    ensures { words.new ≡ of_lists figures.entry (W.product_walked by_account s) j words.old }
{
    let terms = Terms {
        kind: places::prod_word(words, s, j, places::PRODUCT_KIND),
        price: figures.prices[j],
        quoted: daily::quoted_at(words, s, j, figures.prices),
        single: daily::single_at(words, s, j, figures),
        due: figures.lags[j].unsigned_abs() as usize,
    };
    for a in 0..s.n {
        close_position(words, s, a, j, terms);
    }
    places::put_prod(words, s, j, places::PRICE, terms.price);
}

fn close_products(words: &mut [i64], s: Shape, figures: Figures)
    requires sized { Sized s words.old }
    requires started { Started figures.prices.now s (get by_account s words.old) }
    requires rates { Rates s.p figures.rates8.now figures.rates104.now }
    requires lags { Lags s.p figures.lags.now }
    ensures { words.new ≡ of_lists figures.entry (W.walked by_account s) s.p words.old }
{
    for j in 0..s.p {
        close_product(words, s, j, figures);
    }
}

fn close_words(words: &mut [i64], s: Shape, figures: Figures)
    requires sized { Sized s words.old }
    requires ready { Ready figures.prices.now s (get by_account s words.old) }
    requires rates { Rates s.p figures.rates8.now figures.rates104.now }
    requires lags { Lags s.p figures.lags.now }
    ensures { words.new ≡ puts by_account s words.old (of_lists figures.entry C.close_puts s (get by_account s words.old)) }
{
    start_accounts(words, s);
    close_products(words, s, figures);
    places::put_head(words, s, places::PHASE, 0);
}

// ---- the call

// The close, where its lists and the phase are right.
fn close_all(words: &mut [i64], s: Shape, figures: Figures) -> Result<i64, Refusal>
    requires ledger { Ledger by_account s words.old }
    requires lengths { Lengths s.p figures.prices.now figures.rates8.now figures.rates104.now figures.lags.now }
    requires words_value { all s.p (of_lists figures figure_ok (get by_account s words.old)) ≡ true }
    ensures { (answer_of result, words.new) ≡ finish by_account s words.old (of_lists figures.entry C.closing s (get by_account s words.old)) }
{
    if let Some(a) = first_over(words, s, figures) {
        return Err(Refusal::AccountTooLarge(a as i64));
    }
    close_words(words, s, figures);
    Ok(0)
}

// The close of a ledger that is known to be sound: its own tests, lowest number first.
pub fn close_in(words: &mut [i64], s: Shape, figures: Figures) -> Result<i64, Refusal>
    requires { Ledger by_account s words.old }
    ensures { (answer_of result, words.new) ≡ finish by_account s words.old (of_lists figures.entry C.close_rule s (get by_account s words.old)) }
{
    if !daily::lengths_ok(s.p, figures) {
        return Err(Refusal::Lists);
    }
    if places::head_word(words, s, places::PHASE) != (s.n + 1) as i64 {
        return Err(Refusal::WrongPhase);
    }
    if !daily::lists_ok(words, s, figures) {
        return Err(Refusal::OutOfRange);
    }
    close_all(words, s, figures)
}

// The close of a day, with the new price, the two rates and the lag of each product: four lists, as the C interface has them.
pub fn close(
    words: &mut [i64],
    prices: &[i64],
    rates8: &[i64],
    rates104: &[i64],
    lags: &[i64],
) -> Reply
    ensures { (result, words.new) ≡ perform by_account words.old (C.close_rule prices.now rates8.now rates104.now lags.now) }
{
    let Some(s) = soundness::sound_shape(words) else {
        return Reply::from(Err(Refusal::Unsound));
    };
    let figures = Figures {
        prices,
        rates8,
        rates104,
        lags,
    };
    Reply::from(close_in(words, s, figures))
}
