// The ledger's calls, as the sheet makes them: the one place that knows which ledger it is. The start is judged sound once; after that
// every call and every question runs on words that are proved sound, by the functions behind the gate.
#![tactic(auto)]

ghost use Rattle.std.specs.Prelude.{◌≡◌};
ghost use Rattle.rules.specs.Refusal.{answer_of};
ghost use Rattle.places.specs.ByAccount.{by_account};
ghost use Rattle.soundness.specs.SoundLaws.{Ledger};
ghost use Rattle.dayfile.specs.CallLines.{call_of};
ghost use Rattle.calls.specs.InsideCalls.{guarantee_by, trade_by, close_by};
ghost use Rattle.calls.specs.Ledger.{the_ledger};

use daily::Figures;
use dayfile::figure_at;
use ledger::{requests, settlement, trading};
use places::{MOST_PRODUCTS, Shape};
use rules::{Refusal, Standing};

pub fn is_sound(words: &[i64]) -> bool
    ensures { result ≡ the_ledger.sound words.now }
{
    soundness::sound(words)
}

// The call of a letter and its figures.
pub fn act(words: &mut [i64], s: Shape, letter: u8, figures: &[i64]) -> Result<i64, Refusal>
    requires { Ledger by_account s words.old }
    ensures { (answer_of result, words.new) ≡ the_ledger.perform (call_of s.p letter figures.now) words.old }
{
    match letter {
        b'D' => requests::deposit_in(words, s, figure_at(figures, 0), figure_at(figures, 1)),
        b'W' => requests::withdraw_in(words, s, figure_at(figures, 0), figure_at(figures, 1)),
        b'G' => guarantee(words, s, figures),
        b'B' => settlement::begin_in(words, s),
        b'S' => settlement::step_in(words, s),
        b'T' => trade(words, s, figures),
        b'C' => close(words, s, figures),
        _ => Ok(0),
    }
}

// A guarantee call by its figures.
fn guarantee(words: &mut [i64], s: Shape, figures: &[i64]) -> Result<i64, Refusal>
    requires { Ledger by_account s words.old }
    ensures { (answer_of result, words.new) ≡ the_ledger.perform (guarantee_by figures.now) words.old }
{
    let account = figure_at(figures, 0);
    requests::guarantee_in(
        words,
        s,
        account,
        figure_at(figures, 1),
        figure_at(figures, 2),
    )
}

// A trade by its figures.
fn trade(words: &mut [i64], s: Shape, figures: &[i64]) -> Result<i64, Refusal>
    requires { Ledger by_account s words.old }
    ensures { (answer_of result, words.new) ≡ the_ledger.perform (trade_by figures.now) words.old }
{
    let buyer = figure_at(figures, 0);
    let seller = figure_at(figures, 1);
    let product = figure_at(figures, 2);
    let lots = figure_at(figures, 3);
    let price = figure_at(figures, 4);
    trading::trade_in(words, s, buyer, seller, product, lots, price)
}

// A close takes its four lists from the columns of the figures.
fn close(words: &mut [i64], s: Shape, figures: &[i64]) -> Result<i64, Refusal>
    requires { Ledger by_account s words.old }
    ensures { (answer_of result, words.new) ≡ the_ledger.perform (close_by s.p figures.now) words.old }
{
    let mut prices = [0i64; MOST_PRODUCTS];
    let mut rates8 = [0i64; MOST_PRODUCTS];
    let mut rates104 = [0i64; MOST_PRODUCTS];
    let mut lags = [0i64; MOST_PRODUCTS];
    dayfile::column_into(figures, 0, s.p, &mut prices);
    dayfile::column_into(figures, 1, s.p, &mut rates8);
    dayfile::column_into(figures, 2, s.p, &mut rates104);
    dayfile::column_into(figures, 3, s.p, &mut lags);
    let lists = Figures {
        prices: &prices[..s.p],
        rates8: &rates8[..s.p],
        rates104: &rates104[..s.p],
        lags: &lags[..s.p],
    };
    closing::close_in(words, s, lists)
}

// What an account may withdraw, and what it falls short of.
pub fn question(words: &[i64], s: Shape, a: i64) -> Standing
    requires { Ledger by_account s words.now }
    ensures { result ≡ the_ledger.question a words.now }
{
    requests::question_in(words, s, a)
}
