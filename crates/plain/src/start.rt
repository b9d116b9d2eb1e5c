// A ledger that a text states and that is not sound: the clause that fails first, found by `clauses`, with the line of the text that it speaks of.
ghost use Rattle.std.specs.Prelude.{◌≡◌, pos, replicate};
ghost use Rattle.places.specs.Place.{words_of};
ghost use Rattle.places.specs.Act.{most_words};
ghost use Rattle.dayfile.specs.InsideDayfile.{Modest};
ghost use Rattle.dayfile.specs.Table.{ledger_shape};

use super::ranges::Ranged;
use super::sections::Section;
use super::{Day, bodies, ranges};
use clauses::{Clause, Failing};
use dayfile::Contents;
use faults::page::Page;
use places::Shape;
use rules::sizes;
use std::fmt;
use std::fmt::Write;

// What fails first, by way of words that are all 0.
fn failing_in(text: &[u8], c: Contents, words: &mut [i64]) -> Option<Failing>
    requires { (Modest c) × (words.old ≡ replicate (words_of (ledger_shape c)) (pos 0)) }
{
    dayfile::bodies_into(text, c, words);
    clauses::first_failing(words)
}

// The same, by way of words for the largest ledger.
fn failing_by(text: &[u8], words: &mut [i64]) -> Option<Failing>
    requires { words.old ≡ replicate most_words (pos 0) }
{
    let c = dayfile::read_contents(text);
    let s = Shape {
        n: c.accounts,
        p: c.products,
    };
    let len = places::words_of(s);
    failing_in(text, c, &mut words[..len])
}

// ---- in words

// A figure that is out of its range: `line 8, figure 2: the guarantee is 5 and must be 0 to 7`
fn say_ranged(page: &mut Page, number: usize, nth: usize, ranged: Ranged) -> fmt::Result {
    write!(page, "line {number}, figure {nth}: {ranged}")
}

// A product's mark, price, or the two that a cross names.
fn say_product(page: &mut Page, day: Day, failing: Failing) -> fmt::Result {
    let number = Section::Products.line_number(day.contents, failing.product);
    let figure = failing.figure;
    match failing.clause {
        Clause::Mark => {
            let mark = Ranged {
                name: "the floor mark",
                figure,
                least: 0,
                most: 1,
            };
            say_ranged(page, number, 1, mark)
        }
        Clause::Price => {
            let kind = ranges::kind_of(day, failing.product);
            say_ranged(page, number, 2, ranges::price(kind, figure))
        }
        _ => write!(
            page,
            "line {number}: a cross names two different yen products of lower number, its principal's and its quote's"
        ),
    }
}

// A guarantee or cap: an L has none.
fn say_guarantee(
    page: &mut Page,
    day: Day,
    number: usize,
    nth: usize,
    guarantee: Ranged,
) -> fmt::Result {
    match day.line(number) {
        Some(line) if line.starts_with(b"L") => write!(
            page,
            "line {number}: an L has guarantee and cap 0"
        ),
        _ => say_ranged(page, number, nth, guarantee),
    }
}

// An account's guarantee, cap, initial margin or gross.
fn say_account(page: &mut Page, day: Day, failing: Failing) -> fmt::Result {
    let number = Section::Accounts.line_number(day.contents, failing.account);
    let figure = failing.figure;
    match failing.clause {
        Clause::Guarantee => {
            let guarantee = Ranged {
                name: "the guarantee",
                figure,
                least: 0,
                most: sizes::MOST_GUARANTEE,
            };
            say_guarantee(page, day, number, 2, guarantee)
        }
        Clause::Cap => {
            let cap = Ranged {
                name: "the cap",
                figure,
                least: 0,
                most: sizes::MOST_GUARANTEE,
            };
            say_guarantee(page, day, number, 3, cap)
        }
        Clause::Margin => {
            let margin = Ranged {
                name: "the initial margin",
                figure,
                least: 0,
                most: sizes::MOST_MARGIN,
            };
            say_ranged(page, number, 4, margin)
        }
        _ => write!(
            page,
            "line {number}: cash and the three dues, each without its sign, add to more than {}",
            sizes::MOST_GROSS
        ),
    }
}

// A position's lots or book.
fn say_position(page: &mut Page, day: Day, failing: Failing) -> fmt::Result {
    let Some(number) = bodies::stated_line(day, failing.account, failing.product) else {
        return Ok(());
    };
    let figure = failing.figure;
    if failing.clause == Clause::Lots {
        let lots = Ranged {
            name: "the number of lots",
            figure,
            least: -sizes::MOST_LOTS,
            most: sizes::MOST_LOTS,
        };
        return say_ranged(page, number, 3, lots);
    }
    let most = rules::products::most_book(ranges::kind_of(day, failing.product)) as i64;
    let book = Ranged {
        name: "the book",
        figure,
        least: -most,
        most,
    };
    say_ranged(page, number, 4, book)
}

// What is not sound, of a text whose lines are good: of a product, an account or a position, on its line; of a product whose lots do not add to zero; or
// what no day file states.
pub fn say(page: &mut Page, day: Day) -> fmt::Result {
    let mut words = [0i64; places::MOST_WORDS];
    let Some(failing) = failing_by(day.text, &mut words) else {
        return page.write_str("the ledger that the text states is not sound");
    };
    match failing.clause {
        Clause::Mark | Clause::Price | Clause::Pair => say_product(page, day, failing),
        Clause::Guarantee | Clause::Cap | Clause::Margin | Clause::Gross => say_account(
            page, day, failing,
        ),
        Clause::Lots | Clause::Book => say_position(page, day, failing),
        Clause::Balance => {
            let product = failing.product;
            let sum = failing.figure;
            write!(
                page,
                "product {product}: its lots add to {sum} over the accounts, not 0"
            )
        }
        _ => page.write_str("the ledger that the text states is not sound"),
    }
}
