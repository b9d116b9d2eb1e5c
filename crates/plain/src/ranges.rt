// A figure that is out of its range, in words, of a line or of a call; and which of the figures of a trade or of a close it is (01, "Numbers returned",
// 8).
use super::Day;
use super::sections::Section;
use faults::page::Page;
use rules::{products, sizes};
use std::fmt;
use std::fmt::Write;

// A figure by its name, and its range.
#[derive(Clone, Copy)]
pub struct Ranged {
    pub name: &'static str,
    pub figure: i64,
    pub least: i64,
    pub most: i64,
}

impl Ranged {
    fn is_within(&self) -> bool {
        (self.least..=self.most).contains(&self.figure)
    }
}

// `the guarantee is -5 and must be 0 to 1000000000000`
impl fmt::Display for Ranged {
    fn fmt<W: fmt::Write>(&self, f: &mut fmt::Formatter<W>) -> fmt::Result {
        let Ranged {
            name,
            figure,
            least,
            most,
        } = *self;
        write!(f, "{name} is {figure} and must be {least} to {most}")
    }
}

// A price, by its product's kind.
pub fn price(kind: i64, figure: i64) -> Ranged {
    let name = if products::is_yen(kind) {
        "the price of a yen product (Y)"
    } else {
        "the price of a cross (X)"
    };
    let most = products::most_price(kind);
    Ranged {
        name,
        figure,
        least: 1,
        most,
    }
}

// The kind that a product's line states: 1 for a cross, 0 for a yen product.
pub fn kind_of(day: Day, product: usize) -> i64 {
    match day.line(Section::Products.line_number(day.contents, product)) {
        Some(line) if line.starts_with(b"X") => 1,
        _ => 0,
    }
}

// ---- a trade

// Its lots, else its price: account, account and product come before them.
fn say_trade(page: &mut Page, day: Day, figures: &[i64; dayfile::MOST_FIGURES]) -> fmt::Result {
    let lots = Ranged {
        name: "the number of lots",
        figure: figures[3],
        least: 1,
        most: sizes::MOST_LOTS,
    };
    if !lots.is_within() {
        return write!(page, "{lots}");
    }
    let product = figures[2].unsigned_abs() as usize;
    let price = price(kind_of(day, product), figures[4]);
    write!(page, "product {product}: {price}")
}

// ---- a close

// How many figures a close has of each product: its price, its two rates, its lag.
const OF_PRODUCT: usize = 4;

const LAST_LAG: i64 = places::DUES as i64 - 1;

// A figure of a close, by its place among those of its product.
fn of_close(kind: i64, place: usize, figure: i64) -> Ranged {
    let (name, least, most) = match place {
        0 => return price(kind, figure),
        1 => ("the 8-week rate", 1, sizes::MOST_RATE),
        2 => ("the 104-week rate", 1, sizes::MOST_RATE),
        _ => ("the lag", 0, LAST_LAG),
    };
    Ranged {
        name,
        figure,
        least,
        most,
    }
}

// The first figure of a product that is out of its range.
fn first_outside(kind: i64, figures: &[i64]) -> Option<Ranged> {
    figures
        .iter()
        .enumerate()
        .map(|(place, figure)| of_close(kind, place, *figure))
        .find(|ranged| !ranged.is_within())
}

// `product 1: the lag is 3 and must be 0 to 2`
fn say_close(page: &mut Page, day: Day, figures: &[i64]) -> fmt::Result {
    for (product, of_product) in figures.chunks(OF_PRODUCT).enumerate() {
        let kind = kind_of(day, product);
        if let Some(ranged) = first_outside(kind, of_product) {
            return write!(page, "product {product}: {ranged}");
        }
    }
    Ok(())
}

// The first figure of a trade or of a close that is out of its range, in the order of its line.
pub fn say_first(page: &mut Page, day: Day, call: &[u8]) -> fmt::Result {
    let mut figures = [0i64; dayfile::MOST_FIGURES];
    dayfile::call_line(call, day.contents.products, 0, &mut figures);
    if call.starts_with(b"T") {
        return say_trade(page, day, &figures);
    }
    say_close(page, day, &figures)
}
