// The lines behind the table of contents: what is wrong with one as a line of its section.
use super::sections::Section;
use super::{Day, sections};
use faults::figures;
use faults::figures::Fault;
use faults::page::Page;
use std::fmt;
use std::fmt::Write;

// What is wrong with the figures of a line.
fn say_figures(page: &mut Page, number: usize, figures: &[u8], must: usize) -> fmt::Result {
    match figures::first_fault(figures, must) {
        Some(fault) => write!(page, "line {number}{fault}"),
        None => Ok(()),
    }
}

// A product: Y and two figures, X and four.
fn say_product(page: &mut Page, line: &[u8], number: usize) -> fmt::Result {
    if let Some(figures) = line.strip_prefix(b"Y ") {
        return say_figures(page, number, figures, 2);
    }
    if let Some(figures) = line.strip_prefix(b"X ") {
        return say_figures(page, number, figures, 4);
    }
    write!(
        page,
        "line {number}: a product line starts with Y or X and a space"
    )
}

// An account: F or L and its figures.
fn say_account(page: &mut Page, line: &[u8], number: usize) -> fmt::Result {
    match line.strip_prefix(b"F ").or(line.strip_prefix(b"L ")) {
        Some(figures) => say_figures(page, number, figures, dayfile::ACCOUNT_FIGURES),
        None => write!(
            page,
            "line {number}: an account line starts with F or L and a space"
        ),
    }
}

// A call: its letter, then its figures. A letter that has none stands alone.
fn say_call(page: &mut Page, day: Day, line: &[u8], number: usize) -> fmt::Result {
    let Some(must) = dayfile::figures_of(day.contents.products, lines::byte_at(line, 0)) else {
        return write!(
            page,
            "line {number}: a call line starts with D, W, G, B, S, T or C"
        );
    };
    match lines::byte_at(line, 1) {
        b'\n' => {
            let fault = Fault::Count { has: 0, must };
            write!(page, "line {number}{fault}")
        }
        b' ' if must == 0 => write!(page, "line {number}: nothing may follow B or S in its line"),
        b' ' => say_figures(page, number, line.get(2..).unwrap_or(&[]), must),
        _ => write!(
            page,
            "line {number}: a call line starts with one letter alone: D, W, G, B, S, T or C"
        ),
    }
}

// ---- positions

// Whether a position's line starts with the numbers of an account and a product.
fn is_of(line: &[u8], account: usize, product: usize) -> bool {
    let a = lines::field_at(line, 0, b' ');
    let j = lines::field_at(line, a.next, b' ');
    a.value.unsigned_abs() as usize == account && j.value.unsigned_abs() as usize == product
}

// The number of the line that states a position first.
pub fn stated_line(day: Day, account: usize, product: usize) -> Option<usize> {
    let i = day
        .text
        .split_inclusive(|b| *b == b'\n')
        .skip(Section::Positions.lines_before(day.contents))
        .position(|line| is_of(line, account, product))?;
    Some(Section::Positions.line_number(day.contents, i))
}

// A position whose four figures can be read: of an account and a product that there are, once.
fn say_position(page: &mut Page, day: Day, line: &[u8], number: usize) -> fmt::Result {
    let n = day.contents.accounts;
    let p = day.contents.products;
    let a = lines::field_at(line, 0, b' ');
    let account = a.value;
    let product = lines::field_at(line, a.next, b' ').value;
    let Some(a) = whole::index_of(account, n) else {
        return write!(
            page,
            "line {number}, figure 1: ACCOUNTS says {n}, so there is no account {account} (they count from 0)"
        );
    };
    let Some(j) = whole::index_of(product, p) else {
        return write!(
            page,
            "line {number}, figure 2: PRODUCTS says {p}, so there is no product {product} (they count from 0)"
        );
    };
    match stated_line(day, a, j) {
        Some(before) => write!(
            page,
            "line {number}: this account's position in this product was stated before, in line {before}"
        ),
        None => Ok(()),
    }
}

// ---- all of it

// A position line: its figures, then what they name.
fn say_holding(page: &mut Page, day: Day, line: &[u8], number: usize) -> fmt::Result {
    if sections::has_capital(line) {
        return write!(
            page,
            "line {number}: a position line has no letter: it is account, product, lots and book"
        );
    }
    match figures::first_fault(line, 4) {
        Some(fault) => write!(page, "line {number}{fault}"),
        None => say_position(page, day, line, number),
    }
}

// A line as one of the section that the table states there.
fn say_of(page: &mut Page, day: Day, section: Section, line: &[u8], number: usize) -> fmt::Result {
    match section {
        Section::Products => say_product(page, line, number),
        Section::Accounts => say_account(page, line, number),
        Section::Positions => say_holding(page, day, line, number),
        Section::Calls => say_call(page, day, line, number),
    }
}

// A line behind the last call.
fn say_behind(page: &mut Page, day: Day, looks: Option<Section>, number: usize) -> fmt::Result {
    if let Some(looks) = looks {
        return sections::say_more(page, number, looks, looks.count(day.contents));
    }
    let calls = day.contents.calls;
    write!(
        page,
        "line {number}: CALLS says {calls}, and the text goes on behind them"
    )
}

// A line behind the table of contents: whether it looks like a line of another section, else what is wrong with it in its own.
pub fn say(page: &mut Page, day: Day, line: &[u8], number: usize) -> fmt::Result {
    let looks = sections::looks_like(line);
    let Some(slot) = sections::slot_of(day.contents, number) else {
        return say_behind(page, day, looks, number);
    };
    match looks {
        Some(looks) if looks < slot.section => {
            sections::say_more(page, number, looks, looks.count(day.contents))
        }
        Some(looks) if looks > slot.section => sections::say_early(page, number, slot, looks),
        _ => say_of(page, day, slot.section, line, number),
    }
}

// A line that the table states and the text does not have.
pub fn say_missing(page: &mut Page, day: Day, number: usize) -> fmt::Result {
    match sections::slot_of(day.contents, number) {
        Some(slot) => {
            sections::say_slot(page, number, slot)?;
            page.write_str("but the text ends before it")
        }
        None => Ok(()),
    }
}
