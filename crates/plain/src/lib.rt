// What a person is told beside the sheet, in plain words on standard error: of a bad text what is wrong with it and what to write instead, of a
// good one which calls were refused and why. It is read off the text and its sheet, which say what is bad or refused (01); nothing here decides that.
// Proved to be safe, to end, and to keep within the bytes that it is lent; what it says is tried by the program `texts`.
#![tactic(auto)]

ghost use Rattle.std.specs.Prelude.{◌≤◌, length};
ghost use Rattle.places.specs.Act.{most_products};

use dayfile::Contents;
use faults::marks;
use faults::page::Page;
use lines::LONGEST;
use std::fmt;
use std::fmt::Write;

mod bodies;
mod ranges;
mod refusals;
mod sections;
mod start;
mod table;

// A text, and what its table of contents says: no more products than a ledger has.
#[derive(Clone, Copy)]
struct Day<'a> {
    text: &'a [u8],
    contents: Contents,
    ghost few: { contents.products ≤ most_products },
}

impl<'a> Day<'a> {
    fn new(text: &'a [u8]) -> Day<'a> {
        let contents = dayfile::read_contents(text);
        Day { text, contents }
    }

    // A line by its number, the first being 1, with the line feed that ends it; nothing, where the text has no such line.
    fn line(self, number: usize) -> Option<&'a [u8]> {
        self.text
            .split_inclusive(|b| *b == b'\n')
            .nth(number.saturating_sub(1))
    }
}

// How the file is saved, where it is not saved as plain text: as UTF-16, with a mark at its start or a byte 0 beside its first letter; or with a byte order
// mark.
fn saved_otherwise(text: &[u8]) -> Option<&'static str> {
    match *text {
        [0xFF, 0xFE, ..] | [0xFE, 0xFF, ..] | [0, _, ..] | [_, 0, ..] => Some(
            "line 1: the file is saved as UTF-16: save it as plain text, ASCII or UTF-8 without a byte order mark",
        ),
        [0xEF, 0xBB, 0xBF, ..] => Some(
            "line 1: a byte order mark stands before FXDAY: save the file as UTF-8 without a byte order mark",
        ),
        _ => None,
    }
}

// A line that is there: its bytes, its end, what it has to be.
fn say_line(page: &mut Page, day: Day, line: &[u8], number: usize) -> fmt::Result {
    if let Some(fault) = marks::first_fault(line.strip_suffix(b"\n").unwrap_or(line)) {
        return write!(page, "line {number}{fault}");
    }
    if !line.ends_with(b"\n") {
        return write!(
            page,
            "line {number}: the last line does not end in a line feed: press Enter at its end"
        );
    }
    if number <= table::LINES {
        return table::say(page, line, number);
    }
    bodies::say(page, day, line, number)
}

// What is wrong with the first bad line of a text, by its number; 0 where no line is bad, but the ledger that the text states.
fn say_bad(page: &mut Page, day: Day, number: usize) -> fmt::Result {
    if number == 0 {
        return start::say(page, day);
    }
    if day.text.is_empty() {
        return page.write_str("line 1: the file is empty");
    }
    if let Some(saved) = saved_otherwise(day.text) {
        return page.write_str(saved);
    }
    match day.line(number) {
        Some(line) => say_line(page, day, line, number),
        None if number <= table::LINES => page.write_str(table::must(number)),
        None => bodies::say_missing(page, day, number),
    }
}

// What is to be told of a text, by its sheet.
fn say(page: &mut Page, text: &[u8], sheet: &[u8]) -> fmt::Result {
    if let Some(bad) = sheet.strip_prefix(b"BAD ") {
        if text.len() > LONGEST {
            return page.write_str("the text is longer than 65536 bytes\n");
        }
        let number = lines::field_at(bad, 0, b'\n').value.unsigned_abs() as usize;
        say_bad(page, Day::new(text), number)?;
        return page.write_str("\n");
    }
    match sheet.strip_prefix(b"FXSHEET\n") {
        Some(replies) => refusals::say(page, Day::new(text), replies),
        None => Ok(()),
    }
}

// What is to be told of a text, by its sheet, at the start of `out`, which the caller lends, since nothing here asks for memory; and its length, 0 where there is nothing to tell. What has no room is cut:
// 512 bytes hold what is wrong with a bad text, and 262,144 every refused call of any.
pub fn tell(text: &[u8], sheet: &[u8], out: &mut [u8]) -> usize
    ensures { result ≤ length out.new }
{
    let mut page = Page::new(out);
    // where there is no room for all of it, the page holds what there is room for
    let _ = say(&mut page, text, sheet);
    page.bytes().len().min(out.len())
}
