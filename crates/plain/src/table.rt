// The table of contents: its six lines (01, "The day file and the sheet").
use super::sections::Section;
use faults::figures;
use faults::page::Page;
use std::fmt;
use std::fmt::Write;

pub const LINES: usize = 6;

// What has to stand in a line of the table.
pub fn must(number: usize) -> &'static str {
    match number {
        1 => "line 1: FXDAY must stand here, alone",
        2 => "line 2: PRODUCTS and a count of 1 to 16 must stand here",
        3 => "line 3: ACCOUNTS and a count of 1 to 64 must stand here",
        4 => "line 4: POSITIONS and a count of 0 or more must stand here",
        5 => "line 5: CALLS and a count of 0 to 1000 must stand here",
        _ => "line 6: END must stand here, alone",
    }
}

// The section whose count a line of the table states.
fn section_of(number: usize) -> Option<Section> {
    match number {
        2 => Some(Section::Products),
        3 => Some(Section::Accounts),
        4 => Some(Section::Positions),
        5 => Some(Section::Calls),
        _ => None,
    }
}

// What stands behind the word of a line with a count.
fn behind_title(line: &[u8], number: usize) -> Option<&[u8]> {
    let title = section_of(number)?.title();
    line.strip_prefix(title.as_bytes())?.strip_prefix(b" ")
}

// What is wrong with a line of the table: its word, its figure, or how large that is.
pub fn say(page: &mut Page, line: &[u8], number: usize) -> fmt::Result {
    if let Some(count) = behind_title(line, number)
        && let Some(fault) = figures::first_fault(count, 1)
    {
        return write!(page, "line {number}{fault}");
    }
    page.write_str(must(number))
}
