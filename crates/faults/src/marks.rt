// Bytes that no line of a day file has: whatever else is wrong with the line, they have to go. A file that was typed or saved by other habits
// has them: Windows line ends, tabs, commas in numbers, a space too many.
ghost use Rattle.std.specs.Prelude.{◌<◌, length, IfSome};
ghost use Rattle.faults.specs.Marks.{IsWithin};

use super::commas;
use std::fmt;

// What is wrong with the bytes of a line: with all of it, or with one, by its column, counted from 1.
#[derive(Clone, Copy)]
pub enum Fault<'a> {
    Line(&'static str),
    Byte { column: usize, wrong: Wrong<'a> },
}

// What is the matter with a byte that may not stand where it does. Where the words are not all, of `Small` the capital to write, of `Commas` the number
// that is meant, of `NotWhole` what stands in a number, of `Foreign` the byte.
#[derive(Clone, Copy)]
pub enum Wrong<'a> {
    Words(&'static str),
    Small(char),
    Commas(&'a [u8]),
    NotWhole(&'static str),
    Foreign(char),
}

// `: a blank line: take it away`, or `, column 6: a tab: write one space`
impl fmt::Display for Fault<'_> {
    fn fmt<W: fmt::Write>(&self, f: &mut fmt::Formatter<W>) -> fmt::Result {
        match *self {
            Fault::Line(words) => write!(f, ": {words}"),
            Fault::Byte { column, wrong } => write!(f, ", column {column}: {wrong}"),
        }
    }
}

impl fmt::Display for Wrong<'_> {
    fn fmt<W: fmt::Write>(&self, f: &mut fmt::Formatter<W>) -> fmt::Result {
        match *self {
            Wrong::Words(words) => f.write_str(words),
            Wrong::Small(capital) => write!(f, "a lower-case letter: write {capital}"),
            Wrong::Commas(number) => write_without_commas(f, number),
            Wrong::NotWhole(mark) => write!(
                f,
                "a {mark} in a number: figures are whole: 800000 yen, a price of 150.25 as 1502500, a rate of 3.55 % as 355"
            ),
            Wrong::Foreign(b) => write!(
                f,
                "{b} stands in no line of a day file: write one space where it parts two figures, else take it away"
            ),
        }
    }
}

fn write_without_commas<W: fmt::Write>(f: &mut fmt::Formatter<W>, number: &[u8]) -> fmt::Result {
    f.write_str("a comma in a number: write ")?;
    for b in number.iter().filter(|b| **b != b',') {
        f.write_char(char::from(*b))?;
    }
    Ok(())
}

// ---- where a byte may stand

// Whether a space stands first or last in its line, or before another.
fn is_idle(line: &[u8], at: usize) -> bool
    requires { at < length line.now }
{
    at == 0 || at + 1 == line.len() || line[at + 1] == b' '
}

// Of the bytes that a line may have, a space parts two figures; a plus sign is left to the number that it stands in.
fn stands_wrong(line: &[u8], at: usize) -> bool
    requires { at < length line.now }
{
    match line[at] {
        b' ' => is_idle(line, at),
        b'0'..=b'9' | b'A'..=b'Z' | b'-' | b'+' => false,
        _ => true,
    }
}

// The first byte of a line that may not stand where it does.
fn first_wrong(line: &[u8]) -> Option<usize>
    ensures { IfSome result (λ at. at < length line.now) }
{
    for at in 0..line.len() {
        if stands_wrong(line, at) {
            return Some(at);
        }
    }
    None
}

// ---- what is said of each

// Whether nothing but spaces and tabs stands in bytes.
fn is_blank(bytes: &[u8]) -> bool {
    bytes.iter().all(|b| matches!(*b, b' ' | b'\t'))
}

// A space or tab that may not stand where it does.
fn gap(b: u8, first: bool, last: bool) -> &'static str {
    match (b, first, last) {
        (b' ', _, true) => "a space at the end of the line: take it away",
        (_, _, true) => "a tab at the end of the line: take it away",
        (b' ', true, false) => "a space at the start of the line: take it away",
        (b' ', false, false) => "two spaces together: write one",
        _ => "a tab: write one space",
    }
}

// A lower-case letter: the first of its line, one of a word of the table of contents, or one where a figure has to stand.
fn small(b: u8, at: usize, start: usize) -> Wrong<'static> {
    if start > 0 {
        return Wrong::Words(
            "a letter where a figure has to stand: write the whole number in digits",
        );
    }
    if at > 0 {
        return Wrong::Words("a lower-case letter: write the word in capitals");
    }
    Wrong::Small(char::from(b.to_ascii_uppercase()))
}

// A byte that is part of no plain character, by it and the next.
fn not_plain(b: u8, next: u8) -> &'static str {
    match (b, next) {
        (0xC2, 0xA0) => "a no-break space: write a plain one",
        (0xEF, 0xBB) => "a byte order mark within the text: take it away",
        (0xEF, 0xBC) | (0xE3, 0x80) =>
            "a full-width character: write it half-width, as plain ASCII",
        _ =>
            "a character that is not plain ASCII: write digits, capitals and spaces alone, and for a minus -",
    }
}

// A byte of plain ASCII that no line has.
fn foreign(b: u8) -> Wrong<'static> {
    match b {
        b'%' => Wrong::Words(
            "a percent sign: a rate is in hundredths of a percent, and 4 % is written 400",
        ),
        b'(' | b')' => Wrong::Words(
            "a bracket: a figure below 0 is written with a minus before it, as -45213",
        ),
        0..=31 | 127 => Wrong::Words(
            "a control character: take it away, or save the file as plain text",
        ),
        _ => Wrong::Foreign(char::from(b)),
    }
}

// What is the matter with a byte that may not stand where it does.
fn wrong_at(line: &[u8], at: usize) -> Wrong<'_>
    requires { at < length line.now }
{
    let b = line[at];
    if b == b',' {
        return commas::comma(line, at);
    }
    match b {
        b' ' | b'\t' => Wrong::Words(gap(b, at == 0, is_blank(&line[at..]))),
        b'.' => commas::point(line, at),
        b'a'..=b'z' => small(b, at, commas::field_start(line, at)),
        128..=255 => Wrong::Words(not_plain(b, lines::byte_at(line, at + 1))),
        _ => foreign(b),
    }
}

// What is wrong with the bytes of a line, its line feed left out.
pub fn first_fault(line: &[u8]) -> Option<Fault<'_>>
    ensures { IfSome result (IsWithin line.now) }
{
    if is_blank(line) {
        return Some(Fault::Line("a blank line: take it away"));
    }
    if line.ends_with(b"\r") {
        return Some(Fault::Line(
            "a carriage return ends the line: save the file with Unix line ends, a line feed alone",
        ));
    }
    let at = first_wrong(line)?;
    Some(Fault::Byte {
        column: at + 1,
        wrong: wrong_at(line, at),
    })
}
