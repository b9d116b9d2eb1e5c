// Numbers, and how many of them a line has (01: "no plus sign, no leading zeros, no -0").
ghost use Rattle.std.specs.Prelude.{◌≡◌, ◌≢◌, Some};
ghost use Rattle.faults.specs.Fields.{fields};
ghost use Rattle.faults.specs.declared.figures.Fault.TheVariants as Fault;

use lines::LOST;
use std::fmt;

// What is wrong with the figures of a line: how many there are, or one that can not be read, counted from 1.
#[derive(Clone, Copy)]
pub enum Fault {
    Count { has: usize, must: usize },
    Figure { nth: usize, why: &'static str },
}

// `: the number of figures is 3 and must be 4`, or `, figure 2: a number has a leading zero: write it without`
impl fmt::Display for Fault {
    fn fmt<W: fmt::Write>(&self, f: &mut fmt::Formatter<W>) -> fmt::Result {
        match *self {
            Fault::Count { has, must } => write!(
                f,
                ": the number of figures is {has} and must be {must}"
            ),
            Fault::Figure { nth, why } => write!(f, ", figure {nth}: {why}"),
        }
    }
}

// ---- one figure

// Why no number can be read, by the first byte of its digits.
fn why_digits(lead: u8) -> &'static str {
    match lead {
        b'0' => "a number has a leading zero: write it without",
        b'1'..=b'9' => "a number is too large: none may pass 9223372036854775807",
        _ => "a figure is written in digits alone, with - before them where it is below 0",
    }
}

// The same behind a minus, by the two bytes there.
fn why_minus(lead: u8, next: u8) -> &'static str {
    if lead == b'0' && !next.is_ascii_digit() {
        return "a number is -0: write 0";
    }
    why_digits(lead)
}

// The same at the start of a figure.
fn why_number(figure: &[u8]) -> &'static str {
    match lines::byte_at(figure, 0) {
        b'-' => why_minus(lines::byte_at(figure, 1), lines::byte_at(figure, 2)),
        b'+' => "a number has a plus sign: write it without",
        lead => why_digits(lead),
    }
}

// Why a figure can not be read: its number, or what stands behind that.
fn why(figure: &[u8]) -> &'static str {
    match lines::number_at(figure, 0) {
        None => why_number(figure),
        Some(_) => why_digits(b' '),
    }
}

// ---- all of them

// How many fields stand in a line.
pub fn fields(line: &[u8]) -> usize
    ensures { result ≡ fields line.now }
{
    line.iter().filter(|b| **b == b' ').count() + 1
}

// The first figure that can not be read, of those that stand up to the line's end.
fn unread(figures: &[u8], must: usize) -> Option<Fault> {
    let mut at = 0;
    for i in 0..must {
        let next = lines::field_at(figures, at, lines::close_of(must - i - 1)).next;
        if next == LOST {
            return Some(Fault::Figure {
                nth: i + 1,
                why: why(figures.get(at..).unwrap_or(&[])),
            });
        }
        at = next;
    }
    None
}

// What is the matter with `must` figures up to the line's end: how many there are, before what each of them is, since a number that is parted by a
// space is two.
pub fn first_fault(figures: &[u8], must: usize) -> Option<Fault>
    ensures { fields figures.now ≢ must → result ≡ Some (Fault.Count (fields figures.now) must) }
{
    let has = fields(figures);
    if has != must {
        return Some(Fault::Count { has, must });
    }
    unread(figures, must)
}
