// The sections behind the table of contents: which one a line stands in by the counts, which one it looks like, and what is told where the two are
// not the same.
use super::table;
use dayfile::Contents;
use faults::figures;
use faults::page::Page;
use std::fmt;
use std::fmt::Write;

// The sections, in their order.
#[derive(Clone, Copy, PartialEq, Eq, PartialOrd, Ord)]
pub enum Section {
    Products,
    Accounts,
    Positions,
    Calls,
}

impl Section {
    // The word that states its count.
    pub fn title(self) -> &'static str {
        match self {
            Section::Products => "PRODUCTS",
            Section::Accounts => "ACCOUNTS",
            Section::Positions => "POSITIONS",
            Section::Calls => "CALLS",
        }
    }

    // What its lines are of.
    fn subject(self) -> &'static str {
        match self {
            Section::Products => "product",
            Section::Accounts => "account",
            Section::Positions => "position",
            Section::Calls => "call",
        }
    }

    // How many lines of it the table states.
    pub fn count(self, contents: Contents) -> usize {
        match self {
            Section::Products => contents.products,
            Section::Accounts => contents.accounts,
            Section::Positions => contents.positions,
            Section::Calls => contents.calls,
        }
    }

    // How many lines stand before it.
    pub fn lines_before(self, contents: Contents) -> usize {
        let p = contents.products;
        let n = contents.accounts;
        let m = contents.positions;
        let behind_table = match self {
            Section::Products => 0,
            Section::Accounts => p,
            Section::Positions => p.saturating_add(n),
            Section::Calls => p.saturating_add(n).saturating_add(m),
        };
        behind_table.saturating_add(table::LINES)
    }

    // The number of its i-th line, from 0.
    pub fn line_number(self, contents: Contents, i: usize) -> usize {
        self.lines_before(contents)
            .saturating_add(i)
            .saturating_add(1)
    }
}

// ---- which section

// A section, how many lines of it the table states, and which one of them a line is, from 1.
#[derive(Clone, Copy)]
pub struct Slot {
    pub section: Section,
    says: usize,
    nth: usize,
}

// The slot of a line behind the table; none behind the last call.
pub fn slot_of(contents: Contents, number: usize) -> Option<Slot> {
    let mut before = number.saturating_sub(table::LINES + 1);
    for section in [
        Section::Products,
        Section::Accounts,
        Section::Positions,
        Section::Calls,
    ] {
        let says = section.count(contents);
        if before < says {
            let nth = before + 1;
            return Some(Slot { section, says, nth });
        }
        before -= says;
    }
    None
}

// Whether a capital stands in a line.
pub fn has_capital(line: &[u8]) -> bool {
    line.iter().any(|b| b.is_ascii_uppercase())
}

// The section that a line looks like: by its letter and what must stand behind that, or by four figures.
pub fn looks_like(line: &[u8]) -> Option<Section> {
    match (lines::byte_at(line, 0), lines::byte_at(line, 1)) {
        (b'B' | b'S', b'\n') => Some(Section::Calls),
        (b'Y' | b'X', b' ') => Some(Section::Products),
        (b'F' | b'L', b' ') => Some(Section::Accounts),
        (b'D' | b'W' | b'G' | b'T' | b'C', b' ') => Some(Section::Calls),
        _ if !has_capital(line) && figures::fields(line) == 4 => Some(Section::Positions),
        _ => None,
    }
}

// ---- counts

// A number that stands in a row: 1st, 2nd, 3rd, 4th, 11th.
#[derive(Clone, Copy)]
struct Nth(usize);

impl fmt::Display for Nth {
    fn fmt<W: fmt::Write>(&self, f: &mut fmt::Formatter<W>) -> fmt::Result {
        let n = self.0;
        let ending = match (n / 10 % 10, n % 10) {
            (1, _) => "th",
            (_, 1) => "st",
            (_, 2) => "nd",
            (_, 3) => "rd",
            _ => "th",
        };
        write!(f, "{n}{ending}")
    }
}

// `line 10: ACCOUNTS says 3, line 10 is the 3rd account line, `
pub fn say_slot(page: &mut Page, number: usize, slot: Slot) -> fmt::Result {
    let title = slot.section.title();
    let says = slot.says;
    let nth = Nth(slot.nth);
    let subject = slot.section.subject();
    write!(
        page,
        "line {number}: {title} says {says}, line {number} is the {nth} {subject} line, "
    )
}

// A section that ends early: a line of a later one stands where one of it is stated.
pub fn say_early(page: &mut Page, number: usize, slot: Slot, looks: Section) -> fmt::Result {
    say_slot(page, number, slot)?;
    let article = if looks == Section::Accounts {
        "an"
    } else {
        "a"
    };
    let subject = looks.subject();
    write!(page, "but {article} {subject} line stands there")
}

// A section that goes on: a line of it stands behind those that the table states.
pub fn say_more(page: &mut Page, number: usize, section: Section, says: usize) -> fmt::Result {
    let title = section.title();
    let subject = section.subject();
    write!(
        page,
        "line {number}: {title} says {says}, and line {number} is one more {subject} line"
    )
}
