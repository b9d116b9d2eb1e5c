// Runs many texts through `day::sheet` and compares each sheet with the one expected, and what `plain` tells beside it likewise: a line
// for each kind of text, with how many texts it has and how many differ; then how many differ in all. The texts, their sheets and what is told
// beside them are read from standard input (`cases` says how); those of the largest day, and those saved by other habits, are made here.
#![tactic(auto)]

ghost use Rattle.std.specs.Prelude.{◌≤◌, length, IfOk};

use faults::page::Page;
use std::fmt::Write;
use std::io::Read;
use std::ops::AddAssign;
use std::{fmt, io};

mod cases;
mod full;

// How many texts were tried, and how many gave something else than expected.
#[derive(Clone, Copy, Default)]
struct Tally {
    texts: u64,
    wrong: u64,
}

impl Tally {
    // One text more, that gave something else or not.
    fn count(&mut self, differs: bool) {
        self.texts = self.texts.saturating_add(1);
        self.wrong = self.wrong.saturating_add(u64::from(differs));
    }
}

impl AddAssign for Tally {
    fn add_assign(&mut self, other: Tally) {
        self.texts = self.texts.saturating_add(other.texts);
        self.wrong = self.wrong.saturating_add(other.wrong);
    }
}

impl fmt::Display for Tally {
    fn fmt<W: fmt::Write>(&self, f: &mut fmt::Formatter<W>) -> fmt::Result {
        let Tally { texts, wrong } = *self;
        write!(f, "{texts} texts, {wrong} differ")
    }
}

// Whether the sheet of a text is another than the one expected.
fn differs(text: &[u8], expected: &[u8]) -> bool {
    let mut out = [0u8; 65536];
    let size = day::sheet(text, &mut out);
    &out[..size] != expected
}

// Whether what is told beside the sheet is something else than expected.
fn tells_otherwise(text: &[u8], sheet: &[u8], expected: &[u8]) -> bool {
    let mut words = [0u8; 262144];
    let size = plain::tell(text, sheet, &mut words);
    &words[..size] != expected
}

// Whether either is.
fn gives_otherwise(text: &[u8], sheet: &[u8], words: &[u8]) -> bool {
    differs(text, sheet) || tells_otherwise(text, sheet, words)
}

// A kind's line; and its tally.
fn told(rt: &impl Print, name: &[u8], tally: Tally) -> io::Result<Tally> {
    rt.write_all(name)?;
    println!(rt; ": {tally}")?;
    Ok(tally)
}

// ---- the cases that are read

// What stands for a kind's name that is longer than this.
const NO_ROOM: [u8; 128] = [0; 128];

// Whether a case gives something else than expected: its lines, behind those that the texts of its kind begin with up to it.
fn case_differs(top: &mut Page, case: &[u8]) -> Result<bool, fmt::Error> {
    let mut text = [0u8; cases::ROOM];
    let mut sheet = [0u8; cases::ROOM];
    let mut words = [0u8; cases::ROOM];
    let mut text = Page::new(&mut text);
    let mut sheet = Page::new(&mut sheet);
    let mut words = Page::new(&mut words);
    cases::put_marked(top, case, b'*', b"\n")?;
    text.put(top.bytes())?;
    cases::put_marked(&mut text, case, b'>', b"\n")?;
    cases::put_marked(&mut text, case, b'|', b"")?;
    cases::put_marked(&mut sheet, case, b'<', b"\n")?;
    cases::put_marked(&mut words, case, b'!', b"\n")?;
    Ok(gives_otherwise(text.bytes(), sheet.bytes(), words.bytes()))
}

// The cases of a kind.
fn cases_of(kind: &[u8]) -> Tally {
    let mut tally = Tally::default();
    let mut top = [0u8; cases::ROOM];
    let mut top = Page::new(&mut top);
    let mut rest = kind;
    while let Some((case, end)) = cases::split_before(rest, b'.') {
        tally.count(case_differs(&mut top, case).unwrap_or(true));
        rest = end;
    }
    tally
}

// The name in a kind's first line; bytes of 0 stand for one that has no room.
fn name_of(title: &[u8]) -> &[u8] {
    let name = cases::behind_mark(title);
    if name.len() > NO_ROOM.len() {
        return &NO_ROOM;
    }
    name
}

// The kind that a file starts with: its name, and its cases.
fn first_kind(rt: &impl Print, file: &[u8]) -> io::Result<Tally> {
    let (kind, _) = cases::split_before(file, b'=').unwrap_or((file, &[]));
    let title = kind.split(|b| *b == b'\n').next().unwrap_or(&[]);
    told(rt, name_of(title), cases_of(kind))
}

// Every kind of the file.
fn kinds(rt: &impl Print, file: &[u8]) -> io::Result<Tally> {
    let mut all = Tally::default();
    if file.first() == Some(&b'=') {
        all += first_kind(rt, file)?;
    }
    let mut rest = file;
    while let Some((_, kinds)) = cases::split_before(rest, b'=') {
        all += first_kind(rt, kinds)?;
        rest = kinds;
    }
    Ok(all)
}

// ---- the cases that are made

// A carriage return is a byte like any other.
const RETURN: &str =
    ": a carriage return ends the line: save the file with Unix line ends, a line feed alone";

const UTF16: &str =
    ": the file is saved as UTF-16: save it as plain text, ASCII or UTF-8 without a byte order mark";

const MARK: &str =
    ": a byte order mark stands before FXDAY: save the file as UTF-8 without a byte order mark";

const CONTROL: &str =
    ", column 6: a control character: take it away, or save the file as plain text";

// Whether a text whose bad line has a number gives something else than that, or is told otherwise.
fn bad_differs(text: &[u8], line: usize, why: &str) -> Result<bool, fmt::Error> {
    let mut sheet = [0u8; 16];
    let mut words = [0u8; 512];
    let mut sheet = Page::new(&mut sheet);
    let mut words = Page::new(&mut words);
    writeln!(sheet, "BAD {line}")?;
    writeln!(words, "line {line}{why}")?;
    Ok(gives_otherwise(text, sheet.bytes(), words.bytes()))
}

// Files that were saved by other habits: their bytes could not stand in a file of cases. UTF-16 has its mark in either order of bytes, or none.
fn saved_otherwise() -> Tally {
    let mut tally = Tally::default();
    let texts: [(&[u8], usize, &str); 8] = [
        (b"FXDAY\r\n", 1, RETURN),
        (b"FXDAY\nPRODUCTS 1\r\n", 2, RETURN),
        (b"FXDAY\rPRODUCTS 1\r", 1, RETURN),
        (b"\xEF\xBB\xBFFXDAY\n", 1, MARK),
        (b"\xFF\xFEF\x00X\x00", 1, UTF16),
        (b"\xFE\xFF\x00F\x00X", 1, UTF16),
        (b"F\x00X\x00D\x00", 1, UTF16),
        (b"FXDAY\x07\n", 1, CONTROL),
    ];
    for (text, line, why) in texts {
        tally.count(bad_differs(text, line, why).unwrap_or(true));
    }
    tally
}

// Whether the sheet of a text is another, or something has no room in what is told beside it: of the largest day every call is refused.
fn differs_or_cut(text: &[u8], expected: &[u8]) -> bool {
    if differs(text, expected) {
        return true;
    }
    let mut words = [0u8; 262144];
    plain::tell(text, expected, &mut words) == words.len()
}

// The largest day's text, of `extra` bytes more; how long it is.
fn day_into(text: &mut [u8], extra: usize) -> Option<usize> {
    let mut page = Page::new(text);
    full::put_day(&mut page, extra).ok()?;
    Some(page.bytes().len())
}

// Texts of 65,536 bytes and of one more: of the largest day, and of one letter.
fn longest() -> Option<Tally> {
    let mut tally = Tally::default();
    let mut sheet = [0u8; 65536];
    let mut page = Page::new(&mut sheet);
    full::put_sheet(&mut page).ok()?;
    let sheet = page.bytes();
    let mut text = [0u8; 65600];
    let size = day_into(&mut text, 0)?;
    tally.count(differs_or_cut(text.get(..size)?, sheet));
    day_into(&mut text, 65536usize.checked_sub(size)?)?;
    tally.count(differs_or_cut(text.get(..65536)?, sheet));
    tally.count(differs_or_cut(text.get(..65537)?, b"BAD 0\n"));
    tally.count(differs_or_cut(text.get(..65535)?, b"BAD 2110\n"));
    let text = [b'x'; 65537];
    tally.count(differs_or_cut(text.get(..65536)?, b"BAD 1\n"));
    tally.count(differs_or_cut(&text, b"BAD 0\n"));
    Some(tally)
}

// Reads until the input ends or `file` is full; how many bytes came. By an index, since each read says how many bytes came and the rest is lent to
// the next; the program `sheet` has the same, since no crate below both reads anything.
fn read_file(source: &mut impl Read, file: &mut [u8]) -> io::Result<usize>
    ensures { IfOk result (λ n. n ≤ length file.old) }
{
    let mut size = 0;
    while size < file.len() {
        let more = source.read(&mut file[size..])?;
        if more == 0 {
            return Ok(size);
        }
        size += more;
    }
    Ok(size)
}

fn main(rt: HostRuntime) -> io::Result<()> {
    let mut file = [0u8; 65536];
    let size = read_file(&mut rt.stdin(), &mut file)?;
    let mut all = kinds(&rt, &file[..size])?;
    all += told(&rt, b"files saved otherwise", saved_otherwise())?;
    all += told(&rt, b"longest texts", longest().unwrap_or_default())?;
    told(&rt, b"in all", all)?;
    Ok(())
}
