// Commas and points: what number is meant, where that is clear; else how such a figure is written. Nothing here guesses: a figure that is told wrongly
// would be taken as it stands.
ghost use Rattle.std.specs.Prelude.{◌<◌, ◌≤◌, length};

use super::marks::Wrong;

// Where the field that a place stands in starts.
pub(super) fn field_start(line: &[u8], at: usize) -> usize
    requires { at < length line.now }
    ensures { result ≤ at }
{
    match line[..at].iter().rposition(|b| *b == b' ') {
        Some(space) => space + 1,
        None => 0,
    }
}

// The field that starts at a place.
fn field_from(line: &[u8], start: usize) -> &[u8]
    requires { start ≤ length line.now }
{
    let field = &line[start..];
    let len = field.iter().take_while(|b| **b != b' ').count();
    &field[..len]
}

fn is_digits(group: &[u8]) -> bool {
    group.iter().all(|b| b.is_ascii_digit())
}

// Whether digits may stand before the first comma: one to three, and not with a 0 in front.
fn is_first_group(group: &[u8]) -> bool {
    (1..=3).contains(&group.len()) && !group.starts_with(b"0") && is_digits(group)
}

// Whether digits stand in groups of three with commas between them, so that it is clear what number is meant.
fn is_grouped(number: &[u8]) -> bool {
    let mut groups = number.split(|b| *b == b',');
    groups.next().is_some_and(is_first_group)
        && groups.all(|group| group.len() == 3 && is_digits(group))
}

// Whether it is clear what number with commas is meant: a minus or none, and digits in groups.
fn is_clear(field: &[u8]) -> bool {
    is_grouped(field.strip_prefix(b"-").unwrap_or(field))
}

// Whether the figure that starts at a place is the first of a call or of a position: a number of an account, which no comma parts.
fn names_account(line: &[u8], start: usize) -> bool {
    start == 0 || start == 2 && matches!(lines::byte_at(line, 0), b'D' | b'W' | b'G' | b'T')
}

// A comma: what to write, where that is clear.
pub(super) fn comma(line: &[u8], at: usize) -> Wrong<'_>
    requires { at < length line.now }
{
    let start = field_start(line, at);
    if line[start].is_ascii_uppercase() {
        return Wrong::Words("a comma behind a word: write one space, or take it away");
    }
    let field = field_from(line, start);
    if names_account(line, start) || !is_clear(field) {
        return Wrong::NotWhole("comma");
    }
    Wrong::Commas(field)
}

// A point.
pub(super) fn point(line: &[u8], at: usize) -> Wrong<'static>
    requires { at < length line.now }
{
    if line[field_start(line, at)].is_ascii_uppercase() {
        return Wrong::Words("a point behind a word: take it away");
    }
    Wrong::NotWhole("point")
}
