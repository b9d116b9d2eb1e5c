// The file of cases, line by line. Each line starts with a mark and a space: `=` begins a kind of text, `*` is a line that every text of the
// kind begins with; then each case has the lines of its text `>`, a last one without its line feed `|`, those of its sheet `<`, what is
// said of a bad line `!`, and ends with `.`.
ghost use Rattle.std.specs.Prelude.{◌<◌, length, IfSome};

use faults::page::Page;
use std::fmt;

// What stands before the next line that starts with a mark, and from that line on; nothing, where no line but the first does.
pub fn split_before(file: &[u8], mark: u8) -> Option<(&[u8], &[u8])>
    ensures { IfSome result (λ parts. length parts.1.now < length file.now) }
{
    let feed = file
        .windows(2)
        .position(|pair| pair == [b'\n', mark].as_slice())?;
    Some(file.split_at(feed + 1))
}

// Room for each text of a case.
pub const ROOM: usize = 4096;

// A piece of a text, where it has room whole. Where it has none it is left out, and the page is full: bytes of 0 stand where room is left.
fn put_piece(page: &mut Page, piece: &[u8]) -> fmt::Result {
    let left = ROOM.saturating_sub(page.bytes().len());
    if piece.len() > left {
        return page.put(&[0u8; ROOM][..left]);
    }
    page.put(piece)
}

// What stands in a line behind its mark and a space.
pub fn behind_mark(line: &[u8]) -> &[u8] {
    line.get(2..).unwrap_or(&[])
}

// The same of every line with a mark, one behind another, each with what closes it.
pub fn put_marked(page: &mut Page, lines: &[u8], mark: u8, close: &[u8]) -> fmt::Result {
    for line in lines
        .split(|b| *b == b'\n')
        .filter(|line| line.first() == Some(&mark))
    {
        put_piece(page, behind_mark(line))?;
        put_piece(page, close)?;
    }
    Ok(())
}
