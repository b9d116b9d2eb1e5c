// Runs the cases on file that another program of the rules wrote with the replies it gives: every number, figure and checksum of the words
// at exit is compared. Prints of each kind how many cases there are, and how many came out otherwise.
#![tactic(auto)]

mod kinds; // the kinds of cases
mod reading; // the lists and figures of a line
mod sums; // the checksum of words
mod ledgers; // the calls on a ledger
mod closes; // the close of a day
mod losses; // the sharing of a loss
mod windows; // margin rates from price history
mod tellers; // the teller's window
mod sheets; // the sheet of a text

ghost use Rattle.std.specs.Prelude.{◌≤◌, length, IfOk};

use kinds::Kind;
use lines::LONGEST;
use reading::Case;
use std::io;
use std::io::Read;

// Of one kind: how many cases, and how many that came out otherwise.
#[derive(Drop)]
struct Count {
    cases: u64,
    wrong: u64,
}

// Whether a case comes out as its line says. Places of a longer line would not be told from LOST.
fn agrees(line: &[u8], kind: Kind) -> bool {
    if line.len() > LONGEST {
        return false;
    }
    let case = Case::of(line);
    match kind {
        Kind::Close => closes::agrees(case),
        Kind::Sharing => losses::agrees(case),
        Kind::MarginRate => windows::agrees(case),
        Kind::TellersDeposit | Kind::TellersWithdrawal => tellers::agrees(case, kind),
        Kind::Sheet => sheets::agrees(case),
        _ => ledgers::agrees(case, kind),
    }
}

fn counted(text: &[u8], kind: Kind) -> Count {
    let mut count = Count { cases: 0, wrong: 0 };
    for line in text.split_inclusive(|b| *b == b'\n') {
        if Kind::of(line) == Some(kind) {
            count.cases = count.cases.saturating_add(1);
            count.wrong = count.wrong.saturating_add(u64::from(!agrees(line, kind)));
        }
    }
    count
}

// Reads until the input ends or `text` is full; how many bytes came. The library's `read_to_end` needs a Vec, and the gate's programs ask for no heap.
fn read_text(source: &mut impl Read, text: &mut [u8]) -> io::Result<usize>
    ensures { IfOk result (λ n. n ≤ length text.old) }
{
    let mut size = 0;
    while size < text.len() {
        let more = source.read(&mut text[size..])?;
        if more == 0 {
            return Ok(size);
        }
        size += more;
    }
    Ok(size)
}

fn main(rt: HostRuntime) -> io::Result<()> {
    let mut text = [0u8; 196608];
    let size = read_text(&mut rt.stdin(), &mut text)?;
    for kind in kinds::ALL {
        let Count { cases, wrong } = counted(&text[..size], kind);
        println!(rt; "{kind}: {cases} cases, {wrong} differences")?;
    }
    Ok(())
}
