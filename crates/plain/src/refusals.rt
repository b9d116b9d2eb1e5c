// The calls that were refused: how many of how many, and for each its line in the text, the call as it is written there, the number, and the reason in
// words (01, "Numbers returned").
use super::sections::Section;
use super::{Day, ranges};
use faults::page::Page;
use rules::{Refusal, sizes};
use std::fmt;
use std::fmt::Write;

// A call, by the letter of its line.
#[derive(Clone, Copy, PartialEq, Eq)]
enum Call {
    Deposit,
    Withdraw,
    Guarantee,
    Begin,
    Step,
    Trade,
    Close,
}

impl TryFrom<u8> for Call {
    type Error = u8;

    fn try_from(letter: u8) -> Result<Call, u8> {
        match letter {
            b'D' => Ok(Call::Deposit),
            b'W' => Ok(Call::Withdraw),
            b'G' => Ok(Call::Guarantee),
            b'B' => Ok(Call::Begin),
            b'S' => Ok(Call::Step),
            b'T' => Ok(Call::Trade),
            b'C' => Ok(Call::Close),
            other => Err(other),
        }
    }
}

// Where in the run a call stands (RULES, 3.2): outside a run, where a close may be done since the last begin; or within one, with some transfers done.
#[derive(Clone, Copy)]
enum Stage {
    Outside { closed: bool },
    Run { transfers: usize },
}

impl Stage {
    // The stage behind a call that was not refused.
    fn after(self, call: Call) -> Stage {
        match (call, self) {
            (Call::Begin, _) => Stage::Run { transfers: 0 },
            (Call::Step, Stage::Run { transfers }) => Stage::Run {
                transfers: transfers.saturating_add(1),
            },
            (Call::Close, _) => Stage::Outside { closed: true },
            _ => self,
        }
    }
}

// A call's reply: its number, and the figure behind it.
#[derive(Clone, Copy)]
struct Reply {
    number: i64,
    figure: i64,
}

impl Reply {
    fn of(line: &[u8]) -> Reply {
        let number = lines::field_at(line, 0, b' ');
        Reply {
            number: number.value,
            figure: lines::field_at(line, number.next, b'\n').value,
        }
    }

    // Why the call was refused: nothing where it was not. 1 and 2 are answered to no call of a day.
    fn refusal(self) -> Option<Refusal> {
        match self.number {
            3 => Some(Refusal::NoSuchAccount),
            4 => Some(Refusal::NoSuchProduct),
            5 => Some(Refusal::Amount),
            6 => Some(Refusal::WrongKind),
            7 => Some(Refusal::WrongPhase),
            8 => Some(Refusal::OutOfRange),
            9 => Some(Refusal::PositionTooLarge),
            10 => Some(Refusal::GrossTooLarge),
            11 => Some(Refusal::AboveLimit(self.figure)),
            12 => Some(Refusal::AccountTooLarge(self.figure)),
            13 => Some(Refusal::HouseTooLarge),
            _ => None,
        }
    }
}

// ---- reasons

// 5: an amount, or a guarantee and its cap.
fn say_amount(page: &mut Page, call: Call) -> fmt::Result {
    if call == Call::Guarantee {
        return write!(
            page,
            "guarantee and cap must be 0 to {}",
            sizes::MOST_GUARANTEE
        );
    }
    write!(page, "the amount must be 1 to {}", sizes::MOST_AMOUNT)
}

// 6: whose the accounts are.
fn whose(call: Call) -> &'static str {
    if call == Call::Guarantee {
        return "an L has no guarantee";
    }
    "a trade is between one F and one L"
}

// 7: the phase. Behind a close a begin is not asked for: it would move the dues of another day.
fn say_phase(page: &mut Page, call: Call, n: usize, stage: Stage) -> fmt::Result {
    let words = match (stage, call) {
        (Stage::Outside { closed: true }, _) =>
            "the day is closed already: a B here would start another day",
        (Stage::Outside { .. }, Call::Step) => "the run has not begun: B comes before S",
        (Stage::Outside { .. }, _) =>
            "the run has not begun: B and then one S for each account come before C",
        (_, Call::Begin) => "the run has begun already, and no close is done since",
        (_, Call::Step) => "every account has had its transfer, and no close is done since",
        (Stage::Run { transfers }, _) => return write!(
            page,
            "{transfers} of {n} accounts have had their transfer: one S for each comes before C"
        ),
    };
    page.write_str(words)
}

// 9: a position.
fn say_position(page: &mut Page) -> fmt::Result {
    write!(
        page,
        "a position would pass {} lots, or its book {}, of a cross {}",
        sizes::MOST_LOTS,
        sizes::MOST_YEN_BOOK,
        sizes::MOST_CROSS_BOOK
    )
}

// A refused call: its line, what it is by its letter, where in the run it stands, and why it was refused.
#[derive(Clone, Copy)]
struct RefusedCall<'a> {
    line: &'a [u8],
    call: Call,
    stage: Stage,
    reason: Refusal,
    number: i64,
}

// The reason of a refusal.
fn say_reason(page: &mut Page, day: Day, refused: RefusedCall) -> fmt::Result {
    let n = day.contents.accounts;
    let last_account = n.saturating_sub(1);
    let last_product = day.contents.products.saturating_sub(1);
    let gross = sizes::MOST_GROSS;
    let house = sizes::MOST_HOUSE;
    match refused.reason {
        Refusal::Unsound | Refusal::Lists => Ok(()),
        Refusal::NoSuchAccount => write!(page, "no such account: they are 0 to {last_account}"),
        Refusal::NoSuchProduct => write!(page, "no such product: they are 0 to {last_product}"),
        Refusal::Amount => say_amount(page, refused.call),
        Refusal::WrongKind => page.write_str(whose(refused.call)),
        Refusal::WrongPhase => say_phase(page, refused.call, n, refused.stage),
        Refusal::OutOfRange => ranges::say_first(page, day, refused.line),
        Refusal::PositionTooLarge => say_position(page),
        Refusal::GrossTooLarge => write!(
            page,
            "cash and dues, without their signs, would add to more than {gross}"
        ),
        Refusal::AboveLimit(limit) => write!(page, "above the limit of {limit}"),
        Refusal::AccountTooLarge(account) => write!(
            page,
            "cash and dues, without their signs, of account {account} would add to more than {gross}"
        ),
        Refusal::HouseTooLarge => write!(
            page,
            "house would pass {house} above or below 0 on the way"
        ),
    }
}

// ---- the calls

// What is said of a refused call: `line 18: W 1 50000 refused, 11: above the limit of 0`
fn say_refusal(page: &mut Page, day: Day, number: usize, refused: RefusedCall) -> fmt::Result {
    write!(page, "line {number}: ")?;
    page.put(refused.line.strip_suffix(b"\n").unwrap_or(refused.line))?;
    write!(page, " refused, {}: ", refused.number)?;
    say_reason(page, day, refused)?;
    page.write_str("\n")
}

// What is said of a call, by its reply, if it was refused for a reason that has words; and the stage behind it, which only a call that was not refused
// moves on.
fn say_call(
    page: &mut Page,
    day: Day,
    number: usize,
    line: &[u8],
    stage: Stage,
    reply: Reply,
) -> Result<Stage, fmt::Error> {
    let Ok(call) = Call::try_from(lines::byte_at(line, 0)) else {
        return Ok(stage);
    };
    if reply.number == 0 {
        return Ok(stage.after(call));
    }
    let Some(reason) = reply.refusal() else {
        return Ok(stage);
    };
    let refused = RefusedCall {
        line,
        call,
        stage,
        reason,
        number: reply.number,
    };
    say_refusal(page, day, number, refused)?;
    Ok(stage)
}

// The refused calls, one behind another. A day starts outside a run, with no close done.
fn say_each(page: &mut Page, day: Day, replies: &[u8]) -> fmt::Result {
    let calls = day
        .text
        .split_inclusive(|b| *b == b'\n')
        .skip(Section::Calls.lines_before(day.contents));
    let mut stage = Stage::Outside { closed: false };
    for (i, (line, reply)) in calls
        .zip(replies.split_inclusive(|b| *b == b'\n'))
        .enumerate()
    {
        let number = Section::Calls.line_number(day.contents, i);
        stage = say_call(page, day, number, line, stage, Reply::of(reply))?;
    }
    Ok(())
}

// How many of the calls a sheet refuses, by their replies.
fn refused(replies: &[u8], calls: usize) -> usize {
    replies
        .split_inclusive(|b| *b == b'\n')
        .take(calls)
        .filter(|reply| Reply::of(reply).number != 0)
        .count()
}

// What is told of a good text: how many calls of how many were refused, and each of them; nothing where none was.
pub fn say(page: &mut Page, day: Day, replies: &[u8]) -> fmt::Result {
    let all = day.contents.calls;
    let some = refused(replies, all);
    if some == 0 {
        return Ok(());
    }
    let were = if some == 1 { "was" } else { "were" };
    write!(page, "{some} of {all} calls {were} refused\n")?;
    say_each(page, day, replies)
}
