// The events of a history: 32 of them, four transfers among them, the last of which is the last event. An event is drawn by the history's
// number and its own, never kept; its answer stands in a list.
ghost use Rattle.std.specs.Prelude.{◌≤◌};

use crate::chance::Chance;
use rules::{Reply, Standing};

pub const EVENTS: usize = 32;

const LAST: u64 = 31;

// The stretches of a run: the requests before an account's transfer, the transfers, the requests after it, the attempts to begin or close.
#[derive(Clone, Copy, PartialEq, Eq)]
pub enum Stretch {
    Early,
    Run,
    Late,
    Idle,
}

// What is asked, of which account and with which figures.
#[derive(Clone, Copy)]
enum Event {
    Deposit {
        account: i64,
        amount: i64,
    },
    Withdraw {
        account: i64,
        amount: i64,
    },
    Guarantee {
        account: i64,
        guarantee: i64,
        cap: i64,
    },
    Question {
        account: i64,
    },
    // With the next account, of up to some lots in a product that may not be there.
    Trade {
        account: i64,
        product: i64,
        lots: i64,
    },
    Begin,
    // Its lists are too short in every other history.
    Close {
        short: bool,
    },
    Transfer,
}

#[derive(Clone, Copy, PartialEq, Eq)]
pub struct Answer {
    number: u64,
    figures: [i64; 3],
}

pub const NOT_ASKED: Answer = Answer {
    number: 0,
    figures: [0, 0, 0],
};

impl From<Reply> for Answer {
    fn from(reply: Reply) -> Answer {
        Answer {
            number: reply.number,
            figures: [reply.figure, 0, 0],
        }
    }
}

impl From<Standing> for Answer {
    fn from(standing: Standing) -> Answer {
        Answer {
            number: standing.number,
            figures: [standing.limit, standing.first, standing.second],
        }
    }
}

// ---- an event

// Whether the event i is a transfer: one in each of the first three eights, and the last.
fn is_transfer(seed: u64, i: u64) -> bool {
    match i {
        LAST => true,
        24.. => false,
        _ => {
            let eight = Chance {
                seed,
                event: 1000 + i / 8,
            };
            eight.draw(0) % 8 == i % 8
        }
    }
}

// An amount: ordinary, or at and past the ends of its range.
fn amount(chance: Chance, turn: u64) -> i64 {
    match chance.draw(turn) % 12 {
        0 => 0,
        1 => 1000000000000,
        2 => 1000000000001,
        3 => -1,
        _ => chance.drawn(turn % 16 + 1, 1, 700000),
    }
}

fn event_of(seed: u64, i: u64) -> Event {
    if is_transfer(seed, i) {
        return Event::Transfer;
    }
    let chance = Chance { seed, event: i };
    let account = chance.drawn(2, -1, 6);
    let one = amount(chance, 3);
    let two = amount(chance, 6);
    match chance.draw(1) % 10 {
        0 | 1 => Event::Deposit {
            account,
            amount: one,
        },
        2 | 3 => Event::Withdraw {
            account,
            amount: one,
        },
        4 => Event::Guarantee {
            account,
            guarantee: one,
            cap: two,
        },
        5 => Event::Question { account },
        6 | 7 => Event::Trade {
            account,
            product: two % 5,
            lots: one % 1500,
        },
        8 => Event::Begin,
        _ => Event::Close {
            short: one % 2 == 0,
        },
    }
}

// ---- what it does

fn close(words: &mut [i64], short: bool) -> Answer {
    let prices = [1500000, 1600000, 10850];
    let rates = [300, 300, 300];
    let lags = [0, 1, 2];
    let given = if short { 2 } else { 3 };
    closing::close(words, &prices, &rates, &rates, &lags[..given]).into()
}

fn trade(words: &mut [i64], account: i64, product: i64, lots: i64) -> Answer {
    if !(-1..=9).contains(&account) {
        return ledger::question(words, account).into();
    }
    ledger::trade(words, account, account + 1, product, lots, 10850).into()
}

fn done(words: &mut [i64], event: Event) -> Answer {
    match event {
        Event::Deposit { account, amount } => ledger::deposit(words, account, amount).into(),
        Event::Withdraw { account, amount } => ledger::withdraw(words, account, amount).into(),
        Event::Guarantee {
            account,
            guarantee,
            cap,
        } => ledger::guarantee(words, account, guarantee, cap).into(),
        Event::Question { account } => ledger::question(words, account).into(),
        Event::Trade {
            account,
            product,
            lots,
        } => trade(words, account, product, lots),
        Event::Begin => ledger::begin(words).into(),
        Event::Close { short } => close(words, short),
        Event::Transfer => ledger::step(words).into(),
    }
}

// The stretch of an event in the phase `turn`.
fn judge(event: Event, turn: u64) -> Stretch {
    match event {
        Event::Transfer => Stretch::Run,
        Event::Begin | Event::Close { .. } => Stretch::Idle,
        Event::Trade { .. } => Stretch::Late,
        Event::Deposit { account, .. } => waits(account, turn),
        Event::Withdraw { account, .. } => waits(account, turn),
        Event::Guarantee { account, .. } => waits(account, turn),
        Event::Question { account } => waits(account, turn),
    }
}

// Early where the account is one of the four and has not had its transfer.
fn waits(account: i64, turn: u64) -> Stretch {
    match whole::index_of(account, 4) {
        Some(a) if turn <= a as u64 + 1 => Stretch::Early,
        _ => Stretch::Late,
    }
}

// ---- the history as it came, a stretch of it, its attempts

// The phase after the event.
fn turn_after(event: Event, turn: u64) -> u64 {
    match event {
        Event::Transfer => turn % 64 + 1,
        _ => turn,
    }
}

pub fn mixture(words: &mut [i64], answers: &mut [Answer], seed: u64) {
    for (i, answer) in answers.iter_mut().enumerate() {
        *answer = done(words, event_of(seed, i as u64));
    }
}

// The events of one stretch, done in their order: whether an answer differs from that of the mixture.
pub fn stretch_differs(words: &mut [i64], answers: &[Answer], seed: u64, which: Stretch) -> bool {
    let mut differs = false;
    let mut turn = 1;
    for (i, answer) in answers.iter().enumerate() {
        let event = event_of(seed, i as u64);
        if judge(event, turn) == which && done(words, event) != *answer {
            differs = true;
        }
        turn = turn_after(event, turn);
    }
    differs
}

// What an attempt in the run is to be answered: begin 7, close 7, or 2 with a list too short.
fn refusal(event: Event) -> Option<Answer> {
    let number = match event {
        Event::Begin => 7,
        Event::Close { short } => { if short { 2 } else { 7 } }
        _ => return None,
    };
    Some(Answer {
        number,
        figures: [0, 0, 0],
    })
}

// Whether an attempt was answered otherwise.
pub fn attempts_differ(answers: &[Answer], seed: u64) -> bool {
    answers.iter().enumerate().any(|(i, answer)| refusal(event_of(seed, i as u64)).is_some_and(|r| r
        != *answer))
}

// How many events a history has of a stretch.
pub fn of_stretch(seed: u64, which: Stretch) -> u64
    ensures { result ≤ 32 }
{
    let mut count = 0;
    let mut turn = 1;
    for i in 0..EVENTS as u64 {
        let event = event_of(seed, i);
        if judge(event, turn) == which {
            count += 1;
        }
        turn = turn_after(event, turn);
    }
    count
}
