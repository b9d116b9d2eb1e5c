// The calls on a ledger: each is made on the words of its case, and what it answers and leaves is held against the end of the line.
use crate::kinds::Kind;
use crate::reading::Case;
use crate::sums;
use rules::Reply;

// A call of one of the kinds that answer a figure.
fn call(kind: Kind, given: &[i64; 8], words: &mut [i64]) -> Reply {
    match kind {
        Kind::Deposit => ledger::deposit(words, given[0], given[1]),
        Kind::Withdrawal => ledger::withdraw(words, given[0], given[1]),
        Kind::Guarantee => ledger::guarantee(words, given[0], given[1], given[2]),
        Kind::Trade => ledger::trade(words, given[0], given[1], given[2], given[3], given[4]),
        Kind::Begin => ledger::begin(words),
        _ => ledger::step(words),
    }
}

fn reply_agrees(case: Case, kind: Kind, given: &[i64; 8], words: &mut [i64]) -> bool {
    let r = call(kind, given, words);
    case.ends(r.number, [r.figure, sums::checksum(words)])
}

// A question's answer has three figures.
fn question_agrees(case: Case, account: i64, words: &[i64]) -> bool {
    let r = ledger::question(words, account);
    case.ends(
        r.number,
        [r.limit, r.first, r.second, sums::checksum(words)],
    )
}

pub fn agrees(mut case: Case, kind: Kind) -> bool {
    let mut given = [0; 8];
    let mut room = [0; 512];
    case.list(&mut given);
    let count = case.list(&mut room);
    let words = &mut room[..count];
    match kind {
        Kind::Question => question_agrees(case, given[0], words),
        _ => reply_agrees(case, kind, &given, words),
    }
}
