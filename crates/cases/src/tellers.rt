// The teller's window: a deposit or a withdrawal on a single record of eight figures.
use crate::kinds::Kind;
use crate::reading::Case;
use crate::sums;
use rules::{Account, Reply};

fn record_sum(a: Account) -> i64 {
    let record = [
        a.kind,
        a.cash,
        a.guarantee,
        a.cap,
        a.margin,
        a.due0,
        a.due1,
        a.due2,
    ];
    sums::checksum(&record)
}

fn account_of(record: [i64; 8]) -> Account {
    let [kind, cash, guarantee, cap, margin, due0, due1, due2] = record;
    Account {
        kind,
        cash,
        guarantee,
        cap,
        margin,
        due0,
        due1,
        due2,
    }
}

fn call(kind: Kind, account: Account, amount: i64) -> (Reply, Account) {
    match kind {
        Kind::TellersDeposit => teller::deposit_by_value(account, amount),
        _ => teller::withdraw_by_value(account, amount),
    }
}

pub fn agrees(mut case: Case, kind: Kind) -> bool {
    let mut amount = [0; 1];
    let mut record = [0; 8];
    case.list(&mut amount);
    case.list(&mut record);
    let (reply, after) = call(kind, account_of(record), amount[0]);
    case.ends(reply.number, [reply.figure, record_sum(after)])
}
