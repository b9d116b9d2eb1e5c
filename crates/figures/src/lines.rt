// A figure's line: its name, what came, `=`, and what the paper says; a call's answer is its number and its figure. The calls are made on records
// of which nothing is known, so each tests first what its rule asks.
use rules::{Account, Refusal, Reply, Standing, accounts, calls};
use std::{fmt, io};

// ---- printing

#[derive(Clone, Copy)]
enum Said {
    Figure(i64),
    Answer(u64, i64),
}

#[derive(Clone, Copy)]
pub struct Line<'a> {
    name: &'a str,
    came: Said,
    expected: Said,
}

pub fn figure<'a>(name: &'a str, came: i64, expected: i64) -> Line<'a> {
    Line {
        name,
        came: Said::Figure(came),
        expected: Said::Figure(expected),
    }
}

pub fn call<'a>(name: &'a str, came: (Reply, Account), refusal: u64, figure: i64) -> Line<'a> {
    Line {
        name,
        came: Said::Answer(came.0.number, came.0.figure),
        expected: Said::Answer(refusal, figure),
    }
}

impl fmt::Display for Said {
    fn fmt<W: fmt::Write>(&self, f: &mut fmt::Formatter<W>) -> fmt::Result {
        match self {
            Said::Figure(figure) => write!(f, "{figure}"),
            Said::Answer(number, figure) => write!(f, "{number} {figure}"),
        }
    }
}

impl<'a> fmt::Display for Line<'a> {
    fn fmt<W: fmt::Write>(&self, f: &mut fmt::Formatter<W>) -> fmt::Result {
        write!(f, "{}: {} = {}", self.name, self.came, self.expected)
    }
}

pub fn show(rt: &impl Print, lines: &[Line]) -> io::Result<()> {
    for line in lines {
        println!(rt; "{line}")?;
    }
    Ok(())
}

// ---- accounts

pub const EMPTY: Account = Account {
    kind: 0,
    cash: 0,
    guarantee: 0,
    cap: 0,
    margin: 0,
    due0: 0,
    due1: 0,
    due2: 0,
};

pub fn broker(cash: i64, margin: i64, due0: i64, due1: i64, due2: i64) -> Account {
    Account {
        cash,
        margin,
        due0,
        due1,
        due2,
        ..EMPTY
    }
}

pub fn provider(cash: i64, margin: i64, due0: i64, due1: i64, due2: i64) -> Account {
    Account {
        kind: 1,
        ..broker(cash, margin, due0, due1, due2)
    }
}

// ---- calls on a record of which nothing is known

pub fn question(account: Account) -> Standing {
    if accounts::account_ok(account) {
        return calls::standing_of(account);
    }
    Standing::refused(Refusal::Unsound)
}

pub fn guarantee(account: Account, value: i64, cap: i64) -> (Reply, Account) {
    if !accounts::account_ok(account) {
        return (Reply::from(Err(Refusal::Unsound)), account);
    }
    match calls::guaranteed(account, value, cap) {
        Ok(accepted) => (Reply::from(Ok(accepted.figure)), accepted.account),
        Err(refusal) => (Reply::from(Err(refusal)), account),
    }
}

pub fn transfer(account: Account) -> Account {
    if accounts::account_ok(account) {
        return calls::transferred(account);
    }
    account
}

// A record that is not sound: a deposit and a withdrawal are refused.
pub fn unsound(rt: &impl Print, records: &[(&str, Account)]) -> io::Result<()> {
    for (name, account) in records {
        let deposit = teller::deposit_by_value(*account, 1);
        let withdrawal = teller::withdraw_by_value(*account, 1);
        show(
            rt,
            &[call(name, deposit, 1, 0), call(name, withdrawal, 1, 0)],
        )?;
    }
    Ok(())
}
