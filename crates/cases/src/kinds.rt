// The kinds of cases: each by the letter that its lines begin with, and by its name.
use std::fmt;

#[derive(Clone, Copy, PartialEq, Eq)]
pub enum Kind {
    Deposit,
    Withdrawal,
    Guarantee,
    Question,
    Trade,
    Begin,
    Step,
    Close,
    Sharing,
    MarginRate,
    TellersDeposit,
    TellersWithdrawal,
    Sheet,
}

pub const ALL: [Kind; 13] = [
    Kind::Deposit,
    Kind::Withdrawal,
    Kind::Guarantee,
    Kind::Question,
    Kind::Trade,
    Kind::Begin,
    Kind::Step,
    Kind::Close,
    Kind::Sharing,
    Kind::MarginRate,
    Kind::TellersDeposit,
    Kind::TellersWithdrawal,
    Kind::Sheet,
];

impl Kind {
    // Of a line; a line that is no case has none.
    pub fn of(line: &[u8]) -> Option<Kind> {
        let kind = match lines::byte_at(line, 0) {
            b'D' => Kind::Deposit,
            b'W' => Kind::Withdrawal,
            b'G' => Kind::Guarantee,
            b'Q' => Kind::Question,
            b'T' => Kind::Trade,
            b'B' => Kind::Begin,
            b'S' => Kind::Step,
            b'C' => Kind::Close,
            b'H' => Kind::Sharing,
            b'M' => Kind::MarginRate,
            b'P' => Kind::TellersDeposit,
            b'R' => Kind::TellersWithdrawal,
            b'X' => Kind::Sheet,
            _ => return None,
        };
        Some(kind)
    }
}

impl fmt::Display for Kind {
    fn fmt<W: fmt::Write>(&self, f: &mut fmt::Formatter<W>) -> fmt::Result {
        f.write_str(match self {
            Kind::Deposit => "deposit",
            Kind::Withdrawal => "withdrawal",
            Kind::Guarantee => "guarantee",
            Kind::Question => "question",
            Kind::Trade => "trade",
            Kind::Begin => "begin",
            Kind::Step => "step",
            Kind::Close => "close",
            Kind::Sharing => "sharing",
            Kind::MarginRate => "margin rate",
            Kind::TellersDeposit => "teller's deposit",
            Kind::TellersWithdrawal => "teller's withdrawal",
            Kind::Sheet => "sheet",
        })
    }
}
