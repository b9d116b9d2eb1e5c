// The calls of a day with their figures, what each answers, and how both are told.
use rules::{Reply, Standing};
use std::fmt;

#[derive(Clone, Copy)]
pub enum Call {
    // The account and the amount.
    Deposit(i64, i64),
    Withdraw(i64, i64),
    // The account, the guarantee and the cap.
    Guarantee(i64, i64, i64),
    Question(i64),
    // Buyer, seller, product, lots and price.
    Trade(i64, i64, i64, i64, i64),
    Begin,
    Step,
    Close(Closing),
}

#[derive(Clone, Copy)]
pub struct Closing {
    pub prices: [i64; 3],
    pub rates8: [i64; 3],
    pub rates104: [i64; 3],
    pub lags: [i64; 3],
}

// A number, and a figure or what a question answers.
#[derive(Clone, Copy)]
pub enum Answer {
    Reply(u64, i64),
    Standing(u64, i64, i64, i64),
}

impl From<Reply> for Answer {
    fn from(reply: Reply) -> Answer {
        Answer::Reply(reply.number, reply.figure)
    }
}

impl From<Standing> for Answer {
    fn from(standing: Standing) -> Answer {
        Answer::Standing(
            standing.number,
            standing.limit,
            standing.first,
            standing.second,
        )
    }
}

impl Call {
    pub fn done(self, words: &mut [i64]) -> Answer {
        match self {
            Call::Deposit(a, x) => ledger::deposit(words, a, x).into(),
            Call::Withdraw(a, x) => ledger::withdraw(words, a, x).into(),
            Call::Guarantee(a, g, cap) => ledger::guarantee(words, a, g, cap).into(),
            Call::Question(a) => ledger::question(words, a).into(),
            Call::Trade(buyer, seller, product, lots, price) => {
                ledger::trade(words, buyer, seller, product, lots, price).into()
            }
            Call::Begin => ledger::begin(words).into(),
            Call::Step => ledger::step(words).into(),
            Call::Close(c) => {
                closing::close(words, &c.prices, &c.rates8, &c.rates104, &c.lags).into()
            }
        }
    }
}

impl fmt::Display for Call {
    fn fmt<W: fmt::Write>(&self, f: &mut fmt::Formatter<W>) -> fmt::Result {
        match self {
            Call::Deposit(a, x) => write!(f, "deposit {a} {x}"),
            Call::Withdraw(a, x) => write!(f, "withdraw {a} {x}"),
            Call::Guarantee(a, g, cap) => write!(f, "guarantee {a} {g} {cap}"),
            Call::Question(a) => write!(f, "question {a}"),
            Call::Trade(buyer, seller, product, lots, price) => {
                write!(f, "trade {buyer} {seller} {product} {lots} {price}")
            }
            Call::Begin => write!(f, "begin"),
            Call::Step => write!(f, "step"),
            Call::Close(_) => write!(f, "close"),
        }
    }
}

impl fmt::Display for Answer {
    fn fmt<W: fmt::Write>(&self, f: &mut fmt::Formatter<W>) -> fmt::Result {
        match self {
            Answer::Reply(number, figure) => write!(f, "{number} {figure}"),
            Answer::Standing(number, limit, first, second) => {
                write!(f, "{number} {limit} {first} {second}")
            }
        }
    }
}
