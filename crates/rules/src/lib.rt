// The rule book on one account and one product (document 01, "The margin rules" and "The day"), by value.
#![tactic(auto)]

ghost use Rattle.std.specs.Prelude.{◌≡◌};

pub mod sizes; // the limits of every figure
mod refusal; // why a call is refused, by number and figure
pub mod products; // rate, Y, margin and daily difference of one product
pub mod accounts; // the margin rules on one account, and what a sound record is
pub mod calls; // deposit, withdrawal, guarantee, transfer and question on one account, and the teller window

pub use refusal::Refusal;

// What a call answers: 0 and a figure, or the refusal's number and its figure (01, "Numbers returned").
#[repr(C)]
#[derive(Clone, Copy)]
pub struct Reply {
    pub number: u64,
    pub figure: i64,
}

impl From<Result<i64, Refusal>> for Reply {
    ghost use Rattle.rules.specs.Refusal.{answer_of};

    ghost from_gives = { λ outcome reply. reply ≡ answer_of outcome };

    fn from(outcome: Result<i64, Refusal>) -> Reply {
        match outcome {
            Ok(figure) => Reply { number: 0, figure },
            Err(refusal) => Reply {
                number: refusal.number(),
                figure: refusal.figure(),
            },
        }
    }
}

// What a question answers: limit and both shortfalls, all three 0 when refused.
#[derive(Clone, Copy)]
pub struct Standing {
    pub number: u64,
    pub limit: i64,
    pub first: i64,
    pub second: i64,
}

impl Standing {
    ghost use Rattle.std.specs.Prelude.{pos};
    ghost use Rattle.rules.specs.Refusal.{number_of};

    pub fn refused(refusal: Refusal) -> Standing
        ensures { result ≡ record { number = number_of refusal; limit = pos 0; first = pos 0; second = pos 0 } }
    {
        Standing {
            number: refusal.number(),
            limit: 0,
            first: 0,
            second: 0,
        }
    }
}

// An account's figures before its positions. Kind 0 is a broker F, 1 a liquidity provider L.
#[repr(C)]
#[derive(Clone, Copy)]
pub struct Account {
    pub kind: i64,
    pub cash: i64,
    pub guarantee: i64,
    pub cap: i64,
    pub margin: i64,
    pub due0: i64,
    pub due1: i64,
    pub due2: i64,
}

// A call on one account that is accepted: its figure, and the account after it. A refused one leaves the account as it was.
#[derive(Clone, Copy)]
pub struct Accepted {
    pub figure: i64,
    pub account: Account,
}

// A product. Kind 0 is yen, 1 a cross; a cross names the yen products of its principal and its quote currency.
#[derive(Clone, Copy)]
pub struct Product {
    pub kind: i64,
    pub mark: i64,
    pub price: i64,
    pub principal: i64,
    pub quote: i64,
}
