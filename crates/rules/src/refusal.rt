// Why a call is refused, and the number and the figure that it is answered with (01, "Numbers returned").
ghost use Rattle.std.specs.Prelude.{◌≡◌};
ghost use Rattle.rules.specs.Refusal.{number_of, figure_of};

#[derive(Clone, Copy, PartialEq, Eq)]
pub enum Refusal {
    Unsound,
    Lists,
    NoSuchAccount,
    NoSuchProduct,
    Amount,
    WrongKind,
    WrongPhase,
    OutOfRange,
    PositionTooLarge,
    GrossTooLarge,
    AboveLimit(i64),
    AccountTooLarge(i64),
    HouseTooLarge,
}

impl Refusal {
    pub fn number(self) -> u64
        ensures { result ≡ number_of self }
    {
        match self {
            Refusal::Unsound => 1,
            Refusal::Lists => 2,
            Refusal::NoSuchAccount => 3,
            Refusal::NoSuchProduct => 4,
            Refusal::Amount => 5,
            Refusal::WrongKind => 6,
            Refusal::WrongPhase => 7,
            Refusal::OutOfRange => 8,
            Refusal::PositionTooLarge => 9,
            Refusal::GrossTooLarge => 10,
            Refusal::AboveLimit(_) => 11,
            Refusal::AccountTooLarge(_) => 12,
            Refusal::HouseTooLarge => 13,
        }
    }

    // The limit, the lowest account, or 0 where the paper names none.
    pub fn figure(self) -> i64
        ensures { result ≡ figure_of self }
    {
        match self {
            Refusal::AboveLimit(limit) => limit,
            Refusal::AccountTooLarge(account) => account,
            _ => 0,
        }
    }
}
