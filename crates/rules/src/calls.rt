// The calls on one account (document 01, "The day"), by value: what is answered, and the account after it. The lowest number that applies is
// the answer, and a refusal gives the account back as it was.
ghost use Rattle.std.specs.Prelude.{◌≡◌, true};
ghost use Rattle.rules.specs.Sizes.{amount_ok};
ghost use Rattle.rules.specs.Account.{account_ok};
ghost use Rattle.rules.specs.AccountCalls as C;

use crate::{Accepted, Account, Refusal, Standing, accounts, sizes};

// Whether a deposit or a withdrawal may be of x yen.
pub fn amount_ok(x: i64) -> bool
    ensures { result ≡ amount_ok x }
{
    (1..=sizes::MOST_AMOUNT).contains(&x)
}

// Whether a guarantee or a cap may be of x yen.
fn guarantee_ok(x: i64) -> bool
    ensures { result ≡ C.guarantee_ok x }
{
    (0..=sizes::MOST_GUARANTEE).contains(&x)
}

// A deposit of x yen: 5, 10.
#[tactic(auto, using(crate::proofs::CallFits::deposit_fits), unfolding(crate::specs::AccountCalls::deposited))]
pub fn deposited(account: Account, x: i64) -> Result<Accepted, Refusal>
    requires { account_ok account ≡ true }
    ensures { C.outcome account result ≡ C.deposited account x }
{
    if !amount_ok(x) {
        return Err(Refusal::Amount);
    }
    let sum = account.cash + x;
    let after = Account {
        cash: sum,
        ..account
    };
    if !accounts::gross_ok(after) {
        return Err(Refusal::GrossTooLarge);
    }
    Ok(Accepted {
        figure: sum,
        account: after,
    })
}

// A withdrawal of x yen: 5, 11.
#[tactic(auto, using(crate::proofs::CallFits::withdrawal_fits), unfolding(crate::specs::AccountCalls::withdrawn))]
pub fn withdrawn(account: Account, x: i64) -> Result<Accepted, Refusal>
    requires { account_ok account ≡ true }
    ensures { C.outcome account result ≡ C.withdrawn account x }
{
    if !amount_ok(x) {
        return Err(Refusal::Amount);
    }
    let limit = accounts::limit_of(account);
    if x > limit {
        return Err(Refusal::AboveLimit(limit));
    }
    let rest = account.cash - x;
    Ok(Accepted {
        figure: rest,
        account: Account {
            cash: rest,
            ..account
        },
    })
}

// A guarantee call: 5, 6.
#[tactic(auto, unfolding(crate::specs::AccountCalls::guaranteed))]
pub fn guaranteed(account: Account, guarantee: i64, cap: i64) -> Result<Accepted, Refusal>
    requires { account_ok account ≡ true }
    ensures { C.outcome account result ≡ C.guaranteed account guarantee cap }
{
    if !guarantee_ok(guarantee) || !guarantee_ok(cap) {
        return Err(Refusal::Amount);
    }
    if !accounts::is_broker(account) {
        return Err(Refusal::WrongKind);
    }
    let after = Account {
        guarantee,
        cap,
        ..account
    };
    Ok(Accepted {
        figure: accounts::lg_value(after),
        account: after,
    })
}

// 01, "Step": due 0 is added to cash and set to 0.
#[tactic(auto, using(crate::proofs::CallFits::transfer_fits), unfolding(crate::specs::AccountCalls::transferred))]
pub fn transferred(account: Account) -> Account
    requires { account_ok account ≡ true }
    ensures { result ≡ C.transferred account }
{
    Account {
        cash: account.cash + account.due0,
        due0: 0,
        ..account
    }
}

// A question: limit and both shortfalls.
#[tactic(auto, unfolding(crate::specs::AccountCalls::standing_of))]
pub fn standing_of(account: Account) -> Standing
    requires { account_ok account ≡ true }
    ensures { result ≡ C.standing_of account }
{
    Standing {
        number: 0,
        limit: accounts::limit_of(account),
        first: accounts::first_shortfall(account),
        second: accounts::second_shortfall(account),
    }
}

// The teller window's deposit, on a record of which nothing is known: 1, 5, 10.
#[tactic(auto, unfolding(crate::specs::AccountCalls::teller_deposit))]
pub fn teller_deposit(account: Account, x: i64) -> Result<Accepted, Refusal>
    ensures { C.outcome account result ≡ C.teller_deposit account x }
{
    if !accounts::account_ok(account) {
        return Err(Refusal::Unsound);
    }
    deposited(account, x)
}

// The teller window's withdrawal, on a record of which nothing is known: 1, 5, 11.
#[tactic(auto, unfolding(crate::specs::AccountCalls::teller_withdrawal))]
pub fn teller_withdrawal(account: Account, x: i64) -> Result<Accepted, Refusal>
    ensures { C.outcome account result ≡ C.teller_withdrawal account x }
{
    if !accounts::account_ok(account) {
        return Err(Refusal::Unsound);
    }
    withdrawn(account, x)
}
