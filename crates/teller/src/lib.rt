// The teller window (document 01, "The ledger's words": deposits and withdrawals "on a single account record lent for change"). Each is the by-value
// rule of `rules::calls` on the record that is lent, whatever its figures: the lowest number that applies is answered, and a refusal leaves the record.
#![tactic(auto)]

ghost use Rattle.std.specs.Prelude.{◌≡◌};
ghost use Rattle.rules.specs.AccountCalls as C;
ghost use Rattle.rules.specs.AccountCalls.{teller_deposit, teller_withdrawal, reply_of};

use rules::{Accepted, Account, Refusal, Reply, calls};

// The reply, and the record after it: what is accepted is written, and a refusal leaves the record.
fn answered(account: &mut Account, outcome: Result<Accepted, Refusal>) -> Reply
    ensures { (result ≡ reply_of (C.outcome account.old outcome)) × (account.new ≡ (C.outcome account.old outcome).account) }
{
    match outcome {
        Ok(accepted) => {
            *account = accepted.account;
            Reply::from(Ok(accepted.figure))
        }
        Err(refusal) => Reply::from(Err(refusal)),
    }
}

// A deposit of x yen: 1, 5, 10.
pub fn deposit(account: &mut Account, x: i64) -> Reply
    ensures { (result ≡ reply_of (teller_deposit account.old x)) × (account.new ≡ (teller_deposit account.old x).account) }
{
    let outcome = calls::teller_deposit(*account, x);
    answered(account, outcome)
}

// A withdrawal of x yen: 1, 5, 11.
pub fn withdraw(account: &mut Account, x: i64) -> Reply
    ensures { (result ≡ reply_of (teller_withdrawal account.old x)) × (account.new ≡ (teller_withdrawal account.old x).account) }
{
    let outcome = calls::teller_withdrawal(*account, x);
    answered(account, outcome)
}

// A deposit on a record that is passed by value: a copy is lent to `deposit`, and handed back beside the reply. For callers whose record is a value
// of their own, as the program that runs the cases: they run the window itself.
pub fn deposit_by_value(account: Account, x: i64) -> (Reply, Account)
    ensures { result ≡ (reply_of (teller_deposit account x), (teller_deposit account x).account) }
{
    let mut lent = account;
    let reply = deposit(&mut lent, x);
    (reply, lent)
}

// A withdrawal in the same way.
pub fn withdraw_by_value(account: Account, x: i64) -> (Reply, Account)
    ensures { result ≡ (reply_of (teller_withdrawal account x), (teller_withdrawal account x).account) }
{
    let mut lent = account;
    let reply = withdraw(&mut lent, x);
    (reply, lent)
}
