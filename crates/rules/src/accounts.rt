// The margin rules on one account (document 01, "The margin rules"), and what a sound record is ("The ledger's words"). The figures are asked
// of sound records alone: there every sum fits 64 bits.
ghost use Rattle.std.specs.Prelude.{◌≡◌, true, ◌+◌, leb, nat_abs};
ghost use Rattle.rules.specs.Sizes.{most_gross};
ghost use Rattle.rules.specs.Account.{is_broker, gross_of, guarantee_limit, account_ok, lg_value, deposit_of, required_of, first_shortfall, next_day_need, second_shortfall, excess_one, excess_two, limit_of};

use crate::{Account, sizes};

// Whether an account of this kind is a broker F.
pub fn is_broker(account: Account) -> bool
    ensures { result ≡ is_broker account }
{
    account.kind == 0
}

// Whether the sizes of cash and the three dues come to at most 10^15. Where none of them has a bit above the lowest 61, their sum cannot pass 64 bits;
// where one has, it is too large by itself.
fn gross_within(cash: i64, due0: i64, due1: i64, due2: i64) -> bool
    ensures { result ≡ leb (nat_abs cash + nat_abs due0 + nat_abs due1 + nat_abs due2) most_gross }
{
    let cash_size = cash.unsigned_abs();
    let due0_size = due0.unsigned_abs();
    let due1_size = due1.unsigned_abs();
    let due2_size = due2.unsigned_abs();
    if cash_size | due0_size | due1_size | due2_size >= 0x2000_0000_0000_0000 {
        return false;
    }
    cash_size + due0_size + due1_size + due2_size <= sizes::MOST_GROSS
}

// Whether an account's gross is in range.
pub fn gross_ok(account: Account) -> bool
    ensures { result ≡ leb (gross_of account) most_gross }
{
    gross_within(account.cash, account.due0, account.due1, account.due2)
}

// The highest guarantee and cap of an account: an L has none.
pub fn guarantee_limit(account: Account) -> i64
    ensures { result ≡ guarantee_limit account }
{
    if is_broker(account) {
        sizes::MOST_GUARANTEE
    } else {
        0
    }
}

// Whether an account's record is sound, whatever its eight words are.
pub fn account_ok(account: Account) -> bool
    ensures { result ≡ account_ok account }
{
    let limit = guarantee_limit(account);
    if !whole::between(account.kind, 0, 1) {
        return false;
    }
    if !whole::between(account.guarantee, 0, limit) {
        return false;
    }
    if !whole::between(account.cap, 0, limit) {
        return false;
    }
    if !whole::between(account.margin, 0, sizes::MOST_MARGIN) {
        return false;
    }
    gross_ok(account)
}

// Source 001, article 17: the LG value.
#[tactic(auto, unfolding(crate::specs::Account::lg_value))]
pub fn lg_value(account: Account) -> i64
    requires { account_ok account ≡ true }
    ensures { result ≡ lg_value account }
{
    (account.guarantee * 99 / 100).min(account.cap)
}

// Source 001, 2(2): the deposit.
#[tactic(auto, unfolding(crate::specs::Account::deposit_of))]
pub fn deposit_of(account: Account) -> i64
    requires { account_ok account ≡ true }
    ensures { result ≡ deposit_of account }
{
    account.cash + lg_value(account)
}

// Source 001, 2(14): the required margin, which may be negative.
#[tactic(auto, unfolding(crate::specs::Account::required_of))]
pub fn required_of(account: Account) -> i64
    requires { account_ok account ≡ true }
    ensures { result ≡ required_of account }
{
    account.margin - account.due0 - account.due1 - account.due2
}

// Source 001, article 6: the first shortfall.
#[tactic(auto, unfolding(crate::specs::Account::first_shortfall))]
pub fn first_shortfall(account: Account) -> i64
    requires { account_ok account ≡ true }
    ensures { result ≡ first_shortfall account }
{
    (required_of(account) - deposit_of(account)).max(0)
}

// Source 001, 2(16), as M-101 reads it: the next-day need of an L. Where due 1 is negative it is what both dues take away together; where it is not, the
// need starts from 0, and is what due 0 takes away.
pub fn next_day_need(account: Account) -> i64
    requires { account_ok account ≡ true }
    ensures { result ≡ next_day_need account }
{
    let Account { due0, due1, .. } = account;
    if due1 < 0 {
        return whole::takes_away(due0 + due1);
    }
    whole::takes_away(due0)
}

// Source 001, article 6: the second shortfall.
#[tactic(auto, unfolding(crate::specs::Account::second_shortfall))]
pub fn second_shortfall(account: Account) -> i64
    requires { account_ok account ≡ true }
    ensures { result ≡ second_shortfall account }
{
    if is_broker(account) {
        return (whole::takes_away(account.due0) - account.cash).max(0);
    }
    (next_day_need(account) - account.cash).max(0)
}

// Source 001, article 8: excess one.
#[tactic(auto, unfolding(crate::specs::Account::excess_one))]
pub fn excess_one(account: Account) -> i64
    requires { account_ok account ≡ true }
    ensures { result ≡ excess_one account }
{
    deposit_of(account) - required_of(account)
}

// Source 001, article 8: excess two, in which the LG does not count.
#[tactic(auto, unfolding(crate::specs::Account::excess_two))]
pub fn excess_two(account: Account) -> i64
    requires { account_ok account ≡ true }
    ensures { result ≡ excess_two account }
{
    if is_broker(account) {
        return account.cash + account.due0 - account.margin;
    }
    account.cash + account.due1 - account.margin - whole::takes_away(account.due0)
}

// Source 001, article 8: what may be withdrawn.
#[tactic(auto, unfolding(crate::specs::Account::limit_of))]
pub fn limit_of(account: Account) -> i64
    requires { account_ok account ≡ true }
    ensures { result ≡ limit_of account }
{
    let excess = excess_one(account).min(excess_two(account));
    account.cash.min(excess).max(0)
}
