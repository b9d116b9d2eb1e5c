// The C interface: the entry points under the names that include/heidbummen.h declares; `interface_c` exports each. Each function has the
// contract of the one below it, and asks nothing beforehand.
#![tactic(auto)]

ghost use Rattle.std.specs.Prelude.{◌≡◌};
ghost use Rattle.places.specs.ByAccount.{by_account};
ghost use Rattle.soundness.specs.Perform.{perform, ask};
ghost use Rattle.acts.specs.Requests as Q;
ghost use Rattle.acts.specs.Trade as T;
ghost use Rattle.acts.specs.Run as R;
ghost use Rattle.closing.specs.Close as C;
ghost use Rattle.shares.specs.Loss as L;
ghost use Rattle.rates.specs.MarginRate as P;
ghost use Rattle.rules.specs.AccountCalls as K;
ghost use Rattle.calls.specs.Ledger.{the_ledger};
ghost use Rattle.day.specs.Sheet.{sheet_of, answer_of};

use rules::{Account, Reply};

pub fn fx_deposit(words: &mut [i64], account: i64, amount: i64) -> Reply
    ensures { (result, words.new) ≡ perform by_account words.old (Q.deposit_rule account amount) }
{
    ledger::deposit(words, account, amount)
}

pub fn fx_withdraw(words: &mut [i64], account: i64, amount: i64) -> Reply
    ensures { (result, words.new) ≡ perform by_account words.old (Q.withdraw_rule account amount) }
{
    ledger::withdraw(words, account, amount)
}

pub fn fx_guarantee(words: &mut [i64], account: i64, guarantee: i64, cap: i64) -> Reply
    ensures { (result, words.new) ≡ perform by_account words.old (Q.guarantee_rule account guarantee cap) }
{
    ledger::guarantee(words, account, guarantee, cap)
}

// The three figures are written in every case, 0 when the question is refused: C has no other way to get more than one.
pub fn fx_question(
    words: &[i64],
    account: i64,
    limit: &mut i64,
    first: &mut i64,
    second: &mut i64,
) -> u64
    ensures { (record { number = result; limit = limit.new; first = first.new; second = second.new }, words.now) ≡ ask by_account words.now (Q.question_rule account) }
{
    let standing = ledger::question(words, account);
    *limit = standing.limit;
    *first = standing.first;
    *second = standing.second;
    standing.number
}

pub fn fx_trade(
    words: &mut [i64],
    buyer: i64,
    seller: i64,
    product: i64,
    lots: i64,
    price: i64,
) -> Reply
    ensures { (result, words.new) ≡ perform by_account words.old (T.trade_rule buyer seller product lots price) }
{
    ledger::trade(words, buyer, seller, product, lots, price)
}

pub fn fx_begin(words: &mut [i64]) -> Reply
    ensures { (result, words.new) ≡ perform by_account words.old R.begin_rule }
{
    ledger::begin(words)
}

pub fn fx_step(words: &mut [i64]) -> Reply
    ensures { (result, words.new) ≡ perform by_account words.old R.step_rule }
{
    ledger::step(words)
}

pub fn fx_close(
    words: &mut [i64],
    prices: &[i64],
    rates8: &[i64],
    rates104: &[i64],
    lags: &[i64],
) -> Reply
    ensures { (result, words.new) ≡ perform by_account words.old (C.close_rule prices.now rates8.now rates104.now lags.now) }
{
    closing::close(words, prices, rates8, rates104, lags)
}

pub fn fx_share(
    loss: i64,
    deposits: &[i64],
    differences: &[i64],
    marks: &[i64],
    first: &mut [i64],
    second: &mut [i64],
) -> Reply
    ensures { (result, first.new, second.new) ≡ L.loss_shared loss deposits.now differences.now marks.now first.old second.old }
{
    shares::share_loss(loss, deposits, differences, marks, first, second)
}

// The part handed back, as a pointer to its first figure and a count. A refusal's part has no figure: the pointer goes to the start of `weeks8`; where that list is
// empty too it stays as it was.
pub fn fx_rate<'a>(
    weeks8: &'a [i64],
    weeks104: &'a [i64],
    governs: &mut &'a i64,
    count: &mut usize,
) -> Reply
    ensures { (result, count.new, governs.new.ref_ptr) ≡ P.rated_in_c weeks8.entry weeks104.entry governs.old.ref_ptr }
{
    let mut number = 0;
    let mut rate = 0;
    let part = rates::governing(weeks8, weeks104, &mut number, &mut rate);
    let many = part.len();
    *count = many;
    if 0 < many {
        *governs = &part[0];
    } else if 0 < weeks8.len() {
        *governs = &weeks8[0];
    }
    Reply {
        number,
        figure: rate,
    }
}

pub fn fx_teller_deposit(account: &mut Account, x: i64) -> Reply
    ensures { (result ≡ K.reply_of (K.teller_deposit account.old x)) × (account.new ≡ (K.teller_deposit account.old x).account) }
{
    teller::deposit(account, x)
}

pub fn fx_teller_withdraw(account: &mut Account, x: i64) -> Reply
    ensures { (result ≡ K.reply_of (K.teller_withdrawal account.old x)) × (account.new ≡ (K.teller_withdrawal account.old x).account) }
{
    teller::withdraw(account, x)
}

// The bytes of the sheet, written at the start of `out`; 0, and `out` as it was, where it has not room for every sheet (65,536 bytes).
pub fn fx_sheet(text: &[u8], out: &mut [u8]) -> usize
    ensures { (result, out.new) ≡ answer_of (sheet_of the_ledger text.now) out.old }
{
    day::sheet(text, out)
}
