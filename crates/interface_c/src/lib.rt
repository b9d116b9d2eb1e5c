// The exports of `interface`, under the names that include/heidbummen.h declares: the archive that a C caller links. A slice is a pointer and a
// length. Each function has the contract of the one of the same name in `interface`, and asks nothing beforehand.
#![tactic(auto)]

ghost use Rattle.std.specs.Prelude.{◌≡◌};
ghost use Rattle.places.specs.ByAccount.{by_account};
ghost use Rattle.soundness.specs.Perform.{perform, ask};
ghost use Rattle.acts.specs.Requests as Q;
ghost use Rattle.acts.specs.Trade as T;
ghost use Rattle.acts.specs.Run as R;
ghost use Rattle.closing.specs.Close as C;
ghost use Rattle.shares.specs.Loss as L;
ghost use Rattle.rates.specs.MarginRate as P;
ghost use Rattle.rules.specs.AccountCalls as K;
ghost use Rattle.calls.specs.Ledger.{the_ledger};
ghost use Rattle.day.specs.Sheet.{sheet_of, answer_of};

use rules::{Account, Reply};

#[unsafe(no_mangle)]
pub extern "C" fn fx_deposit(words: &mut [i64], account: i64, amount: i64) -> Reply
    ensures { (result, words.new) ≡ perform by_account words.old (Q.deposit_rule account amount) }
{
    interface::fx_deposit(words, account, amount)
}

#[unsafe(no_mangle)]
pub extern "C" fn fx_withdraw(words: &mut [i64], account: i64, amount: i64) -> Reply
    ensures { (result, words.new) ≡ perform by_account words.old (Q.withdraw_rule account amount) }
{
    interface::fx_withdraw(words, account, amount)
}

#[unsafe(no_mangle)]
pub extern "C" fn fx_guarantee(words: &mut [i64], account: i64, guarantee: i64, cap: i64) -> Reply
    ensures { (result, words.new) ≡ perform by_account words.old (Q.guarantee_rule account guarantee cap) }
{
    interface::fx_guarantee(words, account, guarantee, cap)
}

// The three figures are written in every case, 0 when the question is refused.
#[unsafe(no_mangle)]
pub extern "C" fn fx_question(
    words: &[i64],
    account: i64,
    limit: &mut i64,
    first: &mut i64,
    second: &mut i64,
) -> u64
    ensures { (record { number = result; limit = limit.new; first = first.new; second = second.new }, words.now) ≡ ask by_account words.now (Q.question_rule account) }
{
    interface::fx_question(words, account, limit, first, second)
}

#[unsafe(no_mangle)]
pub extern "C" fn fx_trade(
    words: &mut [i64],
    buyer: i64,
    seller: i64,
    product: i64,
    lots: i64,
    price: i64,
) -> Reply
    ensures { (result, words.new) ≡ perform by_account words.old (T.trade_rule buyer seller product lots price) }
{
    interface::fx_trade(words, buyer, seller, product, lots, price)
}

#[unsafe(no_mangle)]
pub extern "C" fn fx_begin(words: &mut [i64]) -> Reply
    ensures { (result, words.new) ≡ perform by_account words.old R.begin_rule }
{
    interface::fx_begin(words)
}

#[unsafe(no_mangle)]
pub extern "C" fn fx_step(words: &mut [i64]) -> Reply
    ensures { (result, words.new) ≡ perform by_account words.old R.step_rule }
{
    interface::fx_step(words)
}

#[unsafe(no_mangle)]
pub extern "C" fn fx_close(
    words: &mut [i64],
    prices: &[i64],
    rates8: &[i64],
    rates104: &[i64],
    lags: &[i64],
) -> Reply
    ensures { (result, words.new) ≡ perform by_account words.old (C.close_rule prices.now rates8.now rates104.now lags.now) }
{
    interface::fx_close(words, prices, rates8, rates104, lags)
}

#[unsafe(no_mangle)]
pub extern "C" fn fx_share(
    loss: i64,
    deposits: &[i64],
    differences: &[i64],
    marks: &[i64],
    first: &mut [i64],
    second: &mut [i64],
) -> Reply
    ensures { (result, first.new, second.new) ≡ L.loss_shared loss deposits.now differences.now marks.now first.old second.old }
{
    interface::fx_share(loss, deposits, differences, marks, first, second)
}

// The part handed back, as a pointer to its first figure and a count. A refusal's part has no figure: the pointer goes to the start of `weeks8`; where that list is
// empty too it stays as it was.
#[unsafe(no_mangle)]
pub extern "C" fn fx_rate<'a>(
    weeks8: &'a [i64],
    weeks104: &'a [i64],
    governs: &mut &'a i64,
    count: &mut usize,
) -> Reply
    ensures { (result, count.new, governs.new.ref_ptr) ≡ P.rated_in_c weeks8.entry weeks104.entry governs.old.ref_ptr }
{
    interface::fx_rate(weeks8, weeks104, governs, count)
}

#[unsafe(no_mangle)]
pub extern "C" fn fx_teller_deposit(account: &mut Account, x: i64) -> Reply
    ensures { (result ≡ K.reply_of (K.teller_deposit account.old x)) × (account.new ≡ (K.teller_deposit account.old x).account) }
{
    interface::fx_teller_deposit(account, x)
}

#[unsafe(no_mangle)]
pub extern "C" fn fx_teller_withdraw(account: &mut Account, x: i64) -> Reply
    ensures { (result ≡ K.reply_of (K.teller_withdrawal account.old x)) × (account.new ≡ (K.teller_withdrawal account.old x).account) }
{
    interface::fx_teller_withdraw(account, x)
}

// The bytes of the sheet, written at the start of `out`; 0, and `out` as it was, where it has not room for every sheet (65,536 bytes).
#[unsafe(no_mangle)]
pub extern "C" fn fx_sheet(text: &[u8], out: &mut [u8]) -> usize
    ensures { (result, out.new) ≡ answer_of (sheet_of the_ledger text.now) out.old }
{
    interface::fx_sheet(text, out)
}
