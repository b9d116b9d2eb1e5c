// The ledger's calls on the words (01, "The day"). Each entry point takes any list of words and any figures: it refuses what is not a sound
// ledger with 1, and else hands the words to the function behind the gate, which does not test them again and answers a Result. The entry points
// themselves answer a number and a figure, as C gets them: the theorems of tight and stretches speak of these contracts.
#![tactic(auto)]

ghost use Rattle.std.specs.Prelude.{◌≡◌};
ghost use Rattle.places.specs.ByAccount.{by_account};
ghost use Rattle.soundness.specs.Perform.{perform, ask};
ghost use Rattle.acts.specs.Requests as Q;
ghost use Rattle.acts.specs.Trade as T;
ghost use Rattle.acts.specs.Run as R;

use rules::{Refusal, Reply, Standing};

pub mod requests;
pub mod settlement;
pub mod trading;

// A deposit of x into the account a: 1 3 5 10. The figure is the new cash.
pub fn deposit(words: &mut [i64], a: i64, x: i64) -> Reply
    ensures { (result, words.new) ≡ perform by_account words.old (Q.deposit_rule a x) }
{
    let Some(s) = soundness::sound_shape(words) else {
        return Reply::from(Err(Refusal::Unsound));
    };
    Reply::from(requests::deposit_in(words, s, a, x))
}

// A withdrawal of x from the account a: 1 3 5 11. The figure is the new cash, or with 11 the limit.
pub fn withdraw(words: &mut [i64], a: i64, x: i64) -> Reply
    ensures { (result, words.new) ≡ perform by_account words.old (Q.withdraw_rule a x) }
{
    let Some(s) = soundness::sound_shape(words) else {
        return Reply::from(Err(Refusal::Unsound));
    };
    Reply::from(requests::withdraw_in(words, s, a, x))
}

// A new guarantee and cap for the account a: 1 3 5 6. The figure is the new LG value.
pub fn guarantee(words: &mut [i64], a: i64, guarantee: i64, cap: i64) -> Reply
    ensures { (result, words.new) ≡ perform by_account words.old (Q.guarantee_rule a guarantee cap) }
{
    let Some(s) = soundness::sound_shape(words) else {
        return Reply::from(Err(Refusal::Unsound));
    };
    Reply::from(requests::guarantee_in(words, s, a, guarantee, cap))
}

// The limit and both shortfalls of the account a: 1 3.
pub fn question(words: &[i64], a: i64) -> Standing
    ensures { (result, words.now) ≡ ask by_account words.now (Q.question_rule a) }
{
    let Some(s) = soundness::sound_shape(words) else {
        return Standing::refused(Refusal::Unsound);
    };
    requests::question_in(words, s, a)
}

// A trade of `lots` of the product at the price: 1 3 4 6 8 9.
pub fn trade(
    words: &mut [i64],
    buyer: i64,
    seller: i64,
    product: i64,
    lots: i64,
    price: i64,
) -> Reply
    ensures { (result, words.new) ≡ perform by_account words.old (T.trade_rule buyer seller product lots price) }
{
    let Some(s) = soundness::sound_shape(words) else {
        return Reply::from(Err(Refusal::Unsound));
    };
    Reply::from(trading::trade_in(words, s, buyer, seller, product, lots, price))
}

// The run begins: 1 7 13.
pub fn begin(words: &mut [i64]) -> Reply
    ensures { (result, words.new) ≡ perform by_account words.old R.begin_rule }
{
    let Some(s) = soundness::sound_shape(words) else {
        return Reply::from(Err(Refusal::Unsound));
    };
    Reply::from(settlement::begin_in(words, s))
}

// The next account of the run has its transfer: 1 7. The figure is the account stepped.
pub fn step(words: &mut [i64]) -> Reply
    ensures { (result, words.new) ≡ perform by_account words.old R.step_rule }
{
    let Some(s) = soundness::sound_shape(words) else {
        return Reply::from(Err(Refusal::Unsound));
    };
    Reply::from(settlement::step_in(words, s))
}
