// The requests that name one account, behind the gate: the words are a sound ledger of the shape s. The rules on the account's record are
// crate `rules`'; here the record is read off the words, and what changed is put back.
ghost use Rattle.std.specs.Prelude.{◌≡◌, [], ◌∷◌, ◌<◌};
ghost use Rattle.rules.specs.Refusal.{answer_of};
ghost use Rattle.places.specs.Place.{get, puts, ◌≔◌, cash, guarantee, cap};
ghost use Rattle.places.specs.PlaceLaws.{Sized};
ghost use Rattle.places.specs.ByAccount.{by_account};
ghost use Rattle.places.specs.Act.{finish};
ghost use Rattle.soundness.specs.SoundLaws.{Ledger};
ghost use Rattle.acts.specs.Requests as Q;

use places::Shape;
use rules::{Accepted, Refusal, Standing, calls};

// The cash of the account a after a call that is accepted; its figure.
fn put_cash(words: &mut [i64], s: Shape, a: usize, accepted: Accepted) -> i64
    requires sized { Sized s words.old }
    requires a_lt_n { a < s.n }
    ensures figure { result ≡ accepted.figure }
    ensures words { words.new ≡ puts by_account s words.old ((cash a ≔ accepted.account.cash) ∷ []) }
{
    places::put_acct(words, s, a, places::CASH, accepted.account.cash);
    accepted.figure
}

// The guarantee and the cap of the account a after a call that is accepted; its figure.
fn put_guarantee(words: &mut [i64], s: Shape, a: usize, accepted: Accepted) -> i64
    requires sized { Sized s words.old }
    requires a_lt_n { a < s.n }
    ensures figure { result ≡ accepted.figure }
    ensures words { words.new ≡ puts by_account s words.old ((guarantee a ≔ accepted.account.guarantee) ∷ (cap a ≔ accepted.account.cap) ∷ []) }
{
    places::put_acct(words, s, a, places::GUARANTEE, accepted.account.guarantee);
    places::put_acct(words, s, a, places::CAP, accepted.account.cap);
    accepted.figure
}

// A deposit of x yen to the account a: 3, then the rule's own.
pub fn deposit_in(words: &mut [i64], s: Shape, a: i64, x: i64) -> Result<i64, Refusal>
    requires { Ledger by_account s words.old }
    ensures { (answer_of result, words.new) ≡ finish by_account s words.old (Q.deposit_rule a x s (get by_account s words.old)) }
{
    let Some(a) = whole::index_of(a, s.n) else {
        return Err(Refusal::NoSuchAccount);
    };
    let accepted = calls::deposited(soundness::account_at(words, s, a), x)?;
    Ok(put_cash(words, s, a, accepted))
}

// A withdrawal of x yen from the account a: 3, then the rule's own.
pub fn withdraw_in(words: &mut [i64], s: Shape, a: i64, x: i64) -> Result<i64, Refusal>
    requires { Ledger by_account s words.old }
    ensures { (answer_of result, words.new) ≡ finish by_account s words.old (Q.withdraw_rule a x s (get by_account s words.old)) }
{
    let Some(a) = whole::index_of(a, s.n) else {
        return Err(Refusal::NoSuchAccount);
    };
    let accepted = calls::withdrawn(soundness::account_at(words, s, a), x)?;
    Ok(put_cash(words, s, a, accepted))
}

// The guarantee and the cap of the account a: 3, then the rule's own.
pub fn guarantee_in(
    words: &mut [i64],
    s: Shape,
    a: i64,
    guarantee: i64,
    cap: i64,
) -> Result<i64, Refusal>
    requires { Ledger by_account s words.old }
    ensures { (answer_of result, words.new) ≡ finish by_account s words.old (Q.guarantee_rule a guarantee cap s (get by_account s words.old)) }
{
    let Some(a) = whole::index_of(a, s.n) else {
        return Err(Refusal::NoSuchAccount);
    };
    let accepted = calls::guaranteed(soundness::account_at(words, s, a), guarantee, cap)?;
    Ok(put_guarantee(words, s, a, accepted))
}

// The limit and the shortfalls of the account a: 3.
pub fn question_in(words: &[i64], s: Shape, a: i64) -> Standing
    requires { Ledger by_account s words.now }
    ensures { result ≡ (Q.question_rule a s (get by_account s words.now)).answer }
{
    let Some(a) = whole::index_of(a, s.n) else {
        return Standing::refused(Refusal::NoSuchAccount);
    };
    calls::standing_of(soundness::account_at(words, s, a))
}
