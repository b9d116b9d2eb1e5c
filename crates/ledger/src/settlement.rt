// The settlement run, behind the gate: the words are a sound ledger of the shape s (01, "The day", Begin and Step).
ghost use Rattle.std.specs.Prelude.{◌≡◌, [], ◌∷◌, ◌+◌, ◌<◌, ◌≤◌, ◌^◌, pos, nat_abs, ◌+ℤ◌, length, get_or, set};
ghost use Rattle.rules.specs.Refusal.{answer_of};
ghost use Rattle.rules.specs.AccountCalls.{transferred};
ghost use Rattle.places.specs.Place.{get, puts, ◌≔◌, cash, due, house, phase};
ghost use Rattle.places.specs.PlaceLaws.{Sized};
ghost use Rattle.places.specs.ByAccount.{by_account};
ghost use Rattle.places.specs.Act.{finish};
ghost use Rattle.soundness.specs.Sound as S;
ghost use Rattle.soundness.specs.SoundLaws.{Ledger};
ghost use Rattle.acts.specs.Run as R;

use places::Shape;
use rules::Refusal;

pub fn begin_in(words: &mut [i64], s: Shape) -> Result<i64, Refusal>
    requires { Ledger by_account s words.old }
    ensures { (answer_of result, words.new) ≡ finish by_account s words.old (R.begin_rule s (get by_account s words.old)) }
{
    if places::head_word(words, s, places::PHASE) != 0 {
        return Err(Refusal::WrongPhase);
    }
    if !soundness::run::stays(words, s, places::head_word(words, s, places::HOUSE), 0) {
        return Err(Refusal::HouseTooLarge);
    }
    places::put_head(words, s, places::PHASE, 1);
    Ok(0)
}

// The transfer on an account's words, which begin the part: due 0 is added to cash and set to 0.
fn transfer(part: &mut [i64])
    requires in_bounds { 6 ≤ length part.old }
    requires pos_bound_1 { nat_abs (get_or part.old 1 (pos 0)) ≤ 10 ^ 15 }
    requires pos_bound_2 { nat_abs (get_or part.old 5 (pos 0)) ≤ 10 ^ 15 }
    ensures { part.new ≡ set (set part.old 1 (get_or part.old 1 (pos 0) +ℤ get_or part.old 5 (pos 0))) 5 (pos 0) }
{
    part[places::CASH] += part[places::FIRST_DUE];
    part[places::FIRST_DUE] = 0;
}

// The transfer of the account a is written through the part of the list that begins at its record.
fn transfer_at(words: &mut [i64], s: Shape, a: usize)
    requires ledger { Ledger by_account s words.old }
    requires a_lt_n { a < s.n }
    ensures { words.new ≡ puts by_account s words.old (R.transfer_puts a (get by_account s words.old)) }
{
    let at = places::acct_at(s, a, 0);
    transfer(&mut words[at..]);
}

// The step of the account a, whose turn it is.
fn step_at(words: &mut [i64], s: Shape, a: usize) -> i64
    requires ledger { Ledger by_account s words.old }
    requires a_lt_n { (a < s.n) × (a + 1 ≡ S.turn (get by_account s words.old)) }
    ensures figure { result ≡ pos a }
    ensures words { words.new ≡ puts by_account s words.old (R.step_puts a (get by_account s words.old)) }
{
    let left = places::head_word(words, s, places::HOUSE)
        - places::acct_word(words, s, a, places::FIRST_DUE);
    let next = (a + 2) as i64;
    transfer_at(words, s, a);
    places::put_head(words, s, places::HOUSE, left);
    places::put_head(words, s, places::PHASE, next);
    a as i64
}

pub fn step_in(words: &mut [i64], s: Shape) -> Result<i64, Refusal>
    requires { Ledger by_account s words.old }
    ensures { (answer_of result, words.new) ≡ finish by_account s words.old (R.step_rule s (get by_account s words.old)) }
{
    let phase = places::head_word(words, s, places::PHASE);
    if !whole::between(phase, 1, s.n as i64) {
        return Err(Refusal::WrongPhase);
    }
    let turn = phase as usize;
    Ok(step_at(words, s, turn - 1))
}
