// What soundness asks of a ledger whose run is on: due 0 zero in every account already done, house in range after each step still to come
// (01, "The ledger's words").
ghost use Rattle.std.specs.Prelude.{◌≡◌, true, ◌&&◌, ℕ, ◌-◌, ◌<◌, ◌≤◌, nat_abs};
ghost use Rattle.whole.specs.Number.{is};
ghost use Rattle.whole.specs.Counting.{all};
ghost use Rattle.rules.specs.Sizes.{most_house, most_gross};
ghost use Rattle.places.specs.Place.{get, due};
ghost use Rattle.places.specs.PlaceLaws.{Sized};
ghost use Rattle.places.specs.ByAccount.{by_account};
ghost use Rattle.soundness.specs.Sound as S;
ghost use Rattle.soundness.specs.SoundLaws.{DuesIn, records_ok};

use places::Shape;

// Whether due 0 is zero in the first `done` accounts.
fn done_ok(words: &[i64], s: Shape, done: usize) -> bool
    requires sized { Sized s words.now }
    requires done_le_n { done ≤ s.n }
    ensures { result ≡ all done (λ a. is 0 (get by_account s words.now (due a 0))) }
{
    for a in 0..done {
        if places::acct_word(words, s, a, places::FIRST_DUE) != 0 {
            return false;
        }
    }
    true
}

// Whether house, now at `house`, stays in range after the step of each account from `from` on.
pub fn stays(words: &[i64], s: Shape, house: i64, from: usize) -> bool
    requires sized { Sized s words.now }
    requires dues_in { DuesIn s (get by_account s words.now) }
    requires house_bound { nat_abs house ≤ most_house }
    requires from_le_n { from ≤ s.n }
    ensures { result ≡ S.stays (s.n - from) house from (get by_account s words.now) }
{
    let mut h = house;
    for a in from..s.n {
        h -= places::acct_word(words, s, a, places::FIRST_DUE);
        if !whole::within(h, rules::sizes::MOST_HOUSE) {
            return false;
        }
    }
    true
}

// The last two clauses of soundness, where head, products and accounts are in range.
pub fn run_ok(words: &[i64], s: Shape) -> bool
    requires sized { Sized s words.now }
    requires words_value { records_ok s (get by_account s words.now) ≡ true }
    ensures { result ≡ (S.done_ok (get by_account s words.now) && S.to_come_ok s (get by_account s words.now)) }
{
    let turn = places::head_word(words, s, places::PHASE).unsigned_abs() as usize;
    if turn < 1 {
        return true;
    }
    if !done_ok(words, s, turn - 1) {
        return false;
    }
    stays(
        words,
        s,
        places::head_word(words, s, places::HOUSE),
        turn - 1,
    )
}
