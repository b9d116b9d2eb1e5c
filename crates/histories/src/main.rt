// Demand 3, run: random histories of requests between the transfers of a settlement run, over the proved calls. Each is done as it came, and
// again in three stretches on the same start; every answer and every word at the end is compared. Prints how many histories, events and
// differences there were, and how many events of each stretch.
#![tactic(auto)]

ghost use Rattle.std.specs.Prelude.{◌≤◌};

use events::Stretch;
use std::io;

mod chance;
mod events;
mod start;

const HISTORIES: u64 = 4000;

// In how many respects a history as it came and in three stretches differs, 0 to 6: the start's soundness, the answers of each stretch and of the
// attempts, the words at the end.
fn differences(seed: u64) -> u64
    ensures { result ≤ 6 }
{
    let mut words = start::words(seed);
    let mut again = words;
    let mut answers = [events::NOT_ASKED; events::EVENTS];
    let unsound = !soundness::sound(&words);
    events::mixture(&mut words, &mut answers, seed);
    let early = events::stretch_differs(&mut again, &answers, seed, Stretch::Early);
    let run = events::stretch_differs(&mut again, &answers, seed, Stretch::Run);
    let late = events::stretch_differs(&mut again, &answers, seed, Stretch::Late);
    let idle = events::attempts_differ(&answers, seed);
    let told = [unsound, early, run, late, idle]
        .iter()
        .filter(|differs| **differs)
        .count();
    told as u64 + tally::some(tally::altered(&words, &again))
}

fn total(which: Stretch) -> u64 {
    let mut sum = 0;
    for seed in 0..HISTORIES {
        sum += events::of_stretch(seed, which);
    }
    sum
}

fn main(rt: HostRuntime) -> io::Result<()> {
    let mut sum = 0;
    for seed in 0..HISTORIES {
        sum += differences(seed);
    }
    println!(rt; "histories: {HISTORIES}")?;
    println!(rt; "early requests: {}", total(Stretch::Early))?;
    println!(rt; "transfers: {}", total(Stretch::Run))?;
    println!(rt; "late requests: {}", total(Stretch::Late))?;
    println!(rt; "attempts to begin or close: {}", total(Stretch::Idle))?;
    println!(rt; "differences: {sum}")
}
