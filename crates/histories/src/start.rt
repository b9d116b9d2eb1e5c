// A sound ledger of four accounts and three products in phase 1, drawn by the history's number. Every eighth has an account close to the end
// of its gross.
use crate::chance::Chance;

pub const WORDS: usize = 75;

// Two yen products and a cross of them, each in its five words.
const PRODUCTS: [i64; 15] = [0, 0, 1500000, 0, 0, 0, 0, 1600000, 0, 0, 1, 0, 10850, 1, 0];

fn head(seed: u64) -> [i64; 4] {
    let chance = Chance { seed, event: 0 };
    [4, 3, 1, chance.drawn(0, -1000000, 2000000)]
}

// The cash of the account k: close to 10^15 in every eighth history, for one of its accounts.
fn cash_of(chance: Chance, k: u64) -> i64 {
    if chance.seed % 8 == 0 && k == 1 {
        return chance.drawn(1, 999999999000000, 100000);
    }
    chance.drawn(1, -400000, 2000000)
}

// The record of the account k, counted from 1: the odd are brokers, with a guarantee and a cap, the even are providers.
fn account(seed: u64, k: u64) -> [i64; 8] {
    let chance = Chance { seed, event: k };
    let broker = k % 2 == 1;
    [
        i64::from(!broker),
        cash_of(chance, k),
        if broker {
            chance.drawn(2, 0, 1000000)
        } else {
            0
        },
        if broker {
            chance.drawn(3, 0, 1000000)
        } else {
            0
        },
        chance.drawn(4, 0, 500000),
        chance.drawn(5, -300000, 600000),
        chance.drawn(6, -300000, 600000),
        chance.drawn(7, -300000, 600000),
    ]
}

pub fn words(seed: u64) -> [i64; WORDS] {
    let mut words = [0; WORDS];
    words[..4].copy_from_slice(&head(seed));
    words[4..19].copy_from_slice(&PRODUCTS);
    for k in 0..4 {
        let at = 19 + 14 * k;
        words[at..at + 8].copy_from_slice(&account(seed, k as u64 + 1));
    }
    words
}
