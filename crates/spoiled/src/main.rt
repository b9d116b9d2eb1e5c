// A sound ledger with one word spoiled, in each way that 01, "The ledger's words", names: every call on it answers 1 and leaves every word.
// A line for each: its name, the numbers that deposit, withdrawal, guarantee, question, trade, begin and step answer, and the count of words
// that they altered.
#![tactic(auto)]

use std::io;

const SIZE: usize = 47;

// 2 accounts, F and L; 3 products, two yen and a cross of them.
const SOUND: [i64; SIZE] = [
    2, 3, 0, 12345, 0, 0, 1500000, 0, 0, 0, 1, 1600000, 0, 0, 1, 0, 10850, 1, 0, 0, 1000000,
    500000, 400000, 600000, -100000, 50000, 0, 30, 45000000, 0, 0, -10, -108500, 1, 2000000, 0, 0,
    700000, 100000, -50000, 25, -30, -45000000, 0, 0, 10, 108500,
];

// A name, and the words that are put in place of the sound ones, each with its place.
type Spoiled<'a> = (&'a str, &'a [(usize, i64)]);

// The seven calls on the words, one after another: the numbers that they answer.
fn numbers(words: &mut [i64]) -> [u64; 7] {
    [
        ledger::deposit(words, 0, 1).number,
        ledger::withdraw(words, 1, 1).number,
        ledger::guarantee(words, 0, 1, 1).number,
        ledger::question(words, 0).number,
        ledger::trade(words, 0, 1, 0, 1, 1500000).number,
        ledger::begin(words).number,
        ledger::step(words).number,
    ]
}

// The calls on the first `size` of the words.
fn show(rt: &impl Print, name: &str, words: [i64; SIZE], size: usize) -> io::Result<()> {
    let mut now = words;
    let [deposit, withdraw, guarantee, question, trade, begin, step] = numbers(
        &mut now[..size.min(SIZE)],
    );
    let altered = tally::altered(&now, &words);
    println!(rt;
        "{name}: {deposit} {withdraw} {guarantee} {question} {trade} {begin} {step}, {altered}"
    )
}

fn spoiled(rt: &impl Print, all: &[Spoiled]) -> io::Result<()> {
    for (name, spoils) in all {
        let mut words = SOUND;
        for (at, value) in *spoils {
            if let Some(word) = words.get_mut(*at) {
                *word = *value;
            }
        }
        show(rt, name, words, SIZE)?;
    }
    Ok(())
}

fn lengths(rt: &impl Print) -> io::Result<()> {
    let sizes = [
        ("46 words", 46),
        ("19 words", 19),
        ("4 words", 4),
        ("3 words", 3),
        ("1 words", 1),
        ("0 words", 0),
    ];
    for (name, size) in sizes {
        show(rt, name, SOUND, size)?;
    }
    let all: [Spoiled; 15] = [
        ("n 0", &[(0, 0)]),
        ("n 1", &[(0, 1)]),
        ("n 3", &[(0, 3)]),
        ("n 65", &[(0, 65)]),
        ("n -2", &[(0, -2)]),
        ("n LEAST", &[(0, i64::MIN)]),
        ("n MOST", &[(0, i64::MAX)]),
        ("p 0", &[(1, 0)]),
        ("p 2", &[(1, 2)]),
        ("p 4", &[(1, 4)]),
        ("p 17", &[(1, 17)]),
        ("p -3", &[(1, -3)]),
        ("p LEAST", &[(1, i64::MIN)]),
        ("p MOST", &[(1, i64::MAX)]),
        ("n -20 and p -5", &[(0, -20), (1, -5)]),
    ];
    spoiled(rt, &all)
}

fn heads(rt: &impl Print) -> io::Result<()> {
    let all: [Spoiled; 8] = [
        ("phase -1", &[(2, -1)]),
        ("phase 4", &[(2, 4)]),
        ("phase LEAST", &[(2, i64::MIN)]),
        ("phase MOST", &[(2, i64::MAX)]),
        ("house 100000000000000001", &[(3, 100000000000000001)]),
        ("house -100000000000000001", &[(3, -100000000000000001)]),
        ("house LEAST", &[(3, i64::MIN)]),
        ("house MOST", &[(3, i64::MAX)]),
    ];
    spoiled(rt, &all)
}

fn products(rt: &impl Print) -> io::Result<()> {
    let all: [Spoiled; 14] = [
        ("kind of a product 2", &[(4, 2)]),
        ("kind of a product -1", &[(4, -1)]),
        ("floor mark 2", &[(5, 2)]),
        ("yen price 0", &[(6, 0)]),
        ("yen price 5000001", &[(6, 5000001)]),
        ("yen price LEAST", &[(6, i64::MIN)]),
        ("cross price 200001", &[(16, 200001)]),
        ("yen product with a principal", &[(7, 1)]),
        ("yen product with a quote", &[(8, 1)]),
        ("cross names itself", &[(17, 2)]),
        ("cross names a product that is not there", &[(17, 3)]),
        ("cross names -1", &[(17, -1)]),
        ("cross names LEAST", &[(18, i64::MIN)]),
        ("cross names one product twice", &[(17, 0)]),
    ];
    spoiled(rt, &all)
}

fn accounts(rt: &impl Print) -> io::Result<()> {
    let all: [Spoiled; 20] = [
        ("kind of an account 2", &[(19, 2)]),
        ("an L by kind, with a guarantee", &[(19, 1)]),
        ("guarantee -1", &[(21, -1)]),
        ("cap -1", &[(22, -1)]),
        ("margin -1", &[(23, -1)]),
        ("guarantee 1000000000001", &[(21, 1000000000001)]),
        ("cap 1000000000001", &[(22, 1000000000001)]),
        ("margin 8000000000001", &[(23, 8000000000001)]),
        ("L with a guarantee", &[(35, 1)]),
        ("L with a cap", &[(36, 1)]),
        ("cash LEAST", &[(20, i64::MIN)]),
        ("cash MOST", &[(20, i64::MAX)]),
        ("due 0 LEAST", &[(24, i64::MIN)]),
        ("due 0 MOST", &[(24, i64::MAX)]),
        ("due 1 LEAST", &[(25, i64::MIN)]),
        ("due 1 MOST", &[(25, i64::MAX)]),
        ("due 2 LEAST", &[(26, i64::MIN)]),
        ("due 2 MOST", &[(26, i64::MAX)]),
        ("gross 1 over", &[(34, 999999999849976)]),
        (
            "gross that would go round",
            &[(20, i64::MIN), (24, i64::MIN)],
        ),
    ];
    spoiled(rt, &all)
}

fn positions(rt: &impl Print) -> io::Result<()> {
    let all: [Spoiled; 8] = [
        ("lots 1000001", &[(27, 1000001)]),
        ("lots that do not add to zero", &[(27, 31)]),
        ("lots LEAST", &[(27, i64::MIN)]),
        (
            "lots that balance and are out of range",
            &[(27, 1000001), (41, -1000001)],
        ),
        (
            "lots that balance and go round",
            &[(27, i64::MAX), (41, -9223372036854775807)],
        ),
        (
            "book of a yen product 10000000000001",
            &[(28, 10000000000001)],
        ),
        ("book of a cross 400000000001", &[(32, 400000000001)]),
        ("book LEAST", &[(32, i64::MIN)]),
    ];
    spoiled(rt, &all)
}

fn runs(rt: &impl Print) -> io::Result<()> {
    let all: [Spoiled; 3] = [
        ("phase 2, account 0 not done", &[(2, 2)]),
        ("phase 3, nobody done", &[(2, 3)]),
        (
            "phase 1, house out after account 0",
            &[(2, 1), (3, 99999999999900001)],
        ),
    ];
    spoiled(rt, &all)
}

// Words that are unusual and sound: every call is taken or refused by its own rule.
fn sound(rt: &impl Print) -> io::Result<()> {
    let all: [Spoiled; 5] = [
        ("sound", &[(2, 0)]),
        ("sound, cash below 0", &[(20, -1)]),
        ("sound, lots 0 with a book", &[(30, 1)]),
        (
            "sound, house at its end in a run",
            &[(2, 1), (3, -100000000000000000)],
        ),
        ("sound, the begin would give 13", &[(3, 100000000000000000)]),
    ];
    spoiled(rt, &all)
}

fn main(rt: HostRuntime) -> io::Result<()> {
    lengths(&rt)?;
    heads(&rt)?;
    products(&rt)?;
    accounts(&rt)?;
    positions(&rt)?;
    runs(&rt)?;
    sound(&rt)
}
