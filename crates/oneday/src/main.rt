// A whole day and the next morning on one ledger: trades, a run with requests between its transfers, closes, and every refusal on the way. A
// line for each call: what was asked, what came, and what document 01 gives, worked out apart; at the end the words that differ from those of
// 01, counted.
#![tactic(auto)]

mod calls;

use calls::{Answer, Call, Closing};
use std::io;

// Two brokers and a provider; two yen products, the second with the floor mark, and their cross.
const FIRST_WORDS: [i64; 61] = [
    3, 3, 0, 0, 0, 0, 1500000, 0, 0, 0, 1, 1600000, 0, 0, 1, 0, 10850, 1, 0, 0, 3000000, 1000001,
    1000001, 0, 0, 0, 0, 0, 0, 0, 0, 0, 0, 0, 2000000, 0, 0, 0, 0, 0, 0, 0, 0, 0, 0, 0, 0, 1,
    50000000, 0, 0, 0, 0, 0, 0, 0, 0, 0, 0, 0, 0,
];

const LAST_WORDS: [i64; 61] = [
    3,
    3,
    2,
    -69997,
    0,
    0,
    1400000,
    0,
    0,
    0,
    1,
    1700000,
    0,
    0,
    1,
    0,
    11000,
    1,
    0,
    0,
    570007,
    1000001,
    1000001,
    4247600,
    0,
    0,
    -307509,
    30,
    42000000,
    7,
    11900000,
    0,
    0,
    0,
    2000000,
    400000,
    300000,
    2399830,
    0,
    -21236,
    -51300,
    5,
    7000000,
    0,
    0,
    -10,
    -110000,
    1,
    1000049999990,
    0,
    0,
    6647430,
    -69998,
    21235,
    358809,
    -35,
    -49000000,
    -7,
    -11900000,
    10,
    110000,
];

// A line for each call: its name and figures, what came, `=`, and what is expected.
fn told(rt: &impl Print, words: &mut [i64], calls: &[(Call, Answer)]) -> io::Result<()> {
    for (call, expected) in calls {
        let came = call.done(words);
        println!(rt; "{call}: {came} = {expected}")?;
    }
    Ok(())
}

fn closes(prices: [i64; 3], rates8: [i64; 3], rates104: [i64; 3], lags: [i64; 3]) -> Call {
    Call::Close(Closing {
        prices,
        rates8,
        rates104,
        lags,
    })
}

fn opening(rt: &impl Print, words: &mut [i64]) -> io::Result<()> {
    let calls = [
        (Call::Deposit(0, 500000), Answer::Reply(0, 3500000)),
        (Call::Withdraw(1, 2000001), Answer::Reply(11, 2000000)),
        (Call::Guarantee(1, 400000, 300000), Answer::Reply(0, 300000)),
        (Call::Question(1), Answer::Standing(0, 2000000, 0, 0)),
    ];
    told(rt, words, &calls)
}

fn trades(rt: &impl Print, words: &mut [i64]) -> io::Result<()> {
    let calls = [
        (Call::Trade(0, 2, 0, 30, 1502500), Answer::Reply(0, 0)),
        (Call::Trade(2, 1, 2, 10, 10850), Answer::Reply(0, 0)),
        (Call::Trade(0, 2, 1, 7, 1600003), Answer::Reply(0, 0)),
        (Call::Trade(0, 1, 0, 1, 1), Answer::Reply(6, 0)),
    ];
    told(rt, words, &calls)
}

fn trades_refused(rt: &impl Print, words: &mut [i64]) -> io::Result<()> {
    let calls = [
        (Call::Trade(1, 2, 2, 1, 200001), Answer::Reply(8, 0)),
        (Call::Trade(0, 2, 0, 1000000, 5000000), Answer::Reply(9, 0)),
        (Call::Trade(0, 3, 0, 1, 1), Answer::Reply(3, 0)),
        (Call::Trade(0, 2, 3, 1, 1), Answer::Reply(4, 0)),
    ];
    told(rt, words, &calls)
}

fn too_early(rt: &impl Print, words: &mut [i64]) -> io::Result<()> {
    let calls = [
        (Call::Step, Answer::Reply(7, 0)),
        (
            closes(
                [1502503, 1600000, 10873],
                [300, 200, 500],
                [350, 100, 400],
                [0, 1, 2],
            ),
            Answer::Reply(7, 0),
        ),
        (Call::Begin, Answer::Reply(0, 0)),
        (Call::Question(0), Answer::Standing(0, 3500000, 0, 0)),
    ];
    told(rt, words, &calls)
}

fn empty_run(rt: &impl Print, words: &mut [i64]) -> io::Result<()> {
    let calls = [
        (Call::Step, Answer::Reply(0, 0)),
        (Call::Deposit(0, 1), Answer::Reply(0, 3500001)),
        (Call::Step, Answer::Reply(0, 1)),
        (Call::Step, Answer::Reply(0, 2)),
    ];
    told(rt, words, &calls)
}

fn first_close(rt: &impl Print, words: &mut [i64]) -> io::Result<()> {
    let calls = [
        (
            closes(
                [1502503, 1600000, 10873],
                [300, 200, 500],
                [350, 100, 400],
                [0, 1, 3],
            ),
            Answer::Reply(8, 0),
        ),
        (
            closes(
                [1502503, 1600000, 200001],
                [300, 200, 500],
                [350, 100, 400],
                [0, 1, 2],
            ),
            Answer::Reply(8, 0),
        ),
        (
            closes(
                [1502503, 1600000, 10873],
                [300, 200, 500],
                [350, 100, 400],
                [0, 1, 2],
            ),
            Answer::Reply(0, 0),
        ),
    ];
    told(rt, words, &calls)
}

fn after_the_close(rt: &impl Print, words: &mut [i64]) -> io::Result<()> {
    let calls = [
        (Call::Question(0), Answer::Standing(0, 3297447, 0, 0)),
        (Call::Question(1), Answer::Standing(0, 1920000, 0, 0)),
        (Call::Question(2), Answer::Standing(0, 49717430, 0, 0)),
        (Call::Begin, Answer::Reply(0, 0)),
    ];
    told(rt, words, &calls)
}

fn in_the_run(rt: &impl Print, words: &mut [i64]) -> io::Result<()> {
    let calls = [
        (Call::Withdraw(0, 3000000), Answer::Reply(0, 500001)),
        (Call::Trade(1, 2, 0, 5, 1502600), Answer::Reply(0, 0)),
        (Call::Step, Answer::Reply(0, 0)),
        (Call::Withdraw(0, 3000000), Answer::Reply(11, 297447)),
    ];
    told(rt, words, &calls)
}

fn still_in_the_run(rt: &impl Print, words: &mut [i64]) -> io::Result<()> {
    let calls = [
        (Call::Begin, Answer::Reply(7, 0)),
        (
            Call::Deposit(2, 1000000000000),
            Answer::Reply(0, 1000050000000),
        ),
        (Call::Step, Answer::Reply(0, 1)),
        (Call::Guarantee(2, 0, 0), Answer::Reply(6, 0)),
    ];
    told(rt, words, &calls)
}

fn run_done(rt: &impl Print, words: &mut [i64]) -> io::Result<()> {
    let calls = [
        (Call::Withdraw(2, 1), Answer::Reply(0, 1000049999999)),
        (Call::Step, Answer::Reply(0, 2)),
        (Call::Step, Answer::Reply(7, 0)),
        (Call::Withdraw(1, 1000000000001), Answer::Reply(5, 0)),
    ];
    told(rt, words, &calls)
}

fn second_close(rt: &impl Print, words: &mut [i64]) -> io::Result<()> {
    let calls = [
        (
            closes(
                [1400000, 1700000, 11000],
                [10000, 1, 1],
                [1, 1, 9999],
                [2, 0, 1],
            ),
            Answer::Reply(0, 0),
        ),
        (Call::Begin, Answer::Reply(0, 0)),
        (Call::Step, Answer::Reply(0, 0)),
        (Call::Question(2), Answer::Standing(0, 1000043303797, 0, 0)),
    ];
    told(rt, words, &calls)
}

fn main(rt: HostRuntime) -> io::Result<()> {
    let mut words = FIRST_WORDS;
    opening(&rt, &mut words)?;
    trades(&rt, &mut words)?;
    trades_refused(&rt, &mut words)?;
    too_early(&rt, &mut words)?;
    empty_run(&rt, &mut words)?;
    first_close(&rt, &mut words)?;
    after_the_close(&rt, &mut words)?;
    in_the_run(&rt, &mut words)?;
    still_in_the_run(&rt, &mut words)?;
    run_done(&rt, &mut words)?;
    second_close(&rt, &mut words)?;
    println!(rt;
        "words that differ: {}",
        tally::altered(&words, &LAST_WORDS)
    )
}
