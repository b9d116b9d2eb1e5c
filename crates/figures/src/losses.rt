// The figures of document 01 on a default loss: R11, R12 and the worked example, by the code of crate `shares`.
use std::io;

// A loss of three members, the last of them in default or not, and what the paper says of it.
#[derive(Clone, Copy)]
struct Loss<'a> {
    name: &'a str,
    loss: i64,
    deposits: [i64; 3],
    differences: [i64; 3],
    last: i64,
    expected: &'a str,
}

fn show(rt: &impl Print, case: Loss) -> io::Result<()> {
    let mut first = [7, 7, 7];
    let mut second = [7, 7, 7];
    let reply = shares::share_loss(
        case.loss,
        &case.deposits,
        &case.differences,
        &[0, 0, case.last],
        &mut first,
        &mut second,
    );
    let [a, b, c] = first;
    let [d, e, f] = second;
    println!(rt;
        "{}: {a} {b} {c}, {d} {e} {f}, {} {} = {}",
        case.name, reply.number, reply.figure, case.expected
    )
}

pub fn losses_by_hand(rt: &impl Print) -> io::Result<()> {
    let even = Loss {
        name: "R12",
        loss: 10,
        deposits: [5000000, 5000000, 5000000],
        differences: [0, 0, 0],
        last: 0,
        expected: "4 3 3, 0 0 0, 0 0",
    };
    let uneven = Loss {
        name: "R11",
        deposits: [5000000, 7000000, 9000000],
        expected: "3 3 4, 0 0 0, 0 0",
        ..even
    };
    let worked = Loss {
        name: "worked loss",
        loss: 12000000,
        differences: [900000, -100000, -2500000],
        last: 1,
        expected: "5000000 5000000 0, 900000 0 0, 0 1100000",
        ..even
    };
    let below = Loss {
        name: "loss below 0",
        loss: -1,
        expected: "7 7 7, 7 7 7, 5 0",
        ..even
    };
    show(rt, uneven)?;
    show(rt, even)?;
    show(rt, worked)?;
    show(rt, below)
}
