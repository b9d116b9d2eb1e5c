// Runs the code of the rule book on the figures of document 01 that concern one product, one account or a default loss, "Figures by hand"
// first, then the bounds of its ranges.
#![tactic(auto)]

use lines::{EMPTY, broker, call, figure, guarantee, provider, question, show, transfer, unsound};
use rules::Account;
use rules::products::{difference_of, margin_of, rate_of};
use std::io;
use teller::{deposit_by_value, withdraw_by_value};

mod lines;
mod losses;

const LEAST: i64 = i64::MIN;

// ---- R1 to R10

fn products_by_hand(rt: &impl Print) -> io::Result<()> {
    show(
        rt,
        &[
            figure("R1 margin", margin_of(30, 1502500, 400), 180300),
            figure("R2 margin", margin_of(1, 1502501, 333), 5004),
            figure("R3 buyer", difference_of(0, 7, 10517500, 1502503, 1), 2),
            figure("R4 seller", difference_of(0, -7, -10517500, 1502503, 1), -3),
            figure(
                "R5 buyer",
                difference_of(1, 10, 108500, 10873, 1502500),
                3455,
            ),
            figure(
                "R6 seller",
                difference_of(1, -10, -108500, 10873, 1502500),
                -3456,
            ),
        ],
    )
}

fn accounts_by_hand(rt: &impl Print) -> io::Result<()> {
    let eighth = Account {
        cash: 1000000,
        guarantee: 1000001,
        cap: 1000001,
        margin: 600000,
        due0: -100000,
        due1: 50000,
        ..EMPTY
    };
    let ninth = provider(1000000, 600000, 100000, -50000, 0);
    let tenth = broker(80000, 600000, -100000, 0, 0);
    show(
        rt,
        &[
            call(
                "R7 LG value",
                guarantee(broker(0, 0, 0, 0, 0), 1000001, 1000001),
                0,
                990000,
            ),
            figure("R8 limit", question(eighth).limit, 300000),
            call("R8 300,000", withdraw_by_value(eighth, 300000), 0, 700000),
            call("R8 300,001", withdraw_by_value(eighth, 300001), 11, 300000),
            figure("R9 limit", question(ninth).limit, 350000),
            figure(
                "R9 limit after its transfer",
                question(transfer(ninth)).limit,
                450000,
            ),
            figure("R10 first shortfall", question(tenth).first, 620000),
            figure("R10 second shortfall", question(tenth).second, 20000),
        ],
    )
}

// ---- rates, margins, rounding

fn rates(rt: &impl Print) -> io::Result<()> {
    show(
        rt,
        &[
            figure("rate, no floor mark", rate_of(0, 300, 200), 300),
            figure("rate, the floor works", rate_of(1, 300, 200), 400),
            figure("rate, above the floor", rate_of(1, 300, 500), 500),
            figure(
                "margin, the largest",
                margin_of(-1000000, 5000000, 10000),
                500000000000,
            ),
            figure("margin, no lots", margin_of(0, 5000000, 10000), 0),
        ],
    )
}

fn rounding(rt: &impl Print) -> io::Result<()> {
    show(
        rt,
        &[
            figure("difference, raw 0", difference_of(0, 0, 0, 1, 1), 0),
            figure("difference, raw -1", difference_of(0, 0, 1, 1, 1), -1),
            figure("difference, raw -10", difference_of(0, 0, 10, 1, 1), -1),
            figure("difference, raw -11", difference_of(0, 0, 11, 1, 1), -2),
            figure(
                "difference, the largest of a cross",
                difference_of(1, 1000000, -400000000000, 200000, 5000000),
                30000000000000,
            ),
            figure(
                "difference, the least of a cross",
                difference_of(1, -1000000, 400000000000, 200000, 5000000),
                -30000000000000,
            ),
        ],
    )
}

// ---- deposits and withdrawals

fn full_accounts(rt: &impl Print) -> io::Result<()> {
    let full = broker(999999999999990, 0, -4, 0, 1);
    let owing = broker(-1000000000000000, 0, 0, 0, 0);
    show(
        rt,
        &[
            call(
                "deposit to gross 10^15",
                deposit_by_value(full, 5),
                0,
                999999999999995,
            ),
            call(
                "deposit to gross 10^15 + 1",
                deposit_by_value(full, 6),
                10,
                0,
            ),
            call(
                "deposit on cash -10^15 lowers gross",
                deposit_by_value(owing, 1000000000000),
                0,
                -999000000000000,
            ),
        ],
    )
}

fn deposits(rt: &impl Print) -> io::Result<()> {
    let one = broker(1, 0, 0, 0, 0);
    show(
        rt,
        &[
            call(
                "deposit of 10^12",
                deposit_by_value(one, 1000000000000),
                0,
                1000000000001,
            ),
            call(
                "deposit of 10^12 + 1",
                deposit_by_value(one, 1000000000001),
                5,
                0,
            ),
            call("deposit of 1", deposit_by_value(one, 1), 0, 2),
            call("deposit of 0", deposit_by_value(one, 0), 5, 0),
            call("deposit of -1", deposit_by_value(one, -1), 5, 0),
            call("deposit of -2^63", deposit_by_value(one, LEAST), 5, 0),
        ],
    )
}

fn withdrawals(rt: &impl Print) -> io::Result<()> {
    let rich = broker(1000000000000000, 0, 0, 0, 0);
    show(
        rt,
        &[
            call("withdrawal of 0", withdraw_by_value(rich, 0), 5, 0),
            call(
                "withdrawal of 10^12",
                withdraw_by_value(rich, 1000000000000),
                0,
                999000000000000,
            ),
            call(
                "withdrawal of 10^12 + 1",
                withdraw_by_value(rich, 1000000000001),
                5,
                0,
            ),
            call("withdrawal of -2^63", withdraw_by_value(rich, LEAST), 5, 0),
        ],
    )
}

fn limits(rt: &impl Print) -> io::Result<()> {
    show(
        rt,
        &[
            call(
                "withdrawal of all cash",
                withdraw_by_value(broker(7, 0, 0, 0, 0), 7),
                0,
                0,
            ),
            call(
                "withdrawal at limit 0",
                withdraw_by_value(broker(-7, 0, 0, 0, 0), 1),
                11,
                0,
            ),
            call(
                "withdrawal above cash, due 0 coming in",
                withdraw_by_value(broker(50000, 0, 200000, 0, 0), 60000),
                11,
                50000,
            ),
        ],
    )
}

fn limits_of_a_question(rt: &impl Print) -> io::Result<()> {
    show(
        rt,
        &[
            figure(
                "limit, LG does not count in excess two",
                question(Account {
                    cash: 5,
                    guarantee: 100,
                    cap: 100,
                    margin: 5,
                    ..EMPTY
                })
                .limit,
                0,
            ),
            figure(
                "limit, required margin negative",
                question(provider(9, 2, 0, 1, 5)).limit,
                8,
            ),
        ],
    )
}

// ---- guarantees and shortfalls

fn guarantees(rt: &impl Print) -> io::Result<()> {
    let f = broker(0, 0, 0, 0, 0);
    show(
        rt,
        &[
            call(
                "guarantee 10^12",
                guarantee(f, 1000000000000, 1000000000000),
                0,
                990000000000,
            ),
            call("guarantee 10^12 + 1", guarantee(f, 1000000000001, 0), 5, 0),
            call("cap 10^12 + 1", guarantee(f, 0, 1000000000001), 5, 0),
            call("guarantee -1", guarantee(f, -1, 0), 5, 0),
            call("cap below the value", guarantee(f, 100, 98), 0, 98),
        ],
    )
}

fn guarantees_of_an_l(rt: &impl Print) -> io::Result<()> {
    let l = provider(0, 0, 0, 0, 0);
    show(
        rt,
        &[
            call("guarantee for an L", guarantee(l, 1, 1), 6, 0),
            call("guarantee 0 for an L", guarantee(l, 0, 0), 6, 0),
            call("guarantee out of range for an L", guarantee(l, -1, 0), 5, 0),
        ],
    )
}

fn shortfalls(rt: &impl Print) -> io::Result<()> {
    show(
        rt,
        &[
            figure(
                "second shortfall, F, no need, cash -5",
                question(broker(-5, 0, 0, 0, 0)).second,
                5,
            ),
            figure(
                "second shortfall, L, no need, cash -5",
                question(provider(-5, 0, 0, 0, 0)).second,
                5,
            ),
            figure(
                "second shortfall, L, due 1 -70, due 0 20, cash 10",
                question(provider(10, 0, 20, -70, 0)).second,
                40,
            ),
            figure(
                "second shortfall, L, due 1 -70, due 0 -20, cash 10",
                question(provider(10, 0, -20, -70, 0)).second,
                80,
            ),
            figure(
                "second shortfall, L, due 0 covers the need",
                question(provider(0, 0, 90, -70, 0)).second,
                0,
            ),
            figure(
                "first shortfall, required margin negative, cash -5",
                question(broker(-5, 0, 3, 0, 0)).first,
                2,
            ),
        ],
    )
}

// ---- records that are not sound

fn least_figures(rt: &impl Print) -> io::Result<()> {
    unsound(
        rt,
        &[
            (
                "-2^63 as kind",
                Account {
                    kind: LEAST,
                    ..EMPTY
                },
            ),
            ("-2^63 as cash", broker(LEAST, 0, 0, 0, 0)),
            (
                "-2^63 as guarantee",
                Account {
                    guarantee: LEAST,
                    ..EMPTY
                },
            ),
            (
                "-2^63 as cap",
                Account {
                    cap: LEAST,
                    ..EMPTY
                },
            ),
            ("-2^63 as margin", broker(0, LEAST, 0, 0, 0)),
        ],
    )
}

fn least_dues(rt: &impl Print) -> io::Result<()> {
    unsound(
        rt,
        &[
            ("-2^63 as due 0", broker(0, 0, LEAST, 0, 0)),
            ("-2^63 as due 1", broker(0, 0, 0, LEAST, 0)),
            ("-2^63 as due 2", broker(0, 0, 0, 0, LEAST)),
            (
                "-2^63 as cash and as every due",
                broker(LEAST, 0, LEAST, LEAST, LEAST),
            ),
        ],
    )
}

fn bounds(rt: &impl Print) -> io::Result<()> {
    unsound(
        rt,
        &[
            ("kind 2", Account { kind: 2, ..EMPTY }),
            ("kind -1", Account { kind: -1, ..EMPTY }),
            ("margin -1", broker(0, -1, 0, 0, 0)),
            ("margin 8*10^12 + 1", broker(0, 8000000000001, 0, 0, 0)),
            ("gross 10^15 + 1", broker(1000000000000000, 0, 0, -1, 0)),
        ],
    )
}

fn backings(rt: &impl Print) -> io::Result<()> {
    unsound(
        rt,
        &[
            (
                "guarantee 10^12 + 1",
                Account {
                    guarantee: 1000000000001,
                    ..EMPTY
                },
            ),
            (
                "L with a guarantee",
                Account {
                    kind: 1,
                    guarantee: 1,
                    ..EMPTY
                },
            ),
            (
                "L with a cap",
                Account {
                    kind: 1,
                    cap: 1,
                    ..EMPTY
                },
            ),
        ],
    )
}

// Soundness is tested before the amount; the largest margin is sound.
fn bounds_of_a_deposit(rt: &impl Print) -> io::Result<()> {
    show(
        rt,
        &[
            call(
                "1 before 5",
                deposit_by_value(broker(0, -1, 0, 0, 0), 0),
                1,
                0,
            ),
            call(
                "margin 8*10^12 is sound",
                deposit_by_value(broker(0, 8000000000000, 0, 0, 0), 1),
                0,
                1,
            ),
        ],
    )
}

fn main(rt: HostRuntime) -> io::Result<()> {
    products_by_hand(&rt)?;
    accounts_by_hand(&rt)?;
    losses::losses_by_hand(&rt)?;
    rates(&rt)?;
    rounding(&rt)?;
    full_accounts(&rt)?;
    deposits(&rt)?;
    withdrawals(&rt)?;
    limits(&rt)?;
    limits_of_a_question(&rt)?;
    guarantees(&rt)?;
    guarantees_of_an_l(&rt)?;
    shortfalls(&rt)?;
    least_figures(&rt)?;
    least_dues(&rt)?;
    bounds(&rt)?;
    backings(&rt)?;
    bounds_of_a_deposit(&rt)
}
