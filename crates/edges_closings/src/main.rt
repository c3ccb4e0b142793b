// The edges of closing a zone, one line a case: its row, what the answer says, and what a comparison with what was lent says. The file `stdout`, with which the lines
// are compared, has the answers of documents 01 and 02.

#![tactic(auto)]

use checking::{all_are, lent, put};
use integers::natural;
use printing::Line;
use ranges::limits::{Kind, Position, Price};
use rules::{ClosingDone, ClosingTerms, Day, Outputs, Refusal};
use std::io;

const POSITION: i64 = Position::MOST;

const PRICE: i64 = Price::MOST;

// The columns: the record; zone, excess price, shortfall price; places of the table, the quantity list and the money list; a place of the table and what it holds.
const NAMES: [u8; 130] =
    *b"closing after users |, length |, H |, closed |, L |, closed |, zone |, at | and |, table of |, lists of | and |, place | holding |";

// A row stays a list of numbers: it is printed as it stands.
type Row = [i64; 14];

const ROWS: [Row; 59] = [
    // the usual closing; 2: users, hours and closed zones of the record
    [3, 24, 24, 0, 2, 0, 0, 20_000, 25_000, 256, 3, 3, 1, -7],
    [0, 24, 24, 0, 2, 0, 0, 20_000, 25_000, 256, 3, 3, 1, -7],
    [129, 24, 24, 0, 2, 0, 0, 20_000, 25_000, 256, 3, 3, 1, -7],
    [-1, 24, 24, 0, 2, 0, 0, 20_000, 25_000, 256, 3, 3, 1, -7],
    [3, 24, 25, 0, 2, 0, 0, 20_000, 25_000, 256, 3, 3, 1, -7],
    [3, 24, 24, 0, -1, 0, 0, 20_000, 25_000, 256, 3, 3, 1, -7],
    [3, 24, 24, 0, 23, 1, 0, 20_000, 25_000, 256, 3, 3, 1, -7],
    [0, 24, 24, 0, 2, 0, 0, 20_000, 25_000, 255, 3, 3, 1, -7],
    // 3: the table, the quantity list and the money list
    [3, 24, 24, 0, 2, 0, 0, 20_000, 25_000, 255, 3, 3, 1, -7],
    [3, 24, 24, 0, 2, 0, 0, 20_000, 25_000, 257, 3, 3, 1, -7],
    [3, 24, 24, 0, 2, 0, 0, 20_000, 25_000, 256, 2, 3, 1, -7],
    [3, 24, 24, 0, 2, 0, 0, 20_000, 25_000, 256, 4, 3, 1, -7],
    [3, 24, 24, 0, 2, 0, 0, 20_000, 25_000, 256, 3, 2, 1, -7],
    [3, 24, 24, 0, 2, 0, 0, 20_000, 25_000, 256, 3, 4, 1, -7],
    [3, 24, 24, 0, 2, 0, 2, 20_000, 25_000, 256, 3, 4, 1, -7],
    // 4 to 6: zones, closed zones, hours
    [3, 24, 24, 0, 2, 0, -1, 20_000, 25_000, 256, 3, 3, 1, -7],
    [3, 24, 24, 0, 2, 0, 2, 20_000, 25_000, 256, 3, 3, 1, -7],
    [3, 24, 24, 1, 2, 0, 0, 20_000, 25_000, 256, 3, 3, 1, -7],
    [3, 24, 23, 0, 2, 0, 0, 20_000, 25_000, 256, 3, 3, 1, -7],
    [3, 24, 0, 0, 2, 0, 0, 20_000, 25_000, 256, 3, 3, 1, -7],
    [3, 24, 24, 0, 2, 0, 1, 20_000, 25_000, 256, 3, 3, 1, -7],
    [3, 24, 24, 0, 24, 0, 1, 20_000, 25_000, 256, 3, 3, 1, -7],
    // 7: positions at and beyond their limits, places beyond the users, zones with no hours, closed zones
    [3, 24, 24, 0, 2, 0, 0, PRICE, PRICE, 256, 3, 3, 0, POSITION],
    [
        3, 24, 24, 0, 2, 0, 0, PRICE, -PRICE, 256, 3, 3, 0, -POSITION,
    ],
    [
        3,
        24,
        24,
        0,
        2,
        0,
        0,
        20_000,
        25_000,
        256,
        3,
        3,
        0,
        POSITION + 1,
    ],
    [
        3,
        24,
        24,
        0,
        2,
        0,
        0,
        20_000,
        25_000,
        256,
        3,
        3,
        130,
        -POSITION - 1,
    ],
    [3, 24, 24, 0, 2, 0, 0, 20_000, 25_000, 256, 3, 3, 3, 1],
    [3, 24, 24, 0, 2, 0, 0, 20_000, 25_000, 256, 3, 3, 255, -1],
    [3, 24, 24, 0, 0, 0, 0, 20_000, 25_000, 256, 3, 3, 1, -7],
    [3, 24, 24, 0, 24, 1, 0, 20_000, 25_000, 256, 3, 3, 1, -7],
    [3, 24, 24, 0, 24, 1, 0, 20_000, 25_000, 256, 3, 3, 128, 0],
    [3, 24, 24, 0, 2, 0, 0, PRICE + 1, 25_000, 256, 3, 3, 3, 1],
    // 8: prices
    [3, 24, 24, 0, 2, 0, 0, PRICE, 0, 256, 3, 3, 1, -7],
    [3, 24, 24, 0, 2, 0, 0, PRICE + 1, 0, 256, 3, 3, 1, -7],
    [3, 24, 24, 0, 2, 0, 0, -PRICE, 0, 256, 3, 3, 1, -7],
    [3, 24, 24, 0, 2, 0, 0, -PRICE - 1, 0, 256, 3, 3, 1, -7],
    [3, 24, 24, 0, 2, 0, 0, 0, PRICE, 256, 3, 3, 1, -7],
    [3, 24, 24, 0, 2, 0, 0, 0, PRICE + 1, 256, 3, 3, 1, -7],
    [3, 24, 24, 0, 2, 0, 0, 0, -PRICE, 256, 3, 3, 1, -7],
    [3, 24, 24, 0, 2, 0, 0, 0, -PRICE - 1, 256, 3, 3, 1, -7],
    // days of 23 and 25 hours: 2 for another length, hours above it and a zone closed with fewer; 6 one hour early; closed after the last hour, in either zone
    [3, 23, 23, 0, 2, 0, 0, 20_000, 25_000, 256, 3, 3, 1, -7],
    [3, 23, 22, 0, 2, 0, 0, 20_000, 25_000, 256, 3, 3, 1, -7],
    [3, 23, 24, 0, 2, 0, 0, 20_000, 25_000, 256, 3, 3, 1, -7],
    [3, 23, 2, 0, 23, 0, 1, 20_000, 25_000, 256, 3, 3, 1, -7],
    [3, 23, 2, 0, 22, 0, 1, 20_000, 25_000, 256, 3, 3, 1, -7],
    [3, 23, 23, 0, 22, 1, 0, 20_000, 25_000, 256, 3, 3, 128, 0],
    [3, 23, 23, 0, 23, 1, 0, 20_000, 25_000, 256, 3, 3, 128, 0],
    [3, 25, 25, 0, 2, 0, 0, 20_000, 25_000, 256, 3, 3, 1, -7],
    [3, 25, 24, 0, 2, 0, 0, 20_000, 25_000, 256, 3, 3, 1, -7],
    [3, 25, 26, 0, 2, 0, 0, 20_000, 25_000, 256, 3, 3, 1, -7],
    [3, 25, 2, 0, 25, 0, 1, 20_000, 25_000, 256, 3, 3, 1, -7],
    [3, 25, 2, 0, 24, 0, 1, 20_000, 25_000, 256, 3, 3, 1, -7],
    [3, 25, 25, 0, 24, 1, 0, 20_000, 25_000, 256, 3, 3, 128, 0],
    [3, 25, 25, 0, 25, 1, 0, 20_000, 25_000, 256, 3, 3, 128, 0],
    [3, 22, 22, 0, 2, 0, 0, 20_000, 25_000, 256, 3, 3, 1, -7],
    [3, 26, 26, 0, 2, 0, 0, 20_000, 25_000, 256, 3, 3, 1, -7],
    [3, 0, 0, 0, 0, 0, 0, 20_000, 25_000, 256, 3, 3, 1, 0],
    [3, 22, 22, 0, 2, 0, 0, 20_000, 25_000, 255, 3, 3, 1, -7],
    // 128 users
    [
        128, 24, 24, 0, 2, 0, 0, 20_000, 25_000, 256, 128, 128, 127, POSITION,
    ],
];

// What the lists to be written hold before a call.
const LENT_QUANTITY: i64 = 71;

const LENT_MONEY: i64 = 72;

// ---- what a row says

fn day(row: &Row) -> Day {
    checking::day_of(row[0], row[1], row[2], row[3], row[4], row[5])
}

// ---- the lists that are lent to a call

#[derive(Drop)]
struct Lists {
    table: [i64; 257],
    quantity: [i64; 129],
    money: [i64; 129],
}

// The table holds 5 and -7 in H and -3 in L, but for one place.
fn table(row: &Row) -> [i64; 257] {
    let mut table = [0i64; 257];
    put(&mut table, 0, 5);
    put(&mut table, 1, -7);
    put(&mut table, 128, -3);
    put(&mut table, natural(row[12]), row[13]);
    table
}

impl Lists {
    fn before(row: &Row) -> Self {
        Lists {
            table: table(row),
            quantity: [LENT_QUANTITY; 129],
            money: [LENT_MONEY; 129],
        }
    }
}

// ---- the call, and its line

fn close(row: &Row, lists: &mut Lists) -> Result<ClosingDone, Refusal> {
    let terms = ClosingTerms {
        zone: row[6],
        excess_price: row[7],
        shortfall_price: row[8],
    };
    let mut outputs = Outputs {
        quantity: lent(&mut lists.quantity, 0, natural(row[10])),
        money: lent(&mut lists.money, 0, natural(row[11])),
    };
    gas_day::close_zone(
        day(row),
        lent(&mut lists.table, 0, natural(row[9])),
        terms,
        &mut outputs,
    )
}

// The sums; user 0's quantity, money and place after; and what is compared.
fn say_closed(line: &mut Line, done: ClosingDone, row: &Row, lists: &Lists) {
    let start = places::first_place(row[6]);
    let numbers = [
        done.sold,
        done.bought,
        lists.quantity[0],
        lists.money[0],
        checking::at(&lists.table, start),
    ];
    let zero = all_are(checking::part(&lists.table, start, 128), 0);
    let kept = checking::same_outside(&table(row), &lists.table, start, natural(row[0]));
    line.say(b": closed, ");
    line.say_day(done.day);
    line.say_row(
        b", sold |, bought |, quantity |, money |, after |",
        &numbers,
    );
    line.say_holds(b"part zero", zero);
    line.say_kept(b"other places", kept);
}

fn say_refused(line: &mut Line, refusal: Refusal, row: &Row, lists: &Lists) {
    line.say_refusal(refusal, day(row));
    line.say_lent(
        lists.table == table(row),
        all_are(&lists.quantity, LENT_QUANTITY),
        all_are(&lists.money, LENT_MONEY),
    );
}

fn run(rt: &impl Print, row: &Row) -> io::Result<()> {
    let mut lists = Lists::before(row);
    let answer = close(row, &mut lists);
    let mut line = Line::new();
    line.say_row(&NAMES, row);
    match answer {
        Err(refusal) => say_refused(&mut line, refusal, row, &lists),
        Ok(done) => say_closed(&mut line, done, row, &lists),
    }
    line.say_byte(b'\n');
    rt.write_all(line.as_bytes())
}

fn main(rt: HostRuntime) -> io::Result<()> {
    for row in &ROWS {
        run(&rt, row)?;
    }
    Ok(())
}
