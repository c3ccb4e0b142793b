// The edges of opening a day and of the default thresholds, one line a case: every number of a list with every one of the others. The file `stdout`, with which the
// lines are compared, has the answers of documents 01 and 02.

#![tactic(auto)]

use checking::{all_are, first, lent};
use integers::natural;
use printing::Line;
use rules::{Cause, Day, Thresholds};
use std::io;

const USERS: [i64; 9] = [0, 1, 2, 127, 128, 129, -1, i64::MAX, i64::MIN];

const LENGTHS: [i64; 8] = [24, 23, 25, 22, 26, 0, i64::MAX, i64::MIN];

// The places of the table.
const SIZES: [i64; 4] = [256, 255, 257, 0];

const MONTHS: [i64; 17] = [
    0,
    1,
    2,
    3,
    4,
    5,
    6,
    7,
    8,
    9,
    10,
    11,
    12,
    13,
    -1,
    i64::MAX,
    i64::MIN,
];

const ZONES: [i64; 4] = [0, 1, 2, -1];

// What the table holds before a call.
const LENT: i64 = 77;

fn say_opened(line: &mut Line, answer: Result<Day, Cause>, table: &[i64]) {
    match answer {
        Err(cause) => {
            line.say_refused(cause.number());
            line.say_kept(b"table", all_are(table, LENT));
        }
        Ok(day) => {
            line.say(b": opened, ");
            line.say_day(day);
            line.say_holds(b"table zero", all_are(first(table, 256), 0));
        }
    }
}

fn open(rt: &impl Print, users: i64, length: i64, places: i64) -> io::Result<()> {
    let mut table = [LENT; 257];
    let answer = gas_day::open(users, length, lent(&mut table, 0, natural(places)));
    let mut line = Line::new();
    line.say_row(
        b"open | users, length |, table of |",
        &[users, length, places],
    );
    say_opened(&mut line, answer, &table);
    line.say_byte(b'\n');
    rt.write_all(line.as_bytes())
}

fn openings_with(rt: &impl Print, length: i64, places: i64) -> io::Result<()> {
    for users in USERS {
        open(rt, users, length, places)?;
    }
    Ok(())
}

fn openings_of(rt: &impl Print, length: i64) -> io::Result<()> {
    for places in SIZES {
        openings_with(rt, length, places)?;
    }
    Ok(())
}

fn openings(rt: &impl Print) -> io::Result<()> {
    for length in LENGTHS {
        openings_of(rt, length)?;
    }
    Ok(())
}

fn say_thresholds(line: &mut Line, answer: Result<Thresholds, Cause>) {
    match answer {
        Err(cause) => line.say_refused(cause.number()),
        Ok(thresholds) => {
            line.say_row(b": | |", &[thresholds.upper, thresholds.lower]);
        }
    }
}

fn default_thresholds(rt: &impl Print, month: i64, zone: i64) -> io::Result<()> {
    let answer = gas_day::default_thresholds(month, zone);
    let mut line = Line::new();
    line.say_row(b"thresholds of month |, zone |", &[month, zone]);
    say_thresholds(&mut line, answer);
    line.say_byte(b'\n');
    rt.write_all(line.as_bytes())
}

fn thresholds_of(rt: &impl Print, zone: i64) -> io::Result<()> {
    for month in MONTHS {
        default_thresholds(rt, month, zone)?;
    }
    Ok(())
}

fn thresholds(rt: &impl Print) -> io::Result<()> {
    for zone in ZONES {
        thresholds_of(rt, zone)?;
    }
    Ok(())
}

fn main(rt: HostRuntime) -> io::Result<()> {
    openings(&rt)?;
    thresholds(&rt)
}
