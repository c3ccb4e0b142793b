// The edges of the writer of an hour's file, one line a case: its numbers, what the answer says, what a comparison with what was lent says, and what the reader says of what was
// written. (The four lists of amounts are lent as `&`: no call can change them.) The file `stdout`, with which the lines are compared, has the answers of documents 01 and 02.

#![tactic(auto)]

use allocation_file::FileRead;
use allocation_row::{FileCause, Lists};
use allocation_writer::WriteCause;
use checking::{all_are, first, lent, put, rest, sums};
use integers::natural;
use printing::Line;
use rows::Row;
use rules::Amounts;
use std::io;

mod rows;

// What the lent bytes hold before a call: no file has it.
const LENT_BYTE: u8 = b'?';

// What the reader's lists hold before it reads.
const LENT: i64 = 81;

// ---- the amounts

// An amount, and 1 more at each place after it; after one of more than 15 digits, others of so many.
fn amounts_from(first: i64) -> [i64; 130] {
    let mut list = [0i64; 130];
    let mut amount = first;
    for place in &mut list {
        *place = amount;
        amount = sums::plus(amount, 1);
    }
    list
}

// The amounts of a case, more than it has places for.
#[derive(Drop)]
struct Area {
    entries: [i64; 130],
    exits: [i64; 130],
    titles: [i64; 130],
    poolings: [i64; 130],
}

impl Area {
    fn of(row: &Row) -> Self {
        Area {
            entries: amounts_from(row[7]),
            exits: amounts_from(row[8]),
            titles: amounts_from(row[9]),
            poolings: amounts_from(row[10]),
        }
    }

    // As many of each as it has places.
    fn amounts<'a>(&'a self, row: &Row) -> Amounts<'a> {
        Amounts {
            entries: first(&self.entries, natural(row[3])),
            exits: first(&self.exits, natural(row[4])),
            titles: first(&self.titles, natural(row[5])),
            poolings: first(&self.poolings, natural(row[6])),
        }
    }
}

// ---- the line

// Whether the bytes from a place on are as they were.
fn say_bytes(line: &mut Line, room: &[u8], from: usize) {
    line.say_kept(b"bytes", all_are(rest(room, from), LENT_BYTE));
}

// What the reader answers, and what is compared.
fn say_read(line: &mut Line, answer: Result<FileRead, FileCause>, same: bool) {
    match answer {
        Err(cause) => line.say_refused(cause.number()),
        Ok(read) => {
            line.say_row(
                b", read hour |, zone |, lines |",
                &[read.hour, read.zone, read.lines],
            );
            line.say_holds(b"lists same", same);
        }
    }
}

// A list of the reader's has the amounts of the call's, and after them what it held before.
fn same(list: &[i64], amounts: &[i64]) -> bool {
    first(list, amounts.len()) == amounts && all_are(rest(list, amounts.len()), LENT)
}

// What was written is read, into lists of 128 places.
fn say_back(line: &mut Line, file: &[u8], amounts: &Amounts) {
    let mut a = [LENT; 128];
    let mut b = [LENT; 128];
    let mut c = [LENT; 128];
    let mut d = [LENT; 128];
    let mut lists = Lists {
        entries: &mut a,
        exits: &mut b,
        titles: &mut c,
        poolings: &mut d,
    };
    let answer = allocation_file::read_hour_file(file, &mut lists);
    let same = same(&a, amounts.entries)
        && same(&b, amounts.exits)
        && same(&c, amounts.titles)
        && same(&d, amounts.poolings);
    say_read(line, answer, same);
}

fn say_answer(line: &mut Line, answer: Result<i64, WriteCause>, room: &[u8], amounts: &Amounts) {
    match answer {
        Err(cause) => {
            line.say_refused(cause.number());
            say_bytes(line, room, 0);
        }
        Ok(bytes) => {
            line.say(b": written ");
            line.say_number(bytes);
            say_bytes(line, room, natural(bytes));
            say_back(line, first(room, natural(bytes)), amounts);
        }
    }
}

// ---- the call

fn write(row: &Row, amounts: &Amounts, room: &mut [u8]) -> Result<i64, WriteCause> {
    allocation_writer::write_hour_file(
        row[0],
        row[1],
        row[2],
        amounts,
        lent(room, 0, natural(row[11])),
    )
}

fn run(rt: &impl Print, row: &Row) -> io::Result<()> {
    let area = Area::of(row);
    let amounts = area.amounts(row);
    let mut room = [LENT_BYTE; 8192];
    let answer = write(row, &amounts, &mut room);
    let mut line = Line::new();
    line.say_row(&rows::NAMES, row);
    say_answer(&mut line, answer, &room, &amounts);
    line.say_byte(b'\n');
    rt.write_all(line.as_bytes())
}

// The usual row with one change, by each of the numbers.
fn changed(rt: &impl Print, column: usize, numbers: &[i64]) -> io::Result<()> {
    for number in numbers {
        let mut row = rows::USUAL;
        put(&mut row, column, *number);
        run(rt, &row)?;
    }
    Ok(())
}

fn changes(rt: &impl Print) -> io::Result<()> {
    for (column, numbers) in rows::CHANGES.iter().enumerate() {
        changed(rt, column, numbers)?;
    }
    Ok(())
}

fn main(rt: HostRuntime) -> io::Result<()> {
    changes(&rt)?;
    for row in &rows::ROWS {
        run(&rt, row)?;
    }
    Ok(())
}
