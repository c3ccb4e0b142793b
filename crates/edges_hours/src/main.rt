// The edges of settling an hour and of its preview, a line for each call: the changes of the usual call, what the answer says, and what a comparison with what was lent says. (The
// four lists of amounts are lent as `&`, and so is the table to a preview: no call can change them.) The file `stdout`, with which the lines are compared, has the answers of
// documents 01 and 02.

#![tactic(auto)]

use checking::{all_are, at, first, lent, part, put, sums};
use integers::natural;
use printing::Line;
use rules::{Amounts, Day, HourDone, HourTerms, Marks, Outcome, Outputs, Refusal, Side};
use std::io;

mod rows;

// What the lists to be written hold before a call.
const LENT_QUANTITY: i64 = 71;

const LENT_MONEY: i64 = 72;

const LENT_SCRATCH: u64 = 73;

const LENT_AFTER: i64 = 74;

// ---- the sheet

#[derive(Drop)]
struct Sheet {
    numbers: [i64; rows::SHEET],
}

impl Sheet {
    // The usual call, with the changes of a case.
    fn of(changes: &[(usize, i64)]) -> Self {
        let mut sheet = Sheet {
            numbers: [0; rows::SHEET],
        };
        sheet.change(rows::RECORD);
        sheet.change(rows::PRICES);
        sheet.change(rows::TERMS);
        sheet.change(rows::POSITIONS);
        sheet.change(rows::ENTRIES);
        sheet.change(rows::OTHERS);
        sheet.change(changes);
        sheet
    }

    fn change(&mut self, changes: &[(usize, i64)]) {
        for (place, number) in changes {
            put(&mut self.numbers, *place, *number);
        }
    }

    fn number(&self, kind: usize) -> i64 {
        at(&self.numbers, kind)
    }

    fn list(&self, kind: usize, n: usize) -> &[i64] {
        part(&self.numbers, kind, n)
    }

    fn users(&self) -> usize {
        natural(self.number(rows::USERS))
    }

    fn day(&self) -> Day {
        checking::day_of(
            self.number(rows::USERS),
            self.number(rows::LENGTH),
            self.number(rows::H_HOURS),
            self.number(rows::H_CLOSED),
            self.number(rows::L_HOURS),
            self.number(rows::L_CLOSED),
        )
    }

    fn terms(&self) -> HourTerms {
        HourTerms {
            zone: self.number(rows::ZONE),
            hour: self.number(rows::HOUR),
            upper: self.number(rows::UPPER),
            lower: self.number(rows::LOWER),
            excess_price: self.number(rows::EXCESS_PRICE),
            shortfall_price: self.number(rows::SHORTFALL_PRICE),
        }
    }

    fn amounts(&self) -> Amounts<'_> {
        Amounts {
            entries: self.list(rows::ENTRY, self.size(0)),
            exits: self.list(rows::EXIT, self.size(1)),
            titles: self.list(rows::TITLE, self.size(2)),
            poolings: self.list(rows::POOLING, self.size(3)),
        }
    }

    // The places of a list, by its number among the call's lists.
    fn size(&self, which: usize) -> usize {
        let one = at(self.list(rows::LIST_SIZE, 8), which);
        if one != 0 {
            return natural(one);
        }
        let all = self.number(rows::LISTS_SIZE);
        if all != 0 { natural(all) } else { self.users() }
    }

    // What the table of the sheet holds.
    fn table(&self) -> &[i64] {
        self.list(rows::TABLE, 257)
    }
}

// ---- the lists that are lent to a call to be written

#[derive(Drop)]
struct Lists {
    table: [i64; 257],
    quantity: [i64; 129],
    money: [i64; 129],
    scratch: [u64; 129],
    after: [i64; 129],
}

impl Lists {
    fn before(sheet: &Sheet) -> Self {
        let mut table = [0i64; 257];
        for (place, number) in table.iter_mut().zip(sheet.table()) {
            *place = *number;
        }
        Lists {
            table,
            quantity: [LENT_QUANTITY; 129],
            money: [LENT_MONEY; 129],
            scratch: [LENT_SCRATCH; 129],
            after: [LENT_AFTER; 129],
        }
    }
}

// ---- the two calls

fn settle(sheet: &Sheet, lists: &mut Lists) -> Result<HourDone, Refusal> {
    let mut outputs = Outputs {
        quantity: lent(&mut lists.quantity, 0, sheet.size(4)),
        money: lent(&mut lists.money, 0, sheet.size(5)),
    };
    gas_day::settle_hour(
        sheet.day(),
        lent(&mut lists.table, 0, natural(sheet.number(rows::TABLE_SIZE))),
        sheet.terms(),
        &sheet.amounts(),
        &mut outputs,
        lent(&mut lists.scratch, 0, sheet.size(6)),
    )
}

fn preview(sheet: &Sheet, lists: &mut Lists) -> Result<HourDone, Refusal> {
    let mut outputs = Outputs {
        quantity: lent(&mut lists.quantity, 0, sheet.size(4)),
        money: lent(&mut lists.money, 0, sheet.size(5)),
    };
    gas_day::preview_hour(
        sheet.day(),
        first(&lists.table, natural(sheet.number(rows::TABLE_SIZE))),
        sheet.terms(),
        &sheet.amounts(),
        &mut outputs,
        lent(&mut lists.after, 0, sheet.size(7)),
        lent(&mut lists.scratch, 0, sheet.size(6)),
    )
}

// ---- the line

fn say_side(line: &mut Line, side: Side) {
    match side {
        Side::Excess(total) => {
            line.say(b", excess ");
            line.say_number(total);
        }
        Side::Shortfall(total) => {
            line.say(b", shortfall ");
            line.say_number(total);
        }
    }
}

fn say_marks(line: &mut Line, marks: Marks) {
    line.say(b" by ");
    line.say_count(marks.number);
    line.say(b" marked ");
    line.say_count(marks.first);
    line.say_byte(b' ');
    line.say_count(marks.second);
}

fn say_outcome(line: &mut Line, outcome: Outcome) {
    match outcome {
        Outcome::Within => line.say(b", within"),
        Outcome::Settled(side, marks) => {
            say_side(line, side);
            say_marks(line, marks);
        }
    }
}

// For each user the place before and the four amounts add up to the quantity and the place after.
fn conserved(sheet: &Sheet, before: &[i64], quantity: &[i64], after: &[i64]) -> bool {
    let mut given = [0i64; 128];
    let mut left = [0i64; 128];
    sums::add(&mut given, before);
    sums::add(&mut given, sheet.list(rows::ENTRY, before.len()));
    sums::add(&mut given, sheet.list(rows::EXIT, before.len()));
    sums::add(&mut given, sheet.list(rows::TITLE, before.len()));
    sums::add(&mut given, sheet.list(rows::POOLING, before.len()));
    sums::add(&mut left, quantity);
    sums::add(&mut left, after);
    sums::balanced(&given, &left)
}

// User 0's quantity, money and position after; and what is compared of all users, whose positions after are given.
fn say_users(line: &mut Line, sheet: &Sheet, lists: &Lists, after: &[i64]) {
    let start = places::first_place(sheet.number(rows::ZONE));
    let before = part(sheet.table(), start, sheet.users());
    let quantity = first(&lists.quantity, sheet.users());
    let numbers = [lists.quantity[0], lists.money[0], at(after, 0)];
    line.say_row(b", quantity |, money |, after |", &numbers);
    line.say_holds(b"conserved", conserved(sheet, before, quantity, after));
}

fn say_done(line: &mut Line, done: HourDone) {
    line.say(b": done, ");
    line.say_day(done.day);
    say_outcome(line, done.outcome);
}

fn say_scratch(line: &mut Line, sheet: &Sheet, lists: &Lists) {
    let settled = first(&lists.scratch, sheet.users());
    line.say_holds(b"scratch zero", all_are(settled, 0));
}

// Of an hour the positions after are the users' places in the table.
fn say_settled(line: &mut Line, sheet: &Sheet, lists: &Lists) {
    let start = places::first_place(sheet.number(rows::ZONE));
    let n = sheet.users();
    say_users(line, sheet, lists, part(&lists.table, start, n));
    line.say_kept(
        b"other places",
        checking::same_outside(sheet.table(), &lists.table, start, n),
    );
    say_scratch(line, sheet, lists);
}

fn say_refused(line: &mut Line, refusal: Refusal, sheet: &Sheet, lists: &Lists) {
    line.say_refusal(refusal, sheet.day());
    line.say_lent(
        lists.table.as_slice() == sheet.table(),
        all_are(&lists.quantity, LENT_QUANTITY),
        all_are(&lists.money, LENT_MONEY),
    );
    line.say_kept(b"scratch", all_are(&lists.scratch, LENT_SCRATCH));
}

// Of a preview they have a list of their own.
fn say_previewed(line: &mut Line, sheet: &Sheet, lists: &Lists) {
    say_users(line, sheet, lists, first(&lists.after, sheet.users()));
    say_scratch(line, sheet, lists);
}

fn say_not_previewed(line: &mut Line, refusal: Refusal, sheet: &Sheet, lists: &Lists) {
    line.say_refusal(refusal, sheet.day());
    line.say_kept(b"quantity", all_are(&lists.quantity, LENT_QUANTITY));
    line.say_kept(b"money", all_are(&lists.money, LENT_MONEY));
    line.say_kept(b"scratch", all_are(&lists.scratch, LENT_SCRATCH));
    line.say_kept(b"after", all_are(&lists.after, LENT_AFTER));
}

// ---- the cases

// A change: the kind, the number, and the place if the kind has several.
fn say_change(line: &mut Line, place: usize, number: i64) {
    line.say_word(&rows::KINDS, place / 300);
    line.say_number(number);
    if rows::LIST_SIZE <= place {
        line.say(b" at ");
        line.say_count((place % 300) as u64);
    }
}

fn say_changes(line: &mut Line, changes: &[(usize, i64)]) {
    for (place, number) in changes {
        say_change(line, *place, *number);
    }
}

fn hour(rt: &impl Print, changes: &[(usize, i64)]) -> io::Result<()> {
    let sheet = Sheet::of(changes);
    let mut lists = Lists::before(&sheet);
    let answer = settle(&sheet, &mut lists);
    let mut line = Line::new();
    line.say(b"hour");
    say_changes(&mut line, changes);
    match answer {
        Err(refusal) => say_refused(&mut line, refusal, &sheet, &lists),
        Ok(done) => {
            say_done(&mut line, done);
            say_settled(&mut line, &sheet, &lists);
        }
    }
    line.say_byte(b'\n');
    rt.write_all(line.as_bytes())
}

fn preview_of(rt: &impl Print, changes: &[(usize, i64)]) -> io::Result<()> {
    let sheet = Sheet::of(changes);
    let mut lists = Lists::before(&sheet);
    let answer = preview(&sheet, &mut lists);
    let mut line = Line::new();
    line.say(b"preview");
    say_changes(&mut line, changes);
    match answer {
        Err(refusal) => say_not_previewed(&mut line, refusal, &sheet, &lists),
        Ok(done) => {
            say_done(&mut line, done);
            say_previewed(&mut line, &sheet, &lists);
        }
    }
    line.say_byte(b'\n');
    rt.write_all(line.as_bytes())
}

fn both(rt: &impl Print, changes: &[(usize, i64)]) -> io::Result<()> {
    hour(rt, changes)?;
    preview_of(rt, changes)
}

// The usual call with one change, by each of the numbers.
fn each(rt: &impl Print, kind: usize, numbers: &[i64]) -> io::Result<()> {
    for number in numbers {
        both(rt, &[(kind, *number)])?;
    }
    Ok(())
}

fn alone(rt: &impl Print) -> io::Result<()> {
    for (kind, numbers) in rows::ALONE {
        each(rt, kind, numbers)?;
    }
    Ok(())
}

fn together(rt: &impl Print, cases: &[rows::Changes]) -> io::Result<()> {
    for changes in cases {
        both(rt, changes)?;
    }
    Ok(())
}

// The list of the positions after, which no hour has.
fn previews(rt: &impl Print) -> io::Result<()> {
    for changes in rows::AFTERS {
        preview_of(rt, changes)?;
    }
    Ok(())
}

fn main(rt: HostRuntime) -> io::Result<()> {
    // the usual call
    both(&rt, &[])?;
    alone(&rt)?;
    together(&rt, &rows::EARLY)?;
    together(&rt, &rows::LATE)?;
    together(&rt, &rows::LENGTHS)?;
    previews(&rt)
}
