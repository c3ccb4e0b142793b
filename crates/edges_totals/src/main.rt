// The edges of the record's totals: what was sold and bought so far. A line for each call: the changes of the usual call, what the answer says, and what a comparison with what was lent
// says. (Amounts are lent as `&`, and so is the table to a preview and to the judge: no call can change them.) The file `stdout`, with which the lines are compared, has the answers of
// documents 01 and 02.

#![tactic(auto)]

use call::{Call, Change, Lists};
use printing::Line;
use rules::{ClosingDone, HourDone, Outcome, Refusal, Side};
use std::io;

mod call;
mod day;
mod rows;

// ---- a call's changes

// A change: the number, and the place if it stands in a list.
fn say_change(line: &mut Line, change: Change) {
    match change {
        Change::Users(n) => line.say_row(b", users |", &[n]),
        Change::Length(n) => line.say_row(b", length |", &[n]),
        Change::HHours(n) => line.say_row(b", H |", &[n]),
        Change::HClosed => line.say(b", H closed"),
        Change::LHours(n) => line.say_row(b", L |", &[n]),
        Change::LClosed => line.say(b", L closed"),
        Change::Totals(a, b, c, d) => line.say_row(b", totals | | | |", &[a, b, c, d]),
        Change::Zone(n) => line.say_row(b", zone |", &[n]),
        Change::Hour(n) => line.say_row(b", hour |", &[n]),
        Change::Upper(n) => line.say_row(b", upper |", &[n]),
        Change::Lower(n) => line.say_row(b", lower |", &[n]),
        Change::ExcessPrice(n) => line.say_row(b", excess price |", &[n]),
        Change::ShortfallPrice(n) => line.say_row(b", shortfall price |", &[n]),
        Change::TableSize(n) => line.say_row(b", table of |", &[n]),
        Change::ListsSize(n) => line.say_row(b", lists of |", &[n]),
        Change::Table(place, n) => line.say_row(b", table | at |", &[n, place]),
        Change::Entry(place, n) => line.say_row(b", entry | at |", &[n, place]),
        Change::Exit(place, n) => line.say_row(b", exit | at |", &[n, place]),
        Change::Title(place, n) => line.say_row(b", title | at |", &[n, place]),
        Change::Pooling(place, n) => line.say_row(b", pooling | at |", &[n, place]),
        Change::EachPlace(place, n) => line.say_row(b", table | from | on", &[n, place]),
        Change::EachEntry(n) => line.say_row(b", every entry |", &[n]),
        Change::EachExit(n) => line.say_row(b", every exit |", &[n]),
        Change::EachTitle(n) => line.say_row(b", every title |", &[n]),
    }
}

fn say_changes(line: &mut Line, changes: &[Change]) {
    for change in changes {
        say_change(line, *change);
    }
}

fn say_parts(line: &mut Line, parts: &[&[Change]]) {
    for changes in parts {
        say_changes(line, changes);
    }
}

// ---- its answer

fn say_outcome(line: &mut Line, outcome: Outcome) {
    match outcome {
        Outcome::Within => line.say(b", within"),
        Outcome::Settled(Side::Excess(total), _) => line.say_row(b", excess |", &[total]),
        Outcome::Settled(Side::Shortfall(total), _) => line.say_row(b", shortfall |", &[total]),
    }
}

fn say_done(line: &mut Line, done: HourDone) {
    line.say(b": done, ");
    line.say_day(done.day);
    say_outcome(line, done.outcome);
}

fn say_closed(line: &mut Line, done: ClosingDone) {
    line.say(b": closed, ");
    line.say_day(done.day);
    line.say_row(b", sold |, bought |", &[done.sold, done.bought]);
}

fn say_lent(line: &mut Line, call: &Call, lists: &Lists) {
    line.say_lent(
        lists.table_kept(call),
        lists.quantity_kept(),
        lists.money_kept(),
    );
}

fn say_not_settled(line: &mut Line, refusal: Refusal, call: &Call, lists: &Lists) {
    line.say_refusal(refusal, call.day);
    say_lent(line, call, lists);
    line.say_kept(b"scratch", lists.scratch_kept());
}

fn say_not_previewed(line: &mut Line, refusal: Refusal, call: &Call, lists: &Lists) {
    line.say_refusal(refusal, call.day);
    line.say_kept(b"quantity", lists.quantity_kept());
    line.say_kept(b"money", lists.money_kept());
    line.say_kept(b"scratch", lists.scratch_kept());
    line.say_kept(b"after", lists.after_kept());
}

fn say_not_closed(line: &mut Line, refusal: Refusal, call: &Call, lists: &Lists) {
    line.say_refusal(refusal, call.day);
    say_lent(line, call, lists);
}

fn say_settled(line: &mut Line, call: &Call) {
    let mut lists = Lists::before(call);
    match call::settle(call, &mut lists) {
        Err(refusal) => say_not_settled(line, refusal, call, &lists),
        Ok(done) => say_done(line, done),
    }
}

fn say_previewed(line: &mut Line, call: &Call) {
    let mut lists = Lists::before(call);
    match call::preview(call, &mut lists) {
        Err(refusal) => say_not_previewed(line, refusal, call, &lists),
        Ok(done) => say_done(line, done),
    }
}

fn say_closing(line: &mut Line, call: &Call) {
    let mut lists = Lists::before(call);
    match call::close(call, &mut lists) {
        Err(refusal) => say_not_closed(line, refusal, call, &lists),
        Ok(done) => say_closed(line, done),
    }
}

fn say_quantities(line: &mut Line, quantities: &[i64]) {
    if !quantities.is_empty() {
        line.say(b", quantities");
    }
    for quantity in quantities {
        line.say_byte(b' ');
        line.say_number(*quantity);
    }
}

fn say_judged(line: &mut Line, call: &Call, quantities: &[i64]) {
    say_quantities(line, quantities);
    match call::judge(call, quantities) {
        Err(refusal) => line.say_refusal(refusal, call.day),
        Ok(day) => {
            line.say(b": accepted");
            line.say_kept(b"record", day == call.day);
        }
    }
}

// ---- the cases

// The usual call, what a kind of call has of its own, and the changes of a case.
fn call_of(own: &[Change], parts: &[&[Change]], changes: &[Change]) -> Call {
    let mut call = Call::zeros();
    call.change(rows::USUAL);
    call.change(own);
    for part in parts {
        call.change(part);
    }
    call.change(changes);
    call
}

fn say_case(line: &mut Line, name: &[u8], parts: &[&[Change]], changes: &[Change]) {
    line.say(name);
    say_parts(line, parts);
    say_changes(line, changes);
}

fn hour(rt: &impl Print, parts: &[&[Change]], changes: &[Change]) -> io::Result<()> {
    let mut line = Line::new();
    say_case(&mut line, b"hour", parts, changes);
    say_settled(&mut line, &call_of(&[], parts, changes));
    line.say_byte(b'\n');
    rt.write_all(line.as_bytes())
}

fn preview(rt: &impl Print, parts: &[&[Change]], changes: &[Change]) -> io::Result<()> {
    let mut line = Line::new();
    say_case(&mut line, b"preview", parts, changes);
    say_previewed(&mut line, &call_of(&[], parts, changes));
    line.say_byte(b'\n');
    rt.write_all(line.as_bytes())
}

fn judge(
    rt: &impl Print,
    parts: &[&[Change]],
    changes: &[Change],
    quantities: &[i64],
) -> io::Result<()> {
    let mut line = Line::new();
    say_case(&mut line, b"judge", parts, changes);
    say_judged(&mut line, &call_of(&[], parts, changes), quantities);
    line.say_byte(b'\n');
    rt.write_all(line.as_bytes())
}

fn closing(rt: &impl Print, parts: &[&[Change]], changes: &[Change]) -> io::Result<()> {
    let mut line = Line::new();
    say_case(&mut line, b"closing", parts, changes);
    say_closing(&mut line, &call_of(rows::CLOSING, parts, changes));
    line.say_byte(b'\n');
    rt.write_all(line.as_bytes())
}

// The calls that a case is made as.
#[derive(Clone, Copy)]
enum Calls {
    All,
    Hours,
    Closings,
}

fn run(rt: &impl Print, calls: Calls, parts: &[&[Change]], changes: &[Change]) -> io::Result<()> {
    match calls {
        Calls::All => {
            hour(rt, parts, changes)?;
            preview(rt, parts, changes)?;
            judge(rt, parts, changes, &[])?;
            closing(rt, parts, changes)
        }
        Calls::Hours => {
            hour(rt, parts, changes)?;
            preview(rt, parts, changes)
        }
        Calls::Closings => closing(rt, parts, changes),
    }
}

fn each(rt: &impl Print, calls: Calls, parts: &[&[Change]], cases: &[&[Change]]) -> io::Result<()> {
    for changes in cases {
        run(rt, calls, parts, changes)?;
    }
    Ok(())
}

fn cases(rt: &impl Print, calls: Calls, cases: &[rows::Cases]) -> io::Result<()> {
    for (parts, changes) in cases {
        each(rt, calls, parts, changes)?;
    }
    Ok(())
}

fn judge_each(rt: &impl Print, parts: &[&[Change]], lists: &[&[i64]]) -> io::Result<()> {
    for quantities in lists {
        judge(rt, parts, &[], quantities)?;
    }
    Ok(())
}

fn judged(rt: &impl Print) -> io::Result<()> {
    for (parts, lists) in rows::JUDGED {
        judge_each(rt, parts, lists)?;
    }
    Ok(())
}

fn main(rt: HostRuntime) -> io::Result<()> {
    cases(&rt, Calls::All, &rows::RECORDS)?;
    cases(&rt, Calls::All, &rows::RECORDS_IN_L)?;
    cases(&rt, Calls::Hours, &rows::HOURS)?;
    judged(&rt)?;
    cases(&rt, Calls::Closings, &rows::CLOSINGS)?;
    day::run(&rt)
}
