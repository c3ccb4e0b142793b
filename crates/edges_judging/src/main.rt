// The edges of the judge of an operator's own quantities, a line for each call: the changes of the usual call, what the answer says, and whether it has the record that was given. (The
// table and the five lists are lent as `&`: no call can change them, so that there is nothing of them to compare.) The file `stdout`, with which the lines are compared, has the answers of
// documents 01 and 02.

#![tactic(auto)]

use call::{Call, Change};
use checking::first;
use printing::Line;
use std::io;

mod call;
mod rows;

// ---- the line

// A change: the number, and the place if it stands in a list.
fn say_change(line: &mut Line, change: Change) {
    match change {
        Change::Users(n) => line.say_row(b", users |", &[n]),
        Change::Length(n) => line.say_row(b", length |", &[n]),
        Change::HHours(n) => line.say_row(b", H |", &[n]),
        Change::HClosed => line.say(b", H closed"),
        Change::LHours(n) => line.say_row(b", L |", &[n]),
        Change::LClosed => line.say(b", L closed"),
        Change::Zone(n) => line.say_row(b", zone |", &[n]),
        Change::Hour(n) => line.say_row(b", hour |", &[n]),
        Change::Upper(n) => line.say_row(b", upper |", &[n]),
        Change::Lower(n) => line.say_row(b", lower |", &[n]),
        Change::ExcessPrice(n) => line.say_row(b", excess price |", &[n]),
        Change::ShortfallPrice(n) => line.say_row(b", shortfall price |", &[n]),
        Change::TableSize(n) => line.say_row(b", table of |", &[n]),
        Change::EntrySize(n) => line.say_row(b", entries of |", &[n]),
        Change::ExitSize(n) => line.say_row(b", exits of |", &[n]),
        Change::TitleSize(n) => line.say_row(b", titles of |", &[n]),
        Change::PoolingSize(n) => line.say_row(b", poolings of |", &[n]),
        Change::QuantitySize(n) => line.say_row(b", quantities of |", &[n]),
        Change::Table(place, n) => line.say_row(b", table | at |", &[n, place]),
        Change::Entry(place, n) => line.say_row(b", entry | at |", &[n, place]),
        Change::Exit(place, n) => line.say_row(b", exit | at |", &[n, place]),
        Change::Title(place, n) => line.say_row(b", title | at |", &[n, place]),
        Change::Pooling(place, n) => line.say_row(b", pooling | at |", &[n, place]),
        Change::Quantity(place, n) => line.say_row(b", quantity | at |", &[n, place]),
        Change::EachEntry(n) => line.say_row(b", every entry |", &[n]),
        Change::EachExit(n) => line.say_row(b", every exit |", &[n]),
        Change::EachTitle(n) => line.say_row(b", every title |", &[n]),
        Change::EachQuantity(n) => line.say_row(b", every quantity |", &[n]),
    }
}

fn say_changes(line: &mut Line, changes: &[Change]) {
    for change in changes {
        say_change(line, *change);
    }
}

fn say_parts(line: &mut Line, parts: &[&[Change]]) {
    for changes in parts {
        say_changes(line, changes);
    }
}

fn say_quantities(line: &mut Line, quantities: &[i64]) {
    if !quantities.is_empty() {
        line.say(b", quantities");
    }
    for quantity in quantities {
        line.say_byte(b' ');
        line.say_number(*quantity);
    }
}

// What the judge says of a call. Of all that it was given only the record can come back another.
fn say_judged(line: &mut Line, call: &Call) {
    match call.judge() {
        Err(refusal) => line.say_refusal(refusal, call.day),
        Ok(day) => {
            line.say(b": accepted");
            line.say_kept(b"record", day == call.day);
        }
    }
}

// What it says of the quantities that settling the hour gives. The first three are printed.
fn say_settled(line: &mut Line, call: &mut Call) {
    match call.settled() {
        Err(refusal) => line.say_refusal(refusal, call.day),
        Ok(quantity) => {
            say_quantities(line, first(&quantity, 3));
            call.set_quantities(&quantity);
            say_judged(line, call);
        }
    }
}

// ---- the cases

// The usual call with the changes of every part.
fn call_of(parts: &[&[Change]]) -> Call {
    let mut call = Call::zeros();
    call.change(rows::USUAL);
    for changes in parts {
        call.change(changes);
    }
    call
}

fn judge(rt: &impl Print, parts: &[&[Change]], quantities: &[i64]) -> io::Result<()> {
    let mut call = call_of(parts);
    call.set_quantities(quantities);
    let mut line = Line::new();
    line.say(b"judge");
    say_parts(&mut line, parts);
    say_quantities(&mut line, quantities);
    say_judged(&mut line, &call);
    line.say_byte(b'\n');
    rt.write_all(line.as_bytes())
}

fn settle_and_judge(rt: &impl Print, parts: &[&[Change]]) -> io::Result<()> {
    let mut call = call_of(parts);
    let mut line = Line::new();
    line.say(b"judge settled");
    say_parts(&mut line, parts);
    say_settled(&mut line, &mut call);
    line.say_byte(b'\n');
    rt.write_all(line.as_bytes())
}

fn alone(rt: &impl Print) -> io::Result<()> {
    for change in rows::ALONE {
        judge(rt, &[&[change]], &[])?;
    }
    Ok(())
}

fn together(rt: &impl Print) -> io::Result<()> {
    for changes in rows::TOGETHER {
        judge(rt, &[changes], &[])?;
    }
    Ok(())
}

// An hour with each list of quantities.
fn each(rt: &impl Print, parts: &[&[Change]], lists: &[&[i64]]) -> io::Result<()> {
    for quantities in lists {
        judge(rt, parts, quantities)?;
    }
    Ok(())
}

fn judged(rt: &impl Print, cases: &[rows::Judged]) -> io::Result<()> {
    for (parts, lists) in cases {
        each(rt, parts, lists)?;
    }
    Ok(())
}

// An hour with no quantities, and with those that settling it gives.
fn settled(rt: &impl Print) -> io::Result<()> {
    for parts in rows::SETTLED {
        judge(rt, parts, &[])?;
        settle_and_judge(rt, parts)?;
    }
    Ok(())
}

fn main(rt: HostRuntime) -> io::Result<()> {
    // the usual call
    judge(&rt, &[], &[])?;
    alone(&rt)?;
    together(&rt)?;
    judged(&rt, &rows::FEW_USERS)?;
    judged(&rt, &rows::ALL_USERS)?;
    settled(&rt)
}
