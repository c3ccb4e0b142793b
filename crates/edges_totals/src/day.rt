// A day that is carried on: each call is given the record and the table as the last one returned them. Its totals are compared with the sums of the quantities that were answered.
use super::call::{self, Call, Change, Lists, PLACES};
use super::rows;
use checking::{first, lent, sums};
use integers::natural;
use printing::Line;
use rules::{Day, ZoneDay};
use std::io;

// ---- what was answered

// The sums of the positive and of the negative quantities of a zone.
#[derive(Drop)]
struct Answered {
    positive: i64,
    negative: i64,
}

impl Answered {
    fn nothing() -> Self {
        Answered {
            positive: 0,
            negative: 0,
        }
    }

    fn add(&mut self, quantity: &[i64]) {
        for traded in quantity {
            self.positive = sums::plus(self.positive, (*traded).max(0));
            self.negative = sums::plus(self.negative, (*traded).min(0));
        }
    }

    // A total is a size: what was bought and the sum of the negative quantities add to 0.
    fn are_totals_of(&self, zone_day: ZoneDay) -> bool {
        zone_day.sold == self.positive && sums::plus(zone_day.bought, self.negative) == 0
    }
}

fn users_quantities(lists: &Lists) -> &[i64] {
    first(&lists.quantity, natural(rows::DAY_USERS))
}

// ---- the day

#[derive(Drop)]
struct Carried {
    day: Day,
    table: [i64; PLACES],
    h: Answered,
    l: Answered,
}

impl Carried {
    // The next call of the day.
    fn call(&self, which: &[Change], changes: &[Change]) -> Call {
        let mut call = Call::of(self.day, self.table);
        call.change(rows::DAY);
        call.change(which);
        call.change(changes);
        call
    }

    // What an accepted call returned.
    fn carry(&mut self, zone: i64, day: Day, lists: &Lists) {
        let quantity = users_quantities(lists);
        if zone == 0 {
            self.h.add(quantity);
        } else {
            self.l.add(quantity);
        }
        self.day = day;
        self.table = lists.table;
    }
}

// ---- its lines

fn say_answered(line: &mut Line, carried: &Carried) {
    let day = carried.day;
    let are = carried.h.are_totals_of(day.h) && carried.l.are_totals_of(day.l);
    line.say_holds(b"totals are sums", are);
}

// What a preview says before the hour is settled.
fn say_previewed(line: &mut Line, call: &Call) {
    let mut lists = Lists::before(call);
    match call::preview(call, &mut lists) {
        Err(refusal) => line.say_refusal(refusal, call.day),
        Ok(done) => {
            line.say(b": previewed");
            line.say_kept(b"record", done.day == call.day);
        }
    }
}

fn say_hour(line: &mut Line, carried: &mut Carried, zone: i64, call: &Call) {
    let mut lists = Lists::before(call);
    match call::settle(call, &mut lists) {
        Err(refusal) => super::say_not_settled(line, refusal, call, &lists),
        Ok(done) => {
            carried.carry(zone, done.day, &lists);
            super::say_done(line, done);
            super::say_quantities(line, users_quantities(&lists));
        }
    }
}

fn say_closing(line: &mut Line, carried: &mut Carried, zone: i64, call: &Call) {
    let mut lists = Lists::before(call);
    match call::close(call, &mut lists) {
        Err(refusal) => super::say_not_closed(line, refusal, call, &lists),
        Ok(done) => {
            carried.carry(zone, done.day, &lists);
            super::say_closed(line, done);
            super::say_quantities(line, users_quantities(&lists));
        }
    }
}

// ---- its calls

// An hour, which is previewed before.
fn hour(
    rt: &impl Print,
    carried: &mut Carried,
    zone: i64,
    hour: i64,
    changes: &[Change],
) -> io::Result<()> {
    let call = carried.call(&[Change::Zone(zone), Change::Hour(hour)], changes);
    let mut line = Line::new();
    line.say_row(b"day, zone |, hour |", &[zone, hour]);
    super::say_changes(&mut line, changes);
    say_previewed(&mut line, &call);
    say_hour(&mut line, carried, zone, &call);
    say_answered(&mut line, carried);
    line.say_byte(b'\n');
    rt.write_all(line.as_bytes())
}

fn closing(rt: &impl Print, carried: &mut Carried, zone: i64) -> io::Result<()> {
    let call = carried.call(&[Change::Zone(zone)], &[]);
    let mut line = Line::new();
    line.say_row(b"day, closing of zone |", &[zone]);
    say_closing(&mut line, carried, zone, &call);
    say_answered(&mut line, carried);
    line.say_byte(b'\n');
    rt.write_all(line.as_bytes())
}

// All hours of both zones, by turns.
fn hours(rt: &impl Print, carried: &mut Carried) -> io::Result<()> {
    for turn in 0..rows::DAY_TURNS {
        let changes = rows::DAY_HOURS[turn % rows::DAY_HOURS.len()];
        hour(
            rt,
            carried,
            (turn % 2) as i64,
            (turn / 2 + 1) as i64,
            changes,
        )?;
    }
    Ok(())
}

// Hours and closings that the day turns away, among those that it accepts.
fn calls(rt: &impl Print, carried: &mut Carried) -> io::Result<()> {
    closing(rt, carried, 0)?;
    hour(rt, carried, 1, 2, rows::DAY_HOURS[0])?;
    hours(rt, carried)?;
    hour(rt, carried, 0, rows::DAY_LENGTH + 1, rows::DAY_HOURS[0])?;
    closing(rt, carried, 0)?;
    closing(rt, carried, 0)?;
    hour(rt, carried, 0, rows::DAY_LENGTH + 1, rows::DAY_HOURS[0])?;
    closing(rt, carried, 1)
}

fn opened(rt: &impl Print, day: Day, table: [i64; PLACES]) -> io::Result<()> {
    let mut carried = Carried {
        day,
        table,
        h: Answered::nothing(),
        l: Answered::nothing(),
    };
    let mut line = Line::new();
    line.say(b"day opened, ");
    line.say_day(day);
    say_answered(&mut line, &carried);
    line.say_byte(b'\n');
    rt.write_all(line.as_bytes())?;
    calls(rt, &mut carried)
}

pub(crate) fn run(rt: &impl Print) -> io::Result<()> {
    let mut table = [0i64; PLACES];
    let answer = gas_day::open(rows::DAY_USERS, rows::DAY_LENGTH, lent(&mut table, 0, 256));
    match answer {
        Err(_) => rt.write_all(b"day not opened\n"),
        Ok(day) => opened(rt, day, table),
    }
}
