// The day record: what is asked of it (cause 2, closed zones, hours, and with what a call sells and buys cause 25), and what a call makes of it.

#![tactic(auto)]

ghost use Rattle.std.specs.Prelude.{◌≡◌, true, ◌≤◌, nat_abs, ◌+ℤ◌};
ghost use Rattle.rules.specs.Limits.{length_most, market_most, total_most};
ghost use Rattle.rules.specs.Days.{hours_of_day, hours_done, is_closed};
ghost use Rattle.rules.specs.Days.{zone_day, with_zone_day, new_day, hour_more, closed_now, day_after_hour, day_after_closing};
ghost use Rattle.rules.specs.Causes.{zone_day_fit, totals_fit, day_fit, hour_next, all_done, totals_bounded};
ghost use Rattle.day_record.specs.Small.{SumsSmall, PartSmall};

use ranges::limits::{Kind, Total};
use rules::{ClosingTerms, Day, HourTerms, Sums, ZoneDay};

// ---- what is asked of it

#[tactic(auto, unfolding(rules::specs::Days::hours_of_day))]
fn hours_of_day(day: Day) -> i64
    ensures { result ≡ hours_of_day day }
{
    day.length
}

// A zone's part of the record. (The zone stays a number in this crate: the definitions are of every number, and a narrower type would ask more.)
#[tactic(auto, unfolding(rules::specs::Days::zone_day))]
fn zone_day(zone: i64, day: Day) -> ZoneDay
    ensures { result ≡ zone_day zone day }
{
    if zone == 0 { day.h } else { day.l }
}

#[tactic(auto, unfolding(rules::specs::Days::hours_done))]
pub fn hours_done(zone: i64, day: Day) -> i64
    ensures { result ≡ hours_done zone day }
{
    zone_day(zone, day).hours
}

#[tactic(auto, unfolding(rules::specs::Days::is_closed))]
pub fn is_closed(zone: i64, day: Day) -> bool
    ensures { result ≡ is_closed zone day }
{
    zone_day(zone, day).closed
}

// (By `&` and `|`, here and in the tests below of one zone, so that no branch is left for the proof to follow.)
fn zone_day_fit(zone: i64, day: Day) -> bool
    ensures { result ≡ zone_day_fit zone day }
{
    let length = hours_of_day(day);
    let hours = hours_done(zone, day);
    let open = !is_closed(zone, day);
    ((0 <= hours) & (hours <= length)) & (open | (length <= hours))
}

// Of a zone's totals.
fn totals_fit(zone: i64, day: Day) -> bool
    ensures { result ≡ totals_fit zone day }
{
    let part = zone_day(zone, day);
    let begun = part.hours != 0;
    let none = (part.sold == 0) & (part.bought == 0);
    (begun | none) & (Total::fits(part.sold) & Total::fits(part.bought))
}

#[tactic(auto, unfolding(rules::specs::Causes::day_fit))]
pub fn day_fit(day: Day) -> bool
    ensures { result ≡ day_fit day }
{
    ranges::users_fit(day.users)
        && ranges::length_fit(hours_of_day(day))
        && (zone_day_fit(0, day) && zone_day_fit(1, day))
        && (totals_fit(0, day) && totals_fit(1, day))
}

// The hours of a record that fits are few, so that one may be added.
pub fn hour_next(day: Day, terms: HourTerms) -> bool
    requires { day_fit day ≡ true }
    ensures { result ≡ hour_next day terms }
{
    let length = hours_of_day(day);
    let next = hours_done(terms.zone, day) + 1;
    (terms.hour == next) & (terms.hour <= length)
}

pub fn all_done(day: Day, terms: ClosingTerms) -> bool
    ensures { result ≡ all_done day terms }
{
    hours_of_day(day) <= hours_done(terms.zone, day)
}

// ---- the totals, with what a call sells and buys

// A record that fits has totals that may be added to, and no call sells or buys more than all users' positions.
fn totals_with(sums: Sums, part: ZoneDay) -> Sums
    requires { SumsSmall sums × PartSmall part }
    ensures { result ≡ record { sold = part.sold +ℤ sums.sold; bought = part.bought +ℤ sums.bought } }
{
    Sums {
        sold: part.sold + sums.sold,
        bought: part.bought + sums.bought,
    }
}

// Cause 25.
pub fn totals_bounded(zone: i64, sums: Sums, day: Day) -> bool
    requires { (day_fit day ≡ true) × SumsSmall sums }
    ensures { result ≡ totals_bounded zone sums day }
{
    let totals = totals_with(sums, zone_day(zone, day));
    (totals.sold <= Total::MOST) & (totals.bought <= Total::MOST)
}

// ---- what a call makes of it

#[tactic(auto, unfolding(rules::specs::Days::new_day))]
pub fn new_day(users: i64, length: i64) -> Day
    ensures { result ≡ new_day users length }
{
    let none = ZoneDay {
        hours: 0,
        closed: false,
        sold: 0,
        bought: 0,
    };
    Day {
        users,
        length,
        h: none,
        l: none,
    }
}

// The zone's part is another, and the record is otherwise the same.
#[tactic(auto, unfolding(rules::specs::Days::with_zone_day))]
fn with_zone_day(zone: i64, part: ZoneDay, day: Day) -> Day
    ensures { result ≡ with_zone_day zone (λ z. part) day }
{
    if zone == 0 {
        Day { h: part, ..day }
    } else {
        Day { l: part, ..day }
    }
}

#[tactic(auto, unfolding(rules::specs::Days::hour_more))]
fn hour_more(sums: Sums, part: ZoneDay) -> ZoneDay
    requires { SumsSmall sums × PartSmall part }
    ensures { result ≡ hour_more sums part }
{
    let totals = totals_with(sums, part);
    ZoneDay {
        hours: part.hours + 1,
        closed: part.closed,
        sold: totals.sold,
        bought: totals.bought,
    }
}

#[tactic(auto, unfolding(rules::specs::Days::day_after_hour))]
pub fn day_after_hour(zone: i64, sums: Sums, day: Day) -> Day
    requires { (day_fit day ≡ true) × SumsSmall sums }
    ensures { result ≡ day_after_hour zone sums day }
{
    with_zone_day(zone, hour_more(sums, zone_day(zone, day)), day)
}

#[tactic(auto, unfolding(rules::specs::Days::closed_now))]
fn closed_now(sums: Sums, part: ZoneDay) -> ZoneDay
    requires { SumsSmall sums × PartSmall part }
    ensures { result ≡ closed_now sums part }
{
    let totals = totals_with(sums, part);
    ZoneDay {
        hours: part.hours,
        closed: true,
        sold: totals.sold,
        bought: totals.bought,
    }
}

#[tactic(auto, unfolding(rules::specs::Days::day_after_closing))]
pub fn day_after_closing(zone: i64, sums: Sums, day: Day) -> Day
    requires { (day_fit day ≡ true) × SumsSmall sums }
    ensures { result ≡ day_after_closing zone sums day }
{
    with_zone_day(zone, closed_now(sums, zone_day(zone, day)), day)
}
