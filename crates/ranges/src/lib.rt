// "Quantities and their ranges": the tests of causes 1, 4, 8 and 21, of a number each. Those of lists are with their limits.

#![tactic(auto)]

ghost use Rattle.std.specs.Prelude.{◌≡◌, ◌&&◌};
ghost use Rattle.rules.specs.Limits.{users_fit, length_fit, zone_fit, month_fit, upper_fit, lower_fit};
ghost use Rattle.rules.specs.Causes.{prices_fit, terms_fit};

use limits::{Price, Threshold};
use rules::{Day, HourTerms};

pub mod defaults;
pub mod limits;

#[tactic(auto, unfolding(rules::specs::Limits::users_fit))]
pub fn users_fit(users: i64) -> bool
    ensures { result ≡ users_fit users }
{
    integers::within(Day::USERS_LEAST, Day::USERS_MOST, users)
}

#[tactic(auto, unfolding(rules::specs::Limits::length_fit))]
pub fn length_fit(length: i64) -> bool
    ensures { result ≡ length_fit length }
{
    integers::within(Day::LENGTH_LEAST, Day::LENGTH_MOST, length)
}

// The zone is a number here, and in the functions of the other crates that ask which zone: any number may come, and a narrower type would ask more.
#[tactic(auto, unfolding(rules::specs::Limits::zone_fit))]
pub fn zone_fit(zone: i64) -> bool
    ensures { result ≡ zone_fit zone }
{
    integers::within(0, 1, zone)
}

#[tactic(auto, unfolding(rules::specs::Limits::month_fit))]
pub fn month_fit(month: i64) -> bool
    ensures { result ≡ month_fit month }
{
    integers::within(1, 12, month)
}

#[tactic(auto, unfolding(rules::specs::Causes::prices_fit))]
pub fn prices_fit(excess: i64, shortfall: i64) -> bool
    ensures { result ≡ prices_fit excess shortfall }
{
    Price::checked(excess).is_some() && Price::checked(shortfall).is_some()
}

fn thresholds_fit(upper: i64, lower: i64) -> bool
    ensures { result ≡ (upper_fit upper && lower_fit lower) }
{
    Threshold::checked_upper(upper).is_some() && Threshold::checked_lower(lower).is_some()
}

#[tactic(auto, unfolding(rules::specs::Causes::terms_fit))]
pub fn terms_fit(terms: HourTerms) -> bool
    ensures { result ≡ terms_fit terms }
{
    thresholds_fit(terms.upper, terms.lower)
        && prices_fit(terms.excess_price, terms.shortfall_price)
}
