// The causes for turning a call away: for each call the first that applies (of the judge, of those up to 11), in the order of the papers. Every input is accepted, so each test stands
// behind those that it counts on: the record before the hours, the lengths before the places, the ranges before the sums. Where no cause applies, what the call then goes on with is at hand
// and is answered: of an hour the market position, of a closing its two sums.

#![tactic(auto)]

ghost use Rattle.std.specs.Prelude.{◌≡◌, true, Ok, length};
ghost use Rattle.integers.specs.Lists.{sum_ℤ};
ghost use Rattle.rules.specs.Hours.{hour_given, inputs_given, closing_given, before};
ghost use Rattle.rules.specs.Refusals.{◌then◌};
ghost use Rattle.rules.specs.Market.{closing_sums};
ghost use Rattle.rules.specs.Causes.{day_fit, table_fit, zone_open, open_cause, thresholds_cause, inputs_cause, hour_cause, preview_cause, judge_inputs_cause, closing_cause};
ghost use Rattle.causes.specs.Steps.{four_long, filled_long, hour_lists_long, judge_lists_long, closing_lists_long, Listed, inputs_and_totals_cause, closing_totals_cause};

use rules::{Amounts, Cause, ClosingTerms, Day, HourTerms, Outputs, Sums, require};

// ---- opening and default thresholds

#[tactic(auto, unfolding(rules::specs::Causes::open_cause, rules::specs::Causes::table_long))]
pub fn open_cause(users: i64, length: i64, table: &[i64]) -> Result<(), Cause>
    ensures { result ≡ open_cause users length table.now }
{
    require(ranges::users_fit(users), Cause::Users)?;
    require(ranges::length_fit(length), Cause::DayLength)?;
    require(table.len() == 256, Cause::Lengths)
}

// (The zone stays a number: cause 4 is for those that name no zone.)
#[tactic(auto, unfolding(rules::specs::Causes::thresholds_cause))]
pub fn thresholds_cause(month: i64, zone: i64) -> Result<(), Cause>
    ensures { result ≡ thresholds_cause month zone }
{
    require(ranges::zone_fit(zone), Cause::Zone)?;
    require(ranges::month_fit(month), Cause::Terms)
}

// ---- what an hour, its preview, the judge and a closing have in common

// Cause 5.
#[tactic(auto, unfolding(rules::specs::Causes::zone_open))]
fn zone_open(zone: i64, day: Day) -> bool
    ensures { result ≡ zone_open zone day }
{
    !day_record::is_closed(zone, day)
}

// ---- an hour

// Cause 3 in parts, since the search for a proof of one chain of eight tests gives up: the lists of the four amounts.
fn four_long(users: usize, amounts: &Amounts) -> bool
    ensures { result ≡ four_long users amounts.now }
{
    amounts.entries.len() == users
        && amounts.exits.len() == users
        && amounts.titles.len() == users
        && amounts.poolings.len() == users
}

// The lists that an hour fills, and its scratch.
fn filled_long(users: usize, outputs: &Outputs, scratch: &[u64]) -> bool
    ensures { result ≡ filled_long users outputs.now scratch.now }
{
    outputs.quantity.len() == users && outputs.money.len() == users && scratch.len() == users
}

// All the lengths of an hour.
#[tactic(auto, unfolding(rules::specs::Causes::table_long, rules::specs::Days::users))]
fn hour_lists_long(
    day: Day,
    table: &[i64],
    amounts: &Amounts,
    outputs: &Outputs,
    scratch: &[u64],
) -> bool
    ensures { result ≡ hour_lists_long day table.now amounts.now
        outputs.now scratch.now }
{
    let users = integers::natural(day.users);
    table.len() == 256 && four_long(users, amounts) && filled_long(users, outputs, scratch)
}

// Causes 4 to 11, of what an hour is told, or else its market position. (Inlined, and `hour_cause` too, since more than one call makes them: else a refusal of an hour by 2 to 6 would take
// 5 ns more.)
#[inline(always)]
#[tactic(auto, unfolding(rules::specs::Causes::inputs_cause))]
fn inputs_cause(day: Day, table: &[i64], terms: HourTerms, amounts: &Amounts) -> Result<i64, Cause>
    requires { Listed day table.now amounts.now }
    ensures { result ≡ (inputs_cause day table.now (inputs_given terms amounts.now)
        then Ok (sum_ℤ (before day table.now (inputs_given terms amounts.now)))) }
{
    require(ranges::zone_fit(terms.zone), Cause::Zone)?;
    let open = zone_open(terms.zone, day);
    require(open, Cause::Closed)?;
    require(day_record::hour_next(day, terms), Cause::Hour)?;
    require(places::table_fit(day, table), Cause::Table)?;
    require(ranges::terms_fit(terms), Cause::Terms)?;
    amounts::zone_amounts_cause(terms.zone, table, amounts)
}

// Then cause 25: an hour sells or buys its total, which its market position tells.
#[inline(always)]
fn inputs_and_totals_cause(
    day: Day,
    table: &[i64],
    terms: HourTerms,
    amounts: &Amounts,
) -> Result<i64, Cause>
    requires { Listed day table.now amounts.now }
    ensures { result ≡ inputs_and_totals_cause day table.now (inputs_given terms amounts.now) }
{
    let market = inputs_cause(day, table, terms, amounts)?;
    let sums = totals::hour_sums(terms, market);
    let bounded = day_record::totals_bounded(terms.zone, sums, day);
    require(bounded, Cause::Totals)?;
    Ok(market)
}

#[inline(always)]
#[tactic(auto, unfolding(rules::specs::Causes::hour_cause, rules::specs::Causes::hour_long, rules::specs::Causes::amounts_long, rules::specs::Causes::list_long, rules::specs::Causes::scratch_long))]
pub fn hour_cause(
    day: Day,
    table: &[i64],
    terms: HourTerms,
    amounts: &Amounts,
    outputs: &Outputs,
    scratch: &[u64],
) -> Result<i64, Cause>
    ensures { result ≡ (hour_cause day table.now
        (hour_given terms amounts.now outputs.now scratch.now)
        then Ok (sum_ℤ (before day table.now (hour_given terms amounts.now outputs.now scratch.now)))) }
{
    require(day_record::day_fit(day), Cause::Record)?;
    let long = hour_lists_long(day, table, amounts, outputs, scratch);
    require(long, Cause::Lengths)?;
    inputs_and_totals_cause(day, table, terms, amounts)
}

// ---- a preview of an hour

// Cause 2, since the record says how long the list of the positions after has to be; cause 3 for that list; then the causes of the hour, from 2 on.
#[tactic(auto, unfolding(rules::specs::Causes::preview_cause, rules::specs::Causes::list_long, rules::specs::Days::users))]
pub fn preview_cause(
    day: Day,
    table: &[i64],
    terms: HourTerms,
    amounts: &Amounts,
    outputs: &Outputs,
    after: &[i64],
    scratch: &[u64],
) -> Result<i64, Cause>
    ensures { result ≡ (preview_cause day table.now
        (hour_given terms amounts.now outputs.now scratch.now)
        after.now
        then Ok (sum_ℤ (before day table.now (hour_given terms amounts.now outputs.now scratch.now)))) }
{
    require(day_record::day_fit(day), Cause::Record)?;
    let users = integers::natural(day.users);
    require(after.len() == users, Cause::Lengths)?;
    hour_cause(day, table, terms, amounts, outputs, scratch)
}

// ---- the judge of an operator's quantities: causes 2 to 11

// Only the amounts and the quantities are lent, for reading.
#[tactic(auto, unfolding(rules::specs::Causes::table_long, rules::specs::Causes::list_long, rules::specs::Days::users))]
fn judge_lists_long(day: Day, table: &[i64], amounts: &Amounts, quantity: &[i64]) -> bool
    ensures { result ≡ judge_lists_long day table.now amounts.now quantity.now }
{
    let users = integers::natural(day.users);
    table.len() == 256 && four_long(users, amounts) && quantity.len() == users
}

#[tactic(auto, unfolding(rules::specs::Causes::judge_inputs_cause, rules::specs::Causes::judge_long, rules::specs::Causes::amounts_long, rules::specs::Causes::list_long))]
pub fn judge_inputs_cause(
    day: Day,
    table: &[i64],
    terms: HourTerms,
    amounts: &Amounts,
    quantity: &[i64],
) -> Result<i64, Cause>
    ensures { result ≡ (judge_inputs_cause day table.now
        (inputs_given terms amounts.now)
        quantity.now
        then Ok (sum_ℤ (before day table.now (inputs_given terms amounts.now)))) }
{
    require(day_record::day_fit(day), Cause::Record)?;
    let lists = judge_lists_long(day, table, amounts, quantity);
    require(lists, Cause::Lengths)?;
    inputs_cause(day, table, terms, amounts)
}

// ---- a closing

// All the lengths of a closing.
#[tactic(auto, unfolding(rules::specs::Causes::table_long, rules::specs::Causes::list_long, rules::specs::Days::users))]
fn closing_lists_long(day: Day, table: &[i64], outputs: &Outputs) -> bool
    ensures { result ≡ closing_lists_long day table.now outputs.now }
{
    let users = integers::natural(day.users);
    table.len() == 256 && outputs.quantity.len() == users && outputs.money.len() == users
}

// Cause 25, or else the two sums.
fn closing_totals_cause(day: Day, table: &[i64], terms: ClosingTerms) -> Result<Sums, Cause>
    requires { (day_fit day ≡ true) × (length table.now ≡ 256) × (table_fit day table.now ≡ true) }
    ensures { result ≡ closing_totals_cause day table.now terms.zone }
{
    let users = integers::natural(day.users);
    let sums = totals::closing_sums(terms.zone, users, table);
    let bounded = day_record::totals_bounded(terms.zone, sums, day);
    require(bounded, Cause::Totals)?;
    Ok(sums)
}

#[tactic(auto, using(crate::proofs::Lengths::closing_tabled), unfolding(rules::specs::Causes::closing_cause, rules::specs::Causes::closing_long))]
pub fn closing_cause(
    day: Day,
    table: &[i64],
    terms: ClosingTerms,
    outputs: &Outputs,
) -> Result<Sums, Cause>
    ensures { result ≡ (closing_cause day table.now
        (closing_given terms outputs.now)
        then Ok (closing_sums day table.now (closing_given terms outputs.now))) }
{
    require(day_record::day_fit(day), Cause::Record)?;
    require(closing_lists_long(day, table, outputs), Cause::Lengths)?;
    require(ranges::zone_fit(terms.zone), Cause::Zone)?;
    require(zone_open(terms.zone, day), Cause::Closed)?;
    require(day_record::all_done(day, terms), Cause::Hour)?;
    require(places::table_fit(day, table), Cause::Table)?;
    let prices = ranges::prices_fit(terms.excess_price, terms.shortfall_price);
    require(prices, Cause::Terms)?;
    closing_totals_cause(day, table, terms)
}
