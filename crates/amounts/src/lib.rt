// Causes 9 to 11: the ranges of the amounts, the sum of the pooling amounts, the positions before settlement. Where there is none, the market position, which the same pass adds up.

#![tactic(auto)]

ghost use Rattle.std.specs.Prelude.{◌≡◌, Ok};
ghost use Rattle.integers.specs.Lists.{sum_ℤ, every};
ghost use Rattle.rules.specs.Limits.{position_fit};
ghost use Rattle.rules.specs.Refusals.{◌then◌};
ghost use Rattle.rules.specs.Days.{part};
ghost use Rattle.positions.specs.Before.{all_fit, befores, Lent, InRange};
ghost use Rattle.amounts.specs.Amounts.{amounts_cause, LentTable};

use ranges::limits::{Entry, Exit, Kind, Pooling, Position, Title};
use rules::{Amounts, Cause, require};

// Cause 9, one list after the other: a list out of range leaves the next unlooked at.
#[tactic(auto, unfolding(positions::specs::Before::all_fit))]
fn amounts_fit(amounts: &Amounts) -> bool
    ensures { result ≡ all_fit amounts.now }
{
    Entry::all_fit(amounts.entries)
        && Exit::all_fit(amounts.exits)
        && Title::all_fit(amounts.titles)
        && Pooling::all_fit(amounts.poolings)
}

// Of the positions before settlement of all users: whether each is in its range, and their sum, the market position.
#[derive(Clone, Copy)]
struct Befores {
    fit: bool,
    market: i64,
}

// Through the constructor, which alone says what a position is.
fn is_position(before: i64) -> bool
    ensures { result ≡ position_fit before }
{
    Position::checked(before).is_some()
}

// The sums are safe, since every amount is in its range.
fn befores_of(part: &[i64], amounts: &Amounts) -> Befores
    requires { InRange part.now amounts.now }
    ensures { (result.fit ≡ every position_fit (befores part.now amounts.now))
        × (result.market ≡ sum_ℤ (befores part.now amounts.now)) }
{
    let mut fit = true;
    let mut market = 0;
    // A pass that stops nowhere: `(0..n).all(..)` proves too, but by one function and one induction more, and it stops early: an hour within its thresholds then takes
    // a tenth more instructions.
    for user in 0..amounts.entries.len() {
        let before = positions::before_at(part, amounts, user);
        fit &= is_position(before);
        market += before;
    }
    Befores { fit, market }
}

// Causes 9 to 11, or else the market position, which is then at hand.
fn amounts_cause(part: &[i64], amounts: &Amounts) -> Result<i64, Cause>
    requires { Lent part.now amounts.now }
    ensures { result ≡ (amounts_cause part.now amounts.now then Ok (sum_ℤ (befores part.now amounts.now))) }
{
    require(amounts_fit(amounts), Cause::Amounts)?;
    let pooled = positions::sum_of(amounts.poolings);
    require(pooled == 0, Cause::Pooling)?;
    let befores = befores_of(part, amounts);
    require(befores.fit, Cause::Positions)?;
    Ok(befores.market)
}

// The same over the zone's part of the table, lent on in a branch for each part, as the papers name the form ("&mut table[128..256]"). (The zone stays a number: any may come.)
#[tactic(auto, unfolding(rules::specs::Days::part, rules::specs::Days::first_place))]
pub fn zone_amounts_cause(zone: i64, table: &[i64], amounts: &Amounts) -> Result<i64, Cause>
    requires { LentTable zone table.now amounts.now }
    ensures { result ≡ (amounts_cause (part zone table.now) amounts.now
        then Ok (sum_ℤ (befores (part zone table.now) amounts.now))) }
{
    if zone == 0 {
        amounts_cause(&table[0..128], amounts)
    } else {
        amounts_cause(&table[128..256], amounts)
    }
}
