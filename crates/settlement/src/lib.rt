// The settlement of an hour in one zone: rules 1 to 6 on a lent part of the table, or for a preview on a copy of the users' places, once no cause is left.

#![tactic(auto)]

ghost use Rattle.std.specs.Prelude.{◌≡◌, ◌≤◌, length, take};
ghost use Rattle.rules.specs.Days.{part};
ghost use Rattle.positions.specs.Before.{befores, InRange};
ghost use Rattle.settlement.specs.Steps.{Asks, UsersLeave, ZoneLeaves, TableAsks, TableLeaves};

use positions::Imbalance;
use rules::{Amounts, HourTerms, Outcome, Outputs, Side};

// ---- the users of a zone

fn add_amounts(positions: &mut [i64], amounts: &Amounts)
    requires { (length positions.old ≡ length amounts.now.entries.now)
        × InRange positions.old amounts.now }
    ensures { positions.new ≡ befores positions.old amounts.now }
{
    // A copy of the four references, so that a write to `positions` is seen to change none of them: it is a tenth of an hour's time.
    let amounts = *amounts;
    for (user, position) in positions.iter_mut().enumerate() {
        *position = positions::before_of_user(*position, &amounts, user);
    }
}

// Rules 1 to 6 on places that hold the users' positions and nothing else. (The market position is given: the causes had to know it.)
fn settle_users(
    positions: &mut [i64],
    amounts: &Amounts,
    terms: HourTerms,
    market: i64,
    outputs: &mut Outputs,
    scratch: &mut [u64],
) -> Outcome
    requires { (length positions.old ≡ length amounts.now.entries.now)
        × Asks positions.old amounts.now terms market outputs.old scratch.old }
    ensures { UsersLeave positions.old positions.new amounts.now terms
        outputs.old outputs.new scratch.old scratch.new result }
{
    add_amounts(positions, amounts);
    match positions::imbalance_of(terms, market) {
        Imbalance::Excess(total) => {
            let marked = sides::settle_side(true, total, positions, terms, outputs, scratch);
            Outcome::Settled(Side::Excess(total as i64), marked)
        }
        Imbalance::Shortfall(total) => {
            let marked = sides::settle_side(false, total, positions, terms, outputs, scratch);
            Outcome::Settled(Side::Shortfall(total as i64), marked)
        }
        Imbalance::Within => {
            outputs.quantity.fill(0);
            outputs.money.fill(0);
            scratch.fill(0);
            Outcome::Within
        }
    }
}

// The users' places are the first of whatever part is lent.
fn settle_zone(
    part: &mut [i64],
    amounts: &Amounts,
    terms: HourTerms,
    market: i64,
    outputs: &mut Outputs,
    scratch: &mut [u64],
) -> Outcome
    requires { Asks part.old amounts.now terms market outputs.old scratch.old }
    ensures { ZoneLeaves part.old part.new amounts.now terms
        outputs.old outputs.new scratch.old scratch.new result }
{
    let users = amounts.entries.len();
    settle_users(&mut part[..users], amounts, terms, market, outputs, scratch)
}

// ---- an hour, and a preview of one

// An hour works on its zone's part of the table and leaves the other part untouched: a branch for each part, as the papers name the form ("&mut table[128..256] is
// lent on to the one-zone settlement").
pub fn settle_table(
    table: &mut [i64],
    amounts: &Amounts,
    terms: HourTerms,
    market: i64,
    outputs: &mut Outputs,
    scratch: &mut [u64],
) -> Outcome
    requires { TableAsks table.old amounts.now terms market outputs.old scratch.old }
    ensures { TableLeaves table.old table.new amounts.now terms
        outputs.old outputs.new scratch.old scratch.new result }
{
    if terms.zone == 0 {
        settle_zone(&mut table[0..128], amounts, terms, market, outputs, scratch)
    } else {
        settle_zone(
            &mut table[128..256],
            amounts,
            terms,
            market,
            outputs,
            scratch,
        )
    }
}

// As many places as are lent, from the first of a part on.
fn copy_first(part: &[i64], places: &mut [i64])
    requires { length places.old ≤ length part.now }
    ensures { places.new ≡ take (length places.old) part.now }
{
    let users = places.len();
    positions::copy_all(&part[..users], places);
}

// Those of a zone, in a branch for each part as above.
#[tactic(auto, unfolding(rules::specs::Days::part, rules::specs::Days::first_place))]
fn copy_places(zone: i64, table: &[i64], places: &mut [i64])
    requires { (length table.now ≡ 256) × (length places.old ≤ 128) }
    ensures { places.new ≡ take (length places.old) (part zone table.now) }
{
    if zone == 0 {
        copy_first(&table[0..128], places)
    } else {
        copy_first(&table[128..256], places)
    }
}

// A preview settles the zone on a copy of its users' places, and the table is lent for reading.
pub fn settle_copy(
    table: &[i64],
    amounts: &Amounts,
    terms: HourTerms,
    market: i64,
    outputs: &mut Outputs,
    after: &mut [i64],
    scratch: &mut [u64],
) -> Outcome
    requires { TableAsks table.now amounts.now terms market outputs.old scratch.old
        × (length after.old ≡ length amounts.now.entries.now) }
    ensures { UsersLeave (part terms.zone table.now) after.new amounts.now terms
        outputs.old outputs.new scratch.old scratch.new result }
{
    copy_places(terms.zone, table, after);
    settle_zone(after, amounts, terms, market, outputs, scratch)
}
