// What one call sells and buys, both as sizes: a closing's from the positions that stand, and an hour's from its market position, before it is settled.

#![tactic(auto)]

ghost use Rattle.std.specs.Prelude.{◌≡◌, true, ◌≤◌, nat_abs, length, take};
ghost use Rattle.integers.specs.Lists.{every, AtMost};
ghost use Rattle.rules.specs.Limits.{users_most, position_most, market_most, position_fit};
ghost use Rattle.rules.specs.Days.{part};
ghost use Rattle.rules.specs.Market.{total, sold_of, bought_of, sums, imbalance_of};
ghost use Rattle.rules.specs.Causes.{terms_fit};
ghost use Rattle.positions.specs.Against.{found};
ghost use Rattle.totals.specs.Sums.{total_sums};

use positions::Imbalance;
use rules::{HourTerms, Sums};

// ---- a closing

// A sale's size, and 0 for a purchase.
#[tactic(auto, unfolding(rules::specs::Market::sold_of))]
fn sold_of(quantity: i64) -> i64
    ensures { result ≡ sold_of quantity }
{
    quantity.max(0)
}

// A purchase's size, and 0 for a sale.
#[tactic(auto, unfolding(rules::specs::Market::bought_of))]
fn bought_of(quantity: i64) -> i64
    requires { nat_abs quantity ≤ position_most }
    ensures { result ≡ bought_of quantity }
{
    (-quantity).max(0)
}

// The sum of the sales and that of the purchases, as sizes.
fn sums_of(quantity: &[i64]) -> Sums
    requires { (length quantity.now ≤ users_most) × AtMost position_most quantity.now }
    ensures { result ≡ sums quantity.now }
{
    let mut sold = 0;
    let mut bought = 0;
    for traded in quantity {
        sold += sold_of(*traded);
        bought += bought_of(*traded);
    }
    Sums { sold, bought }
}

// Those of the users, whose places are the first of a part.
fn part_sums(users: usize, part: &[i64]) -> Sums
    requires { (users ≤ users_most) × (users ≤ length part.now) × (every position_fit part.now ≡ true) }
    ensures { result ≡ sums (take users part.now) }
{
    sums_of(&part[..users])
}

// The same of the zone's part of the table, lent on in a branch for each part, as the papers name the form ("&mut table[128..256]").
#[tactic(auto, unfolding(rules::specs::Days::part, rules::specs::Days::first_place))]
pub fn closing_sums(zone: i64, users: usize, table: &[i64]) -> Sums
    requires { (users ≤ users_most) × (length table.now ≡ 256) × (every position_fit (part zone table.now) ≡ true) }
    ensures { result ≡ sums (take users (part zone table.now)) }
{
    if zone == 0 {
        part_sums(users, &table[0..128])
    } else {
        part_sums(users, &table[128..256])
    }
}

// ---- an hour

// An hour sells its excess, or buys its shortfall: the settled sizes add to the total, so that no user has to be settled to know it.
#[tactic(auto, unfolding(rules::specs::Market::total))]
fn total_sums(imbalance: Imbalance) -> Sums
    requires { total (found imbalance) ≤ market_most }
    ensures { result ≡ total_sums (found imbalance) }
{
    match imbalance {
        Imbalance::Within => Sums { sold: 0, bought: 0 },
        Imbalance::Excess(total) => Sums {
            sold: total as i64,
            bought: 0,
        },
        Imbalance::Shortfall(total) => Sums {
            sold: 0,
            bought: total as i64,
        },
    }
}

// The same from the market position, by rule 2.
pub fn hour_sums(terms: HourTerms, market: i64) -> Sums
    requires { (terms_fit terms ≡ true) × (nat_abs market ≤ market_most) }
    ensures { result ≡ total_sums (imbalance_of terms.upper terms.lower market) }
{
    total_sums(positions::imbalance_of(terms, market))
}
