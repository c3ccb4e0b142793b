// Rules 1 and 2 on signed numbers: a user's position before settlement, the sum over all users, and what it is against the thresholds.

#![tactic(auto)]

ghost use Rattle.std.specs.Prelude.{◌≡◌, true, ◌≤◌, ◌<◌, pos, nat_abs, ◌+ℤ◌, length, get_or};
ghost use Rattle.std.specs.Int.Signed.{lt_z};
ghost use Rattle.integers.specs.Lists.{sum_ℤ, AtMost};
ghost use Rattle.rules.specs.Limits.{users_most, entry_most, exit_most, title_most, pooling_most, position_most, market_most};
ghost use Rattle.rules.specs.Causes.{terms_fit};
ghost use Rattle.rules.specs.Market.{imbalance_of};
ghost use Rattle.positions.specs.Before.{amounts_at, all_fit, befores, OneLength, InRange};
ghost use Rattle.positions.specs.Against.{found};

use rules::{Amounts, HourTerms};

// ---- rule 1

// Exits are already negative: they are added. (Each partial sum is a function, so that its contract bounds it.)
fn allocated(entry: i64, exit: i64) -> i64
    requires { (nat_abs entry ≤ entry_most) × (nat_abs exit ≤ exit_most) }
    ensures { result ≡ entry +ℤ exit }
{
    entry + exit
}

fn transferred(title: i64, pooling: i64) -> i64
    requires { (nat_abs title ≤ title_most) × (nat_abs pooling ≤ pooling_most) }
    ensures { result ≡ title +ℤ pooling }
{
    title + pooling
}

// "the position in the table plus entry, exit, title and pooling amounts"
pub fn before_of(position: i64, entry: i64, exit: i64, title: i64, pooling: i64) -> i64
    requires { (nat_abs position ≤ position_most)
        × (nat_abs entry ≤ entry_most) × (nat_abs exit ≤ exit_most)
        × (nat_abs title ≤ title_most) × (nat_abs pooling ≤ pooling_most) }
    ensures { result ≡ position +ℤ (entry +ℤ exit +ℤ title +ℤ pooling) }
{
    position + (allocated(entry, exit) + transferred(title, pooling))
}

// The same of a user, whose amounts stand at its place.
pub fn before_of_user(position: i64, amounts: &Amounts, user: usize) -> i64
    requires { (nat_abs position ≤ position_most) × (user < length amounts.now.entries.now)
        × OneLength amounts.now × (all_fit amounts.now ≡ true) }
    ensures { result ≡ position +ℤ amounts_at amounts.now user }
{
    before_of(
        position,
        amounts.entries[user],
        amounts.exits[user],
        amounts.titles[user],
        amounts.poolings[user],
    )
}

// The same of a user of a part of the table, in which the user's position stands at the same place.
pub fn before_at(part: &[i64], amounts: &Amounts, user: usize) -> i64
    requires { InRange part.now amounts.now × (user < length amounts.now.entries.now) }
    ensures { result ≡ get_or (befores part.now amounts.now) user (pos 0) }
{
    before_of_user(part[user], amounts, user)
}

// The positions of all users, copied. (By a loop: the library's `copy_from_slice` would have the archive for C ask for
// `memmove`, and it asks for `memset` alone.)
pub fn copy_all(positions: &[i64], places: &mut [i64])
    requires { length places.old ≡ length positions.now }
    ensures { places.new ≡ positions.now }
{
    for (user, place) in places.iter_mut().enumerate() {
        *place = positions[user];
    }
}

// The sum of the amounts or positions of all users.
pub fn sum_of(amounts: &[i64]) -> i64
    requires { (length amounts.now ≤ users_most) × AtMost position_most amounts.now }
    ensures { result ≡ sum_ℤ amounts.now }
{
    let mut sum = 0;
    for amount in amounts {
        sum += *amount;
    }
    sum
}

// ---- rule 2

// The market position against its thresholds: within them, or an excess or a shortfall and its total.
#[derive(Clone, Copy)]
pub enum Imbalance {
    Within,
    Excess(u64),
    Shortfall(u64),
}

// The two tests are functions: written into the branches of `imbalance_of` (tried), its goals were not found, and answers would have to name each test's operands.

// "Above the upper threshold"
fn above_upper(terms: HourTerms, market: i64) -> bool
    ensures { result ≡ lt_z terms.upper market }
{
    market > terms.upper
}

// "Below the lower one"
fn below_lower(terms: HourTerms, market: i64) -> bool
    ensures { result ≡ lt_z market terms.lower }
{
    market < terms.lower
}

// "Above the upper threshold there is an excess: the difference. Below the lower one there is a shortfall: the difference, taken positive."
pub fn imbalance_of(terms: HourTerms, market: i64) -> Imbalance
    requires { (terms_fit terms ≡ true) × (nat_abs market ≤ market_most) }
    ensures { found result ≡ imbalance_of terms.upper terms.lower market }
{
    if above_upper(terms, market) {
        Imbalance::Excess((market - terms.upper).unsigned_abs())
    } else if below_lower(terms, market) {
        Imbalance::Shortfall((terms.lower - market).unsigned_abs())
    } else {
        Imbalance::Within
    }
}
