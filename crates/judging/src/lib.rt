// The judge of an operator's own quantities: causes 22 to 24, once an hour's inputs are fit. It writes nothing, so a position before settlement is worked out where it is
// looked at.

#![tactic(auto)]

ghost use Rattle.std.specs.Prelude.{◌≡◌, ◌&&◌, ◌≤◌, ◌<◌, ◌+◌, ◌*◌, ltb, nat_abs, length};
ghost use Rattle.integers.specs.Ranges.{equal};
ghost use Rattle.integers.specs.Lists.{sum, sum_ℤ, AtMost};
ghost use Rattle.rules.specs.Limits.{users_most, position_most, market_most};
ghost use Rattle.rules.specs.Days.{part};
ghost use Rattle.rules.specs.Hours.{inputs_given};
ghost use Rattle.rules.specs.Market.{total, caused, size, sizes, signed};
ghost use Rattle.rules.specs.Judging.{each_user, sign_right, share_right, sum_right, quantities_cause, judge_cause};
ghost use Rattle.positions.specs.Before.{befores, Fit};
ghost use Rattle.positions.specs.Against.{found};
ghost use Rattle.judging.specs.Steps.{Found, Asked, AskedTable, asked_cause};

use positions::Imbalance;
use rules::{Amounts, Cause, Day, HourTerms, require};

// ---- one user

// Rule 3.
#[tactic(auto, unfolding(rules::specs::Market::caused))]
fn caused(imbalance: Imbalance, position: i64) -> bool
    ensures { result ≡ caused (found imbalance) position }
{
    match imbalance {
        Imbalance::Within => false,
        Imbalance::Excess(_) => position > 0,
        Imbalance::Shortfall(_) => position < 0,
    }
}

// Rule 4: the size of a causer's position, and 0 for the others. (Without a branch for each user: whether one caused is not to be foreseen.)
#[tactic(auto, using(crate::proofs::Users::size_above, crate::proofs::Users::size_below), unfolding(rules::specs::Market::size, rules::specs::Market::caused))]
fn size(imbalance: Imbalance, position: i64) -> u64
    ensures { result ≡ size (found imbalance) position }
{
    match imbalance {
        Imbalance::Within => 0,
        Imbalance::Excess(_) => position.max(0).unsigned_abs(),
        Imbalance::Shortfall(_) => position.min(0).unsigned_abs(),
    }
}

#[tactic(auto, unfolding(rules::specs::Market::total))]
fn total(imbalance: Imbalance) -> u64
    ensures { result ≡ total (found imbalance) }
{
    match imbalance {
        Imbalance::Within => 0,
        Imbalance::Excess(total) => total,
        Imbalance::Shortfall(total) => total,
    }
}

// Rule 5's sign, of a causer.
#[tactic(auto, using(crate::proofs::Users::sale, crate::proofs::Users::purchase, crate::proofs::Users::nothing), unfolding(rules::specs::Market::signed))]
fn sign_fit(imbalance: Imbalance, quantity: i64) -> bool
    ensures { result ≡ equal quantity (signed (found imbalance) (nat_abs quantity)) }
{
    match imbalance {
        Imbalance::Within => quantity == 0,
        Imbalance::Excess(_) => quantity >= 0,
        Imbalance::Shortfall(_) => quantity <= 0,
    }
}

// Cause 22. (0 has no wrong sign, so the sign of every quantity is looked at; without a branch, as above.)
fn sign_right(imbalance: Imbalance, position: i64, quantity: i64) -> bool
    ensures { result ≡ sign_right (found imbalance) position quantity }
{
    let none = quantity == 0;
    sign_fit(imbalance, quantity) & (none | caused(imbalance, position))
}

// "that size times the sum differs from the product by less than the sum"
fn differs_by_less(size_by_sum: u64, product: u64, sum: u64) -> bool
    requires { (size_by_sum ≤ market_most * position_most) × (product ≤ market_most * position_most) × (sum ≤ market_most) }
    ensures { result ≡ (ltb size_by_sum (product + sum) && ltb product (size_by_sum + sum)) }
{
    size_by_sum < product + sum && product < size_by_sum + sum
}

// Cause 23. A size above the causer's own is 1 kWh or more off, since the total is no more than the sum: it is turned away without a product, which
// might leave 64 bits, for the operator's numbers may be any.
fn share_right(imbalance: Imbalance, sum: u64, position: i64, quantity: i64) -> bool
    requires { (total (found imbalance) ≤ sum) × (sum ≤ market_most) × (nat_abs position ≤ position_most) }
    ensures { result ≡ share_right (found imbalance) sum position quantity }
{
    if !caused(imbalance, position) {
        return true;
    }
    let own = position.unsigned_abs();
    let size = quantity.unsigned_abs();
    size <= own && differs_by_less(size * sum, total(imbalance) * own, sum)
}

// ---- all users

// The sum of all causers' sizes.
fn sum_of_sizes(imbalance: Imbalance, part: &[i64], amounts: &Amounts) -> u64
    requires { Fit part.now amounts.now }
    ensures { result ≡ sum (sizes (found imbalance) (befores part.now amounts.now)) }
{
    let mut sum = 0;
    for user in 0..amounts.entries.len() {
        sum += size(imbalance, positions::before_at(part, amounts, user));
    }
    sum
}

fn signs_right(imbalance: Imbalance, part: &[i64], amounts: &Amounts, quantity: &[i64]) -> bool
    requires { Fit part.now amounts.now × (length quantity.now ≡ length amounts.now.entries.now) }
    ensures { result ≡ each_user (sign_right (found imbalance)) (befores part.now amounts.now) quantity.now }
{
    let mut right = true;
    for user in 0..amounts.entries.len() {
        let before = positions::before_at(part, amounts, user);
        right &= sign_right(imbalance, before, quantity[user]);
    }
    right
}

fn shares_right(
    imbalance: Imbalance,
    sum: u64,
    part: &[i64],
    amounts: &Amounts,
    quantity: &[i64],
) -> bool
    requires { Fit part.now amounts.now × (length quantity.now ≡ length amounts.now.entries.now)
        × (total (found imbalance) ≤ sum) × (sum ≤ market_most) }
    ensures { result ≡ each_user (share_right (found imbalance) sum) (befores part.now amounts.now) quantity.now }
{
    let mut right = true;
    for user in 0..amounts.entries.len() {
        let before = positions::before_at(part, amounts, user);
        right &= share_right(imbalance, sum, before, quantity[user]);
    }
    right
}

// ---- the causes

// "the quantities add to the excess (or to minus the shortfall, or to zero if there is neither)": what they add to.
#[tactic(auto, unfolding(rules::specs::Market::signed, rules::specs::Market::total))]
fn signed_total(imbalance: Imbalance) -> i64
    requires { total (found imbalance) ≤ market_most }
    ensures { result ≡ signed (found imbalance) (total (found imbalance)) }
{
    match imbalance {
        Imbalance::Within => 0,
        Imbalance::Excess(total) => total as i64,
        Imbalance::Shortfall(total) => -(total as i64),
    }
}

// Cause 24. The sum is safe past 22 and 23, which leave no quantity larger than its position.
#[tactic(auto, unfolding(rules::specs::Judging::sum_right))]
fn sum_right(imbalance: Imbalance, quantity: &[i64]) -> bool
    requires { (total (found imbalance) ≤ market_most)
        × (length quantity.now ≤ users_most) × AtMost position_most quantity.now }
    ensures { result ≡ sum_right (found imbalance) quantity.now }
{
    positions::sum_of(quantity) == signed_total(imbalance)
}

// Causes 22 to 24, each of all users before the next.
#[tactic(auto, unfolding(rules::specs::Judging::quantities_cause))]
fn quantities_cause(
    imbalance: Imbalance,
    part: &[i64],
    amounts: &Amounts,
    quantity: &[i64],
) -> Result<(), Cause>
    requires { Found (found imbalance) part.now amounts.now quantity.now }
    ensures { result ≡ quantities_cause (found imbalance) (befores part.now amounts.now) quantity.now }
{
    let signs = signs_right(imbalance, part, amounts, quantity);
    require(signs, Cause::Signs)?;
    let sum = sum_of_sizes(imbalance, part, amounts);
    let shares = shares_right(imbalance, sum, part, amounts, quantity);
    require(shares, Cause::Shares)?;
    require(sum_right(imbalance, quantity), Cause::Sum)
}

// The same over a part of the table, by the imbalance that the market position makes (rule 2).
fn part_quantities_cause(
    part: &[i64],
    amounts: &Amounts,
    terms: HourTerms,
    market: i64,
    quantity: &[i64],
) -> Result<(), Cause>
    requires { Asked part.now amounts.now terms market quantity.now }
    ensures { result ≡ asked_cause part.now amounts.now terms quantity.now }
{
    let imbalance = positions::imbalance_of(terms, market);
    quantities_cause(imbalance, part, amounts, quantity)
}

// And over the zone's part, lent on in a branch for each part, as the papers name the form ("&mut table[128..256]").
#[tactic(auto, unfolding(rules::specs::Days::part, rules::specs::Days::first_place))]
fn zone_quantities_cause(
    table: &[i64],
    amounts: &Amounts,
    terms: HourTerms,
    market: i64,
    quantity: &[i64],
) -> Result<(), Cause>
    requires { AskedTable table.now amounts.now terms market quantity.now }
    ensures { result ≡ asked_cause (part terms.zone table.now) amounts.now terms quantity.now }
{
    if terms.zone == 0 {
        part_quantities_cause(&table[0..128], amounts, terms, market, quantity)
    } else {
        part_quantities_cause(&table[128..256], amounts, terms, market, quantity)
    }
}

// The judge's causes: 2 to 11, then 22 to 24.
pub fn judge_cause(
    day: Day,
    table: &[i64],
    terms: HourTerms,
    amounts: &Amounts,
    quantity: &[i64],
) -> Result<(), Cause>
    ensures { result ≡ judge_cause day table.now (inputs_given terms amounts.now) quantity.now }
{
    let market = causes::judge_inputs_cause(day, table, terms, amounts, quantity)?;
    zone_quantities_cause(table, amounts, terms, market, quantity)
}
