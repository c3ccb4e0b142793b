// The closing of a zone, once no cause is left: each user's quantity is its whole position. (What is sold and bought is summed before, for cause 25: crate `totals`.)

#![tactic(auto)]

ghost use Rattle.std.specs.Prelude.{◌≡◌, ◌≤◌, nat_abs, length};
ghost use Rattle.integers.specs.Lists.{AtMost};
ghost use Rattle.rules.specs.Limits.{position_most, price_most};
ghost use Rattle.rules.specs.Market.{money_of, moneys};
ghost use Rattle.closing.specs.Steps.{Asks, PartLeaves, TableAsks, TableLeaves};

use rules::{ClosingTerms, Outputs};

// ---- one user

// Rule 6.
#[tactic(auto, unfolding(rules::specs::Market::money_of))]
fn money_of(excess_price: i64, shortfall_price: i64, quantity: i64) -> i64
    requires { (nat_abs excess_price ≤ price_most) × (nat_abs shortfall_price ≤ price_most)
        × (nat_abs quantity ≤ position_most) }
    ensures { result ≡ money_of excess_price shortfall_price quantity }
{
    if quantity > 0 {
        quantity * excess_price
    } else {
        quantity * shortfall_price
    }
}

// ---- all users

fn money_all(excess_price: i64, shortfall_price: i64, quantity: &[i64], money: &mut [i64])
    requires { (nat_abs excess_price ≤ price_most) × (nat_abs shortfall_price ≤ price_most)
        × (length money.old ≡ length quantity.now) × AtMost position_most quantity.now }
    ensures { money.new ≡ moneys excess_price shortfall_price quantity.now }
{
    for (i, paid) in money.iter_mut().enumerate() {
        *paid = money_of(excess_price, shortfall_price, quantity[i]);
    }
}

// ---- a zone

// The users' places are the first of the part; all its places become zero.
fn close_part(part: &mut [i64], terms: ClosingTerms, outputs: &mut Outputs)
    requires { Asks part.old terms outputs.old }
    ensures { PartLeaves (length outputs.old.quantity.now) part.old part.new terms
        outputs.old outputs.new }
{
    let users = outputs.quantity.len();
    let quantity = &part[..users];
    positions::copy_all(quantity, outputs.quantity);
    money_all(
        terms.excess_price,
        terms.shortfall_price,
        quantity,
        outputs.money,
    );
    part.fill(0);
}

// A closing works on its zone's part of the table and leaves the other part untouched: a branch for each part, as for an hour (`settlement::settle_table`).
pub fn close_table(table: &mut [i64], terms: ClosingTerms, outputs: &mut Outputs)
    requires { TableAsks table.old terms outputs.old }
    ensures { TableLeaves (length outputs.old.quantity.now) table.old table.new terms
        outputs.old outputs.new }
{
    if terms.zone == 0 {
        close_part(&mut table[0..128], terms, outputs)
    } else {
        close_part(&mut table[128..256], terms, outputs)
    }
}
