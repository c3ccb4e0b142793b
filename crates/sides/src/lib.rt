// One side of the thresholds, an excess or a shortfall: rules 3 to 6 on the users' positions before settlement. A shortfall goes by negation.

#![tactic(auto)]

ghost use Rattle.std.specs.Prelude.{◌≡◌, true, map, ◌≤◌, nat_abs, length};
ghost use Rattle.integers.specs.Lists.{bit, AtMost};
ghost use Rattle.rules.specs.Limits.{users_most, position_most, price_most};
ghost use Rattle.rules.specs.Causes.{terms_fit};
ghost use Rattle.rules.specs.Market.{caused, size, word, marks, causers};
ghost use Rattle.sides.specs.Sides.{side, turn, price_on, Booked, SideAsks, SideLeaves};

use rules::{HourTerms, Marks, Outputs};

// `up` is an excess, else a shortfall. It stays a `bool`: the definitions turn by the same `up`, and an enum would name the two cases once more.

// ---- one user

// A position as its side sees it: in a shortfall by negation.
#[tactic(auto, unfolding(crate::specs::Sides::turn))]
fn turned(up: bool, x: i64) -> i64
    requires { nat_abs x ≤ position_most }
    ensures { result ≡ turn up x }
{
    if up { x } else { -x }
}

// Rule 4: the size of a causer's position, and 0 for the others.
#[tactic(auto, using(crate::proofs::Turning::max_natural, crate::proofs::Turning::turn_natural))]
fn size_on(up: bool, position: i64) -> u64
    requires { nat_abs position ≤ position_most }
    ensures { result ≡ size (side up 0) position }
{
    turned(up, position).max(0) as u64
}

// Rule 3, as a bit.
fn mark_on(up: bool, position: i64) -> u64
    requires { nat_abs position ≤ position_most }
    ensures { result ≡ bit (caused (side up 0) position) }
{
    u64::from(turned(up, position) > 0)
}

fn size_all(up: bool, positions: &[i64], sizes: &mut [u64])
    requires { (length sizes.old ≡ length positions.now) × AtMost position_most positions.now }
    ensures { sizes.new ≡ map (size (side up 0)) positions.now }
{
    for (i, position) in positions.iter().enumerate() {
        sizes[i] = size_on(up, *position);
    }
}

// The marks of at most 64 positions, the first at the lowest bit.
fn word_of(up: bool, positions: &[i64]) -> u64
    requires { (length positions.now ≤ 64) × AtMost position_most positions.now }
    ensures { result ≡ word (map (caused (side up 0)) positions.now) }
{
    let mut word = 0;
    for position in positions.iter().rev() {
        word = 2 * word + mark_on(up, *position);
    }
    word
}

// The causers in two words; the number of marks is the sum of their counts of ones.
fn marks_of(up: bool, positions: &[i64]) -> Marks
    requires { (length positions.now ≤ users_most) × AtMost position_most positions.now }
    ensures { result ≡ marks (causers (side up 0) positions.now) }
{
    let split = positions.len().min(64);
    let first = word_of(up, &positions[..split]);
    let second = word_of(up, &positions[split..]);
    let number = u64::from(first.count_ones()) + u64::from(second.count_ones());
    Marks {
        first,
        second,
        number,
    }
}

// ---- rules 5 and 6

#[tactic(auto, using(rules::proofs::Small::terms_small), unfolding(crate::specs::Sides::price_on))]
fn price_on(up: bool, terms: HourTerms) -> i64
    requires { terms_fit terms ≡ true }
    ensures { result ≡ price_on up terms }
{
    if up {
        terms.excess_price
    } else {
        terms.shortfall_price
    }
}

// The settled sizes in `quantity` become quantities; money and positions after go with them. (Each list by itself: as `Outputs` the pass would write behind two
// references, and its invariant say at each turn that they are the ones lent.)
fn book_all(up: bool, price: i64, positions: &mut [i64], quantity: &mut [i64], money: &mut [i64])
    requires { (length quantity.old ≡ length positions.old) × (length money.old ≡ length positions.old)
        × (nat_abs price ≤ price_most)
        × AtMost position_most positions.old × AtMost position_most quantity.old }
    ensures { Booked up price
        positions.old positions.new
        quantity.old quantity.new money.new }
{
    for (i, position) in positions.iter_mut().enumerate() {
        let sold = turned(up, quantity[i]);
        quantity[i] = sold;
        money[i] = sold * price;
        *position -= sold;
    }
}

// Settles a side's total. `positions` are those before settlement, and become those after.
pub fn settle_side(
    up: bool,
    total: u64,
    positions: &mut [i64],
    terms: HourTerms,
    outputs: &mut Outputs,
    scratch: &mut [u64],
) -> Marks
    requires { SideAsks up total positions.old terms outputs.old scratch.old }
    ensures { SideLeaves up total
        positions.old positions.new terms
        outputs.old outputs.new scratch.old scratch.new result }
{
    let marked = marks_of(up, positions);
    size_all(up, positions, scratch);
    apportionment::apportion(scratch, total, outputs.quantity);
    book_all(
        up,
        price_on(up, terms),
        positions,
        outputs.quantity,
        outputs.money,
    );
    marked
}
