// Rule 4 of document 01, the largest remainder rule: a total is shared by size, in whole units.

#![tactic(auto)]

ghost use Rattle.std.specs.Prelude.{◌≡◌, ◌&&◌, ◌||◌, ◌-◌, ◌*◌, ◌/◌, ◌%◌, ◌<◌, ◌≤◌, min, max, ltb, eqb, pos, nat_abs, ◌+ℤ◌, length};
ghost use Rattle.integers.specs.Lists.{bit, sum};
ghost use Rattle.largest_remainder.specs.Cuts.{above, same, IsCut};
ghost use Rattle.rules.specs.Limits.{position_most, market_most};
ghost use Rattle.apportionment.specs.Pass.{raised_by, visited};
ghost use Rattle.apportionment.specs.Steps.{Input, Apportioned, ties_broken, Bounded, CutAsks, HandAsks, Shared};

const TOP_BIT: u64 = 0x8000_0000_0000_0000;

// ---- whole units and remainders

// A user's share: its whole units, and its fraction in parts of the sum.
#[derive(Clone, Copy)]
struct Share {
    whole: u64,
    fraction: u64,
}

// One division for both, and none for a user that did not cause.
fn share_of(total: u64, size: u64, sum: u64) -> Share
    requires { (0 < sum) × (total * size ≤ market_most * position_most) }
    ensures { (result.whole ≡ total * size / sum) × (result.fraction ≡ total * size % sum) }
{
    if size == 0 {
        Share {
            whole: 0,
            fraction: 0,
        }
    } else {
        let product = total * size;
        Share {
            whole: product / sum,
            fraction: product % sum,
        }
    }
}

// A number no larger than `low` that `remainder` is above, unless it is 0.
fn below(low: u64, remainder: u64) -> u64
    ensures { (result ≤ low) × (min 1 remainder ≤ remainder - result) }
{
    if remainder == 0 {
        low
    } else {
        low.min(remainder - 1)
    }
}

// What a pass over the sizes finds: the whole units together, and the ends between which a cut of the remainders lies.
#[derive(Clone, Copy)]
struct Shares {
    given: u64,
    low: u64,
    top: u64,
}

// Each share rounded down, into `out`, and its remainder in the place of its size.
fn share_all(sizes: &mut [u64], total: u64, sum_of_sizes: u64, out: &mut [i64]) -> Shares
    requires out_len { length out.old ≡ length sizes.old }
    requires input { Input sizes.old total }
    requires sum_of_sizes_value { sum_of_sizes ≡ sum sizes.old }
    ensures { Shared sizes.old total
        sizes.new out.new result.given result.low result.top }
{
    let mut given: u64 = 0;
    let mut low: u64 = sum_of_sizes;
    let mut top: u64 = 0;
    // `out` by index: of a list that a `zip` writes through `iter_mut` a proof knows nothing once the loop is over (tried).
    for (i, size) in sizes.iter_mut().enumerate() {
        let share = share_of(total, *size, sum_of_sizes);
        out[i] = share.whole as i64;
        *size = share.fraction;
        given += share.whole;
        low = below(low, share.fraction);
        top = top.max(share.fraction);
    }
    Shares { given, low, top }
}

// ---- the cut

// 1 for a remainder above `at`, and otherwise 0: by the top bit of a sum, without a branch.
fn bit_above(remainder: u64, at: u64) -> u64
    requires { (remainder ≤ market_most) × (at ≤ market_most) }
    ensures { result ≡ bit (ltb at remainder) }
{
    (remainder + (TOP_BIT - 1 - at)) / TOP_BIT
}

// How many remainders are above `at`.
fn count_above(remainders: &[u64], at: u64) -> u64
    requires { (at ≤ market_most) × Bounded remainders.now }
    ensures { result ≡ above remainders.now at }
{
    let mut n: u64 = 0;
    for remainder in remainders {
        n += bit_above(*remainder, at);
    }
    n
}

// One more for each remainder above `at`, and for the first `ties` of those that are `at`.
#[derive(Clone, Copy)]
struct Cut {
    at: u64,
    ties: u64,
}

// By bisection between `low`, above which there are enough, and `top`, above which there is none.
fn find_cut(remainders: &[u64], spare: u64, low: u64, top: u64) -> Cut
    requires { CutAsks remainders.now spare low top }
    ensures { IsCut remainders.now spare result.at result.ties × (result.at ≤ market_most) }
{
    if spare == 0 {
        return Cut { at: top, ties: 0 };
    }
    let mut lo: u64 = low;
    let mut hi: u64 = top;
    let mut over: u64 = 0;
    // A `while`: its turns count no index, they halve what lies between the ends.
    while hi - lo > 1 {
        let mid = lo + (hi - lo) / 2;
        let n = count_above(remainders, mid);
        if n == spare {
            return Cut { at: mid, ties: 0 };
        }
        if n > spare {
            lo = mid;
        } else {
            hi = mid;
            over = n;
        }
    }
    Cut {
        at: hi,
        ties: spare - over,
    }
}

// The last of finding the order: the first `ties` of the remainders that are `at` become larger by one. Then those that get a unit are the ones above `at`.
fn break_ties(remainders: &mut [u64], cut: Cut)
    requires { (cut.ties ≤ same remainders.old cut.at) × (cut.at ≤ market_most) }
    ensures { remainders.new ≡ ties_broken remainders.old cut.at cut.ties }
{
    let mut left = cut.ties;
    let mut place: usize = 0;
    // A `while`, here and in `hand_out`: it ends with the last one looked for, and until then there is a next place.
    while left > 0 {
        let tie = u64::from(remainders[place] == cut.at);
        remainders[place] += tie;
        left -= tie;
        place += 1;
    }
}

// ---- the spare units

// One spare unit to each remainder above `at`, in place order, ending with the last unit. It answers how many users it went to (document 02, Ask 4; `EndsWithTheLast`); the rule does not need
// the number.
fn hand_out(remainders: &[u64], at: u64, spare: u64, out: &mut [i64]) -> usize
    requires { HandAsks remainders.now at spare out.old }
    ensures raised { out.new ≡ raised_by remainders.now at out.old }
    ensures number { result ≡ visited out.old out.new }
{
    let mut units = spare;
    let mut visited: usize = 0;
    while units > 0 {
        let unit = u64::from(remainders[visited] > at);
        out[visited] += unit as i64;
        units -= unit;
        visited += 1;
    }
    visited
}

// ---- the rule

// The settled sizes, into `out`. `sizes` is the room to work in: the remainders take the place of the sizes, and at the end it is all zero.
pub fn apportion(sizes: &mut [u64], total: u64, out: &mut [i64])
    requires out_len { length out.old ≡ length sizes.old }
    requires input { Input sizes.old total }
    ensures { Apportioned sizes.old total sizes.new out.new }
{
    let sum_of_sizes = sizes.iter().sum();
    let shares = share_all(sizes, total, sum_of_sizes, out);
    let spare = total - shares.given;
    let cut = find_cut(sizes, spare, shares.low, shares.top);
    break_ties(sizes, cut);
    hand_out(sizes, cut.at, spare, out);
    sizes.fill(0);
}
