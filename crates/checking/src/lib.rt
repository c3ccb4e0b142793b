// What the test programs share: comparisons of what came back with what was lent, each equal to a definition of specs/, so that none can always hold. Every function takes
// every input.

#![tactic(auto)]

ghost use Rattle.std.specs.Prelude.{◌≡◌, pos, get_or, set, take, drop};
ghost use Rattle.integers.specs.Lists.{every};
ghost use Rattle.checking.specs.Same.{same_outside, mark_of, zone_by, zone_with, with_totals};

use rules::{Day, ZoneDay};

pub mod sums;

// ---- parts of a list

// The number at a place, and 0 beyond the end.
pub fn at(list: &[i64], place: usize) -> i64
    ensures { result ≡ get_or list.now place (pos 0) }
{
    list.get(place).copied().unwrap_or(0)
}

// The first `n` places, or as many as there are.
pub fn first<T>(list: &[T], n: usize) -> &[T]
    ensures { result.now ≡ take n list.now }
{
    &list[..n.min(list.len())]
}

// The places from one on.
pub fn rest<T>(list: &[T], from: usize) -> &[T]
    ensures { result.now ≡ drop from list.now }
{
    &list[from.min(list.len())..]
}

// The `n` places from one on.
pub fn part<T>(list: &[T], from: usize, n: usize) -> &[T]
    ensures { result.now ≡ take n (drop from list.now) }
{
    first(rest(list, from), n)
}

// Stores a number at a place; beyond the end nothing is stored.
pub fn put(list: &mut [i64], place: usize, value: i64)
    ensures { list.new ≡ set list.old place value }
{
    // An index: what was written through `get_mut` of a slice a proof does not know once the borrow is over (tried).
    if place < list.len() {
        list[place] = value;
    }
}

// The `n` places from one on, to be written.
pub fn lent<T>(list: &mut [T], from: usize, n: usize) -> &mut [T]
    ensures { result.now ≡ take n (drop from list.old) }
{
    let start = from.min(list.len());
    let end = start + n.min(list.len() - start);
    &mut list[start..end]
}

// ---- comparisons

// Every place but the `n` from `from` on.
#[tactic(auto, using(crate::proofs::Equality::same_is), unfolding(crate::specs::Same::same_outside))]
pub fn same_outside(a: &[i64], b: &[i64], from: usize, n: usize) -> bool
    ensures { result ≡ same_outside from n a.now b.now }
{
    first(a, from) == first(b, from) && rest(rest(a, from), n) == rest(rest(b, from), n)
}

// Every place holds the value.
pub fn all_are<T: PartialEq + Copy>(list: &[T], value: T) -> bool
    ensures { result ≡ every (T.eq value) list.now }
{
    let mut all = true;
    for x in list {
        all = all & (value == *x);
    }
    all
}

// ---- the record by numbers

// A zone is closed where its number is not 0; nothing was sold or bought in it.
#[tactic(auto, unfolding(crate::specs::Same::zone_by))]
fn zone_of(hours: i64, closed: i64) -> ZoneDay
    ensures { result ≡ zone_by hours closed }
{
    ZoneDay {
        hours,
        closed: closed != 0,
        sold: 0,
        bought: 0,
    }
}

pub fn day_of(
    users: i64,
    length: i64,
    h_hours: i64,
    h_closed: i64,
    l_hours: i64,
    l_closed: i64,
) -> Day
    ensures { result ≡ record {
      users = users;
      length = length;
      h = zone_by h_hours h_closed;
      l = zone_by l_hours l_closed;
    } }
{
    Day {
        users,
        length,
        h: zone_of(h_hours, h_closed),
        l: zone_of(l_hours, l_closed),
    }
}

#[tactic(auto, unfolding(crate::specs::Same::zone_with))]
fn zone_with(zone_day: ZoneDay, sold: i64, bought: i64) -> ZoneDay
    ensures { result ≡ zone_with zone_day sold bought }
{
    ZoneDay {
        sold,
        bought,
        ..zone_day
    }
}

// The record with other totals: what was sold and bought in H, then in L.
#[tactic(auto, unfolding(crate::specs::Same::with_totals))]
pub fn with_totals(day: Day, h_sold: i64, h_bought: i64, l_sold: i64, l_bought: i64) -> Day
    ensures { result ≡ with_totals day h_sold h_bought l_sold l_bought }
{
    Day {
        h: zone_with(day.h, h_sold, h_bought),
        l: zone_with(day.l, l_sold, l_bought),
        ..day
    }
}

// ---- what was found

// The two bytes before the words of a comparison. Every line that the programs are compared with has the blank, so that only this contract shows that a `!` can come.
pub fn mark(holds: bool) -> [u8; 2]
    ensures { result ≡ mark_of holds }
{
    [b',', if holds { b' ' } else { b'!' }]
}
