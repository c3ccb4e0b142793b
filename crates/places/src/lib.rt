// The table: cause 7. The live places of a zone are tested for their range and the others for zero, which is in range: each place is looked at once.

#![tactic(auto)]

ghost use Rattle.std.specs.Prelude.{◌≡◌, ◌≤◌, length};
ghost use Rattle.integers.specs.Ranges.{is_zero};
ghost use Rattle.integers.specs.Lists.{every};
ghost use Rattle.rules.specs.Days.{first_place};
ghost use Rattle.rules.specs.Causes.{table_fit};
ghost use Rattle.places.specs.Live.{live_places, part_fit, Tabled};

use ranges::limits::{Kind, Position};
use rules::Day;

// Where a zone's part of the table begins. (The zone stays a number: the definition is of every number, and a narrower type would ask more.)
#[tactic(auto, unfolding(rules::specs::Days::first_place))]
pub fn first_place(zone: i64) -> usize
    ensures { result ≡ first_place zone }
{
    if zone == 0 { 0 } else { 128 }
}

// How many places of a zone may be other than zero.
#[tactic(auto, unfolding(crate::specs::Live::live_places, rules::specs::Days::users))]
fn live_places(zone: i64, day: Day) -> usize
    ensures { result ≡ live_places zone day }
{
    if day_record::is_closed(zone, day) || day_record::hours_done(zone, day) == 0 {
        0
    } else {
        integers::natural(day.users)
    }
}

// All places together by `|`, in a pass without a branch.
fn all_zero(places: &[i64]) -> bool
    ensures { result ≡ every is_zero places.now }
{
    let mut all: i64 = 0;
    for place in places {
        all |= *place;
    }
    all == 0
}

fn part_fit(live: usize, part: &[i64]) -> bool
    requires { live ≤ length part.now }
    ensures { result ≡ part_fit live part.now }
{
    Position::all_fit(&part[..live]) && all_zero(&part[live..])
}

// Inlined, since the record is put into memory for a call, and a refusal by 2 to 6 then takes 4 ns more (`#[inline]` alone does not do it: it is long).
#[inline(always)]
pub fn table_fit(day: Day, table: &[i64]) -> bool
    requires { Tabled day table.now }
    ensures { result ≡ table_fit day table.now }
{
    let h = live_places(0, day);
    let l = live_places(1, day);
    part_fit(h, &table[0..128]) && part_fit(l, &table[128..256])
}
