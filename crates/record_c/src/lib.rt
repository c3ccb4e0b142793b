// The day record for C. C's own Boolean could hold other bytes than its two, which no call could tell; a number can be checked.

#![tactic(auto)]

ghost use Rattle.std.specs.Prelude.{◌≡◌};
ghost use Rattle.record_c.specs.Records.{zone_for_c, day_for_c, mark_fits, users_of, zone_of, day_of};

use rules::{Day, ZoneDay};

// Of one zone: the hours done, whether it is closed, 0 or 1, and what was sold and bought so far.
#[repr(C)]
#[derive(Clone, Copy, Default)]
pub struct ZoneDayC {
    pub hours: i64,
    pub closed: i64,
    pub sold: i64,
    pub bought: i64,
}

#[repr(C)]
#[derive(Clone, Copy, Default)]
pub struct DayC {
    pub users: i64,
    pub length: i64,
    pub h: ZoneDayC,
    pub l: ZoneDayC,
}

// ---- a record that a call answers

impl From<ZoneDay> for ZoneDayC {
    ghost from_gives = { λ zone_day for_c. for_c ≡ zone_for_c zone_day };

    #[tactic(auto, unfolding(crate::specs::Records::zone_for_c))]
    fn from(zone_day: ZoneDay) -> ZoneDayC {
        ZoneDayC {
            hours: zone_day.hours,
            closed: i64::from(zone_day.closed),
            sold: zone_day.sold,
            bought: zone_day.bought,
        }
    }
}

impl From<Day> for DayC {
    ghost from_gives = { λ day for_c. for_c ≡ day_for_c day };

    #[tactic(auto, unfolding(crate::specs::Records::day_for_c))]
    fn from(day: Day) -> DayC {
        DayC {
            users: day.users,
            length: day.length,
            h: day.h.into(),
            l: day.l.into(),
        }
    }
}

// ---- a record that a caller gives

impl ZoneDayC {
    #[tactic(auto, unfolding(crate::specs::Records::mark_fits))]
    fn mark_fits(self) -> bool
        ensures { result ≡ mark_fits self }
    {
        integers::within(0, 1, self.closed)
    }
}

impl DayC {
    // No user where a mark does not fit, so that the calls turn the record away by 2.
    #[tactic(auto, unfolding(crate::specs::Records::users_of, crate::specs::Records::marks_fit))]
    fn users_told(self) -> i64
        ensures { result ≡ users_of self }
    {
        if self.h.mark_fits() && self.l.mark_fits() {
            self.users
        } else {
            0
        }
    }
}

impl From<ZoneDayC> for ZoneDay {
    ghost from_gives = { λ given taken. taken ≡ zone_of given };

    #[tactic(auto, unfolding(crate::specs::Records::zone_of))]
    fn from(given: ZoneDayC) -> ZoneDay {
        ZoneDay {
            hours: given.hours,
            closed: given.closed != 0,
            sold: given.sold,
            bought: given.bought,
        }
    }
}

impl From<DayC> for Day {
    ghost from_gives = { λ given taken. taken ≡ day_of given };

    #[tactic(auto, unfolding(crate::specs::Records::day_of))]
    fn from(given: DayC) -> Day {
        Day {
            users: given.users_told(),
            length: given.length,
            h: given.h.into(),
            l: given.l.into(),
        }
    }
}
