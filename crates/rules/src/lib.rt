// The types of the Gas Day: the record, what a call is told, and what it answers. The rules are the definitions of specs/.

#![tactic(auto)]

ghost use Rattle.std.specs.Prelude.{◌≡◌};
ghost use Rattle.rules.specs.Refusals.{number, unless};

// The causes for turning a call away, each under the papers' words, with their number.
#[derive(Clone, Copy, PartialEq, Eq)]
pub enum Cause {
    // "opening: user count not 1 to 128"
    Users = 1,
    // "record's user count not 1 to 128, hours not 0 to 24, or a zone closed with fewer than 24"
    Record = 2,
    // "table not of 256 places, or a list or the scratch not of exactly the user count"
    Lengths = 3,
    // "zone not 0 or 1"
    Zone = 4,
    // "zone closed"
    Closed = 5,
    // "hour is not hours done plus 1, or above 24; at closing, hours done below 24"
    Hour = 6,
    // "table holds a position outside its range, a non-zero place at or beyond the user count in either zone, or a non-zero place in a zone that is closed or has no hours done"
    Table = 7,
    // "threshold or price out of range; month not 1 to 12"
    Terms = 8,
    // "an amount out of range"
    Amounts = 9,
    // "pooling amounts do not add to zero"
    Pooling = 10,
    // "a position before settlement out of range"
    Positions = 11,
    // "at opening .. if the length is none of these"
    DayLength = 21,
    // of an operator's quantities: "if a user who did not cause has a quantity or a causer's has the wrong sign"
    Signs = 22,
    // "then 23 if one is 1 kWh or more off"
    Shares = 23,
    // "then 24 if the sum is wrong"
    Sum = 24,
    // "last of all causes of an hour, a preview and a closing, if a total would pass the bound"
    Totals = 25,
}

impl Cause {
    // The papers' number.
    pub fn number(self) -> u64
        ensures { result ≡ number self }
    {
        self as u64
    }
}

// The test of one cause, for a chain of them: `require(.., Cause::Users)?; require(.., Cause::DayLength)?; ..` gives the first that applies.
pub fn require<E: Copy>(fits: bool, cause: E) -> Result<(), E>
    ensures { result ≡ unless fits cause }
{
    if fits { Ok(()) } else { Err(cause) }
}

// Of one zone: the hours done, whether it is closed, and what was sold and bought so far, both as sizes.
#[derive(Clone, Copy, PartialEq, Eq)]
pub struct ZoneDay {
    pub hours: i64,
    pub closed: bool,
    pub sold: i64,
    pub bought: i64,
}

// The day record, which goes in by value and comes back by value. Its length is the number of hours that the day has.
#[derive(Clone, Copy, PartialEq, Eq)]
pub struct Day {
    pub users: i64,
    pub length: i64,
    pub h: ZoneDay,
    pub l: ZoneDay,
}

impl Day {
    pub const USERS_LEAST: i64 = 1;

    pub const USERS_MOST: i64 = 128;

    // The hours of a day: the least and the most are those of the two clock-change days.
    pub const LENGTH_LEAST: i64 = 23;

    pub const LENGTH_USUAL: i64 = 24;

    pub const LENGTH_MOST: i64 = 25;
}

// What one hour or one closing adds to a zone's totals: what is sold and what is bought, both as sizes.
#[derive(Clone, Copy)]
pub struct Sums {
    pub sold: i64,
    pub bought: i64,
}

// A refusal: its cause, and the same record.
#[derive(Clone, Copy)]
pub struct Refusal {
    pub cause: Cause,
    pub day: Day,
}

// ---- default thresholds

#[derive(Clone, Copy)]
pub struct Thresholds {
    pub upper: i64,
    pub lower: i64,
}

// ---- an hour

// What an hour is told besides its lists: which hour of which zone, its two thresholds and its two prices. The zone stays a number, here and at
// a closing: C gives any number, and cause 4 is for those that name no zone.
#[repr(C)]
#[derive(Clone, Copy)]
pub struct HourTerms {
    pub zone: i64,
    pub hour: i64,
    pub upper: i64,
    pub lower: i64,
    pub excess_price: i64,
    pub shortfall_price: i64,
}

// The four amounts of each user, a list each by place: entries (EEA), exits (XEA), net title transfers (NCTTN) and pooling transfers (IPT).
#[derive(Clone, Copy)]
pub struct Amounts<'a> {
    pub entries: &'a [i64],
    pub exits: &'a [i64],
    pub titles: &'a [i64],
    pub poolings: &'a [i64],
}

// The lists that an hour, a preview or a closing fills, a number for each user: what it sells, and what it is paid.
#[derive(Drop)]
pub struct Outputs<'a> {
    pub quantity: &'a mut [i64],
    pub money: &'a mut [i64],
}

// Which side of its thresholds the market was on, and its total: how far.
#[derive(Clone, Copy)]
pub enum Side {
    Excess(i64),
    Shortfall(i64),
}

// The causers: place 0 at the lowest bit of the first word; and the number of marks.
#[derive(Clone, Copy)]
pub struct Marks {
    pub first: u64,
    pub second: u64,
    pub number: u64,
}

// No Option: the papers name this form ("Hour outcome enum: Within, or Settled holding a Side enum").
#[derive(Clone, Copy)]
pub enum Outcome {
    Within,
    Settled(Side, Marks),
}

#[derive(Clone, Copy)]
pub struct HourDone {
    pub day: Day,
    pub outcome: Outcome,
}

// ---- a closing

// What a closing is told besides its lists.
#[repr(C)]
#[derive(Clone, Copy)]
pub struct ClosingTerms {
    pub zone: i64,
    pub excess_price: i64,
    pub shortfall_price: i64,
}

// The record after a closing, and what was sold and bought, both as sizes.
#[derive(Clone, Copy)]
pub struct ClosingDone {
    pub day: Day,
    pub sold: i64,
    pub bought: i64,
}
