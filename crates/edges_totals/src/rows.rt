// The cases of the totals: what each changes of the usual call. Totals are those of H, then those of L: first what was sold, then what was bought.
use super::call::Change::*;
use super::call::{Change, Changes};
use ranges::limits::{self, Kind, Position, Price, Threshold, Total};
use rules::Day;

// The changes that several calls have in common, and what each of them changes besides.
pub type Cases = (&'static [Changes], &'static [Changes]);

// The changes of an hour, and for each call the quantities that are judged.
pub type Judged = (&'static [Changes], &'static [&'static [i64]]);

const USERS: i64 = Day::USERS_MOST;

const POSITION: i64 = Position::MOST;

const THRESHOLD: i64 = Threshold::UPPER_MOST;

const PRICE: i64 = Price::MOST;

const ENTRY: i64 = limits::Entry::MOST;

const EXIT: i64 = limits::Exit::LEAST;

const TITLE: i64 = limits::Title::MOST;

// The bound of the totals.
const MOST: i64 = Total::MOST;

// What all users together can have at the most.
const ALL: i64 = USERS * POSITION;

const BOUND: Changes = &[Totals(MOST, MOST, MOST, MOST)];

// ---- the usual calls

// Hour 2 of H, three users with 10, 40 and 0 before settlement, the widest thresholds; a day of 24 hours, one of H and two of L done, an empty table, nothing sold or bought.
pub const USUAL: Changes = &[
    Users(3),
    Length(Day::LENGTH_USUAL),
    HHours(1),
    LHours(2),
    Hour(2),
    Upper(THRESHOLD),
    Lower(-THRESHOLD),
    ExcessPrice(20_000),
    ShortfallPrice(25_000),
    TableSize(256),
    Entry(0, 10),
    Entry(1, 40),
];

// What a closing has of its own: both zones have all their hours. It closes H.
pub const CLOSING: Changes = &[HHours(24), LHours(24)];

// ---- cause 2: a record, which an hour, its preview, the judge (of no quantities) and a closing are given. The hour is within its thresholds, and the closing has no positions.

pub const RECORDS: [Cases; 4] = [
    // no hours done in H: nothing sold and bought, and something; hours done in L
    (
        &[&[HHours(0), Hour(1)]],
        &[
            &[],
            &[Totals(1, 0, 0, 0)],
            &[Totals(0, 1, 0, 0)],
            &[Totals(-1, 0, 0, 0)],
            &[Totals(0, MOST, 0, 0)],
            &[Totals(0, 0, 1, 1)],
        ],
    ),
    // none in L
    (
        &[&[LHours(0)]],
        &[
            &[],
            &[Totals(0, 0, 1, 0)],
            &[Totals(0, 0, 0, 1)],
            &[Totals(0, 0, 0, -1)],
            &[Totals(0, 0, MOST, 0)],
            &[Totals(1, 1, 0, 0)],
        ],
    ),
    // none in either
    (
        &[&[HHours(0), LHours(0), Hour(1)]],
        &[&[], &[Totals(1, 0, 0, 0)], &[Totals(0, 0, 0, 1)]],
    ),
    // hours done in both: each total below zero, at the bound and beyond it, and at the ends of 64 bits
    (
        &[],
        &[
            &[Totals(-1, 0, 0, 0)],
            &[Totals(MOST, 0, 0, 0)],
            &[Totals(MOST + 1, 0, 0, 0)],
            &[Totals(i64::MAX, 0, 0, 0)],
            &[Totals(i64::MIN, 0, 0, 0)],
            &[Totals(0, -1, 0, 0)],
            &[Totals(0, MOST, 0, 0)],
            &[Totals(0, MOST + 1, 0, 0)],
            &[Totals(0, i64::MAX, 0, 0)],
            &[Totals(0, i64::MIN, 0, 0)],
            &[Totals(0, 0, -1, 0)],
            &[Totals(0, 0, MOST, 0)],
            &[Totals(0, 0, MOST + 1, 0)],
            &[Totals(0, 0, i64::MAX, 0)],
            &[Totals(0, 0, i64::MIN, 0)],
            &[Totals(0, 0, 0, -1)],
            &[Totals(0, 0, 0, MOST)],
            &[Totals(0, 0, 0, MOST + 1)],
            &[Totals(0, 0, 0, i64::MAX)],
            &[Totals(0, 0, 0, i64::MIN)],
            BOUND,
        ],
    ),
];

pub const RECORDS_IN_L: [Cases; 3] = [
    (
        &[&[Zone(1), LHours(0), Hour(1)]],
        &[&[], &[Totals(0, 0, 1, 0)], &[Totals(0, 0, 0, 1)]],
    ),
    (
        &[&[Zone(1), Hour(3), HHours(0)]],
        &[&[], &[Totals(1, 0, 0, 0)], &[Totals(0, 1, 0, 0)]],
    ),
    (
        &[&[Zone(1), Hour(3)]],
        &[
            &[Totals(-1, 0, 0, 0)],
            &[Totals(0, MOST + 1, 0, 0)],
            &[Totals(0, 0, MOST + 1, 0)],
            &[Totals(0, 0, 0, -1)],
            BOUND,
        ],
    ),
];

// ---- cause 25: an hour and its preview

// The market stands at 50: an excess of 25.
const EXCESS: Changes = &[Upper(25)];

// At -50, with positions -10 and -40: a shortfall of 35.
const SHORTFALL: Changes = &[Exit(0, -20), Exit(1, -80), Lower(-15)];

// An excess of 30.
const EXCESS_IN_L: Changes = &[Zone(1), Hour(3), Upper(20)];

// A shortfall of 20.
const SHORTFALL_IN_L: Changes = &[Zone(1), Hour(3), Exit(0, -20), Exit(1, -80), Lower(-30)];

// An excess, and a shortfall, of all that users can have.
const LARGEST: Changes = &[Users(USERS), EachEntry(ENTRY), EachTitle(TITLE), Upper(0)];

const LEAST: Changes = &[
    Users(USERS),
    EachEntry(0),
    EachExit(EXIT),
    EachTitle(-TITLE),
    Lower(0),
];

pub const HOURS: [Cases; 13] = [
    // added to nothing and to something; the bound reached, passed by 1 and by all; the other three at the bound
    (
        &[EXCESS],
        &[
            &[],
            &[Totals(7, 11, 13, 17)],
            &[Totals(MOST - 25, 0, 0, 0)],
            &[Totals(MOST - 24, 0, 0, 0)],
            &[Totals(MOST, 0, 0, 0)],
            &[Totals(MOST - 25, MOST, MOST, MOST)],
        ],
    ),
    (
        &[SHORTFALL],
        &[
            &[],
            &[Totals(7, 11, 13, 17)],
            &[Totals(0, MOST - 35, 0, 0)],
            &[Totals(0, MOST - 34, 0, 0)],
            &[Totals(0, MOST, 0, 0)],
            &[Totals(MOST, MOST - 35, MOST, MOST)],
        ],
    ),
    (
        &[EXCESS_IN_L],
        &[
            &[],
            &[Totals(7, 11, 13, 17)],
            &[Totals(0, 0, MOST - 30, 0)],
            &[Totals(0, 0, MOST - 29, 0)],
            &[Totals(0, 0, MOST, 0)],
            &[Totals(MOST, MOST, MOST - 30, MOST)],
        ],
    ),
    (
        &[SHORTFALL_IN_L],
        &[
            &[],
            &[Totals(7, 11, 13, 17)],
            &[Totals(0, 0, 0, MOST - 20)],
            &[Totals(0, 0, 0, MOST - 19)],
            &[Totals(0, 0, 0, MOST)],
            &[Totals(MOST, MOST, MOST, MOST - 20)],
        ],
    ),
    // at a threshold, and 1 kWh beyond it
    (&[&[Upper(50)]], &[BOUND]),
    (&[&[Upper(49)]], &[&[Totals(MOST - 1, MOST, 0, 0)], BOUND]),
    (&[SHORTFALL, &[Lower(-50)]], &[BOUND]),
    (
        &[SHORTFALL, &[Lower(-49)]],
        &[&[Totals(MOST, MOST - 1, 0, 0)], BOUND],
    ),
    // the largest hours
    (
        &[LARGEST],
        &[
            &[],
            &[Totals(MOST - ALL, 0, 0, 0)],
            &[Totals(MOST - ALL + 1, 0, 0, 0)],
        ],
    ),
    (
        &[LEAST],
        &[
            &[Totals(0, MOST - ALL, 0, 0)],
            &[Totals(0, MOST - ALL + 1, 0, 0)],
        ],
    ),
    (
        &[LEAST, &[Zone(1), Hour(3)]],
        &[
            &[Totals(0, 0, 0, MOST - ALL)],
            &[Totals(0, 0, 0, MOST - ALL + 1)],
        ],
    ),
    // each cause of an hour before 25, from 2 to 11
    (
        &[EXCESS, BOUND],
        &[
            &[Users(0)],
            &[Totals(MOST + 1, MOST, MOST, MOST)],
            &[Totals(MOST, MOST, MOST, -1)],
            &[TableSize(255)],
            &[ListsSize(4)],
            &[Zone(-1)],
            &[Zone(2)],
            &[HHours(24), HClosed, Hour(25)],
            &[Hour(1)],
            &[HHours(24), Hour(25)],
            &[Table(2, POSITION + 1)],
            &[Table(3, 1)],
            &[Table(128, -POSITION - 1)],
            &[Upper(-1)],
            &[Lower(1)],
            &[ExcessPrice(PRICE + 1)],
            &[ShortfallPrice(-PRICE - 1)],
            &[Entry(2, -1)],
            &[Title(2, TITLE + 1)],
            &[Pooling(2, 1)],
            &[Table(2, POSITION), Entry(2, 1)],
        ],
    ),
    (
        &[SHORTFALL_IN_L, BOUND],
        &[
            &[Users(USERS + 1)],
            &[Totals(MOST, MOST, MOST, MOST + 1)],
            &[Totals(-1, MOST, MOST, MOST)],
            &[TableSize(257)],
            &[ListsSize(2)],
            &[LHours(24), LClosed, Hour(25)],
            &[Hour(4)],
            &[Table(130, -POSITION - 1)],
            &[Table(255, -1)],
            &[Lower(-THRESHOLD - 1)],
            &[Exit(2, 1)],
            &[Exit(2, EXIT - 1)],
            &[Pooling(2, -1)],
            &[Table(130, -POSITION), Exit(2, -1)],
        ],
    ),
];

// ---- the judge, which has no cause 25

pub const JUDGED: [Judged; 4] = [
    // 26 from 10 and 40: exact shares 5 1/5 and 20 4/5
    (
        &[&[Upper(24)], BOUND],
        &[
            &[5, 21, 0],
            &[6, 20, 0],
            &[5, 20, 1],
            &[7, 19, 0],
            &[5, 20, 0],
        ],
    ),
    // whole shares
    (&[SHORTFALL, BOUND], &[&[-7, -28, 0], &[7, -28, 0]]),
    (&[EXCESS_IN_L, BOUND], &[&[6, 24, 0], &[6, 25, 0]]),
    (&[SHORTFALL_IN_L, BOUND], &[&[-4, -16, 0], &[0, 0, 0]]),
];

// ---- cause 25: a closing

// Sold 5, bought 7.
const H_POSITIONS: Changes = &[Table(0, 5), Table(1, -7)];

// Of L: sold 8, bought 3.
const L_POSITIONS: Changes = &[Zone(1), Table(128, -3), Table(129, 8)];

pub const CLOSINGS: [Cases; 9] = [
    (
        &[H_POSITIONS],
        &[
            &[],
            &[Totals(7, 11, 13, 17)],
            &[Totals(MOST - 5, MOST - 7, 0, 0)],
            &[Totals(MOST - 4, MOST - 7, 0, 0)],
            &[Totals(MOST - 5, MOST - 6, 0, 0)],
            &[Totals(MOST - 4, MOST - 6, 0, 0)],
            &[Totals(MOST, 0, 0, 0)],
            &[Totals(0, MOST, 0, 0)],
            &[Totals(MOST - 5, MOST - 7, MOST, MOST)],
        ],
    ),
    (
        &[L_POSITIONS],
        &[
            &[],
            &[Totals(7, 11, 13, 17)],
            &[Totals(0, 0, MOST - 8, MOST - 3)],
            &[Totals(0, 0, MOST - 7, MOST - 3)],
            &[Totals(0, 0, MOST - 8, MOST - 2)],
            &[Totals(0, 0, MOST - 7, MOST - 2)],
            &[Totals(0, 0, MOST, 0)],
            &[Totals(0, 0, 0, MOST)],
            &[Totals(MOST, MOST, MOST - 8, MOST - 3)],
        ],
    ),
    // only sold, only bought, and as much sold as bought
    (
        &[&[Table(0, 5)]],
        &[
            &[Totals(MOST - 5, MOST, 0, 0)],
            &[Totals(MOST - 4, MOST, 0, 0)],
        ],
    ),
    (
        &[&[Table(1, -7)]],
        &[
            &[Totals(MOST, MOST - 7, 0, 0)],
            &[Totals(MOST, MOST - 6, 0, 0)],
        ],
    ),
    (
        &[&[Table(0, 7), Table(1, -7)]],
        &[
            &[Totals(MOST - 7, MOST - 7, 0, 0)],
            &[Totals(MOST - 6, 0, 0, 0)],
            &[Totals(0, MOST - 6, 0, 0)],
        ],
    ),
    // the largest closings
    (
        &[&[Users(USERS), EachPlace(0, POSITION)]],
        &[
            &[Totals(MOST - ALL, 0, 0, 0)],
            &[Totals(MOST - ALL + 1, 0, 0, 0)],
        ],
    ),
    (
        &[&[Users(USERS), EachPlace(128, -POSITION), Zone(1)]],
        &[
            &[Totals(0, 0, 0, MOST - ALL)],
            &[Totals(0, 0, 0, MOST - ALL + 1)],
        ],
    ),
    // each cause of a closing before 25, from 2 to 8
    (
        &[H_POSITIONS, BOUND],
        &[
            &[Users(0)],
            &[Totals(MOST, MOST, MOST, MOST + 1)],
            &[TableSize(255)],
            &[ListsSize(4)],
            &[Zone(2)],
            &[HClosed],
            &[HHours(23)],
            &[Table(2, POSITION + 1)],
            &[Table(3, 1)],
            &[ExcessPrice(PRICE + 1)],
            &[ShortfallPrice(-PRICE - 1)],
        ],
    ),
    (
        &[L_POSITIONS, BOUND],
        &[
            &[Users(USERS + 1)],
            &[Totals(-1, MOST, MOST, MOST)],
            &[TableSize(257)],
            &[ListsSize(2)],
            &[LClosed],
            &[LHours(0)],
            &[LHours(1)],
            &[Table(130, -POSITION - 1)],
            &[Table(255, -1)],
            &[ExcessPrice(-PRICE - 1)],
            &[ShortfallPrice(PRICE + 1)],
        ],
    ),
];

// ---- a day that is carried on

// The users of its day, and its hours.
pub const DAY_USERS: i64 = 3;

pub const DAY_LENGTH: i64 = Day::LENGTH_LEAST;

// Its hours in both zones.
pub const DAY_TURNS: usize = 2 * DAY_LENGTH as usize;

// What every call of the day has.
pub const DAY: Changes = &[ExcessPrice(20_000), ShortfallPrice(25_000), TableSize(256)];

// The amounts and the thresholds of its hours, in turn.
pub const DAY_HOURS: [Changes; 7] = [
    &[
        Entry(0, 40),
        Entry(1, 25),
        Exit(2, -15),
        Upper(20),
        Lower(-20),
    ],
    &[Entry(2, 8), Exit(0, -6), Upper(20), Lower(-20)],
    &[Exit(0, -70), Exit(1, -35), Upper(5), Lower(-5)],
    &[Title(0, 9), Title(1, -9), Upper(3), Lower(-3)],
    &[
        Pooling(0, 12),
        Pooling(1, -12),
        Entry(1, 50),
        Upper(0),
        Lower(0),
    ],
    &[Exit(2, -44), Upper(10), Lower(-10)],
    &[Entry(0, 1000), Entry(2, 500), Upper(700), Lower(-700)],
];
