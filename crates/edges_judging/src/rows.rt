// The cases of the judge: what each changes of the usual call, and the quantities that are judged over the changes.
use super::call::Change::*;
use super::call::{Change, Changes};
use ranges::limits::{self, Kind, Position, Price, Threshold};
use rules::Day;

// An hour: the lists of changes that make it of the usual one.
pub type Parts = &'static [Changes];

// An hour, and for each call the quantities of the first users. The others have what the changes say, else 0.
pub type Judged = (Parts, &'static [&'static [i64]]);

const USERS: i64 = Day::USERS_MOST;

const POSITION: i64 = Position::MOST;

const THRESHOLD: i64 = Threshold::UPPER_MOST;

const PRICE: i64 = Price::MOST;

const ENTRY: i64 = limits::Entry::MOST;

const EXIT: i64 = limits::Exit::LEAST;

const TITLE: i64 = limits::Title::MOST;

const POOLED: i64 = limits::Pooling::MOST;

// A quarter of 2 ^ 64, to tell sums and products that wrap at 64 bits: added to a quantity it leaves a wrapped product with a sum that four divides as it was, and added to four quantities
// their wrapped sum.
const QUARTER: i64 = 1 << 62;

// ---- the hours

// Hour 2 of H, three users with 18, 14 and 28 before settlement, the widest thresholds, no quantities; a day of 24 hours, one of H and two of L done. In hour 3 of L they have 10, 14 and 28.
pub const USUAL: Changes = &[
    Users(3),
    Length(Day::LENGTH_USUAL),
    HHours(1),
    LHours(2),
    Hour(2),
    Upper(THRESHOLD),
    Lower(-THRESHOLD),
    ExcessPrice(20_000),
    ShortfallPrice(25_000),
    TableSize(256),
    Table(0, 5),
    Table(128, -3),
    Entry(0, 10),
    Entry(1, 14),
    Entry(2, 28),
    Exit(0, -1),
    Title(0, 4),
];

// Positions 18, 14, 28, 0, -2 and an excess of 50: exact shares 15, 11 2/3, 23 1/3.
const EXCESS: Parts = &[&[Users(5), Table(4, -2), Upper(8)]];

// The negations.
const SHORTFALL: Parts = &[NEGATIVE, &[Users(5), Table(4, 2), Lower(-8)]];

// In L positions 10, 14, 28 and an excess of 50: exact shares 9 8/13, 13 6/13, 26 12/13.
const EXCESS_IN_L: Parts = &[&[Zone(1), Hour(3), Upper(2)]];

// The negations.
const SHORTFALL_IN_L: Parts = &[NEGATIVE, &[Zone(1), Hour(3), Table(128, 13), Lower(-2)]];

// Positions 1, 1, 1: an excess of 2 has exact shares of 2/3, one of 1 of 1/3.
const ONES: Changes = &[Exit(0, -18), Exit(1, -13), Exit(2, -27)];

// Positions -18, -14, -28.
const NEGATIVE: Changes = &[Exit(0, -37), Exit(1, -28), Exit(2, -56)];

// All users at the largest position: the largest sums and products.
const LARGEST: Changes = &[
    Users(USERS),
    Table(0, 0),
    Exit(0, 0),
    EachEntry(ENTRY),
    EachTitle(TITLE),
];

// All at the least.
const LEAST: Changes = &[
    Users(USERS),
    Table(0, 0),
    EachEntry(0),
    EachExit(EXIT),
    EachTitle(-TITLE),
];

// The exact share of each of them with the widest thresholds.
const WHOLE: i64 = POSITION - THRESHOLD / USERS;

// ---- causes 2 to 11

pub const ALONE: [Change; 58] = [
    // 2: users, the day's length, the hours of either zone, zones closed early
    Users(0),
    Users(1),
    Users(USERS),
    Users(USERS + 1),
    Length(22),
    Length(23),
    Length(25),
    Length(26),
    HHours(25),
    LHours(-1),
    LHours(24),
    LHours(25),
    HClosed,
    LClosed,
    // 3: the table, the four lists of amounts, the quantities
    TableSize(255),
    TableSize(257),
    EntrySize(2),
    EntrySize(4),
    ExitSize(2),
    ExitSize(4),
    TitleSize(2),
    TitleSize(4),
    PoolingSize(2),
    PoolingSize(4),
    QuantitySize(2),
    QuantitySize(4),
    // 4: zones
    Zone(-1),
    Zone(2),
    // 6: hours
    Hour(1),
    Hour(3),
    // 7: positions at and beyond their limits, places beyond the users, a zone with no hours
    Table(0, POSITION + 1),
    Table(130, POSITION),
    Table(130, -POSITION - 1),
    Table(3, 1),
    Table(255, -1),
    LHours(0),
    // 8: thresholds and prices
    Upper(-1),
    Upper(THRESHOLD + 1),
    Lower(1),
    Lower(0),
    Lower(-THRESHOLD - 1),
    ExcessPrice(PRICE),
    ExcessPrice(PRICE + 1),
    ShortfallPrice(-PRICE),
    ShortfallPrice(-PRICE - 1),
    // 9: amounts
    Entry(0, ENTRY),
    Entry(0, ENTRY + 1),
    Entry(2, -1),
    Exit(0, EXIT),
    Exit(0, EXIT - 1),
    Exit(2, 1),
    Title(0, TITLE),
    Title(0, TITLE + 1),
    Title(0, -TITLE),
    Title(0, -TITLE - 1),
    Pooling(2, POOLED + 1),
    // 10: one pooling amount
    Pooling(0, 1),
    Pooling(2, -1),
];

pub const TOGETHER: [Changes; 31] = [
    // 2: a closed zone; before 3
    &[LHours(24), LClosed, Table(128, 0)],
    &[Users(0), TableSize(255)],
    &[Length(26), QuantitySize(2)],
    // 3: the quantities of other numbers of users; before 4
    &[Users(USERS), QuantitySize(USERS - 1)],
    &[Users(USERS), QuantitySize(USERS + 1)],
    &[Users(1), QuantitySize(0)],
    &[QuantitySize(4), Zone(2)],
    // 4 and 5: the other zone, closed zones
    &[Zone(1), Hour(3)],
    &[HHours(24), HClosed, Hour(25), Table(0, 0)],
    &[Zone(1), LHours(24), LClosed, Hour(25), Table(128, 0)],
    // 6: the first hour, and the last
    &[HHours(0), Hour(1), Table(0, 0)],
    &[HHours(24), Hour(25)],
    &[Length(25), HHours(24), Hour(25)],
    // 7: a zone with no hours; the last place of the users
    &[HHours(0), Hour(1)],
    &[Users(USERS), Table(127, POSITION)],
    // 9: with an exit of -19 user 0's position is what it pools
    &[Pooling(0, POOLED), Pooling(1, -POOLED), Exit(0, -19)],
    &[Pooling(0, POOLED + 1), Pooling(1, -POOLED - 1)],
    &[Users(USERS), Entry(127, ENTRY + 1)],
    // 10: the last user
    &[Users(USERS), Pooling(127, 1)],
    // 11: with an exit of -14 user 0's position is its place
    &[Table(0, POSITION), Exit(0, -14)],
    &[Table(0, POSITION), Exit(0, -13)],
    &[Table(0, -POSITION), Exit(0, -14)],
    &[Table(0, -POSITION), Exit(0, -15)],
    &[Zone(1), Hour(3), Table(128, -POSITION), Exit(0, -14)],
    &[Zone(1), Hour(3), Table(128, -POSITION), Exit(0, -15)],
    // before 22, with quantities that nobody may have
    &[Users(0), EachQuantity(i64::MIN)],
    &[QuantitySize(4), EachQuantity(1)],
    &[Zone(2), EachQuantity(-1)],
    &[Upper(-1), EachQuantity(i64::MAX)],
    &[Pooling(0, 1), EachQuantity(i64::MAX)],
    &[Table(0, POSITION), Exit(0, -13), EachQuantity(1)],
];

// ---- causes 22 to 24

pub const FEW_USERS: [Judged; 18] = [
    // within the thresholds: by far, at either, and with positions that add to zero
    (
        &[],
        &[
            &[0, 0, 0],
            &[1, 0, 0],
            &[0, 0, -1],
            &[1, -1, 0],
            &[i64::MAX, 0, 0],
            &[0, 0, i64::MIN],
        ],
    ),
    (&[&[Zone(1), Hour(3)]], &[&[1, 0, 0], &[0, 0, -1]]),
    (&[&[Upper(60)]], &[&[0, 0, 0], &[1, 0, 0], &[0, 0, -1]]),
    (
        &[NEGATIVE, &[Lower(-60)]],
        &[&[0, 0, 0], &[1, 0, 0], &[0, 0, -1]],
    ),
    (
        &[&[Exit(0, -61), Upper(0), Lower(0)]],
        &[&[0, 0, 0], &[0, 0, 1], &[-1, 0, 1]],
    ),
    // 1 kWh beyond a threshold: exact shares below 1
    (
        &[&[Upper(59)]],
        &[
            &[0, 0, 1],
            &[0, 1, 0],
            &[1, 0, 0],
            &[0, 0, 0],
            &[1, 0, 1],
            &[0, 0, 2],
            &[0, -1, 2],
            &[1, -1, 1],
        ],
    ),
    (
        &[NEGATIVE, &[Lower(-59)]],
        &[
            &[0, 0, -1],
            &[-1, 0, 0],
            &[0, 0, 0],
            &[0, -2, 0],
            &[0, 0, 1],
        ],
    ),
    // an excess
    (
        EXCESS,
        &[
            // our rounding, and another
            &[15, 12, 23, 0, 0],
            &[15, 11, 24, 0, 0],
            // 1 kWh off a whole share, with the right sum
            &[16, 11, 23, 0, 0],
            &[14, 12, 24, 0, 0],
            // more than 1 kWh off the other shares
            &[15, 13, 22, 0, 0],
            &[15, 10, 25, 0, 0],
            // sums that are 1 less and 1 more
            &[15, 11, 23, 0, 0],
            &[15, 12, 24, 0, 0],
            // causers with none, and with the wrong sign
            &[0, 0, 0, 0, 0],
            &[0, 12, 23, 0, 0],
            &[-1, 12, 23, 0, 0],
            &[15, 12, -1, 0, 0],
            &[-15, -12, -23, 0, 0],
            // users at 0 and at -2, with the right sum
            &[15, 12, 22, 1, 0],
            &[15, 12, 24, -1, 0],
            &[15, 12, 22, 0, 1],
            &[15, 12, 24, 0, -1],
            // 22 before 23, and 23 before 24
            &[17, 12, 23, 0, -2],
            &[15, 12, 25, 0, 0],
            // a whole position, and 1 kWh more than one
            &[18, 12, 20, 0, 0],
            &[19, 12, 19, 0, 0],
            // sums and products that leave 64 bits
            &[i64::MAX, 12, 23, 0, 0],
            &[i64::MIN, 12, 23, 0, 0],
            &[15, 12, 23, i64::MAX, 0],
            &[15, 12, 23, i64::MIN, 0],
            &[15, 12, 23, 0, i64::MAX],
            &[15, 12, 23, 0, i64::MIN],
            &[15 + QUARTER, 12, 23, 0, 0],
        ],
    ),
    (
        EXCESS_IN_L,
        &[
            &[10, 13, 27],
            &[9, 14, 27],
            &[10, 14, 26],
            &[9, 13, 28],
            &[11, 13, 26],
            &[9, 13, 27],
            &[10, 14, 27],
            &[10, 13, 28],
            &[12, 13, -1],
        ],
    ),
    // a shortfall
    (
        SHORTFALL,
        &[
            &[-15, -12, -23, 0, 0],
            &[-15, -11, -24, 0, 0],
            &[-16, -11, -23, 0, 0],
            &[-14, -12, -24, 0, 0],
            &[-15, -13, -22, 0, 0],
            &[-15, -11, -23, 0, 0],
            &[-15, -12, -24, 0, 0],
            &[0, -12, -23, 0, 0],
            &[1, -12, -23, 0, 0],
            &[15, 12, 23, 0, 0],
            &[-15, -12, -22, -1, 0],
            &[-15, -12, -24, 1, 0],
            &[-15, -12, -22, 0, -1],
            &[-15, -12, -24, 0, 1],
            &[-17, -12, -23, 0, 2],
            &[-15, -12, -25, 0, 0],
            &[i64::MIN, -12, -23, 0, 0],
            &[i64::MAX, -12, -23, 0, 0],
            &[-15, -12, -23, i64::MIN, 0],
            &[-15, -12, -23, 0, i64::MAX],
            &[-15 - QUARTER, -12, -23, 0, 0],
        ],
    ),
    (
        SHORTFALL_IN_L,
        &[
            &[-10, -13, -27],
            &[-9, -14, -27],
            &[-10, -14, -26],
            &[-9, -13, -28],
            &[-9, -13, -27],
            &[-10, -14, -27],
            &[-10, -13, -28],
            &[-12, -13, 1],
        ],
    ),
    // whole shares: 9, 7 and 14; every position; 1, 1 and 1
    (
        &[&[Upper(30)]],
        &[
            &[9, 7, 14],
            &[10, 6, 14],
            &[9, 8, 13],
            &[9, 7, 15],
            &[8, 7, 14],
        ],
    ),
    (
        &[&[Upper(0)]],
        &[&[18, 14, 28], &[18, 14, 27], &[17, 14, 29]],
    ),
    (
        &[ONES, &[Upper(0)]],
        &[&[1, 1, 1], &[0, 1, 1], &[0, 1, 2], &[0, 0, 0]],
    ),
    // exact shares of 2/3, and of 1/3
    (
        &[ONES, &[Upper(1)]],
        &[
            &[1, 1, 0],
            &[1, 0, 1],
            &[0, 1, 1],
            &[1, 1, 1],
            &[0, 0, 1],
            &[0, 0, 0],
            &[2, 0, 0],
            &[1, 2, -1],
        ],
    ),
    (
        &[ONES, &[Upper(2)]],
        &[&[1, 0, 0], &[0, 0, 1], &[1, 1, 0], &[0, 0, 0], &[1, 1, -1]],
    ),
    // positions 5 and -2: an excess of 3, the whole of it user 0's
    (
        &[&[Users(2), Exit(0, -14), Exit(1, -16), Upper(0)]],
        &[&[3, 0], &[4, -1], &[2, 1], &[5, -2], &[2, 0], &[4, 0]],
    ),
    // one user, whose whole share is 1
    (&[&[Users(1), Upper(17)]], &[&[1], &[0], &[2]]),
];

pub const ALL_USERS: [Judged; 17] = [
    // all positions settled: whole shares
    (
        &[LARGEST, &[Upper(0), EachQuantity(POSITION)]],
        &[
            &[],
            &[POSITION + 1],
            &[POSITION - 1],
            &[0],
            &[-1],
            &[i64::MAX],
            &[i64::MIN],
            &[
                POSITION + QUARTER,
                POSITION + QUARTER,
                POSITION + QUARTER,
                POSITION + QUARTER,
            ],
        ],
    ),
    (
        &[
            LARGEST,
            &[
                Upper(0),
                EachQuantity(POSITION),
                Quantity(127, POSITION + 1),
            ],
        ],
        &[&[]],
    ),
    (
        &[
            LARGEST,
            &[Upper(0), EachQuantity(POSITION), Quantity(127, -1)],
        ],
        &[&[POSITION + 1]],
    ),
    (&[LARGEST, &[Upper(0), EachQuantity(i64::MAX)]], &[&[]]),
    (&[LARGEST, &[Upper(0), EachQuantity(i64::MIN)]], &[&[]]),
    // 1 kWh is left
    (
        &[LARGEST, &[Upper(1), EachQuantity(POSITION)]],
        &[
            &[],
            &[POSITION - 1],
            &[POSITION - 1, POSITION - 1],
            &[POSITION - 2],
            &[POSITION + 1],
        ],
    ),
    (
        &[
            LARGEST,
            &[
                Upper(1),
                EachQuantity(POSITION),
                Quantity(127, POSITION - 1),
            ],
        ],
        &[&[], &[POSITION - 1]],
    ),
    // beyond the widest threshold
    (
        &[LARGEST, &[EachQuantity(WHOLE)]],
        &[&[], &[WHOLE + 1, WHOLE - 1]],
    ),
    (
        &[
            LARGEST,
            &[
                Zone(1),
                Hour(3),
                Table(128, 0),
                Upper(0),
                EachQuantity(POSITION),
            ],
        ],
        &[&[], &[POSITION + 1]],
    ),
    // the same in a shortfall
    (
        &[LEAST, &[Lower(0), EachQuantity(-POSITION)]],
        &[
            &[],
            &[-POSITION - 1],
            &[1 - POSITION],
            &[0],
            &[1],
            &[i64::MIN],
            &[i64::MAX],
            &[
                -POSITION - QUARTER,
                -POSITION - QUARTER,
                -POSITION - QUARTER,
                -POSITION - QUARTER,
            ],
        ],
    ),
    (
        &[
            LEAST,
            &[
                Lower(0),
                EachQuantity(-POSITION),
                Quantity(127, -POSITION - 1),
            ],
        ],
        &[&[]],
    ),
    (&[LEAST, &[Lower(0), EachQuantity(i64::MIN)]], &[&[]]),
    (&[LEAST, &[Lower(0), EachQuantity(i64::MAX)]], &[&[]]),
    (
        &[LEAST, &[Lower(-1), EachQuantity(-POSITION)]],
        &[
            &[],
            &[1 - POSITION],
            &[1 - POSITION, 1 - POSITION],
            &[2 - POSITION],
            &[-POSITION - 1],
        ],
    ),
    (
        &[
            LEAST,
            &[
                Lower(-1),
                EachQuantity(-POSITION),
                Quantity(127, 1 - POSITION),
            ],
        ],
        &[&[], &[1 - POSITION]],
    ),
    (
        &[LEAST, &[EachQuantity(-WHOLE)]],
        &[&[], &[-WHOLE - 1, 1 - WHOLE]],
    ),
    (
        &[
            LEAST,
            &[
                Zone(1),
                Hour(3),
                Table(128, 0),
                Lower(0),
                EachQuantity(-POSITION),
            ],
        ],
        &[&[], &[-POSITION - 1]],
    ),
];

// ---- judged, then settled and judged again

pub const SETTLED: [Parts; 8] = [
    &[],
    EXCESS,
    EXCESS_IN_L,
    SHORTFALL,
    SHORTFALL_IN_L,
    &[ONES, &[Upper(1)]],
    &[LARGEST, &[Upper(1)]],
    &[LEAST, &[Lower(-1)]],
];
