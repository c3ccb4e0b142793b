// The cases of an hour, and of its preview. The numbers of a call stand in one list, its sheet, with 300 places for each kind of number, of which most kinds use the first alone. A case
// changes some numbers of the usual call: a change is a kind, with a place added to it, and the number that stands there. Kinds are places and no enum, since a place is added: `TABLE + 128`.
use ranges::limits::{Entry, Exit, Kind, Pooling, Position, Price, Threshold, Title};

pub type Changes = &'static [(usize, i64)];

pub const USERS: usize = 300;

pub const LENGTH: usize = 600;

pub const H_HOURS: usize = 900;

// 1 if the zone is closed.
pub const H_CLOSED: usize = 1200;

pub const L_HOURS: usize = 1500;

pub const L_CLOSED: usize = 1800;

pub const ZONE: usize = 2100;

pub const HOUR: usize = 2400;

pub const UPPER: usize = 2700;

pub const LOWER: usize = 3000;

pub const EXCESS_PRICE: usize = 3300;

pub const SHORTFALL_PRICE: usize = 3600;

// The places of the table.
pub const TABLE_SIZE: usize = 3900;

// The places of every list; 0: as many as users.
pub const LISTS_SIZE: usize = 4200;

// Those of one list, by its number among the call's lists: entry, exit, title, pooling, quantity, money, scratch, and a preview's positions after.
pub const LIST_SIZE: usize = 4500;

pub const TABLE: usize = 4800;

pub const ENTRY: usize = 5100;

pub const EXIT: usize = 5400;

pub const TITLE: usize = 5700;

pub const POOLING: usize = 6000;

// The places of a sheet.
pub const SHEET: usize = 6300;

// What a change of each kind is called, from the first kind on.
pub const KINDS: [u8; 200] =
    *b"|, users |, length |, H |, H closed |, L |, L closed |, zone |, hour |, upper |, lower |, excess price |, shortfall price |, table of |, lists of |, size |, table |, entry |, exit |, title |, pooling ";

const POSITION: i64 = Position::MOST;

const THRESHOLD: i64 = Threshold::UPPER_MOST;

const PRICE: i64 = Price::MOST;

const POOLED: i64 = Pooling::MOST;

// Hour 2 of H, three users with 18, 14 and 28 before settlement, the widest thresholds; a day of 24 hours, one of H and two of L done.
pub const RECORD: Changes = &[(USERS, 3), (LENGTH, 24), (H_HOURS, 1), (L_HOURS, 2)];

pub const PRICES: Changes = &[(EXCESS_PRICE, 20_000), (SHORTFALL_PRICE, 25_000)];

pub const TERMS: Changes = &[(HOUR, 2), (UPPER, THRESHOLD), (LOWER, -THRESHOLD)];

pub const POSITIONS: Changes = &[(TABLE_SIZE, 256), (TABLE, 5), (TABLE + 128, -3)];

pub const ENTRIES: Changes = &[(ENTRY, 10), (ENTRY + 1, 14), (ENTRY + 2, 28)];

pub const OTHERS: Changes = &[(EXIT, -1), (TITLE, 4)];

// One change: the kind, and the numbers that it is given in turn.
pub const ALONE: [(usize, &[i64]); 42] = [
    // 2 and 3: the record, and the places of the table, of all lists and of each list
    (USERS, &[-1, 0, 1, 128, 129]),
    (LENGTH, &[22, 23, 24, 25, 26]),
    (LENGTH, &[0, i64::MAX, i64::MIN]),
    (H_HOURS, &[-1, 25, 0]),
    (L_HOURS, &[-1, 25, 24, 0]),
    (TABLE_SIZE, &[0, 255, 257]),
    (LISTS_SIZE, &[2, 4]),
    (LIST_SIZE, &[2, 4]),
    (LIST_SIZE + 1, &[2, 4]),
    (LIST_SIZE + 2, &[2, 4]),
    (LIST_SIZE + 3, &[2, 4]),
    (LIST_SIZE + 4, &[2, 4]),
    (LIST_SIZE + 5, &[2, 4]),
    (LIST_SIZE + 6, &[2, 4]),
    // 4: zones
    (ZONE, &[-1]),
    // 7: positions at and beyond their limits, places at and beyond the users
    (TABLE, &[POSITION + 1, -POSITION - 1]),
    (TABLE + 2, &[1, i64::MAX]),
    (TABLE + 3, &[1]),
    (TABLE + 127, &[-1]),
    (TABLE + 128, &[i64::MIN]),
    (TABLE + 130, &[1, POSITION, -POSITION]),
    (TABLE + 130, &[POSITION + 1, -POSITION - 1]),
    (TABLE + 131, &[1]),
    (TABLE + 255, &[-1]),
    (TABLE + 256, &[1]),
    // 8: thresholds, with the market at 60, and prices
    (UPPER, &[0, -1, 60, 59, THRESHOLD]),
    (UPPER, &[THRESHOLD + 1, i64::MAX]),
    (LOWER, &[0, 1, -THRESHOLD, -THRESHOLD - 1, i64::MIN]),
    (EXCESS_PRICE, &[PRICE + 1, -PRICE - 1, i64::MIN]),
    (SHORTFALL_PRICE, &[PRICE + 1, -PRICE - 1, i64::MAX]),
    // 9: amounts
    (ENTRY, &[0, -1, Entry::MOST, Entry::MOST + 1]),
    (ENTRY + 1, &[i64::MAX, i64::MIN]),
    (ENTRY + 2, &[-1]),
    (EXIT, &[0, 1, Exit::LEAST, Exit::LEAST - 1]),
    (EXIT + 1, &[i64::MAX, i64::MIN]),
    (EXIT + 2, &[1]),
    (TITLE, &[Title::MOST, Title::LEAST]),
    (TITLE, &[Title::MOST + 1, Title::LEAST - 1]),
    (TITLE + 1, &[i64::MAX, i64::MIN]),
    (TITLE + 2, &[Title::MOST + 1]),
    // 10: one pooling amount
    (POOLING, &[1]),
    (POOLING + 1, &[-1]),
];

// Several changes at once. With an exit of -14 what is added to user 0's place is 0; with one of -19 its position is what it pools.
pub const EARLY: [Changes; 37] = [
    // 2: hours and closed zones of the record
    &[(H_HOURS, 23), (H_CLOSED, 1)],
    &[(L_HOURS, 23), (L_CLOSED, 1)],
    &[(L_HOURS, 0), (L_CLOSED, 1)],
    &[(USERS, 0), (TABLE_SIZE, 255)],
    // 3: the table, all lists, and each list
    &[(TABLE_SIZE, 255), (ZONE, 2)],
    // 4: zones
    &[(ZONE, 1), (HOUR, 3)],
    &[(ZONE, 2), (HOUR, 3)],
    &[(ZONE, 2), (HOUR, 0)],
    // 5: closed zones
    &[(H_HOURS, 24), (H_CLOSED, 1), (HOUR, 25), (TABLE, 0)],
    &[(H_HOURS, 24), (H_CLOSED, 1), (HOUR, 0), (TABLE, 0)],
    &[(L_HOURS, 24), (L_CLOSED, 1), (ZONE, 1), (HOUR, 25)],
    // 6: hours
    &[(H_HOURS, 0), (HOUR, 0), (TABLE, 0)],
    &[(H_HOURS, 0), (HOUR, 1), (TABLE, 0)],
    &[(H_HOURS, 0), (HOUR, 2), (TABLE, 0)],
    &[(H_HOURS, 0), (HOUR, -1), (TABLE, 0)],
    &[(H_HOURS, 1), (HOUR, 1), (TABLE, 0)],
    &[(H_HOURS, 1), (HOUR, 3), (TABLE, 0)],
    &[(H_HOURS, 23), (HOUR, 23), (TABLE, 0)],
    &[(H_HOURS, 23), (HOUR, 24), (TABLE, 0)],
    &[(H_HOURS, 23), (HOUR, 25), (TABLE, 0)],
    &[(H_HOURS, 24), (HOUR, 24), (TABLE, 0)],
    &[(H_HOURS, 24), (HOUR, 25), (TABLE, 0)],
    &[(H_HOURS, 0), (HOUR, i64::MIN), (TABLE, 0)],
    &[(H_HOURS, 24), (HOUR, i64::MAX), (TABLE, 0)],
    // 7: positions at and beyond their limits
    &[(TABLE, POSITION), (EXIT, -14), (UPPER, 1000)],
    &[(TABLE, -POSITION), (LOWER, -1000)],
    // 7: places at and beyond the users
    &[(USERS, 128), (TABLE + 127, -1)],
    &[(USERS, 128), (TABLE + 255, 1)],
    &[(USERS, 128), (TABLE + 127, POSITION + 1)],
    &[(USERS, 128), (TABLE + 255, -POSITION - 1)],
    // 7: zones with no hours, and closed zones
    &[(H_HOURS, 0), (HOUR, 1)],
    &[(L_HOURS, 0), (TABLE + 128, 0)],
    &[(L_HOURS, 24), (L_CLOSED, 1)],
    &[(L_HOURS, 24), (L_CLOSED, 1), (TABLE + 128, 0)],
    &[(H_HOURS, 24), (H_CLOSED, 1), (ZONE, 1), (HOUR, 3)],
    &[(H_HOURS, 0), (ZONE, 1), (HOUR, 3)],
    &[(TABLE + 3, 1), (UPPER, -1)],
];

pub const LATE: [Changes; 30] = [
    // 8: prices, in an excess of 60 and in a shortfall of 939
    &[(EXCESS_PRICE, PRICE), (UPPER, 0)],
    &[(EXCESS_PRICE, -PRICE), (UPPER, 0)],
    &[(SHORTFALL_PRICE, PRICE), (LOWER, 0), (EXIT, -1000)],
    &[(SHORTFALL_PRICE, -PRICE), (LOWER, 0), (EXIT, -1000)],
    // 9: an amount of the last of 128 users
    &[(USERS, 128), (ENTRY + 127, Entry::MOST + 1)],
    &[(USERS, 128), (EXIT + 127, Exit::LEAST - 1)],
    &[(USERS, 128), (TITLE + 127, Title::LEAST - 1)],
    // 9 and 10: pooling; with an exit of -19 the rest of user 0's position is 0, and that of user 1 is 14
    &[(POOLING, POOLED), (POOLING + 1, -POOLED), (EXIT, -19)],
    &[
        (POOLING, -POOLED),
        (POOLING + 1, POOLED - 14),
        (POOLING + 2, 14),
        (EXIT, -19),
    ],
    &[(POOLING, POOLED + 1), (POOLING + 1, -POOLED - 1)],
    &[(POOLING, -POOLED - 1), (POOLING + 1, POOLED + 1)],
    &[(USERS, 128), (POOLING + 127, POOLED + 1)],
    &[(POOLING, i64::MAX), (POOLING + 1, -1)],
    &[(POOLING, i64::MIN), (POOLING + 1, 1)],
    &[(POOLING, 1), (POOLING + 1, -1), (EXIT, -19)],
    &[(USERS, 128), (POOLING + 127, 1)],
    &[(POOLING, POOLED), (TITLE, 50)],
    &[(POOLING, 1), (ENTRY, Entry::MOST + 1)],
    // 11: positions before settlement; user 0's entry and title add to 14
    &[(TABLE, POSITION), (EXIT, -14)],
    &[(TABLE, POSITION), (EXIT, -13)],
    &[(TABLE, 1 - POSITION), (EXIT, -15)],
    &[(TABLE, 1 - POSITION), (EXIT, -16)],
    &[(TABLE, POSITION), (POOLING, POOLED), (POOLING + 1, -POOLED)],
    &[(USERS, 128), (TABLE + 127, POSITION), (ENTRY + 127, 1)],
    &[(USERS, 128), (TABLE + 127, POSITION - 1), (ENTRY + 127, 1)],
    &[(ZONE, 1), (HOUR, 3), (TABLE + 128, -POSITION), (EXIT, -15)],
    // the causers' marks
    &[(USERS, 128), (UPPER, 0), (ENTRY + 127, 1)],
    &[(USERS, 128), (LOWER, 0), (EXIT + 127, -61)],
    &[(USERS, 128), (UPPER, 0), (LOWER, 0), (EXIT + 127, -60)],
    &[(USERS, 128), (LOWER, 0), (EXIT + 63, -60), (EXIT + 64, -40)],
];

// Days of 23, 24 and 25 hours.
pub const LENGTHS: [Changes; 38] = [
    // 6 after the last hour, and 2 for a record with more: hours 23 to 26 of either zone, each with one hour fewer done
    &[(LENGTH, 23), (H_HOURS, 22), (HOUR, 23)],
    &[(LENGTH, 23), (H_HOURS, 23), (HOUR, 24)],
    &[(LENGTH, 23), (H_HOURS, 24), (HOUR, 25)],
    &[(LENGTH, 23), (H_HOURS, 25), (HOUR, 26)],
    &[(LENGTH, 24), (H_HOURS, 22), (HOUR, 23)],
    &[(LENGTH, 24), (H_HOURS, 23), (HOUR, 24)],
    &[(LENGTH, 24), (H_HOURS, 24), (HOUR, 25)],
    &[(LENGTH, 24), (H_HOURS, 25), (HOUR, 26)],
    &[(LENGTH, 25), (H_HOURS, 22), (HOUR, 23)],
    &[(LENGTH, 25), (H_HOURS, 23), (HOUR, 24)],
    &[(LENGTH, 25), (H_HOURS, 24), (HOUR, 25)],
    &[(LENGTH, 25), (H_HOURS, 25), (HOUR, 26)],
    &[(LENGTH, 23), (L_HOURS, 22), (ZONE, 1), (HOUR, 23)],
    &[(LENGTH, 23), (L_HOURS, 23), (ZONE, 1), (HOUR, 24)],
    &[(LENGTH, 23), (L_HOURS, 24), (ZONE, 1), (HOUR, 25)],
    &[(LENGTH, 23), (L_HOURS, 25), (ZONE, 1), (HOUR, 26)],
    &[(LENGTH, 24), (L_HOURS, 22), (ZONE, 1), (HOUR, 23)],
    &[(LENGTH, 24), (L_HOURS, 23), (ZONE, 1), (HOUR, 24)],
    &[(LENGTH, 24), (L_HOURS, 24), (ZONE, 1), (HOUR, 25)],
    &[(LENGTH, 24), (L_HOURS, 25), (ZONE, 1), (HOUR, 26)],
    &[(LENGTH, 25), (L_HOURS, 22), (ZONE, 1), (HOUR, 23)],
    &[(LENGTH, 25), (L_HOURS, 23), (ZONE, 1), (HOUR, 24)],
    &[(LENGTH, 25), (L_HOURS, 24), (ZONE, 1), (HOUR, 25)],
    &[(LENGTH, 25), (L_HOURS, 25), (ZONE, 1), (HOUR, 26)],
    // a last hour that is settled
    &[(LENGTH, 23), (H_HOURS, 22), (HOUR, 23), (UPPER, 0)],
    &[(LENGTH, 25), (H_HOURS, 24), (HOUR, 25), (UPPER, 0)],
    // 2: the hours of the other zone, and a zone closed after the last hour or before it
    &[(LENGTH, 23), (L_HOURS, 23)],
    &[(LENGTH, 23), (L_HOURS, 24)],
    &[(LENGTH, 25), (L_HOURS, 25)],
    &[(LENGTH, 25), (L_HOURS, 26)],
    &[(LENGTH, 23), (L_HOURS, 23), (L_CLOSED, 1), (TABLE + 128, 0)],
    &[(LENGTH, 23), (L_HOURS, 22), (L_CLOSED, 1), (TABLE + 128, 0)],
    &[(LENGTH, 25), (L_HOURS, 25), (L_CLOSED, 1), (TABLE + 128, 0)],
    &[(LENGTH, 25), (L_HOURS, 24), (L_CLOSED, 1), (TABLE + 128, 0)],
    &[(LENGTH, 25), (H_HOURS, 24), (H_CLOSED, 1), (TABLE, 0)],
    // 2 before 3, and with hours that this length would have
    &[(LENGTH, 22), (TABLE_SIZE, 255)],
    &[(LENGTH, 22), (H_HOURS, 21), (HOUR, 22)],
    &[(LENGTH, 26), (H_HOURS, 25), (HOUR, 26)],
];

// A preview's list of positions after: shorter and longer than there are users, and against the causes before and after 3.
pub const AFTERS: [Changes; 8] = [
    &[(LIST_SIZE + 7, 2)],
    &[(LIST_SIZE + 7, 4)],
    &[(LIST_SIZE + 7, 1), (USERS, 128)],
    &[(LIST_SIZE + 7, 129), (USERS, 128)],
    &[(LIST_SIZE + 7, 2), (LENGTH, 22)],
    &[(LIST_SIZE + 7, 2), (USERS, 0)],
    &[(LIST_SIZE + 7, 2), (ZONE, 2)],
    &[(LIST_SIZE + 7, 4), (H_HOURS, 24), (H_CLOSED, 1), (TABLE, 0)],
];
