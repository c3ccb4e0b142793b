// The cases of writing an hour's file, each a row of twelve numbers: hour, zone, users; the places of the four lists (entry, exit, title, pooling); the amount at the first
// place of each list, with 1 more at each place after it; the lent bytes.

// A case stays a row of numbers: it is printed as it stands.
pub type Row = [i64; 12];

// What the numbers are called.
pub const NAMES: [u8; 64] = *b"hour |, zone |, users |, lists | | | |, amounts | | | |, bytes |";

// The largest number of nine digits, and the next.
const NINES: i64 = 999_999_999;

const MORE: i64 = NINES + 1;

const MOST: i64 = i64::MAX;

const LEAST: i64 = i64::MIN;

// 1, if it is cut to 32 bits.
const CUT: i64 = 4_294_967_297;

// One user, and far more bytes than the 42 of its file.
pub const USUAL: Row = [1, 0, 1, 1, 1, 1, 1, 1, -2, 3, -4, 8192];

// One change of the usual row: for each column the numbers that it has in turn.
pub const CHANGES: [[i64; 6]; 12] = [
    // hour, zone, users
    [0, NINES, MORE, -1, MOST, LEAST],
    [1, 2, CUT, -1, MOST, LEAST],
    [0, 2, CUT, -1, MOST, LEAST],
    // the lists' places
    [0, 2, 3, 128, 129, 130],
    [0, 2, 3, 128, 129, 130],
    [0, 2, 3, 128, 129, 130],
    [0, 2, 3, 128, 129, 130],
    // their amounts
    [NINES, MORE, -NINES, -MORE, MOST, LEAST],
    [NINES, MORE, -NINES, -MORE, MOST, LEAST],
    [NINES, MORE, -NINES, -MORE, MOST, LEAST],
    [NINES, MORE, -NINES, -MORE, MOST, LEAST],
    // the bytes: as many as the file has, one too few, one more; the header's, one, none
    [42, 41, 43, 25, 1, 0],
];

// Several changes at once.
pub const ROWS: [Row; 47] = [
    // users with as many places: of one digit, of two and of three
    [1, 0, 2, 2, 2, 2, 2, 1, -2, 3, -4, 59],
    [1, 0, 10, 10, 10, 10, 10, 1, -2, 3, -4, 185],
    [1, 0, 10, 10, 10, 10, 10, 1, -2, 3, -4, 184],
    [1, 0, 11, 11, 11, 11, 11, 1, -2, 3, -4, 203],
    [1, 0, 11, 11, 11, 11, 11, 1, -2, 3, -4, 202],
    [1, 0, 100, 100, 100, 100, 100, 1, -2, 3, -4, 1983],
    [1, 0, 101, 101, 101, 101, 101, 1, -2, 3, -4, 2006],
    [1, 0, 101, 101, 101, 101, 101, 1, -2, 3, -4, 2005],
    [1, 0, 128, 128, 128, 128, 128, 1, -2, 3, -4, 2677],
    [1, 0, 129, 129, 129, 129, 129, 1, -2, 3, -4, 8192],
    [1, 0, 0, 0, 0, 0, 0, 1, -2, 3, -4, 8192],
    [1, 0, -1, 0, 0, 0, 0, 1, -2, 3, -4, 8192],
    [1, 0, LEAST, 0, 0, 0, 0, 1, -2, 3, -4, 8192],
    [1, 0, MOST, 130, 130, 130, 130, 1, -2, 3, -4, 8192],
    // all lists of another length
    [1, 0, 2, 1, 1, 1, 1, 1, -2, 3, -4, 8192],
    [1, 0, 2, 3, 3, 3, 3, 1, -2, 3, -4, 8192],
    // numbers of one digit and of nine, in as many bytes, and in one too few
    [1, 0, 1, 1, 1, 1, 1, 0, 0, 0, 0, 40],
    [1, 0, 1, 1, 1, 1, 1, -1, -1, -1, -1, 44],
    [NINES, 1, 1, 1, 1, 1, 1, 1, -2, 3, -4, 50],
    [NINES, 1, 1, 1, 1, 1, 1, 1, -2, 3, -4, 49],
    [0, 1, 1, 1, 1, 1, 1, NINES, -NINES, 0, -1, 58],
    [0, 1, 1, 1, 1, 1, 1, NINES, -NINES, 0, -1, 57],
    // one amount of more than nine digits: the last of its list, or the first
    [1, 0, 2, 2, 2, 2, 2, NINES, -2, 3, -4, 8192],
    [1, 0, 2, 2, 2, 2, 2, 1, NINES, 3, -4, 8192],
    [1, 0, 2, 2, 2, 2, 2, 1, -2, NINES, -4, 8192],
    [1, 0, 128, 128, 128, 128, 128, 1, -2, 3, NINES - 126, 8192],
    [1, 0, 128, 128, 128, 128, 128, 1, -2, 3, NINES - 127, 3559],
    [1, 0, 2, 2, 2, 2, 2, -MORE, -2, 3, -4, 8192],
    [1, 0, 2, 2, 2, 2, 2, 1, -MORE, 3, -4, 8192],
    [1, 0, 2, 2, 2, 2, 2, 1, -2, -MORE, -4, 8192],
    [1, 0, 2, 2, 2, 2, 2, 1, -2, 3, -MORE, 8192],
    // the longest file
    [
        NINES, 1, 128, 128, 128, 128, 128, -NINES, -NINES, -NINES, -NINES, 7723,
    ],
    [
        NINES, 1, 128, 128, 128, 128, 128, -NINES, -NINES, -NINES, -NINES, 7722,
    ],
    [
        NINES, 1, 128, 128, 128, 128, 128, -NINES, -NINES, -NINES, -NINES, 7724,
    ],
    // 18 and 19
    [-1, 0, 0, 0, 0, 0, 0, 1, -2, 3, -4, 8192],
    [1, 2, 1, 1, 1, 1, 1, MORE, -2, 3, -4, 8192],
    [MORE, 0, 2, 2, 2, 2, 1, 1, -2, 3, -4, 8192],
    // 18 and 20
    [1, 0, 129, 129, 129, 129, 129, 1, -2, 3, -4, 0],
    [1, -1, 1, 1, 1, 1, 1, 1, -2, 3, -4, 41],
    [1, 0, 2, 1, 2, 2, 2, 1, -2, 3, -4, 58],
    // 19 and 20
    [-1, 0, 1, 1, 1, 1, 1, 1, -2, 3, -4, 0],
    [MORE, 0, 1, 1, 1, 1, 1, 1, -2, 3, -4, 50],
    [1, 0, 1, 1, 1, 1, 1, 1, -2, 3, -MORE, 41],
    // all three
    [-1, 0, 0, 0, 0, 0, 0, 1, -2, 3, -4, 0],
    [-1, 2, 1, 1, 1, 1, 1, 1, -2, 3, -4, 41],
    [1, 0, 2, 2, 2, 1, 2, LEAST, -2, 3, -4, 0],
    [MOST, LEAST, LEAST, 0, 0, 0, 0, 1, -2, 3, -4, 0],
];
