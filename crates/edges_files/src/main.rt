// The edges of the reader of an hour's file that are too long to be computed in a proof: lists of other lengths, the longest files, the longest numbers; and amounts as they are
// spelled, in kWh and in MWh. Small files with their answers are computed in the crate `file_guarantees`. The file `stdout`, with which the lines are compared, has the answers of
// documents 01 and 02.

#![tactic(auto)]

use allocation_file::FileRead;
use allocation_row::{FileCause, Lists};
use checking::{all_are, at, lent, rest};
use integers::natural;
use printing::{Line, Text};
use std::io;

// The largest number of nine digits, and the least.
const NINES: i64 = 9 * 111_111_111;

const NINE: i64 = NINES / 10 + 1;

// The columns: the lines of the file, and 1 if the last ends in CR LF; what each says besides its place; the places of the four lists.
const NAMES: [u8; 73] =
    *b"file, lines |, ended |, hour |, zone |, amounts | | | |, lists of | | | |";

// A row stays a list of numbers: it is printed as it stands.
type Row = [i64; 12];

const ROWS: [Row; 15] = [
    [1, 1, 1, 0, 1, -2, 3, -4, 128, 128, 128, 128],
    [1, 1, 1, 0, 1, -2, 3, -4, 127, 128, 128, 128],
    [1, 1, 1, 0, 1, -2, 3, -4, 129, 128, 128, 128],
    [1, 1, 1, 0, 1, -2, 3, -4, 128, 127, 128, 128],
    [1, 1, 1, 0, 1, -2, 3, -4, 128, 129, 128, 128],
    [1, 1, 1, 0, 1, -2, 3, -4, 128, 128, 127, 128],
    [1, 1, 1, 0, 1, -2, 3, -4, 128, 128, 129, 128],
    [1, 1, 1, 0, 1, -2, 3, -4, 128, 128, 128, 127],
    [1, 1, 1, 0, 1, -2, 3, -4, 128, 128, 128, 129],
    [1, 1, 1, 0, NINES, -NINES, NINE, -NINE, 128, 128, 128, 128],
    [127, 1, 24, 1, 9, -8, 7, -6, 128, 128, 128, 128],
    [128, 1, 24, 1, 9, -8, 7, -6, 128, 128, 128, 128],
    [129, 1, 24, 1, 9, -8, 7, -6, 128, 128, 128, 128],
    [
        128, 1, NINES, 1, NINES, -NINES, NINE, -NINE, 128, 128, 128, 128,
    ],
    [
        128, 0, NINES, 1, NINES, -NINES, NINE, -NINE, 128, 128, 128, 128,
    ],
];

// What the four lists hold before a call.
const LENT_ENTRY: i64 = 81;

const LENT_EXIT: i64 = 82;

const LENT_TITLE: i64 = 83;

const LENT_POOLING: i64 = 84;

// ---- the file of a case; what does not fit is left out

type File = Text<8192>;

// The amounts of a line, each with its comma before it.
type Amounts = Text<64>;

// What each line of a file says besides its place.
#[derive(Clone, Copy)]
struct Content<'a> {
    hour: i64,
    zone: i64,
    amounts: &'a [u8],
}

// The header, without its CR LF: each line here begins with the end of the one before.
const HEADER: [u8; 23] = *b"h,z,g,EEA,XEA,NCTTN,IPT";

fn put_line(file: &mut File, place: usize, content: &Content) {
    file.say(b"\r\n");
    file.say_count(content.hour.unsigned_abs());
    file.say(if content.zone == 0 { b",H," } else { b",L," });
    file.say_count(place as u64);
    file.say(content.amounts);
}

// So many lines, the last of them ended or not.
fn file_of(lines: i64, ended: i64, content: &Content) -> File {
    let mut file = File::new();
    file.say(&HEADER);
    for place in 0..natural(lines) {
        put_line(&mut file, place, content);
    }
    if ended != 0 {
        file.say(b"\r\n");
    }
    file
}

// ---- the lists that are lent to the call, and a place more of each

#[derive(Drop)]
struct Area {
    entries: [i64; 129],
    exits: [i64; 129],
    titles: [i64; 129],
    poolings: [i64; 129],
}

impl Area {
    fn before() -> Self {
        Area {
            entries: [LENT_ENTRY; 129],
            exits: [LENT_EXIT; 129],
            titles: [LENT_TITLE; 129],
            poolings: [LENT_POOLING; 129],
        }
    }

    fn say_kept(&self, line: &mut Line) {
        line.say_kept(b"entries", all_are(&self.entries, LENT_ENTRY));
        line.say_kept(b"exits", all_are(&self.exits, LENT_EXIT));
        line.say_kept(b"titles", all_are(&self.titles, LENT_TITLE));
        line.say_kept(b"poolings", all_are(&self.poolings, LENT_POOLING));
    }

    // The places from one on are as they were.
    fn kept_from(&self, from: usize) -> bool {
        all_are(rest(&self.entries, from), LENT_ENTRY)
            && all_are(rest(&self.exits, from), LENT_EXIT)
            && all_are(rest(&self.titles, from), LENT_TITLE)
            && all_are(rest(&self.poolings, from), LENT_POOLING)
    }
}

// ---- the call

// The first line's amounts, and what is compared.
fn say_read(line: &mut Line, read: FileRead, area: &Area) {
    let numbers = [
        read.hour,
        read.zone,
        read.lines,
        area.entries[0],
        area.exits[0],
        area.titles[0],
        area.poolings[0],
    ];
    line.say_row(b": hour |, zone |, lines |, first | | | |", &numbers);
    line.say_holds(b"rest kept", area.kept_from(natural(read.lines)));
}

fn say_answer(line: &mut Line, answer: Result<FileRead, FileCause>, area: &Area) {
    match answer {
        Err(cause) => {
            line.say_refused(cause.number());
            area.say_kept(line);
        }
        Ok(read) => say_read(line, read, area),
    }
}

// The file is read into lists of so many places, and the answer is said after the case, which stands in the line.
fn read(rt: &impl Print, line: &mut Line, file: &[u8], places: &[i64]) -> io::Result<()> {
    let mut area = Area::before();
    let mut lists = Lists {
        entries: lent(&mut area.entries, 0, natural(at(places, 0))),
        exits: lent(&mut area.exits, 0, natural(at(places, 1))),
        titles: lent(&mut area.titles, 0, natural(at(places, 2))),
        poolings: lent(&mut area.poolings, 0, natural(at(places, 3))),
    };
    let answer = allocation_file::read_hour_file(file, &mut lists);
    say_answer(line, answer, &area);
    line.say_byte(b'\n');
    rt.write_all(line.as_bytes())
}

fn run(rt: &impl Print, row: &Row) -> io::Result<()> {
    let mut amounts = Amounts::new();
    amounts.say_row(b",|,|,|,|", rest(row, 4));
    let content = Content {
        hour: row[2],
        zone: row[3],
        amounts: amounts.as_bytes(),
    };
    let file = file_of(row[0], row[1], &content);
    let mut line = Line::new();
    line.say_row(&NAMES, row);
    read(rt, &mut line, file.as_bytes(), rest(row, 8))
}

// ---- amounts as they are spelled, in kWh and in MWh: the same for all four amounts of every line

const SPELLED: [u8; 132] =
    *b"12.345|0.000|-0.005|999999.999|-999999.999|-0.000|-0|.005|-.001|1.|1.23|1.2345|01.000|1000000.000|1.-23|+1.000|1..000|1,234|12345|-5";

const SPELLINGS: usize = 20;

fn amounts_spelled(which: usize) -> Amounts {
    let mut amounts = Amounts::new();
    for _ in 0..4 {
        amounts.say_byte(b',');
        amounts.say_word(&SPELLED, which);
    }
    amounts
}

fn run_spelled(rt: &impl Print, lines: i64, which: usize) -> io::Result<()> {
    let amounts = amounts_spelled(which);
    let content = Content {
        hour: 24,
        zone: 1,
        amounts: amounts.as_bytes(),
    };
    let file = file_of(lines, 1, &content);
    let mut line = Line::new();
    line.say_row(b"file, lines |, each amount ", &[lines]);
    line.say_word(&SPELLED, which);
    read(rt, &mut line, file.as_bytes(), &[128, 128, 128, 128])
}

fn run_rows(rt: &impl Print) -> io::Result<()> {
    for row in &ROWS {
        run(rt, row)?;
    }
    Ok(())
}

// One line of each spelling.
fn run_spellings(rt: &impl Print) -> io::Result<()> {
    for which in 0..SPELLINGS {
        run_spelled(rt, 1, which)?;
    }
    Ok(())
}

fn main(rt: HostRuntime) -> io::Result<()> {
    run_rows(&rt)?;
    run_spellings(&rt)?;
    // the longest spelling, in as many lines as there may be
    run_spelled(&rt, 128, 4)
}
