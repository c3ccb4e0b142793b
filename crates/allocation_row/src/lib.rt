// One line of an hour's file: by itself its form, then its seven fields; and at its place, whether it may stand there
// and its amounts put there. The rules are in specs/.

#![tactic(auto)]

ghost use Rattle.std.specs.Prelude.{◌≡◌, length, pos};
ghost use Rattle.csv_lines.specs.Lines.{fields};
ghost use Rattle.allocation_row.specs.Causes.{number};
ghost use Rattle.allocation_row.specs.Rows.{
  letter,
  zone_number,
  is_plain,
  is_form,
  zone_of,
  fields_of,
  row_of,
  follows,
};
ghost use Rattle.allocation_row.specs.Steps.{Within, Stored};

use csv_lines::field;
use text::number::{read_amount, read_unsigned};

// The causes for turning a file away, each under the papers' words, with their number.
#[derive(Clone, Copy, PartialEq, Eq)]
pub enum FileCause {
    // "a reader's list not of 128 places"
    Lists = 12,
    // "header differs"
    Header = 13,
    // "a line's form or field count"
    Form = 14,
    // "a field's number or zone letter"
    Field = 15,
    // "h or z differs from the first line, or g is not the next place below 128"
    Turn = 16,
    // "no line after the header"
    NoLine = 17,
}

impl FileCause {
    // The papers' number.
    pub fn number(self) -> u64
        ensures { result ≡ number self }
    {
        self as u64
    }
}

// "z is the letter H or L".
#[derive(Clone, Copy, PartialEq, Eq)]
pub enum Zone {
    H,
    L,
}

impl Zone {
    pub fn letter(self) -> u8
        ensures { result ≡ letter self }
    {
        match self {
            Zone::H => b'H',
            Zone::L => b'L',
        }
    }

    // The papers' number: "0 is H, 1 is L".
    pub fn number(self) -> i64
        ensures { result ≡ pos (zone_number self) }
    {
        match self {
            Zone::H => 0,
            Zone::L => 1,
        }
    }
}

// What a line's seven fields say. (The zone is its number, as the papers have it; `Zone` is what a letter may say.)
#[derive(Clone, Copy, PartialEq, Eq)]
pub struct Row {
    pub hour: u32,
    pub zone: u32,
    pub place: u32,
    pub entry: i64,
    pub exit: i64,
    pub title: i64,
    pub pooling: i64,
}

// No quote mark, CR or LF.
fn is_plain(b: u8) -> bool
    ensures { result ≡ is_plain b }
{
    match b {
        b'"' | b'\r' | b'\n' => false,
        _ => true,
    }
}

// A line's form: plain bytes and six commas, so seven fields.
fn has_form(line: &[u8]) -> bool
    ensures { result ≡ is_form line.now }
{
    let mut count: usize = 1;
    for b in line {
        if !is_plain(*b) {
            return false;
        }
        if *b == b',' {
            count += 1;
        }
    }
    count == 7
}

fn read_zone(field: &[u8]) -> Option<Zone>
    ensures { result ≡ zone_of field.now }
{
    match field {
        [b'H'] => Some(Zone::H),
        [b'L'] => Some(Zone::L),
        _ => None,
    }
}

// The fields of a line that has seven, as a row, if each is well-formed.
#[tactic(auto, unfolding(crate::specs::Rows::as_row))]
fn read_fields(line: &[u8]) -> Option<Row>
    requires { length (fields line.now) ≡ 7 }
    ensures { result ≡ fields_of line.now }
{
    Some(Row {
        hour: read_unsigned(field(line, 0))?,
        zone: read_zone(field(line, 1))?.number() as u32,
        place: read_unsigned(field(line, 2))?,
        entry: read_amount(field(line, 3))?,
        exit: read_amount(field(line, 4))?,
        title: read_amount(field(line, 5))?,
        pooling: read_amount(field(line, 6))?,
    })
}

// A line by itself: its row, or the cause; the form goes before the fields.
pub fn read_row(line: &[u8]) -> Result<Row, FileCause>
    ensures { result ≡ row_of line.now }
{
    if !has_form(line) {
        return Err(FileCause::Form);
    }
    read_fields(line).ok_or(FileCause::Field)
}

// Whether a row may stand at `place` in a file whose first line says `first`.
pub fn follows_on(row: Row, place: usize, first: &Row) -> bool
    ensures { result ≡ follows first.now.hour first.now.zone place row }
{
    row.hour == first.hour && row.zone == first.zone && row.place as usize == place && place < 128
}

// The four lists that are lent to be filled.
#[derive(Drop)]
pub struct Lists<'a> {
    pub entries: &'a mut [i64],
    pub exits: &'a mut [i64],
    pub titles: &'a mut [i64],
    pub poolings: &'a mut [i64],
}

impl Lists<'_> {
    // Puts a row's four amounts at `place`.
    pub fn store(&mut self, row: Row, place: usize)
        requires { Within place self.old }
        ensures { Stored row place self.old self.new }
    {
        self.entries[place] = row.entry;
        self.exits[place] = row.exit;
        self.titles[place] = row.title;
        self.poolings[place] = row.pooling;
    }
}
