// The writer of an hour's allocation file: one public call, `write_hour_file`. What it writes is in specs/.

#![tactic(auto)]

ghost use Rattle.std.specs.Prelude.{◌≡◌, ◌*◌, ◌≤◌, ◌<◌, length};
ghost use Rattle.integers.specs.Lists.{every};
ghost use Rattle.integers.specs.Ranges.{natural};
ghost use Rattle.rules.specs.Limits.{users_most};
ghost use Rattle.text.specs.Puts.{Room, Wrote};
ghost use Rattle.allocation_text.specs.Steps.{line_most};
ghost use Rattle.allocation_writer.specs.Writer.{
  number,
  content,
  row_at,
  lists_fit,
  count_fit,
  nine_digits,
  hour_fit,
  amounts_short,
  numbers_fit,
  room_for,
  write_cause,
  WriteHour,
};
ghost use Rattle.allocation_writer.specs.Steps.{content_of, Tested, lines_text};

use allocation_file::HEADER;
use allocation_row::Row;
use allocation_text::{line_length, write_line};
use rules::{Amounts, require};
use text::writing::{Writer, digit_count};

// The causes for turning the call away, each under the papers' words, with their number.
#[derive(Clone, Copy, PartialEq, Eq)]
pub enum WriteCause {
    // "if the count is not 1 to 128, the zone not 0 or 1, or a list is not of the count's length"
    Counts = 18,
    // "if the hour or an amount has more than nine digits or the hour is negative"
    Digits = 19,
    // "if the lent bytes are too few"
    Room = 20,
}

impl WriteCause {
    // The papers' number. (Each of the three enums of causes has this one line of its own: a trait for it would take more lines than the three.)
    pub fn number(self) -> u64
        ensures { result ≡ number self }
    {
        self as u64
    }
}

// Whether a number has at most nine digits. The size of every number fits, also that of the least.
#[tactic(auto, unfolding(crate::specs::Writer::nine_digits))]
fn nine_digits(value: i64) -> bool
    ensures { result ≡ nine_digits value }
{
    digit_count(value.unsigned_abs()) <= 9
}

fn all_nine_digits(list: &[i64]) -> bool
    ensures { result ≡ every nine_digits list.now }
{
    list.iter().all(|x| nine_digits(*x))
}

// What the call is given to write: "hour, zone, user count and four lists". (The zone stays a number: any may be given, and cause 18 is for those that name none.)
#[derive(Clone, Copy)]
struct HourFile<'a> {
    hour: i64,
    zone: i64,
    users: i64,
    amounts: &'a Amounts<'a>,
}

impl HourFile<'_> {
    // ---- the tests of causes 18 and 19

    // Whether each list has the count's length.
    #[tactic(auto, unfolding(crate::specs::Writer::of_count, crate::specs::Writer::lists_fit))]
    fn lists_fit(&self) -> bool
        ensures { result ≡ lists_fit (content_of self.now) }
    {
        let n = integers::natural(self.users);
        let a = self.amounts;
        a.entries.len() == n && a.exits.len() == n && a.titles.len() == n && a.poolings.len() == n
    }

    #[tactic(auto, unfolding(crate::specs::Writer::count_fit))]
    fn counts_fit(&self) -> bool
        ensures { result ≡ count_fit (content_of self.now) }
    {
        ranges::users_fit(self.users) && ranges::zone_fit(self.zone) && self.lists_fit()
    }

    #[tactic(auto, unfolding(crate::specs::Writer::amounts_short))]
    fn amounts_fit(&self) -> bool
        ensures { result ≡ amounts_short (content_of self.now) }
    {
        let a = self.amounts;
        all_nine_digits(a.entries)
            && all_nine_digits(a.exits)
            && all_nine_digits(a.titles)
            && all_nine_digits(a.poolings)
    }

    #[tactic(auto, unfolding(crate::specs::Writer::hour_fit, crate::specs::Writer::numbers_fit))]
    fn numbers_fit(&self) -> bool
        ensures { result ≡ numbers_fit (content_of self.now) }
    {
        nine_digits(self.hour) && 0 <= self.hour && self.amounts_fit()
    }

    // ---- the lines

    // The row at a place of the four lists.
    fn row_at(&self, place: usize) -> Row
        requires { Tested (content_of self.now) × (place < natural self.now.users) }
        ensures { result ≡ row_at (content_of self.now) place }
    {
        let a = self.amounts;
        Row {
            hour: self.hour as u32,
            zone: self.zone as u32,
            place: place as u32,
            entry: a.entries[place],
            exit: a.exits[place],
            title: a.titles[place],
            pooling: a.poolings[place],
        }
    }

    // How many bytes the lines of all users have.
    fn lines_length(&self) -> usize
        requires { Tested (content_of self.now) }
        ensures { (result ≡ length (lines_text (content_of self.now)))
            × (result ≤ users_most * line_most) }
    {
        let mut total: usize = 0;
        for place in 0..self.amounts.entries.len() {
            total += line_length(self.row_at(place));
        }
        total
    }

    // Whether the header and the lines have room.
    #[tactic(auto, unfolding(crate::specs::Writer::room_for))]
    fn room_for(&self, file: &[u8]) -> bool
        requires { Tested (content_of self.now) }
        ensures { result ≡ room_for (content_of self.now) file.now }
    {
        HEADER.len() + self.lines_length() <= file.len()
    }

    // The first cause that applies, if any does.
    #[tactic(auto, unfolding(crate::specs::Writer::write_cause))]
    fn check(&self, file: &[u8]) -> Result<(), WriteCause>
        ensures { result ≡ write_cause (content_of self.now) file.now }
    {
        require(self.counts_fit(), WriteCause::Counts)?;
        require(self.numbers_fit(), WriteCause::Digits)?;
        require(self.room_for(file), WriteCause::Room)
    }

    fn write_lines(&self, writer: &mut Writer)
        requires { Tested (content_of self.now) × Room writer.old (length (lines_text (content_of self.now))) }
        ensures { Wrote writer.old writer.new (lines_text (content_of self.now)) }
    {
        for place in 0..self.amounts.entries.len() {
            write_line(writer, self.row_at(place));
        }
    }
}

// ---- the call

// Writes the file of an hour: the header, then a line for each user. The bytes after it stay as they were, and a refusal
// leaves all of them so. (The bytes come as they are, as the C interface lends them, and not as a `Writer`: the call
// always begins at the first of them, and answers where its text ends.)
pub fn write_hour_file(
    hour: i64,
    zone: i64,
    users: i64,
    amounts: &Amounts,
    file: &mut [u8],
) -> Result<i64, WriteCause>
    ensures { WriteHour (content hour zone users amounts.now)
        file.old result file.new }
{
    let hour_file = HourFile {
        hour,
        zone,
        users,
        amounts,
    };
    hour_file.check(file)?;
    let mut writer = Writer { out: file, end: 0 };
    writer.bytes(&HEADER);
    hour_file.write_lines(&mut writer);
    Ok(writer.end as i64)
}
