// The line of a row of an hour's file: how long it is, and the line written into bytes that are lent. specs/ says what
// its text is.

#![tactic(auto)]

ghost use Rattle.std.specs.Prelude.{◌≡◌, ◌++◌, ◌+◌, ◌≤◌, length};
ghost use Rattle.text.specs.Bytes.{line_end};
ghost use Rattle.text.specs.Puts.{Room, Wrote};
ghost use Rattle.allocation_text.specs.Text.{zone_by, line_text};
ghost use Rattle.allocation_text.specs.Steps.{start_text, amounts_text, line_most};

use allocation_row::{Row, Zone};
use text::writing::{Writer, decimal_length, digit_count};

// The zone that a row's number stands for: 0 is H, any other L. (No `From`: not every number is a zone's.)
#[tactic(auto, unfolding(crate::specs::Text::zone_by))]
fn zone_by(number: u32) -> Zone
    ensures { result ≡ zone_by number }
{
    if number == 0 { Zone::H } else { Zone::L }
}

// How many bytes a row's line has: its numbers, the zone's letter, six commas and the line's end. (`as`, here and below, only widens: `u64::from` is
// a call, whose equation each answer after it would have to carry on, and says no more.)
pub fn line_length(row: Row) -> usize
    ensures { (result ≡ length (line_text row ++ line_end)) × (result ≤ line_most) }
{
    let numbers = digit_count(row.hour as u64) + digit_count(row.place as u64);
    let amounts = decimal_length(row.entry)
        + decimal_length(row.exit)
        + decimal_length(row.title)
        + decimal_length(row.pooling);
    numbers + amounts + 9
}

fn write_start(writer: &mut Writer, row: Row)
    requires { Room writer.old (length (start_text row)) }
    ensures { Wrote writer.old writer.new (start_text row) }
{
    writer.digits(row.hour as u64);
    writer.bytes(&[b',', zone_by(row.zone).letter(), b',']);
    writer.digits(row.place as u64);
    writer.byte(b',');
}

fn write_amounts(writer: &mut Writer, row: Row)
    requires { Room writer.old (length (amounts_text row)) }
    ensures { Wrote writer.old writer.new (amounts_text row) }
{
    writer.field(row.entry);
    writer.field(row.exit);
    writer.field(row.title);
    writer.decimal(row.pooling);
    writer.line_end();
}

// A row's line, with its CR LF.
pub fn write_line(writer: &mut Writer, row: Row)
    requires { Room writer.old (length (line_text row ++ line_end)) }
    ensures { Wrote writer.old writer.new (line_text row ++ line_end) }
{
    write_start(writer, row);
    write_amounts(writer, row);
}
