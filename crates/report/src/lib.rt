// The text that the program prints, written into bytes that are lent.

#![tactic(auto)]

ghost use Rattle.std.specs.Prelude.{◌+◌, ◌≤◌};
ghost use Rattle.text.specs.Puts.{Room, Wrote};
ghost use Rattle.report.specs.Text.{user_line, refused_line, hour_text};
ghost use Rattle.report.specs.Room.{HourRoom};

use text::writing::Writer;

// The first line, before the users' lines.
const HEADING: [u8; 24] = *b"g,before,q,money,after\r\n";

const REFUSED: [u8; 8] = *b"refused,";

// A user's line: four fields of at most 21 bytes with their commas, a fifth of at most 20, and the line's end.
#[tactic(auto, using(text::proofs::Puts::wrote_long, text::proofs::Decimals::field_room, text::proofs::Decimals::decimal_room), unfolding(text::specs::Bytes::line_end))]
pub fn write_user_line(
    writer: &mut Writer,
    place: i64,
    before: i64,
    quantity: i64,
    money: i64,
    after: i64,
)
    requires { Room writer.old 106 }
    ensures line { Wrote writer.old writer.new (user_line place before quantity money after) }
    ensures short { writer.new.end ≤ writer.old.end + 106 }
{
    writer.field(place);
    writer.field(before);
    writer.field(quantity);
    writer.field(money);
    writer.decimal(after);
    writer.line_end();
}

// The one line of a refusal.
pub fn write_refused(writer: &mut Writer, number: u64)
    requires { Room writer.old 30 }
    ensures { Wrote writer.old writer.new (refused_line number) }
{
    writer.bytes(&REFUSED);
    writer.digits(number);
    writer.line_end();
}

// The whole text of an hour that is settled.
pub fn write_hour(
    writer: &mut Writer,
    before: &[i64],
    quantity: &[i64],
    money: &[i64],
    after: &[i64],
)
    requires { HourRoom writer.old before.now quantity.now money.now after.now }
    ensures { Wrote writer.old writer.new (hour_text before.now quantity.now money.now after.now) }
{
    writer.bytes(&HEADING);
    // By place: the four lists come as an hour has them, since a list of lines would want memory of its own, and there is no heap.
    for i in 0..quantity.len() {
        write_user_line(writer, i as i64, before[i], quantity[i], money[i], after[i]);
    }
}
