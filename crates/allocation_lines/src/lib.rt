// The lines of an hour's file, taken in turn from where its header ends. The rules are in specs/.

#![tactic(auto)]

ghost use Rattle.std.specs.Prelude.{◌≡◌, ◌≤◌, drop};
ghost use Rattle.csv_lines.specs.Lines.{lines};
ghost use Rattle.allocation_lines.specs.Turns.{in_turn, body_of};
ghost use Rattle.allocation_lines.specs.Steps.{Lent, After};

use allocation_row::{FileCause, Lists, Row, follows_on, read_row};
use csv_lines::line_at;

// What lines that are read say besides their amounts: the hour, the zone's number and how many lines there are.
#[derive(Clone, Copy, PartialEq, Eq)]
pub struct LinesRead {
    pub hour: u32,
    pub zone: u32,
    pub lines: u32,
}

// Reads the lines from `at` on, the first of which is at `place`, in a file whose first line says `first`. A line is
// checked before the lines after it are read, and stored once they all are: so a refusal touches no list, and no line is
// read twice. The calls are at most 129 deep: no row follows at place 128.
fn read_lines(
    file: &[u8],
    at: usize,
    place: usize,
    first: &Row,
    lists: &mut Lists,
) -> Result<LinesRead, FileCause>
    requires { (place ≤ 128) × Lent lists.old }
    ensures { After place (in_turn first.now.hour first.now.zone (lines (drop at file.now)) place)
        lists.old result lists.new }
{
    if file.len() <= at {
        return Ok(LinesRead {
            hour: first.hour,
            zone: first.zone,
            lines: place as u32,
        });
    }
    let line = line_at(file, at);
    let next = at + line.len() + 2;
    let row = read_row(line)?;
    if !follows_on(row, place, first) {
        return Err(FileCause::Turn);
    }
    let read = read_lines(file, next, place + 1, first, lists)?;
    lists.store(row, place);
    Ok(read)
}

// Reads the lines from `at` on, where the header ends. The first line gives the hour and the zone, and is then read in
// its turn like any other.
pub fn read_body(file: &[u8], at: usize, lists: &mut Lists) -> Result<LinesRead, FileCause>
    requires { Lent lists.old }
    ensures { After 0 (body_of (lines (drop at file.now)))
        lists.old result lists.new }
{
    if file.len() <= at {
        return Err(FileCause::NoLine);
    }
    let first = read_row(line_at(file, at))?;
    read_lines(file, at, 0, &first, lists)
}
