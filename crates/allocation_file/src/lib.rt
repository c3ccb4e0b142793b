// The reader of an hour's allocation file: one public call, `read_hour_file`. What the file's rules are is in specs/.

#![tactic(auto)]

ghost use Rattle.std.specs.Prelude.{◌≡◌, length};
ghost use Rattle.allocation_row.specs.Steps.{Same};
ghost use Rattle.allocation_file.specs.File.{all128, ReadHour};
ghost use Rattle.allocation_file.specs.Steps.{in_signed};

use allocation_lines::{LinesRead, read_body};
use allocation_row::{FileCause, Lists};
use csv_lines::begins_with;

// What a file that is read says besides its amounts: the hour, the zone's number (0 is H, 1 is L) and the number of
// lines.
#[derive(Clone, Copy, PartialEq, Eq)]
pub struct FileRead {
    pub hour: i64,
    pub zone: i64,
    pub lines: i64,
}

// What the lines say, in the caller's signed numbers.
impl From<LinesRead> for FileRead {
    ghost from_gives = { λ lines file. file ≡ in_signed lines };

    fn from(lines: LinesRead) -> FileRead {
        FileRead {
            hour: i64::from(lines.hour),
            zone: i64::from(lines.zone),
            lines: i64::from(lines.lines),
        }
    }
}

// The bytes that a file opens with.
pub const HEADER: [u8; 25] = *b"h,z,g,EEA,XEA,NCTTN,IPT\r\n";

// Whether all four lists have 128 places.
fn all_128(lists: &Lists) -> bool
    ensures { result ≡ all128
        (length lists.now.entries.now) (length lists.now.exits.now)
        (length lists.now.titles.now) (length lists.now.poolings.now) }
{
    (lists.entries.len() == 128 && lists.exits.len() == 128)
        && (lists.titles.len() == 128 && lists.poolings.len() == 128)
}

// Reads the file into the four lists: as many places are filled as the file has lines, and the others stay as they
// were. A refusal leaves all as they were. (`same`: what comes back are the lists that were lent.)
pub fn read_hour_file(file: &[u8], lists: &mut Lists) -> Result<FileRead, FileCause>
    ensures same { Same lists.old lists.new }
    ensures read { ReadHour file.now
        lists.old.entries.now lists.old.exits.now lists.old.titles.now lists.old.poolings.now
        result
        lists.new.entries.now lists.new.exits.now lists.new.titles.now lists.new.poolings.now }
{
    if !all_128(lists) {
        return Err(FileCause::Lists);
    }
    if !begins_with(file, &HEADER) {
        return Err(FileCause::Header);
    }
    let lines = read_body(file, HEADER.len(), lists)?;
    Ok(FileRead::from(lines))
}
