// Settles the first hour of a Gas Day: reads the hour's allocation file from standard input, and prints each user's positions, quantity and money, or the one line
// of a refusal. Only the reading and the writing stand outside the contracts: `input_text` fixes every byte that is printed.

#![tactic(auto)]

ghost use Rattle.std.specs.Prelude.{◌<◌, length};
ghost use Rattle.allocation_file.specs.File.{file_of};
ghost use Rattle.std.specs.Counts.{IsPrefixLen};
ghost use Rattle.text.specs.Puts.{Room, Wrote};
ghost use Rattle.hour_text.specs.Lent.{text_most};
ghost use Rattle.firsthour.specs.Examples.{ExamplesPrinted};
ghost use Rattle.firsthour.specs.Printed.{input_most, of_file, printed};

use allocation_file::read_hour_file;
use allocation_row::{FileCause, Lists};
use hour_text::amounts_text;
use report::write_refused;
use rules::Amounts;
use std::io;
use std::io::Read;
use text::writing::Writer;

// The bytes of the longest input that is read.
const INPUT_MOST: usize = 65_536;

// The bytes of the longest text: the heading, and the longest line of each of 128 users.
const TEXT_MOST: usize = 13_592;

// The text of a file.
fn file_text(writer: &mut Writer, file: &[u8])
    requires { Room writer.old text_most }
    ensures { Wrote writer.old writer.new (of_file (file_of file.now)) }
{
    let mut entries = [0i64; 128];
    let mut exits = [0i64; 128];
    let mut titles = [0i64; 128];
    let mut poolings = [0i64; 128];
    let mut lists = Lists {
        entries: &mut entries,
        exits: &mut exits,
        titles: &mut titles,
        poolings: &mut poolings,
    };
    let read = match read_hour_file(file, &mut lists) {
        Ok(read) => read,
        Err(cause) => return write_refused(writer, cause.number()),
    };
    let amounts = Amounts {
        entries: &entries,
        exits: &exits,
        titles: &titles,
        poolings: &poolings,
    };
    let n = integers::natural(read.lines);
    amounts_text(writer, read.hour, read.zone, n, &amounts);
}

// The text that is printed for an input.
fn input_text(writer: &mut Writer, input: &[u8])
    requires { Room writer.old text_most }
    ensures { Wrote writer.old writer.new (printed input.now) }
{
    if INPUT_MOST < input.len() {
        return write_refused(writer, FileCause::Form.number());
    }
    file_text(writer, input);
}

// Reads the input into `room`, which has a byte more than the longest file, so that a longer input is seen. A read that fails counts as the end of the input.
// No `for`: a read says itself how many bytes it took.
fn read_input(input: &mut impl Read, room: &mut [u8]) -> usize
    requires { input_most < length room.old }
    ensures { IsPrefixLen result room.new }
{
    let mut end: usize = 0;
    while end < room.len() {
        let n = input.read(&mut room[end..]).unwrap_or(0);
        if n == 0 {
            return end;
        }
        end += n;
    }
    end
}

// Document 01's case A from its input to its output, and inputs that are refused: what the definitions print. Nothing calls this; it asks for the proof.
fn examples_are_printed()
    ensures { ExamplesPrinted }
{}

fn main(rt: HostRuntime) -> io::Result<()> {
    let mut input = [0u8; INPUT_MOST + 1];
    let length = read_input(&mut rt.stdin(), &mut input);
    let mut out = [0u8; TEXT_MOST];
    let mut writer = Writer {
        out: &mut out,
        end: 0,
    };
    input_text(&mut writer, &input[..length]);
    let end = writer.end;
    rt.write_all(&out[..end])
}
