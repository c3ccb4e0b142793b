// Lines that end in CR LF and fields that commas part (RFC 4180, without quotes), each as a part of the caller's
// bytes.

#![tactic(auto)]

ghost use Rattle.std.specs.Prelude.{◌≡◌, ◌+◌, ◌≤◌, ◌<◌, length, drop};
ghost use Rattle.csv_lines.specs.Lines.{begins, fields, field_at};
ghost use Rattle.csv_lines.specs.Steps.{line_len, field_len, line_at, FieldStart};

// Whether `file` begins with `head`.
pub fn begins_with(file: &[u8], head: &[u8]) -> bool
    ensures { result ≡ begins file.now head.now }
{
    file.starts_with(head)
}

// Where the line that begins at `from` ends: at the next CR LF pair, or at the end of the file.
fn line_end(file: &[u8], from: usize) -> usize
    requires { from ≤ length file.now }
    ensures { result ≡ from + line_len (drop from file.now) }
{
    for i in from..file.len() {
        if let [b'\r', b'\n', ..] = &file[i..] {
            return i;
        }
    }
    file.len()
}

// The line that begins at `from`, without its CR LF.
pub fn line_at(file: &[u8], from: usize) -> &[u8]
    requires { from ≤ length file.now }
    ensures { result.now ≡ line_at from file.now }
{
    let end = line_end(file, from);
    &file[from..end]
}

// Where the field that begins at `from` ends: at the next comma, or at the end of the line.
fn field_end(line: &[u8], from: usize) -> usize
    requires { from ≤ length line.now }
    ensures { result ≡ from + field_len (drop from line.now) }
{
    for i in from..line.len() {
        if line[i] == b',' {
            return i;
        }
    }
    line.len()
}

// Where field `k` begins, counted from 0.
fn field_start(line: &[u8], k: usize) -> usize
    requires { k < length (fields line.now) }
    ensures { FieldStart line.now k result }
{
    let mut at = 0;
    for _ in 0..k {
        at = field_end(line, at) + 1;
    }
    at
}

// Field `k` of a line, as a part of it.
pub fn field(line: &[u8], k: usize) -> &[u8]
    requires { k < length (fields line.now) }
    ensures { result.now ≡ field_at k line.now }
{
    let start = field_start(line, k);
    let end = field_end(line, start);
    &line[start..end]
}
