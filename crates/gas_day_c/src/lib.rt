// The public calls for C: numbers, areas as pointer and length, structs by value with C's layout; no enum crosses. Each call answers its cause, 0 for none, beside
// its values, and leaves every lent area as the call that it wraps.

#![tactic(auto)]

ghost use Rattle.std.specs.Prelude.{◌≡◌};
ghost use Rattle.rules.specs.Hours.{hour_listed, inputs_listed, closing_listed};
ghost use Rattle.rules.specs.Answers.{thresholds_answer};
ghost use Rattle.rules.specs.Judging.{judge_answer};
ghost use Rattle.record_c.specs.Records.{day_of};
ghost use Rattle.flat.specs.Flat.{flat_thresholds, flat_judged};
ghost use Rattle.allocation_writer.specs.Writer.{content_listed};
ghost use Rattle.gas_day_c.specs.Promises.{version, OpenForC, HourForC, PreviewForC, ClosingForC, FileForC, WriteForC};

use allocation_row::Lists;
use flat::{ClosingC, FileC, HourC, JudgedC, OpenC, ThresholdsC, WrittenC};
use record_c::DayC;
use rules::{Amounts, ClosingTerms, HourTerms, Outputs};

// The interface's version: one more where a client that was built with an older header would call it wrongly.
pub const VERSION: u64 = 3;

#[unsafe(no_mangle)]
pub extern "C" fn gas_day_version() -> u64
    ensures { result ≡ version }
{
    VERSION
}

// ---- opening

#[unsafe(no_mangle)]
pub extern "C" fn gas_day_open(users: i64, length: i64, table: &mut [i64]) -> OpenC
    ensures { OpenForC users length table.old table.new result }
{
    gas_day::open(users, length, table).into()
}

// ---- default thresholds

#[unsafe(no_mangle)]
pub extern "C" fn gas_day_default_thresholds(month: i64, zone: i64) -> ThresholdsC
    ensures { result ≡ flat_thresholds (thresholds_answer month zone) }
{
    gas_day::default_thresholds(month, zone).into()
}

// ---- an hour

#[unsafe(no_mangle)]
pub extern "C" fn gas_day_settle_hour(
    day: DayC,
    table: &mut [i64],
    terms: HourTerms,
    entry: &[i64],
    exit: &[i64],
    title: &[i64],
    pooling: &[i64],
    quantity: &mut [i64],
    money: &mut [i64],
    scratch: &mut [u64],
) -> HourC
    ensures { HourForC day table.old
        (hour_listed terms
        entry.now exit.now title.now pooling.now
        quantity.old money.old scratch.old)
        table.new quantity.new money.new scratch.new result }
{
    let amounts = Amounts {
        entries: entry,
        exits: exit,
        titles: title,
        poolings: pooling,
    };
    let mut outputs = Outputs { quantity, money };
    let answer = gas_day::settle_hour(day.into(), table, terms, &amounts, &mut outputs, scratch);
    HourC::of(day, answer)
}

// ---- a preview of an hour

#[unsafe(no_mangle)]
pub extern "C" fn gas_day_preview_hour(
    day: DayC,
    table: &[i64],
    terms: HourTerms,
    entry: &[i64],
    exit: &[i64],
    title: &[i64],
    pooling: &[i64],
    quantity: &mut [i64],
    money: &mut [i64],
    after: &mut [i64],
    scratch: &mut [u64],
) -> HourC
    ensures { PreviewForC day table.now
        (hour_listed terms
        entry.now exit.now title.now pooling.now
        quantity.old money.old scratch.old)
        after.old quantity.new money.new after.new scratch.new result }
{
    let amounts = Amounts {
        entries: entry,
        exits: exit,
        titles: title,
        poolings: pooling,
    };
    let mut outputs = Outputs { quantity, money };
    let answer = gas_day::preview_hour(
        day.into(),
        table,
        terms,
        &amounts,
        &mut outputs,
        after,
        scratch,
    );
    HourC::of(day, answer)
}

// ---- the judge of an operator's quantities

#[unsafe(no_mangle)]
pub extern "C" fn gas_day_judge_hour(
    day: DayC,
    table: &[i64],
    terms: HourTerms,
    entry: &[i64],
    exit: &[i64],
    title: &[i64],
    pooling: &[i64],
    quantity: &[i64],
) -> JudgedC
    ensures { result ≡ flat_judged day (judge_answer (day_of day) table.now
        (inputs_listed terms entry.now exit.now title.now pooling.now)
        quantity.now) }
{
    let amounts = Amounts {
        entries: entry,
        exits: exit,
        titles: title,
        poolings: pooling,
    };
    let answer = gas_day::judge_hour(day.into(), table, terms, &amounts, quantity);
    JudgedC::of(day, answer)
}

// ---- a closing

#[unsafe(no_mangle)]
pub extern "C" fn gas_day_close_zone(
    day: DayC,
    table: &mut [i64],
    terms: ClosingTerms,
    quantity: &mut [i64],
    money: &mut [i64],
) -> ClosingC
    ensures { ClosingForC day table.old
        (closing_listed terms quantity.old money.old)
        table.new quantity.new money.new result }
{
    let mut outputs = Outputs { quantity, money };
    let answer = gas_day::close_zone(day.into(), table, terms, &mut outputs);
    ClosingC::of(day, answer)
}

// ---- the hour's file

#[unsafe(no_mangle)]
pub extern "C" fn gas_day_read_hour_file(
    file: &[u8],
    entries: &mut [i64],
    exits: &mut [i64],
    titles: &mut [i64],
    poolings: &mut [i64],
) -> FileC
    ensures { FileForC file.now
        entries.old exits.old titles.old poolings.old result
        entries.new exits.new titles.new poolings.new }
{
    let mut lists = Lists {
        entries,
        exits,
        titles,
        poolings,
    };
    allocation_file::read_hour_file(file, &mut lists).into()
}

// ---- the hour's file, written

#[unsafe(no_mangle)]
pub extern "C" fn gas_day_write_hour_file(
    hour: i64,
    zone: i64,
    users: i64,
    entry: &[i64],
    exit: &[i64],
    title: &[i64],
    pooling: &[i64],
    file: &mut [u8],
) -> WrittenC
    ensures { WriteForC
        (content_listed hour zone users
        entry.now exit.now title.now pooling.now)
        file.old result file.new }
{
    let amounts = Amounts {
        entries: entry,
        exits: exit,
        titles: title,
        poolings: pooling,
    };
    allocation_writer::write_hour_file(hour, zone, users, &amounts, file).into()
}
