// The text of an hour that is settled as the first of a day opened for it, with January's default thresholds, or the one line of a refusal.

#![tactic(auto)]

ghost use Rattle.std.specs.Prelude.{◌≡◌, length, take};
ghost use Rattle.rules.specs.Hours.{hour_given};
ghost use Rattle.text.specs.Puts.{Wrote};
ghost use Rattle.hour_text.specs.Lent.{sums, Adds, Settled, settled_text, TextRoom, ReadLists, Writes};
ghost use Rattle.hour_text.specs.Opened.{settled, terms_of, with_defaults, opened, opened_new};

use gas_day::{default_thresholds, open, settle_hour};
use report::{write_hour, write_refused};
use rules::{Amounts, Cause, Day, HourTerms, Outputs, Thresholds};
use text::writing::Writer;

// January, whose default thresholds apply.
const MONTH: i64 = 1;

const EXCESS_PRICE: i64 = 20_000;

const SHORTFALL_PRICE: i64 = 25_000;

// A position before settlement is the quantity plus the position after.
fn add_quantities(quantity: &[i64], after: &[i64], before: &mut [i64])
    requires { Adds quantity.now after.now before.old }
    ensures { before.new ≡ sums quantity.now after.now }
{
    for (i, sum) in before.iter_mut().enumerate() {
        *sum = quantity[i] + after[i];
    }
}

// What is lent goes on by name from here, and not as one struct: the contracts speak of each list by itself, and a struct would only hold `Outputs` and the others
// once more. (The zone is a number, as of any hour.)

// The text of an hour that is settled.
fn settled_text(
    writer: &mut Writer,
    zone: i64,
    table: &[i64],
    outputs: &Outputs,
    before: &mut [i64],
)
    requires { Settled writer.old zone table.now outputs.now before.old }
    ensures { Wrote writer.old writer.new
        (settled_text zone table.now outputs.now.quantity.now outputs.now.money.now) }
{
    let start = places::first_place(zone);
    let end = start + outputs.quantity.len();
    let after = &table[start..end];
    add_quantities(outputs.quantity, after, before);
    write_hour(writer, before, outputs.quantity, outputs.money, after);
}

// Settles the hour of an open day, and writes its text.
fn hour_text(
    writer: &mut Writer,
    day: Day,
    table: &mut [i64],
    terms: HourTerms,
    amounts: &Amounts,
    outputs: &mut Outputs,
    scratch: &mut [u64],
    before: &mut [i64],
) -> Result<(), Cause>
    requires { TextRoom writer.old before.old amounts.now.entries.now }
    ensures { Writes
        (settled day table.old
        (hour_given terms amounts.now outputs.old scratch.old))
        writer.old writer.new result }
{
    match settle_hour(day, table, terms, amounts, outputs, scratch) {
        Err(refusal) => Err(refusal.cause),
        Ok(_) => {
            settled_text(writer, terms.zone, table, outputs, before);
            Ok(())
        }
    }
}

#[tactic(auto, unfolding(crate::specs::Opened::terms_of))]
fn terms_of(hour: i64, zone: i64, thresholds: Thresholds) -> HourTerms
    ensures { result ≡ terms_of hour zone thresholds }
{
    HourTerms {
        zone,
        hour,
        upper: thresholds.upper,
        lower: thresholds.lower,
        excess_price: EXCESS_PRICE,
        shortfall_price: SHORTFALL_PRICE,
    }
}

// The hour of an open day, with January's defaults.
fn january_text(
    writer: &mut Writer,
    day: Day,
    hour: i64,
    zone: i64,
    table: &mut [i64],
    amounts: &Amounts,
    outputs: &mut Outputs,
    scratch: &mut [u64],
    before: &mut [i64],
) -> Result<(), Cause>
    requires { TextRoom writer.old before.old amounts.now.entries.now }
    ensures { Writes
        (with_defaults day table.old hour zone
        (λ terms. hour_given terms amounts.now outputs.old scratch.old))
        writer.old writer.new result }
{
    let terms = terms_of(hour, zone, default_thresholds(MONTH, zone)?);
    hour_text(writer, day, table, terms, amounts, outputs, scratch, before)
}

// Opens a day of as many users as there are entries and of the usual length, and settles the hour.
fn day_text(
    writer: &mut Writer,
    hour: i64,
    zone: i64,
    table: &mut [i64],
    amounts: &Amounts,
    outputs: &mut Outputs,
    scratch: &mut [u64],
    before: &mut [i64],
) -> Result<(), Cause>
    requires { TextRoom writer.old before.old amounts.now.entries.now }
    ensures { Writes
        (opened hour zone table.old (length amounts.now.entries.now)
        (λ terms. hour_given terms amounts.now outputs.old scratch.old))
        writer.old writer.new result }
{
    let day = open(amounts.entries.len() as i64, Day::LENGTH_USUAL, table)?;
    january_text(
        writer, day, hour, zone, table, amounts, outputs, scratch, before,
    )
}

// The text of a file that is read: the amounts stand at the first `n` places of the four lists, which are cut here, where the contract bounds `n` once for all.
pub fn amounts_text(writer: &mut Writer, hour: i64, zone: i64, n: usize, amounts: &Amounts)
    requires { ReadLists writer.old n amounts.now }
    ensures { Wrote writer.old writer.new
        (opened_new hour zone
        (take n amounts.now.entries.now) (take n amounts.now.exits.now)
        (take n amounts.now.titles.now) (take n amounts.now.poolings.now)) }
{
    let amounts = Amounts {
        entries: &amounts.entries[..n],
        exits: &amounts.exits[..n],
        titles: &amounts.titles[..n],
        poolings: &amounts.poolings[..n],
    };
    let mut table = [0i64; 256];
    let mut quantity = [0i64; 128];
    let mut money = [0i64; 128];
    let mut scratch = [0u64; 128];
    let mut before = [0i64; 128];
    let mut outputs = Outputs {
        quantity: &mut quantity[..n],
        money: &mut money[..n],
    };
    let written = day_text(
        writer,
        hour,
        zone,
        &mut table,
        &amounts,
        &mut outputs,
        &mut scratch[..n],
        &mut before[..n],
    );
    match written {
        Ok(()) => (),
        Err(cause) => write_refused(writer, cause.number()),
    }
}
