// The public calls of the Gas Day. Each accepts every input, gives the first cause that applies, else the answer, and writes nothing before every
// cause has been looked at. The contracts set the answer and every lent area equal to the definitions of the crate `rules`.

#![tactic(auto)]

ghost use Rattle.std.specs.Prelude.{◌≡◌};
ghost use Rattle.rules.specs.Hours.{hour_given, inputs_given, closing_given, Same};
ghost use Rattle.rules.specs.Answers.{with_day, thresholds_answer};
ghost use Rattle.rules.specs.Judging.{judge_answer};
ghost use Rattle.rules.specs.Promises.{OpenPromise, HourPromise, PreviewPromise, ClosingPromise};

use rules::{
    Amounts, Cause, ClosingDone, ClosingTerms, Day, HourDone, HourTerms, Outputs, Refusal,
    Thresholds,
};

// What a refusal of an hour, a preview, the judge or a closing returns: "number, same record"; and what was found where there is none.
fn refused<A: Copy>(cause: Result<A, Cause>, day: Day) -> Result<A, Refusal>
    ensures { result ≡ with_day day cause }
{
    cause.map_err(|cause| Refusal { cause, day })
}

// Opens a Gas Day of so many hours: causes 1, 21 and 3.
pub fn open(users: i64, length: i64, table: &mut [i64]) -> Result<Day, Cause>
    ensures { OpenPromise users length table.old table.new result }
{
    causes::open_cause(users, length, table)?;
    table.fill(0);
    Ok(day_record::new_day(users, length))
}

// The default thresholds of a month and zone: causes 4 and 8. (The zone is a number, as the caller gives it: cause 4 is for those that name no zone.)
#[tactic(auto, unfolding(rules::specs::Answers::thresholds_answer, rules::specs::Causes::thresholds_cause))]
pub fn default_thresholds(month: i64, zone: i64) -> Result<Thresholds, Cause>
    ensures { result ≡ thresholds_answer month zone }
{
    causes::thresholds_cause(month, zone)?;
    let upper = ranges::defaults::upper_default(month, zone);
    let lower = -upper;
    Ok(Thresholds { upper, lower })
}

// Settles an hour of a zone: causes 2 to 11 and 25.
pub fn settle_hour(
    day: Day,
    table: &mut [i64],
    terms: HourTerms,
    amounts: &Amounts,
    outputs: &mut Outputs,
    scratch: &mut [u64],
) -> Result<HourDone, Refusal>
    ensures same { Same outputs.old outputs.new }
    ensures settled { HourPromise day table.old
        (hour_given terms amounts.now outputs.old scratch.old)
        table.new outputs.new.quantity.now outputs.new.money.now scratch.new result }
{
    let cause = causes::hour_cause(day, table, terms, amounts, outputs, scratch);
    let market = refused(cause, day)?;
    let outcome = settlement::settle_table(table, amounts, terms, market, outputs, scratch);
    let sums = totals::hour_sums(terms, market);
    let next = day_record::day_after_hour(terms.zone, sums, day);
    Ok(HourDone { day: next, outcome })
}

// Shows an hour of a zone before it is settled: causes 2 to 11 and 25. The positions after go to a list of their own, and the record comes back unchanged.
pub fn preview_hour(
    day: Day,
    table: &[i64],
    terms: HourTerms,
    amounts: &Amounts,
    outputs: &mut Outputs,
    after: &mut [i64],
    scratch: &mut [u64],
) -> Result<HourDone, Refusal>
    ensures same { Same outputs.old outputs.new }
    ensures previewed { PreviewPromise day table.now
        (hour_given terms amounts.now outputs.old scratch.old) after.old
        outputs.new.quantity.now outputs.new.money.now after.new scratch.new result }
{
    let cause = causes::preview_cause(day, table, terms, amounts, outputs, after, scratch);
    let market = refused(cause, day)?;
    let outcome = settlement::settle_copy(table, amounts, terms, market, outputs, after, scratch);
    Ok(HourDone { day, outcome })
}

// Judges an operator's own quantities of an hour: causes 2 to 11, then 22 to 24. All is lent for reading, and the record comes back unchanged.
#[tactic(auto, unfolding(rules::specs::Judging::judge_answer))]
pub fn judge_hour(
    day: Day,
    table: &[i64],
    terms: HourTerms,
    amounts: &Amounts,
    quantity: &[i64],
) -> Result<Day, Refusal>
    ensures { result ≡ judge_answer day table.now (inputs_given terms amounts.now) quantity.now }
{
    let cause = judging::judge_cause(day, table, terms, amounts, quantity);
    refused(cause, day)?;
    Ok(day)
}

// Closes a zone after its last hour: causes 2 to 8 and 25.
pub fn close_zone(
    day: Day,
    table: &mut [i64],
    terms: ClosingTerms,
    outputs: &mut Outputs,
) -> Result<ClosingDone, Refusal>
    ensures same { Same outputs.old outputs.new }
    ensures closed { ClosingPromise day table.old
        (closing_given terms outputs.old)
        table.new outputs.new.quantity.now outputs.new.money.now result }
{
    let cause = causes::closing_cause(day, table, terms, outputs);
    let sums = refused(cause, day)?;
    closing::close_table(table, terms, outputs);
    let next = day_record::day_after_closing(terms.zone, sums, day);
    Ok(ClosingDone {
        day: next,
        sold: sums.sold,
        bought: sums.bought,
    })
}
