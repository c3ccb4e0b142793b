// The certificate: every promise to the user that is a theorem of the definitions, each as the contract of a function that does nothing. The gate proves every function, so it asks for
// every theorem: where a proof is missing, its function here is not proved.
//
// `using` above a function names its theorem's proof. A function without that line has a file in proofs/ that does: the proof's name has a dash, which `using` does not take, the search
// does not get from the proof to the contract, or it does without (`CauseGiven`).
//
// That the calls do what the definitions say is each call's own contract, an equation for the answer and for every lent area, refused or accepted: `open`, `default_thresholds`,
// `settle_hour`, `preview_hour`, `judge_hour` and `close_zone` in the crate `gas_day`, `read_hour_file` in `allocation_file`, `write_hour_file` in `allocation_writer`. A theorem below holds of the
// calls because it holds of those definitions.
//
// Words in quotation marks are the papers': of the demands, or of document 01 or 02 where a line says so.

#![tactic(auto)]

ghost use Rattle.largest_remainder.specs.Guarantees.{AddsUp, Accurate, NoMoreThanSize};
ghost use Rattle.apportionment.specs.Guarantees.{EndsWithTheLast};
ghost use Rattle.rules.specs.Guarantees.{BeginsAtZero, LengthKept, AcceptedIfFit, Conservation, ClosedIsZero, ClosedIsMarked, TotalsAreSums, OnlyAlteredPasses, OwnDayFits, Accuracy, OutcomeByThresholds, MarksAreCausers, AsSettlingACopy, AcceptedIfRight, OwnAccepted, AcceptedKeeps};
ghost use Rattle.file_guarantees.specs.Guarantees.{ReadIfObeyed, FirstFaultDecides, AcceptedObeys, CauseGiven, SmallNumbers, TwoForms, PointsInAmounts};
ghost use Rattle.file_guarantees.specs.Examples.{ExamplesComputed, CaseA};
ghost use Rattle.writer_guarantees.specs.Guarantees.{WrittenIfFit, CauseOfThree, EnoughBytes, RoundTrip, WrittenIsRead, OneText};
ghost use Rattle.writer_guarantees.specs.Examples.{CaseAWritten, TextsComputed, CausesComputed};
ghost use Rattle.record_c.specs.Guarantees.{RecordKept};
ghost use Rattle.flat.specs.Guarantees.{OddMarkRefused, PreviewKeepsRecord, JudgeKeepsRecord};
ghost use Rattle.text.specs.Examples.{DecimalsShown};
ghost use Rattle.report.specs.Examples.{CaseAShown, RefusalShown};
ghost use Rattle.cases.specs.Cases.{AllFigures};
ghost use Rattle.cases.specs.Examples.{WholeDays, TwelveUsers, JudgedLists, TotalsAtTheBound, Defaults};

// ---- the initial state

// "The Gas Day shall be shown to begin at zero, not supposed to."
#[tactic(auto, using(rules::proofs::Guarantees::begins_at_zero))]
pub fn the_gas_day_begins_at_zero()
    ensures { BeginsAtZero }
{}

// Document 02: "Opening must be told 23, 24 or 25 and the day record keeps it."
#[tactic(auto, using(rules::proofs::Guarantees::length_kept))]
pub fn the_day_keeps_its_length()
    ensures { LengthKept }
{}

// ---- demand 2: what is accepted, and what is refused

// "an hour or closing is accepted if and only if no listed cause exists"
#[tactic(auto, using(rules::proofs::Guarantees::accepted_if_fit))]
pub fn hours_and_closings_are_accepted_if_fit()
    ensures { AcceptedIfFit }
{}

// "a file lent with lists of the right length is read if and only if it obeys the file rules"
pub fn files_are_read_if_they_obey()
    ensures { ReadIfObeyed }
{}

// Document 01: "For 14 to 16 the lines are taken in turn; within one line 14, then 15, then 16."
#[tactic(auto, using(file_guarantees::proofs::Guarantees::first_fault_decides))]
pub fn the_first_fault_decides()
    ensures { FirstFaultDecides }
{}

// Document 01: "It answers h, z as the zone's number, and the number of lines."
#[tactic(auto, using(file_guarantees::proofs::Guarantees::accepted_obeys))]
pub fn an_accepted_file_obeys()
    ensures { AcceptedObeys }
{}

// Document 01: "the reader 12 to 17"
pub fn a_refused_file_has_a_cause()
    ensures { CauseGiven }
{}

// Document 01: "A number has 1 to 9 digits"; "z is the letter H or L"
pub fn the_numbers_of_a_line_are_small()
    ensures { SmallNumbers }
{}

// Document 02: "A field without a point still means kWh. A field with a point has one to six digits before it, written as whole numbers are, with 0 allowed there"; "exactly three decimals, so 12.345
// means 12,345 kWh"; "the reading rule covers both": a field is read as an amount if and only if it has that amount in one of the two forms.
#[tactic(auto, using(file_guarantees::proofs::Guarantees::two_forms))]
pub fn an_amount_has_one_of_two_forms()
    ensures { TwoForms }
{}

// Document 02: "the last four fields in MWh": no other field of a line that is read has a point.
#[tactic(auto, using(file_guarantees::proofs::Guarantees::points_in_amounts))]
pub fn only_amounts_have_points()
    ensures { PointsInAmounts }
{}

// ---- the writer of the hour's file

// Document 02: "Every amount of up to nine digits can be written": a file is written if and only if none of the causes 18 to 20 exists.
#[tactic(auto, using(writer_guarantees::proofs::Guarantees::written_if_fit))]
pub fn files_are_written_if_fit()
    ensures { WrittenIfFit }
{}

// Document 02: "New numbers: 18 .. then 19 .. then 20"
#[tactic(auto, using(writer_guarantees::proofs::Guarantees::cause_of_three))]
pub fn a_refused_writing_has_a_cause()
    ensures { CauseOfThree }
{}

// Document 02: "20 if the lent bytes are too few". So many are never too few: 25, and 61 for each of 128 lines.
#[tactic(auto, using(writer_guarantees::proofs::Guarantees::enough_bytes))]
pub fn so_many_bytes_are_enough()
    ensures { EnoughBytes }
{}

// Document 02: "what is written is read to the same hour, zone and amounts"
pub fn what_is_written_is_read()
    ensures { RoundTrip }
{}

// The two calls by their contracts: the first bytes, as many as the writer answers, are read back.
pub fn a_written_file_is_read_back()
    ensures { WrittenIsRead }
{}

// And the other way: a file without a point that is read and ends in CR LF is the one that is written of what was read.
pub fn a_file_in_kwh_has_one_text()
    ensures { OneText }
{}

// ---- demand 3: every list of hours and closings

// "no kilowatt-hour has appeared or vanished at the list's end: for each zone and user, all amounts of the hours accepted equal all quantities answered by accepted hours and closings,
// plus the position standing in the table". Document 02: "The conservation rule is shown once for all lengths."
#[tactic(auto, using(rules::proofs::Guarantees::conservation))]
pub fn no_kilowatt_hour_appears_or_vanishes()
    ensures { Conservation }
{}

// "a zone whose closing was accepted holds zero in every place"
#[tactic(auto, using(rules::proofs::Guarantees::closed_is_zero))]
pub fn a_closed_zone_holds_zero()
    ensures { ClosedIsZero }
{}

// Document 01: opening answers a record with "no zone closed", and at a closing "the zone is marked closed". No other call marks a zone.
#[tactic(auto, using(rules::proofs::Guarantees::closed_is_marked))]
pub fn a_closed_zone_is_marked_and_no_other()
    ensures { ClosedIsMarked }
{}

// Document 02: "In a day carried as the conservation rule says, they equal the sums of the positive and of the negative quantities answered since opening." So they begin at zero, too.
pub fn the_totals_are_the_sums()
    ensures { TotalsAreSums }
{}

// Document 02: "Only an altered record can lead past that bound." An altered table cannot.
pub fn only_an_altered_record_leads_past_the_bound()
    ensures { OnlyAlteredPasses }
{}

// On a day passed on as the calls answered it neither 2 nor 7 is any call's cause: the record and the table that they leave are always fit.
pub fn a_day_of_our_own_is_never_turned_against_us()
    ensures { OwnDayFits }
{}

// "Whatever record and table an hour is given, once it is accepted the market after it is neither above the upper nor below the lower of that hour's thresholds, a user who did not cause
// has quantity 0, and each who did is settled by rules 4 and 5 of document 01, with a settled size less than 1 kWh from the exact share."
pub fn an_accepted_hour_is_accurate()
    ensures { Accuracy }
{}

// ---- a preview of an hour

// Document 02: "The answer and lists are those that settling a copy would give, and the positions after go to a list of exactly the user count. The same causes apply in the same order, and
// cause 3 covers the new list. Scratch is as for an hour, the record comes back unchanged": with a list of the user count a preview answers and leaves, but for the record, what the hour
// would, accepted or refused; with another it is refused by 3, or by 2.
pub fn a_preview_is_as_settling_a_copy()
    ensures { AsSettlingACopy }
{}

// ---- the judge of an operator's own quantities

// Document 02: "accept exactly when the quantities add to the excess (or to minus the shortfall, or to zero if there is neither), only causers have any, with the right sign, and each is
// less than 1 kWh from the exact share", of an hour without a cause from 2 to 11, "3 also for that list".
#[tactic(auto, using(rules::proofs::Guarantees::accepted_if_right))]
pub fn quantities_are_accepted_if_right()
    ensures { AcceptedIfRight }
{}

// Document 02: "Our own quantities are accepted".
#[tactic(auto, using(rules::proofs::Guarantees::own_accepted))]
pub fn our_own_quantities_are_accepted()
    ensures { OwnAccepted }
{}

// Document 02: "an accepted list keeps the market within its thresholds and lets no position cross zero": what is said above of an hour of ours (`Accuracy`), but for rule 4's own rounding.
pub fn an_accepted_list_keeps_the_promises()
    ensures { AcceptedKeeps }
{}

// ---- the rules of an hour, in document 01's words

// Rule 2: "Above the upper threshold there is an excess: the difference. Below the lower one there is a shortfall: the difference, taken positive. At a threshold there is neither."
pub fn the_outcome_goes_by_the_thresholds()
    ensures { OutcomeByThresholds }
{}

// Rule 3: "In an excess the causing users are those with a position above zero; in a shortfall, those below zero." These are marked, "and the number of marks is answered".
#[tactic(auto, using(rules::proofs::Guarantees::marks_are_causers))]
pub fn the_marks_are_the_causers()
    ensures { MarksAreCausers }
{}

// Rule 4: "Each gets the share rounded down. The kWh then left over go one each to the causers with the largest fractions": so all is shared, and no more.
#[tactic(auto, using(largest_remainder::proofs::Guarantees::adds_up))]
pub fn settled_sizes_add_to_the_total()
    ensures { AddsUp }
{}

// Rule 4: "a settled size is less than 1 kWh from it when that size times the sum differs from the product by less than the sum"
#[tactic(auto, using(largest_remainder::proofs::Guarantees::accurate))]
pub fn a_settled_size_is_near_the_exact_share()
    ensures { Accurate }
{}

// Document 02, of the pass that hands out the spare kWh (`apportionment::hand_out`): "inside the library it answers how many users it went to, proved to be none if nothing is spare, and else to
// end with one that got a kWh". Of whatever the pass may be given, and of what it then leaves and answers by its contract.
#[tactic(auto, using(apportionment::proofs::Guarantees::ends_with_the_last))]
pub fn handing_out_ends_with_the_last_unit()
    ensures { EndsWithTheLast }
{}

// Rule 5, of the position after: "It may reach zero and never crosses it."
#[tactic(auto, using(largest_remainder::proofs::Guarantees::no_more_than_size))]
pub fn nobody_is_settled_for_more_than_its_size()
    ensures { NoMoreThanSize }
{}

// ---- the record at the boundary to C, where whether a zone is closed is a number, 0 or 1

// "each gets the record that the last call returned": a record that a call answers to C is, given to the next call, the record of the rules.
#[tactic(auto, using(record_c::proofs::Guarantees::record_kept))]
pub fn a_record_comes_back_from_c_as_it_went()
    ensures { RecordKept }
{}

// "Every public call accepts every input, checks it itself": a record with another number there is cause 2, and comes back as it was given.
#[tactic(auto, using(flat::proofs::Guarantees::odd_mark_refused))]
pub fn a_record_with_an_odd_mark_is_refused()
    ensures { OddMarkRefused }
{}

// Document 02, of a preview: "the record comes back unchanged", through C too, accepted or refused.
#[tactic(auto, using(flat::proofs::Guarantees::preview_keeps_record))]
pub fn a_preview_gives_the_record_back()
    ensures { PreviewKeepsRecord }
{}

// Document 02, of the judge: "the record comes back unchanged", likewise.
#[tactic(auto, using(flat::proofs::Guarantees::judge_keeps_record))]
pub fn the_judge_gives_the_record_back()
    ensures { JudgeKeepsRecord }
{}

// ---- figures

// Document 01: "Cases A to K, A by its reading and its settled numbers, stand as one list with a single proof over the definitions"
#[tactic(auto, using(cases::proofs::Figures::all_figures))]
pub fn cases_a_to_k_hold()
    ensures { AllFigures }
{}

// Document 01: "Hour 24 is settled like any other before this." A day of 23, one of 24 and one of 25 hours with refused calls in it, and its closing: what the theorems on lists speak of
// is there.
#[tactic(auto, using(cases::proofs::Figures::whole_days))]
pub fn whole_days_can_be_run()
    ensures { WholeDays }
{}

// Rule 4 among twelve users: "the largest fractions; among equal fractions, the lower place first".
#[tactic(auto, using(cases::proofs::Figures::twelve_users))]
pub fn twelve_users_share_by_fractions()
    ensures { TwelveUsers }
{}

// Document 02: "Operators round in their own ways and may still be right." Lists of quantities of one to three users, ours and others, accepted, or refused by 3, 22, 23 or 24, each at its edge.
#[tactic(auto, using(cases::proofs::Figures::judged_lists))]
pub fn other_roundings_are_accepted()
    ensures { JudgedLists }
{}

// Document 02: "25, last of all causes of an hour, a preview and a closing, if a total would pass the bound." Records altered near the bound and beyond it, each just accepted or refused.
#[tactic(auto, using(cases::proofs::Figures::totals_at_the_bound))]
pub fn totals_reach_the_bound_and_do_not_pass_it()
    ensures { TotalsAtTheBound }
{}

// Document 01: "January to December, upper threshold; the lower one is its negation."
#[tactic(auto, using(cases::proofs::Figures::defaults))]
pub fn lower_defaults_are_negated()
    ensures { Defaults }
{}

// Document 01, of case A's file: the reader "fills the first as many as there are lines and touches no others".
#[tactic(auto, using(file_guarantees::proofs::Examples::case_a_lem))]
pub fn case_a_is_read()
    ensures { CaseA }
{}

// Document 01: "the first that applies is given". Small files of every kind, read or refused as it and its readings in docs/DECISIONS.md say.
pub fn small_files_are_read_as_decided()
    ensures { ExamplesComputed }
{}

// Document 02: "Write the file of document 01". Of case A's lists it is case A's file;
#[tactic(auto, using(writer_guarantees::proofs::Examples::case_a_written))]
pub fn case_a_is_written()
    ensures { CaseAWritten }
{}

// other small files, to the largest numbers;
pub fn small_files_are_written()
    ensures { TextsComputed }
{}

// and contents of every kind, written or refused, each by its first cause.
pub fn small_contents_are_refused_as_decided()
    ensures { CausesComputed }
{}

// The program's text: "all plain decimals", up to the ends of 64 bits;
#[tactic(auto, using(text::proofs::Examples::decimals_shown))]
pub fn decimals_are_shown()
    ensures { DecimalsShown }
{}

// of case A, "Output, whole";
#[tactic(auto, using(report::proofs::Examples::case_a_shown))]
pub fn case_a_is_shown()
    ensures { CaseAShown }
{}

// and of a refusal "the one line `refused,` with the number and nothing more".
#[tactic(auto, using(report::proofs::Examples::refusal_shown))]
pub fn a_refusal_is_shown()
    ensures { RefusalShown }
{}
