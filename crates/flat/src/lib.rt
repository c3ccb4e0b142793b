// The answers for C: no enum crosses, so each becomes a struct with C's layout that holds its cause, 0 for none, beside its values; what a refusal does not
// answer is 0. A `refused` is told a cause's number, any there may be, and is what C sees of such a refusal.

#![tactic(auto)]

ghost use Rattle.std.specs.Prelude.{◌≡◌};
ghost use Rattle.flat.specs.Flat.{flat_open, flat_thresholds, settled_hour, flat_done, flat_hour, flat_judged, flat_closing, flat_file, flat_written};
ghost use Rattle.flat.specs.Flat.{refused_open, refused_thresholds, refused_hour, refused_closing, refused_file, refused_written};

use allocation_file::FileRead;
use allocation_row::FileCause;
use allocation_writer::WriteCause;
use record_c::DayC;
use rules::{Cause, ClosingDone, Day, HourDone, Marks, Outcome, Refusal, Side, Thresholds};

// ---- opening

#[repr(C)]
#[derive(Clone, Copy, Default)]
pub struct OpenC {
    pub cause: u64,
    pub day: DayC,
}

impl OpenC {
    #[tactic(auto, unfolding(rules::specs::Days::new_day, record_c::specs::Records::day_for_c, record_c::specs::Records::zone_for_c))]
    pub fn refused(cause: u64) -> OpenC
        ensures { result ≡ refused_open cause }
    {
        OpenC {
            cause,
            ..OpenC::default()
        }
    }
}

impl From<Result<Day, Cause>> for OpenC {
    ghost from_gives = { λ answer flat. flat ≡ flat_open answer };

    fn from(answer: Result<Day, Cause>) -> OpenC {
        match answer {
            Err(cause) => OpenC::refused(cause.number()),
            Ok(opened) => {
                let day = DayC::from(opened);
                OpenC { cause: 0, day }
            }
        }
    }
}

// ---- default thresholds

#[repr(C)]
#[derive(Clone, Copy, Default)]
pub struct ThresholdsC {
    pub cause: u64,
    pub upper: i64,
    pub lower: i64,
}

impl ThresholdsC {
    pub fn refused(cause: u64) -> ThresholdsC
        ensures { result ≡ refused_thresholds cause }
    {
        ThresholdsC {
            cause,
            ..ThresholdsC::default()
        }
    }
}

impl From<Result<Thresholds, Cause>> for ThresholdsC {
    ghost from_gives = { λ answer flat. flat ≡ flat_thresholds answer };

    fn from(answer: Result<Thresholds, Cause>) -> ThresholdsC {
        match answer {
            Err(cause) => ThresholdsC::refused(cause.number()),
            Ok(thresholds) => ThresholdsC {
                cause: 0,
                upper: thresholds.upper,
                lower: thresholds.lower,
            },
        }
    }
}

// ---- an hour

// The side is 0 within the thresholds, 1 in an excess, 2 in a shortfall.
#[repr(C)]
#[derive(Clone, Copy, Default)]
pub struct HourC {
    pub cause: u64,
    pub day: DayC,
    pub side: u64,
    pub total: i64,
    pub first: u64,
    pub second: u64,
    pub number: u64,
}

impl HourC {
    // The answer for the record that was given: a refusal gives that record back as it is, an odd mark in it too.
    pub fn of(given: DayC, answer: Result<HourDone, Refusal>) -> HourC
        ensures { result ≡ flat_hour given answer }
    {
        match answer {
            Err(refusal) => HourC::refused(given, refusal.cause.number()),
            Ok(done) => HourC::done(done.day.into(), done.outcome),
        }
    }

    pub fn refused(given: DayC, cause: u64) -> HourC
        ensures { result ≡ refused_hour given cause }
    {
        HourC {
            cause,
            day: given,
            ..HourC::default()
        }
    }

    fn done(day: DayC, outcome: Outcome) -> HourC
        ensures { result ≡ flat_done day outcome }
    {
        match outcome {
            Outcome::Within => HourC {
                day,
                ..HourC::default()
            },
            Outcome::Settled(Side::Excess(total), marks) => HourC::settled(day, 1, total, marks),
            Outcome::Settled(Side::Shortfall(total), marks) => HourC::settled(day, 2, total, marks),
        }
    }

    fn settled(day: DayC, side: u64, total: i64, marks: Marks) -> HourC
        ensures { result ≡ settled_hour day side total marks }
    {
        HourC {
            cause: 0,
            day,
            side,
            total,
            first: marks.first,
            second: marks.second,
            number: marks.number,
        }
    }
}

// ---- the judge

#[repr(C)]
#[derive(Clone, Copy, Default)]
pub struct JudgedC {
    pub cause: u64,
    pub day: DayC,
}

impl JudgedC {
    // As of an hour.
    pub fn of(given: DayC, answer: Result<Day, Refusal>) -> JudgedC
        ensures { result ≡ flat_judged given answer }
    {
        match answer {
            Err(refusal) => {
                let cause = refusal.cause.number();
                JudgedC { cause, day: given }
            }
            Ok(judged) => {
                let day = DayC::from(judged);
                JudgedC { cause: 0, day }
            }
        }
    }
}

// ---- a closing

#[repr(C)]
#[derive(Clone, Copy, Default)]
pub struct ClosingC {
    pub cause: u64,
    pub day: DayC,
    pub sold: i64,
    pub bought: i64,
}

impl ClosingC {
    // As of an hour.
    pub fn of(given: DayC, answer: Result<ClosingDone, Refusal>) -> ClosingC
        ensures { result ≡ flat_closing given answer }
    {
        match answer {
            Err(refusal) => ClosingC::refused(given, refusal.cause.number()),
            Ok(done) => ClosingC {
                cause: 0,
                day: done.day.into(),
                sold: done.sold,
                bought: done.bought,
            },
        }
    }

    pub fn refused(given: DayC, cause: u64) -> ClosingC
        ensures { result ≡ refused_closing given cause }
    {
        ClosingC {
            cause,
            day: given,
            ..ClosingC::default()
        }
    }
}

// ---- the hour's file

#[repr(C)]
#[derive(Clone, Copy, Default)]
pub struct FileC {
    pub cause: u64,
    pub hour: i64,
    pub zone: i64,
    pub lines: i64,
}

impl FileC {
    pub fn refused(cause: u64) -> FileC
        ensures { result ≡ refused_file cause }
    {
        FileC {
            cause,
            ..FileC::default()
        }
    }
}

impl From<Result<FileRead, FileCause>> for FileC {
    ghost from_gives = { λ answer flat. flat ≡ flat_file answer };

    fn from(answer: Result<FileRead, FileCause>) -> FileC {
        match answer {
            Err(cause) => FileC::refused(cause.number()),
            Ok(file) => FileC {
                cause: 0,
                hour: file.hour,
                zone: file.zone,
                lines: file.lines,
            },
        }
    }
}

// ---- the hour's file, written

#[repr(C)]
#[derive(Clone, Copy, Default)]
pub struct WrittenC {
    pub cause: u64,
    pub bytes: i64,
}

impl WrittenC {
    pub fn refused(cause: u64) -> WrittenC
        ensures { result ≡ refused_written cause }
    {
        WrittenC { cause, bytes: 0 }
    }
}

impl From<Result<i64, WriteCause>> for WrittenC {
    ghost from_gives = { λ answer flat. flat ≡ flat_written answer };

    fn from(answer: Result<i64, WriteCause>) -> WrittenC {
        match answer {
            Err(cause) => WrittenC::refused(cause.number()),
            Ok(bytes) => WrittenC { cause: 0, bytes },
        }
    }
}
