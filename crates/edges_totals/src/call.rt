// A call of an hour, of its preview, of the judge or of a closing: its numbers, what a case changes of them, and the lists that it is lent to write.
use checking::{all_are, first, lent, put};
use integers::natural;
use rules::{Amounts, ClosingDone, ClosingTerms, Day, HourDone, HourTerms, Outputs, Refusal};

// One change. What stands at a place of a list has the place first.
#[derive(Clone, Copy)]
pub enum Change {
    // the record; the totals are sold and bought of H, then of L
    Users(i64),
    Length(i64),
    HHours(i64),
    HClosed,
    LHours(i64),
    LClosed,
    Totals(i64, i64, i64, i64),
    // the terms
    Zone(i64),
    Hour(i64),
    Upper(i64),
    Lower(i64),
    ExcessPrice(i64),
    ShortfallPrice(i64),
    // how many places are lent of the table and of every list
    TableSize(i64),
    ListsSize(i64),
    // a number at a place
    Table(i64, i64),
    Entry(i64, i64),
    Exit(i64, i64),
    Title(i64, i64),
    Pooling(i64, i64),
    // the same number at every place of a zone's part of the table, by its first place, and for every user
    EachPlace(i64, i64),
    EachEntry(i64),
    EachExit(i64),
    EachTitle(i64),
}

pub type Changes = &'static [Change];

// The places of every list, the table among them: one more than a table has.
pub const PLACES: usize = 257;

// What the lists to be written hold before a call.
const LENT_QUANTITY: i64 = 71;

const LENT_MONEY: i64 = 72;

const LENT_SCRATCH: u64 = 73;

const LENT_AFTER: i64 = 74;

// ---- the numbers of a call

#[derive(Drop)]
pub struct Call {
    pub day: Day,
    terms: HourTerms,
    table_size: i64,
    // None: as many places are lent as there are users.
    lists_size: Option<i64>,
    table: [i64; PLACES],
    entries: [i64; PLACES],
    exits: [i64; PLACES],
    titles: [i64; PLACES],
    poolings: [i64; PLACES],
}

const NO_TERMS: HourTerms = HourTerms {
    zone: 0,
    hour: 0,
    upper: 0,
    lower: 0,
    excess_price: 0,
    shortfall_price: 0,
};

impl Call {
    // A call with this record and table, and no other number but 0.
    pub(crate) fn of(day: Day, table: [i64; PLACES]) -> Self {
        Call {
            day,
            terms: NO_TERMS,
            table_size: 0,
            lists_size: None,
            table,
            entries: [0; PLACES],
            exits: [0; PLACES],
            titles: [0; PLACES],
            poolings: [0; PLACES],
        }
    }

    pub(crate) fn zeros() -> Self {
        Call::of(checking::day_of(0, 0, 0, 0, 0, 0), [0; PLACES])
    }

    fn make(&mut self, change: Change) {
        match change {
            Change::Users(n) => self.day.users = n,
            Change::Length(n) => self.day.length = n,
            Change::HHours(n) => self.day.h.hours = n,
            Change::HClosed => self.day.h.closed = true,
            Change::LHours(n) => self.day.l.hours = n,
            Change::LClosed => self.day.l.closed = true,
            Change::Totals(a, b, c, d) => self.day = checking::with_totals(self.day, a, b, c, d),
            Change::Zone(n) => self.terms.zone = n,
            Change::Hour(n) => self.terms.hour = n,
            Change::Upper(n) => self.terms.upper = n,
            Change::Lower(n) => self.terms.lower = n,
            Change::ExcessPrice(n) => self.terms.excess_price = n,
            Change::ShortfallPrice(n) => self.terms.shortfall_price = n,
            Change::TableSize(n) => self.table_size = n,
            Change::ListsSize(n) => self.lists_size = Some(n),
            Change::Table(place, n) => put(&mut self.table, natural(place), n),
            Change::Entry(place, n) => put(&mut self.entries, natural(place), n),
            Change::Exit(place, n) => put(&mut self.exits, natural(place), n),
            Change::Title(place, n) => put(&mut self.titles, natural(place), n),
            Change::Pooling(place, n) => put(&mut self.poolings, natural(place), n),
            Change::EachPlace(place, n) => lent(&mut self.table, natural(place), 128).fill(n),
            Change::EachEntry(n) => self.entries = [n; PLACES],
            Change::EachExit(n) => self.exits = [n; PLACES],
            Change::EachTitle(n) => self.titles = [n; PLACES],
        }
    }

    pub(crate) fn change(&mut self, changes: &[Change]) {
        for change in changes {
            self.make(*change);
        }
    }

    // The places that are lent of every list.
    fn places(&self) -> usize {
        natural(self.lists_size.unwrap_or(self.day.users))
    }

    fn amounts(&self) -> Amounts<'_> {
        let n = self.places();
        Amounts {
            entries: first(&self.entries, n),
            exits: first(&self.exits, n),
            titles: first(&self.titles, n),
            poolings: first(&self.poolings, n),
        }
    }

    fn closing_terms(&self) -> ClosingTerms {
        ClosingTerms {
            zone: self.terms.zone,
            excess_price: self.terms.excess_price,
            shortfall_price: self.terms.shortfall_price,
        }
    }
}

// ---- the lists that are lent to a call to be written

#[derive(Drop)]
pub struct Lists {
    pub table: [i64; PLACES],
    pub quantity: [i64; PLACES],
    money: [i64; PLACES],
    scratch: [u64; PLACES],
    after: [i64; PLACES],
}

impl Lists {
    pub(crate) fn before(call: &Call) -> Self {
        Lists {
            table: call.table,
            quantity: [LENT_QUANTITY; PLACES],
            money: [LENT_MONEY; PLACES],
            scratch: [LENT_SCRATCH; PLACES],
            after: [LENT_AFTER; PLACES],
        }
    }

    pub(crate) fn table_kept(&self, call: &Call) -> bool {
        self.table == call.table
    }

    pub(crate) fn quantity_kept(&self) -> bool {
        all_are(&self.quantity, LENT_QUANTITY)
    }

    pub(crate) fn money_kept(&self) -> bool {
        all_are(&self.money, LENT_MONEY)
    }

    pub(crate) fn scratch_kept(&self) -> bool {
        all_are(&self.scratch, LENT_SCRATCH)
    }

    pub(crate) fn after_kept(&self) -> bool {
        all_are(&self.after, LENT_AFTER)
    }
}

// ---- the four calls

pub(crate) fn settle(call: &Call, lists: &mut Lists) -> Result<HourDone, Refusal> {
    let n = call.places();
    let mut outputs = Outputs {
        quantity: lent(&mut lists.quantity, 0, n),
        money: lent(&mut lists.money, 0, n),
    };
    gas_day::settle_hour(
        call.day,
        lent(&mut lists.table, 0, natural(call.table_size)),
        call.terms,
        &call.amounts(),
        &mut outputs,
        lent(&mut lists.scratch, 0, n),
    )
}

pub(crate) fn preview(call: &Call, lists: &mut Lists) -> Result<HourDone, Refusal> {
    let n = call.places();
    let mut outputs = Outputs {
        quantity: lent(&mut lists.quantity, 0, n),
        money: lent(&mut lists.money, 0, n),
    };
    gas_day::preview_hour(
        call.day,
        first(&call.table, natural(call.table_size)),
        call.terms,
        &call.amounts(),
        &mut outputs,
        lent(&mut lists.after, 0, n),
        lent(&mut lists.scratch, 0, n),
    )
}

// The quantities are those of the first users; the others have 0.
pub(crate) fn judge(call: &Call, quantities: &[i64]) -> Result<Day, Refusal> {
    let mut list = [0i64; PLACES];
    for (place, number) in list.iter_mut().zip(quantities) {
        *place = *number;
    }
    gas_day::judge_hour(
        call.day,
        first(&call.table, natural(call.table_size)),
        call.terms,
        &call.amounts(),
        first(&list, call.places()),
    )
}

pub(crate) fn close(call: &Call, lists: &mut Lists) -> Result<ClosingDone, Refusal> {
    let n = call.places();
    let mut outputs = Outputs {
        quantity: lent(&mut lists.quantity, 0, n),
        money: lent(&mut lists.money, 0, n),
    };
    gas_day::close_zone(
        call.day,
        lent(&mut lists.table, 0, natural(call.table_size)),
        call.closing_terms(),
        &mut outputs,
    )
}
