// A call of the judge: its numbers, and what a case changes of them.
use checking::{first, lent, put};
use integers::natural;
use rules::{Amounts, Day, HourTerms, Outputs, Refusal};

// One change. What stands at a place of a list has the place first.
#[derive(Clone, Copy)]
pub enum Change {
    // the record
    Users(i64),
    Length(i64),
    HHours(i64),
    HClosed,
    LHours(i64),
    LClosed,
    // the terms
    Zone(i64),
    Hour(i64),
    Upper(i64),
    Lower(i64),
    ExcessPrice(i64),
    ShortfallPrice(i64),
    // how many places are lent of the table and of each list
    TableSize(i64),
    EntrySize(i64),
    ExitSize(i64),
    TitleSize(i64),
    PoolingSize(i64),
    QuantitySize(i64),
    // a number at a place
    Table(i64, i64),
    Entry(i64, i64),
    Exit(i64, i64),
    Title(i64, i64),
    Pooling(i64, i64),
    Quantity(i64, i64),
    // the same number for every user
    EachEntry(i64),
    EachExit(i64),
    EachTitle(i64),
    EachQuantity(i64),
}

pub type Changes = &'static [Change];

// ---- a list

// The places of every list, the table among them: one more than a table has.
const PLACES: usize = 257;

#[derive(Drop)]
struct List {
    numbers: [i64; PLACES],
    // None: as many places are lent as there are users.
    size: Option<i64>,
}

impl List {
    fn zeros() -> Self {
        List {
            numbers: [0; PLACES],
            size: None,
        }
    }

    fn put(&mut self, place: i64, number: i64) {
        put(&mut self.numbers, natural(place), number);
    }

    fn places(&self, users: i64) -> usize {
        natural(self.size.unwrap_or(users))
    }

    fn lent(&self, users: i64) -> &[i64] {
        first(&self.numbers, self.places(users))
    }
}

// ---- the call

#[derive(Drop)]
pub struct Call {
    pub day: Day,
    terms: HourTerms,
    table: List,
    entries: List,
    exits: List,
    titles: List,
    poolings: List,
    quantity: List,
}

const NO_TERMS: HourTerms = HourTerms {
    zone: 0,
    hour: 0,
    upper: 0,
    lower: 0,
    excess_price: 0,
    shortfall_price: 0,
};

impl Call {
    pub(crate) fn zeros() -> Self {
        Call {
            day: checking::day_of(0, 0, 0, 0, 0, 0),
            terms: NO_TERMS,
            table: List::zeros(),
            entries: List::zeros(),
            exits: List::zeros(),
            titles: List::zeros(),
            poolings: List::zeros(),
            quantity: List::zeros(),
        }
    }

    fn make(&mut self, change: Change) {
        match change {
            Change::Users(n) => self.day.users = n,
            Change::Length(n) => self.day.length = n,
            Change::HHours(n) => self.day.h.hours = n,
            Change::HClosed => self.day.h.closed = true,
            Change::LHours(n) => self.day.l.hours = n,
            Change::LClosed => self.day.l.closed = true,
            Change::Zone(n) => self.terms.zone = n,
            Change::Hour(n) => self.terms.hour = n,
            Change::Upper(n) => self.terms.upper = n,
            Change::Lower(n) => self.terms.lower = n,
            Change::ExcessPrice(n) => self.terms.excess_price = n,
            Change::ShortfallPrice(n) => self.terms.shortfall_price = n,
            Change::TableSize(n) => self.table.size = Some(n),
            Change::EntrySize(n) => self.entries.size = Some(n),
            Change::ExitSize(n) => self.exits.size = Some(n),
            Change::TitleSize(n) => self.titles.size = Some(n),
            Change::PoolingSize(n) => self.poolings.size = Some(n),
            Change::QuantitySize(n) => self.quantity.size = Some(n),
            Change::Table(place, n) => self.table.put(place, n),
            Change::Entry(place, n) => self.entries.put(place, n),
            Change::Exit(place, n) => self.exits.put(place, n),
            Change::Title(place, n) => self.titles.put(place, n),
            Change::Pooling(place, n) => self.poolings.put(place, n),
            Change::Quantity(place, n) => self.quantity.put(place, n),
            Change::EachEntry(n) => self.entries.numbers = [n; PLACES],
            Change::EachExit(n) => self.exits.numbers = [n; PLACES],
            Change::EachTitle(n) => self.titles.numbers = [n; PLACES],
            Change::EachQuantity(n) => self.quantity.numbers = [n; PLACES],
        }
    }

    pub(crate) fn change(&mut self, changes: &[Change]) {
        for change in changes {
            self.make(*change);
        }
    }

    // Gives the first users these quantities; the others keep theirs.
    pub(crate) fn set_quantities(&mut self, quantities: &[i64]) {
        for (place, number) in self.quantity.numbers.iter_mut().zip(quantities) {
            *place = *number;
        }
    }

    fn amounts(&self) -> Amounts<'_> {
        let users = self.day.users;
        Amounts {
            entries: self.entries.lent(users),
            exits: self.exits.lent(users),
            titles: self.titles.lent(users),
            poolings: self.poolings.lent(users),
        }
    }

    pub(crate) fn judge(&self) -> Result<Day, Refusal> {
        let users = self.day.users;
        gas_day::judge_hour(
            self.day,
            self.table.lent(users),
            self.terms,
            &self.amounts(),
            self.quantity.lent(users),
        )
    }

    // The quantities that settling the hour gives, the judge's own left aside. It settles a copy of the table, so that the judge is lent the table before.
    pub(crate) fn settled(&self) -> Result<[i64; PLACES], Refusal> {
        let users = self.day.users;
        let n = natural(users);
        let mut table = self.table.numbers;
        let mut quantity = [0i64; PLACES];
        let mut money = [0i64; PLACES];
        let mut scratch = [0u64; PLACES];
        let mut outputs = Outputs {
            quantity: lent(&mut quantity, 0, n),
            money: lent(&mut money, 0, n),
        };
        gas_day::settle_hour(
            self.day,
            lent(&mut table, 0, self.table.places(users)),
            self.terms,
            &self.amounts(),
            &mut outputs,
            lent(&mut scratch, 0, n),
        )?;
        Ok(quantity)
    }
}
