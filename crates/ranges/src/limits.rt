// The limits of document 01, named here once, with the kind of amount that they bound. A single number becomes one of its kind only through a constructor that
// accepts exactly what is within the limits. The amounts of an hour come as lists: their kinds hold no number, and test a list in one pass.
ghost use Rattle.std.specs.Prelude.{◌≡◌, Bool, ℤ, pos, neg_ℤ, refl};
ghost use Rattle.integers.specs.Lists.{every};
ghost use Rattle.integers.specs.Ranges.{in_range};
ghost use Rattle.rules.specs.Limits.{entry_most, exit_most, title_most, pooling_most, position_most, total_most, price_most};
ghost use Rattle.rules.specs.Limits.{entry_fit, exit_fit, title_fit, pooling_fit, position_fit, total_fit, upper_fit, lower_fit, price_fit};
ghost use Rattle.ranges.specs.Kinds.{only_if};

// A kind of number with its limits, and the test of the rules that they stand for.
pub trait Kind {
    const LEAST: i64;

    const MOST: i64;

    ghost LEAST: { ℤ };

    ghost MOST: { ℤ };

    ghost fit: { ℤ → Bool };

    fn fits(number: i64) -> bool
        ensures { result ≡ fit number }
    {
        integers::within(Self::LEAST, Self::MOST, number)
    }

    // Every number of a list, in one pass.
    fn all_fit(list: &[i64]) -> bool
        ensures { result ≡ every fit list.now }
    {
        integers::all_within(Self::LEAST, Self::MOST, list)
    }

    ghost is_fit: { (x : ℤ) → in_range LEAST MOST x ≡ fit x };
}

// ---- single numbers

// A position in kWh, before or after settlement.
#[derive(Clone, Copy)]
pub struct Position {
    pub kwh: i64,
}

impl Kind for Position {
    const LEAST: i64 = -Self::MOST;

    const MOST: i64 = 100_000_000;

    ghost LEAST = { neg_ℤ (pos position_most) };

    ghost MOST = { pos position_most };

    ghost fit = { position_fit };

    ghost is_fit = { λ x. unfold position_fit in refl };
}

impl Position {
    pub fn checked(kwh: i64) -> Option<Position>
        ensures { result ≡ only_if (position_fit kwh) (record { kwh = kwh }) }
    {
        Position::fits(kwh).then_some(Position { kwh })
    }
}

// What was sold so far in a zone, or bought, in kWh and as a size. (It holds no number: the record's totals are tested where they stand.)
#[derive(Clone, Copy)]
pub struct Total {}

impl Kind for Total {
    const LEAST: i64 = 0;

    const MOST: i64 = 332_800_000_000;

    ghost LEAST = { pos 0 };

    ghost MOST = { pos total_most };

    ghost fit = { total_fit };

    ghost is_fit = { λ x. unfold total_fit in refl };
}

// A price in millionths of a euro per kWh.
#[derive(Clone, Copy)]
pub struct Price {
    pub micros: i64,
}

impl Kind for Price {
    const LEAST: i64 = -Self::MOST;

    const MOST: i64 = 10_000_000;

    ghost LEAST = { neg_ℤ (pos price_most) };

    ghost MOST = { pos price_most };

    ghost fit = { price_fit };

    ghost is_fit = { λ x. unfold price_fit in refl };
}

impl Price {
    pub fn checked(micros: i64) -> Option<Price>
        ensures { result ≡ only_if (price_fit micros) (record { micros = micros }) }
    {
        Price::fits(micros).then_some(Price { micros })
    }
}

// A threshold of the market position in kWh. It is no `Kind`, which has one range: its upper and its lower are one type, as in the definitions, and of two.
#[derive(Clone, Copy)]
pub struct Threshold {
    pub kwh: i64,
}

impl Threshold {
    pub const UPPER_LEAST: i64 = 0;

    pub const UPPER_MOST: i64 = 1_000_000_000;

    pub const LOWER_LEAST: i64 = -Threshold::UPPER_MOST;

    pub const LOWER_MOST: i64 = 0;

    #[tactic(auto, unfolding(rules::specs::Limits::upper_fit))]
    pub fn checked_upper(kwh: i64) -> Option<Threshold>
        ensures { result ≡ only_if (upper_fit kwh) (record { kwh = kwh }) }
    {
        let fits = integers::within(Threshold::UPPER_LEAST, Threshold::UPPER_MOST, kwh);
        fits.then_some(Threshold { kwh })
    }

    #[tactic(auto, unfolding(rules::specs::Limits::lower_fit))]
    pub fn checked_lower(kwh: i64) -> Option<Threshold>
        ensures { result ≡ only_if (lower_fit kwh) (record { kwh = kwh }) }
    {
        let fits = integers::within(Threshold::LOWER_LEAST, Threshold::LOWER_MOST, kwh);
        fits.then_some(Threshold { kwh })
    }
}

// ---- lists of amounts in kWh

// Entries (EEA).
#[derive(Clone, Copy)]
pub struct Entry {}

impl Kind for Entry {
    const LEAST: i64 = 0;

    const MOST: i64 = 50_000_000;

    ghost LEAST = { pos 0 };

    ghost MOST = { pos entry_most };

    ghost fit = { entry_fit };

    ghost is_fit = { λ x. unfold entry_fit in refl };
}

// Exits (XEA): already negative.
#[derive(Clone, Copy)]
pub struct Exit {}

impl Kind for Exit {
    const LEAST: i64 = -50_000_000;

    const MOST: i64 = 0;

    ghost LEAST = { neg_ℤ (pos exit_most) };

    ghost MOST = { pos 0 };

    ghost fit = { exit_fit };

    ghost is_fit = { λ x. unfold exit_fit in refl };
}

// Net title transfers (NCTTN).
#[derive(Clone, Copy)]
pub struct Title {}

impl Kind for Title {
    const LEAST: i64 = -Self::MOST;

    const MOST: i64 = 50_000_000;

    ghost LEAST = { neg_ℤ (pos title_most) };

    ghost MOST = { pos title_most };

    ghost fit = { title_fit };

    ghost is_fit = { λ x. unfold title_fit in refl };
}

// Pooling transfers (IPT).
#[derive(Clone, Copy)]
pub struct Pooling {}

impl Kind for Pooling {
    const LEAST: i64 = -Self::MOST;

    const MOST: i64 = 100_000_000;

    ghost LEAST = { neg_ℤ (pos pooling_most) };

    ghost MOST = { pos pooling_most };

    ghost fit = { pooling_fit };

    ghost is_fit = { λ x. unfold pooling_fit in refl };
}
