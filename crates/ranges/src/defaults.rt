// "January to December, upper threshold; the lower one is its negation": a constant table of two zones by twelve months.
ghost use Rattle.std.specs.Prelude.{◌≡◌, true, [], ◌<◌, get_or};
ghost use Rattle.rules.specs.Limits.{zone_fit, month_fit};
ghost use Rattle.rules.specs.Thresholds.{upper_gwh, upper_default};

const KWH_PER_GWH: i64 = 1_000_000;

const UPPER_GWH: [[u8; 12]; 2] = [
    [22, 22, 22, 25, 29, 29, 30, 30, 29, 25, 22, 22],
    [13, 13, 13, 13, 15, 15, 16, 16, 15, 13, 13, 13],
];

// By the zone's row and the month's column, both from 0.
#[tactic(auto, unfolding(rules::specs::Thresholds::upper_gwh))]
fn upper_gwh(row: usize, column: usize) -> u8
    requires { (row < 2) × (column < 12) }
    ensures { result ≡ get_or (get_or upper_gwh row []) column 0 }
{
    UPPER_GWH[row][column]
}

// The default upper threshold in kWh, by month and zone.
pub fn upper_default(month: i64, zone: i64) -> i64
    requires { (zone_fit zone ≡ true) × (month_fit month ≡ true) }
    ensures { result ≡ upper_default month zone }
{
    let row = integers::natural(zone);
    let column = integers::natural(month - 1);
    i64::from(upper_gwh(row, column)) * KWH_PER_GWH
}
