// A field's bytes as a number: what they say is a number, or that they are none.
ghost use Rattle.std.specs.Prelude.{◌≡◌, length};
ghost use Rattle.text.specs.Numbers.{digits_of, unsigned_of, whole_of, decimals_of, mwh_of, size_of, positive, negative, amount_of};

// The number of 1 to 9 digits.
fn digits(field: &[u8]) -> Option<u32>
    ensures { result ≡ digits_of field.now }
{
    if field.is_empty() || 9 < field.len() {
        return None;
    }
    let mut value: u32 = 0;
    for b in field {
        if !b.is_ascii_digit() {
            return None;
        }
        value = value * 10 + u32::from(*b - b'0');
    }
    Some(value)
}

// An unsigned number: digits with no needless leading zero.
pub fn read_unsigned(field: &[u8]) -> Option<u32>
    ensures { result ≡ unsigned_of field.now }
{
    match field {
        [b'0', _, ..] => None,
        _ => digits(field),
    }
}

// A size in MWh: at most six digits of whole MWh, and the three digits of their thousandths, which are kWh.
#[tactic(auto, using(crate::proofs::Points::parts_small))]
fn read_mwh(whole: &[u8], decimals: &[u8]) -> Option<u32>
    requires { length decimals.now ≡ 3 }
    ensures { result ≡ mwh_of (whole_of whole.now) (decimals_of decimals.now) }
{
    if 6 < whole.len() {
        return None;
    }
    let mwh = read_unsigned(whole)?;
    let kwh = digits(decimals)?;
    Some(mwh * 1000 + kwh)
}

// A size in kWh, or in MWh if a point stands before the last three bytes. A point anywhere else is no digit: such a
// field is no number.
#[tactic(auto, using(crate::proofs::Points::in_kwh_lem))]
fn read_size(field: &[u8]) -> Option<u32>
    ensures { result ≡ size_of field.now }
{
    if 3 < field.len() {
        let point = field.len() - 4;
        if field[point] == b'.' {
            return read_mwh(&field[..point], &field[point + 1..]);
        }
    }
    read_unsigned(field)
}

fn positive_amount(size: Option<u32>) -> Option<i64>
    ensures { result ≡ positive size }
{
    Some(i64::from(size?))
}

// The amount that stands after a `-`: `-0` and `-0.000` are none.
fn negative_amount(size: Option<u32>) -> Option<i64>
    ensures { result ≡ negative size }
{
    match size? {
        0 => None,
        n => Some(-i64::from(n)),
    }
}

// An amount: a size that may have a `-` before it.
pub fn read_amount(field: &[u8]) -> Option<i64>
    ensures { result ≡ amount_of field.now }
{
    match field {
        [b'-', size @ ..] => negative_amount(read_size(size)),
        _ => positive_amount(read_size(field)),
    }
}
