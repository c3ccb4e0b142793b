// Leaf functions on signed numbers and on lists of numbers. The laws that all crates above cite are in proofs/.

#![tactic(auto)]

ghost use Rattle.std.specs.Prelude.{◌≡◌};
ghost use Rattle.integers.specs.Lists.{every};
ghost use Rattle.integers.specs.Ranges.{in_range, natural};

// `lo <= x <= hi`
pub fn within(lo: i64, hi: i64, x: i64) -> bool
    ensures { result ≡ in_range lo hi x }
{
    lo <= x && x <= hi
}

// A count as a number of places; what is below 0 counts nothing.
#[tactic(auto, unfolding(crate::specs::Ranges::natural))]
pub fn natural(x: i64) -> usize
    ensures { result ≡ natural x }
{
    usize::try_from(x).unwrap_or(0)
}

// Every element from `lo` to `hi`, in a pass that stops nowhere: it is compiled to vector instructions.
pub fn all_within(lo: i64, hi: i64, list: &[i64]) -> bool
    ensures { result ≡ every (in_range lo hi) list.now }
{
    let mut fit = true;
    for x in list {
        fit &= (lo <= *x) & (*x <= hi);
    }
    fit
}
