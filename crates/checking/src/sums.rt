// Sums of a day's numbers that cannot wrap.
ghost use Rattle.std.specs.Prelude.{◌≡◌};
ghost use Rattle.checking.specs.Sums.{near, plus, added, balanced};

// Above every sum of a day.
const FAR: i64 = 1_000_000_000_000_000;

#[tactic(auto, unfolding(crate::specs::Sums::near))]
fn near(x: i64) -> bool
    ensures { result ≡ near x }
{
    integers::within(-FAR, FAR, x)
}

// The sum of two numbers that are near, else a number that is not.
#[tactic(auto, unfolding(crate::specs::Sums::plus))]
pub fn plus(a: i64, b: i64) -> i64
    ensures { result ≡ plus a b }
{
    if near(a) && near(b) { a + b } else { FAR + 1 }
}

// Adds a list to another, place by place.
pub fn add(sums: &mut [i64], list: &[i64])
    ensures { sums.new ≡ added sums.old list.now }
{
    for (i, sum) in sums.iter_mut().enumerate() {
        *sum = plus(*sum, super::at(list, i));
    }
}

// Two lists of sums: true ones, and the same.
#[tactic(auto, using(crate::proofs::Equality::same_is), unfolding(crate::specs::Sums::near, crate::specs::Sums::balanced))]
pub fn balanced(a: &[i64], b: &[i64]) -> bool
    ensures { result ≡ balanced a.now b.now }
{
    integers::all_within(-FAR, FAR, a) && a == b
}
