// Calculations with keys, each a number whose bits name covers.
ghost use Rattle.std.specs.Prelude.{◌≡◌, ◌==◌};
ghost use Rattle.keys.specs.Calls.{SaysFits};
ghost use Rattle.keys.specs.Keys.{parity, product, remainder, key_sum};

// Whether a number has an odd number of ones.
pub(crate) fn is_odd(n: u64) -> bool
    ensures { result ≡ (parity n == 1) }
{
    n.count_ones() % 2 == 1
}

// Whether two keys share an odd number of ones: then their product is 1.
fn overlap(a: u64, b: u64) -> bool
    ensures { result ≡ (product a b == 1) }
{
    is_odd(a & b)
}

pub(crate) fn key_sum(keys: &[u64]) -> u64
    ensures { result ≡ key_sum keys.now }
{
    keys.iter().fold(0, |sum, key| sum ^ key)
}

// The candidate with each key taken off that overlaps with it.
pub(crate) fn remainder(keys: &[u64], candidate: u64) -> u64
    ensures { result ≡ remainder keys.now candidate }
{
    keys.iter()
        .copied()
        .filter(|key| overlap(*key, candidate))
        .fold(candidate, |rest, key| rest ^ key)
}

// Whether the candidate is orthonormal to the keys: odd, and overlapping with none.
pub(crate) fn fits(keys: &[u64], candidate: u64) -> bool
    ensures { SaysFits keys.now candidate result }
{
    is_odd(candidate) && keys.iter().all(|key| !overlap(*key, candidate))
}
