// The table of the keys that stand in a wallet, with what always holds of them.
ghost use Rattle.std.specs.Prelude.{◌≡◌, ◌≤◌, length, take};
ghost use Rattle.keys.specs.Keys.{Own, Others, Below};

mod calls;
mod reads;

// The first `count` keys stand, in the order of their levels, and are orthonormal. An `ArrayVec` would not be `Copy`.
#[derive(Clone, Copy, Drop)]
pub struct KeyTable {
    keys: [u64; 16],
    count: usize,
    // Only `new` sets it. A type cannot say so, and each call that changes the table does.
    covers: usize,
    ghost places: { length keys ≡ 16 },
    ghost few: { count ≤ 16 },
    ghost least: { 2 ≤ covers },
    ghost most: { covers ≤ 32 },
    ghost own: { Own (take count keys) },
    ghost others: { Others (take count keys) },
    ghost below: { Below covers (take count keys) },
}
