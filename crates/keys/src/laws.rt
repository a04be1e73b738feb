// The theorems of key algebra, which are proved over every field in which 1 + 1 is 0, for the field of bits.
ghost use Rattle.keys.specs.Algebra.{KeyAlgebra};
ghost use Rattle.keys.specs.Bits.{bits};

pub fn key_algebra_stands() -> u8
    ensures { KeyAlgebra bits }
{
    0
}
