// What covers tell of the levels that are not disclosed: nothing, for any orthonormal keys.
ghost use Rattle.wallet.specs.Matched.{CoversAreMatched};

pub fn matched_covers_stand() -> u8
    ensures { CoversAreMatched }
{
    0
}
