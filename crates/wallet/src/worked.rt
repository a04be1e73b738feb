// Worked cases of what levels show and of a put, proved from the rules.
ghost use Rattle.wallet.specs.Worked.{WorkedCovers};

pub fn worked_covers_stand() -> u8
    ensures { WorkedCovers }
{
    0
}
