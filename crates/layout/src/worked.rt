// Worked places of inodes, proved from the rules.
ghost use Rattle.layout.specs.Worked.{WorkedPlaces};

pub fn worked_places_stand() -> u8
    ensures { WorkedPlaces }
{
    0
}
