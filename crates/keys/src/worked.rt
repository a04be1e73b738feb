// Worked cases of the calls on keys, proved from the rules.
ghost use Rattle.keys.specs.Worked.{WorkedKeys};

pub fn worked_keys_stand() -> u8
    ensures { WorkedKeys }
{
    0
}
