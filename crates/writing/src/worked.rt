// Worked cases of the allotment of blocks, proved from the rules.
ghost use Rattle.writing.specs.Worked.{WorkedFiles};

pub fn worked_files_stand() -> u8
    ensures { WorkedFiles }
{
    0
}
