// The rules of a sound volume, by name.
ghost use Rattle.std.specs.Prelude.{◌≡◌};
ghost use Rattle.faults.specs.Faults.{unsound};
ghost use Rattle.volume.specs.RuleNumbers.{rule_number};

use faults::{Fault, Question};

// In the order in which they are asked; the first that is broken is the one that is told.
#[derive(Clone, Copy, Debug, PartialEq, Eq)]
pub enum Rule {
    Sizes = 1,
    FreeList = 2,
    Root = 3,
    Inodes = 4,
    Addresses = 5,
    Blocks = 6,
    Dots = 7,
    Entries = 8,
}

impl Rule {
    // Not `u8::from`, which would not say that it is the number which is printed.
    pub fn number(self) -> u8
        ensures { result ≡ rule_number self }
    {
        self as u8
    }
}

// Question 17's refusal of a volume that breaks this rule first.
impl From<Rule> for Fault {
    ghost from_gives = { λ rule fault. fault ≡ unsound (rule_number rule) };

    fn from(rule: Rule) -> Fault {
        Fault {
            rule: rule.number(),
            ..Fault::from(Question::VolumeSound)
        }
    }
}
