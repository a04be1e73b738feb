// Counting the cases of a test program: how many were tried, and which went wrong.
#![tactic(auto)]

ghost use Rattle.std.specs.Prelude.{◌≡◌, ◌≢◌, true, is_ok, IfOk, OnOk, ◌==◌, ◌&&◌};
ghost use Rattle.tally.specs.Answers.{outcome_of};
ghost use Rattle.tally.specs.Counts.{one_more, unless};

use anyhow::ensure;
use arrayvec::ArrayString;
use faults::{Fault, Question};
use std::fmt::{Debug, Write};
use std::io;

// The most bytes that are kept of the words of a wrong case.
const MAX_WORDS: usize = 256;

// The cases since the last report, and whether all that were reported went right.
#[derive(Drop)]
pub struct Tally {
    tried: usize,
    wrong: usize,
    first: Option<ArrayString<MAX_WORDS>>,
    right: bool,
}

// How a call went: accepted, or refused by a question.
pub type Outcome = Result<(), Question>;

// An answer without its value, and a refusal by its question alone.
pub fn outcome<T: Drop>(answer: Result<T, Fault>) -> Outcome
    ensures { result ≡ outcome_of answer }
{
    answer.map(|_| ()).map_err(|fault| fault.question)
}

impl Tally {
    pub fn new() -> Tally
        ensures tried { result.tried ≡ 0 }
        ensures wrong { result.wrong ≡ 0 }
        ensures right { result.right ≡ true }
    {
        Tally {
            tried: 0,
            wrong: 0,
            first: None,
            right: true,
        }
    }

    // One case: what came, and what the rules give.
    pub fn expect<T: PartialEq + Debug + Drop>(&mut self, name: &str, came: T, wanted: T)
        ensures tried { self.new.tried ≡ one_more self.old.tried }
        ensures wrong { self.new.wrong ≡ unless (T.eq came wanted) self.old.wrong }
        ensures right { self.new.right ≡ self.old.right }
    {
        self.tried = self.tried.saturating_add(1);
        if came != wanted {
            self.wrong = self.wrong.saturating_add(1);
            if self.first.is_none() {
                let mut words = ArrayString::new();
                // Words that do not fit are left out: a case asks for no memory.
                let _cut = write!(words, "{name}: {came:?} came, the rules give {wanted:?}");
                self.first = Some(words);
            }
        }
    }

    // One case of a call, by its outcome.
    pub fn answers<T: Drop>(&mut self, name: &str, answer: Result<T, Fault>, wanted: Outcome)
        ensures tried { self.new.tried ≡ one_more self.old.tried }
        ensures passed { outcome_of answer ≡ wanted → self.new.wrong ≡ self.old.wrong }
        ensures failed { outcome_of answer ≢ wanted → self.new.wrong ≡ one_more self.old.wrong }
        ensures right { self.new.right ≡ self.old.right }
    {
        self.expect(name, outcome(answer), wanted);
    }

    // Shows what came of the cases since the last report, and answers whether all of them went right.
    pub fn report(&mut self, rt: &impl Print, name: &str) -> io::Result<bool>
        ensures answer { IfOk result (λ all. all ≡ (self.old.wrong == 0)) }
        ensures right { OnOk result (self.new.right ≡ (self.old.right && (self.old.wrong == 0))) }
        ensures tried { OnOk result (self.new.tried ≡ 0) }
        ensures wrong { OnOk result (self.new.wrong ≡ 0) }
    {
        let tried = self.tried;
        let wrong = self.wrong;
        println!(rt; "{name}: {tried} cases, {wrong} wrong")?;
        if let Some(first) = self.first.take() {
            println!(rt; "  first {first}")?;
        }
        self.tried = 0;
        self.wrong = 0;
        self.right &= wrong == 0;
        Ok(wrong == 0)
    }

    // A test program's result.
    pub fn verdict(&self) -> anyhow::Result<()>
        ensures { is_ok result ≡ self.now.right }
    {
        ensure!(self.right, "some cases went wrong");
        Ok(())
    }
}
