// The laws on whole runs of wallet calls, where levels are asked the store calls.
ghost use Rattle.law.specs.Alone.{RunsStandAlone};
ghost use Rattle.law.specs.StoreCalls.{store_calls};
ghost use Rattle.law.specs.Withheld.{ShowsNothingAbove};
ghost use Rattle.wallet.specs.Matched.{CoversAreMatched};

// After every run from a new wallet each level has answered as a lone one, and one never opened shows what it showed;
// what the shown levels answer tells nothing of the levels and the work above them; and every contents of these has its cover sets.
pub fn wallet_laws_stand() -> u8
    ensures alone { RunsStandAlone store_calls }
    ensures withheld { ShowsNothingAbove store_calls }
    ensures matched { CoversAreMatched }
{
    0
}
