// The promise over every list of calls, proved of the search over stored places.

#![tactic(auto)]

ghost use Rattle.std.specs.Prelude.{◌≡◌};
ghost use Rattle.histories.specs.Answers.{most_advances};
ghost use Rattle.histories.specs.Determined.{AnswersAreDetermined};
ghost use Rattle.formulas.specs.Steps.{most_steps};
ghost use Rattle.records.specs.Size.{record_size};
ghost use Rattle.promise.specs.Agreement.{MachinesAgree, shared_calls};
ghost use Rattle.promise.specs.Theorem.{CallsAreAnswered, AllAnswersAreTrue, ReachedAnswersAreTrue, SettledAfter};

use formulas::steps::MOST_STEPS;

// Add and advance: the calls that both machines have.
const SHARED_CALLS: u8 = 2;

// How many accepted advances always settle a sheet.
pub fn most_advances() -> usize
    ensures { result ≡ most_advances }
{
    513
}

// Whatever set and measure keep their laws, and whatever is called: every call is answered, every answer is true, and the sheet
// settles by the 513th accepted advance. The result is that number.
pub fn answers_are_true() -> usize
    ensures number { result ≡ most_advances }
    ensures all { AllAnswersAreTrue }
    ensures answered { CallsAreAnswered }
    ensures reached { ReachedAnswersAreTrue }
    ensures settled { SettledAfter most_advances }
{
    most_advances()
}

// Two histories of the same calls whose answers are true agree in every acceptance, refusal, level, kind of answer and found weight,
// but for a write's want of room. The result is how much room a write needs for that to be determined too: that of any record.
pub fn answers_are_determined() -> usize
    ensures room { result ≡ record_size most_steps }
    ensures agree { AnswersAreDetermined }
{
    // two bytes for the number of steps; for each step a byte of code and two arguments of two bytes
    2 + 5 * MOST_STEPS
}

// The machine of which this is proved does at add and advance what the search's own machine does, by which the contracts of the
// running finder speak. The result is how many of the six calls these are.
pub fn machines_agree() -> u8
    ensures calls { result ≡ shared_calls }
    ensures agree { MachinesAgree }
{
    SHARED_CALLS
}
