ghost use Rattle.std.specs.Prelude.{◌≡◌, [], ◌∷◌};
ghost use Rattle.formulas.specs.Says.{top_arity};
ghost use Rattle.formulas.specs.declared.steps.Top.TheVariants.{Channel};

use fixed::list::FixedList;
use operators::set::OperatorSet;

// The most steps that a formula has.
pub const MOST_STEPS: usize = 513;

// What stands at the top of a formula: a channel or an operator, by its number.
#[derive(Clone, Copy)]
pub enum Top {
    Channel(u8),
    Operator(u8),
}

// One part of a formula: its top, and the numbers of its arguments' steps; those past the arity are 0, in a record too, and how many
// count is the set's to say.
#[derive(Clone, Copy)]
pub struct Step {
    pub top: Top,
    pub args: [u16; 2],
}

// The steps of a formula, in fixed memory.
pub type Steps = FixedList<Step, MOST_STEPS>;

// What stands where there is no step: channel 0.
impl Default for Step {
    ghost is_default = { λ r. (r.top ≡ Channel 0) × (r.args ≡ 0 ∷ 0 ∷ []) };

    fn default() -> Step {
        Step {
            top: Top::Channel(0),
            args: [0, 0],
        }
    }
}

impl Top {
    // How many arguments it takes.
    pub fn arity<S: OperatorSet>(self, set: &S) -> u8
        ensures { result ≡ top_arity (S.OperatorSet.meaning set.now) self }
    {
        match self {
            Top::Channel(_) => 0,
            Top::Operator(op) => set.arity(op),
        }
    }
}
