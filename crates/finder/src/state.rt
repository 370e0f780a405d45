ghost use Rattle.std.specs.Prelude.{Some};
ghost use Rattle.finder.specs.Printed.{answer_text};

use crate::bank::{Bank, Candidate};
use crate::problem::Problem;
use measures::measure::Measure;
use operators::set::OperatorSet;
use std::fmt;

// Whether the sheet is open, or as what it has settled: Found with what the formula is made of, and its weight and its number of steps as a pair.
#[derive(Clone, Copy)]
pub enum State {
    Open,
    // a pair of plain numbers here and in the answer, and a case of its own for a settled sheet below, are rules of the project
    Found(Candidate, (u32, usize)),
    None,
    Full,
}

// What an advance answers: the level's weight and the places now filled; the weight and the number of steps of the formula
// found; that there is none within the limit; that the bank is too small.
#[derive(Clone, Copy, PartialEq, Eq, Debug)]
pub enum Answer {
    Level(u32, usize),
    Found((u32, usize)),
    None,
    Full,
}

impl fmt::Display for Answer {
    ghost output = { λ a. Some (answer_text a) };

    fn fmt<W: fmt::Write>(&self, f: &mut fmt::Formatter<W>) -> fmt::Result {
        match *self {
            Answer::Level(weight, places) => write!(f, "level {weight} {places}"),
            Answer::Found((weight, steps)) => write!(f, "found {weight} steps {steps}"),
            Answer::None => write!(f, "none"),
            Answer::Full => write!(f, "full"),
        }
    }
}

// What an advance comes to. A settled sheet is not searched.
#[derive(Clone, Copy)]
pub enum LevelResult {
    Settled,
    Nothing,
    Fits(Candidate, (u32, usize)),
    TooMany,
    Filled(u32, usize),
}

// The places found so far, and how far the search has come.
#[derive(Drop)]
pub struct Search {
    pub(crate) bank: Bank,
    pub(crate) state: State,
}

#[derive(Drop)]
pub struct Finder<S: OperatorSet, M: Measure> {
    pub(crate) problem: Problem<S, M>,
    pub(crate) search: Search,
}
