use crate::sheet::Sheet;
use measures::measure::Measure;
use operators::set::OperatorSet;

// What candidates are worked out from.
#[derive(Drop)]
pub struct Problem<S: OperatorSet, M: Measure> {
    pub(crate) set: S,
    pub(crate) measure: M,
    pub(crate) sheet: Sheet,
}
