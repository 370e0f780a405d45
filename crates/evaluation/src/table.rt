ghost use Rattle.std.specs.Prelude.{◌≡◌, map, get_or, slice_index_or};
ghost use Rattle.std.specs.List.{range_with_len};
ghost use Rattle.operators.specs.Bands.{most_arguments};
ghost use Rattle.formulas.specs.Says.{argument_of};

use formulas::steps::Step;

// The entry at a place, `other` past the end. One chain of the library's methods, as in other layers: the function names what this one
// means.
pub(crate) fn at<T: Copy>(table: &[T], i: usize, other: T) -> T
    ensures { result ≡ slice_index_or table.now i other }
{
    table.get(i).copied().unwrap_or(other)
}

// The entries of a step's arguments.
pub(crate) fn arguments<T: Copy>(table: &[T], step: Step, other: T) -> [T; 2]
    ensures { result ≡ map (λ j. get_or table.now (argument_of step j) other) (range_with_len 0 most_arguments) }
{
    let [first, second] = step.args;
    [
        at(table, first as usize, other),
        at(table, second as usize, other),
    ]
}
