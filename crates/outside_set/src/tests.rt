use crate::gate::Gate;
use operators::builtin::Builtin;
use operators::named::Named;
use operators::pair::Pair;
use operators::set::OperatorSet;

// Beside the built-in operators the gate is operator 9.
#[test]
fn gate_beside_the_builtin_set(rt: HostRuntime) {
    let both = Pair {
        first: Builtin,
        second: Gate,
    };
    assert_eq!(rt; both.count(), 10);
    assert_eq!(rt; both.arity(9), 2);
    assert_eq!(rt; both.band(9, &[3, 7]), 7);
    assert_eq!(rt; both.band(9, &[0, 7]), 0);
    assert_eq!(rt; both.band(9, &[3]), 15);
    assert_eq!(rt; both.name(9), *b"gate");
}
