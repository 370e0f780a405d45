use crate::added::charge_and_depth;
use measures::measure::Measure;

// A channel weighs 1 and 1; an operator over two of them 1 + 2 + 2 and 1 + 2.
#[test]
fn adds_up(rt: HostRuntime) {
    let measure = charge_and_depth();
    let channel = measure.channel(0);
    assert_eq!(rt; channel.value(), 2);
    assert_eq!(rt; measure.operator(3, &[channel, channel]).value(), 8);
}
