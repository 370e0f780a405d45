use crate::shared::SUM;
use evaluation::band::band_of;
use evaluation::column::column_of;
use evaluation::weight::weight_of;
use measures::charge::Charge;
use measures::depth::Depth;
use operators::builtin::Builtin;
use records::read::read_record;
use rows::channels::ChannelCount;
use rows::row::Row;
use std::test::Fail;

// sum(P1,P2): bands, a column, weights.
#[test]
fn what_a_sum_is_worth(rt: HostRuntime) -> Result<(), Fail> {
    let channels = ChannelCount::new(2)?;
    let steps = read_record(&SUM, &Builtin, channels)?;
    assert_eq!(rt; band_of(&steps, &Builtin, &[9, 7]), 14);
    assert_eq!(rt; band_of(&steps, &Builtin, &[1]), 15);
    let rows = [
        Row::read(&[3, 1, 2], channels)?,
        Row::read(&[0, 15, 2], channels)?,
    ];
    let column = column_of(&steps, &Builtin, &rows, channels);
    assert_eq!(rt; column[0], 3);
    assert_eq!(rt; column[1], 15);
    assert_eq!(rt; column[2], 15);
    assert_eq!(rt; weight_of(&steps, &Builtin, &Charge::nodes()).value(), 3);
    assert_eq!(rt; weight_of(&steps, &Builtin, &Depth).value(), 2);
    Ok(())
}
