use finder::state::{Answer, Finder};
use measures::charge::Charge;
use measures::depth::Depth;
use measures::measure::Measure;
use operators::builtin::Builtin;
use refusals::firmware::FirmwareRefusal;
use refusals::refusal::Refusal;
use refusals::sheet::SheetRefusal;
use rows::channels::ChannelCount;
use rows::limit::Limit;
use std::test::Fail;

// A finder with these rows, over the built-in operators.
fn sheet<M: Measure + Drop>(
    channels: usize,
    limit: u32,
    measure: M,
    rows: &[&[u8]],
) -> Result<Finder<Builtin, M>, SheetRefusal> {
    let mut finder = Finder::open(
        ChannelCount::new(channels)?,
        Limit::new(limit)?,
        Builtin,
        measure,
    );
    for row in rows {
        finder.add(row)?;
    }
    Ok(finder)
}

// The two rows of the worked sheet: wanted band, then two channels, which it is the sum of.
const SUMS: [&[u8]; 2] = [&[5, 3, 2], &[8, 5, 3]];

#[test]
fn sum_is_found_at_the_third_advance(rt: HostRuntime) -> Result<(), Fail> {
    let mut finder = sheet(2, 10, Charge::nodes(), &SUMS)?;
    assert_eq!(rt; finder.advance()?, Answer::Level(1, 4));
    assert_eq!(rt; finder.advance()?, Answer::Level(2, 7));
    assert!(rt; finder.formula().is_none());
    assert_eq!(rt; finder.advance()?, Answer::Found((3, 3)));
    assert_eq!(rt; finder.advance(), Err(FirmwareRefusal::Settled));
    assert!(rt; finder.formula().is_some());
    Ok(())
}

#[test]
fn limit_three_still_finds_it(rt: HostRuntime) -> Result<(), Fail> {
    let mut finder = sheet(2, 3, Charge::nodes(), &SUMS)?;
    assert_eq!(rt; finder.advance()?, Answer::Level(1, 4));
    assert_eq!(rt; finder.advance()?, Answer::Level(2, 7));
    assert_eq!(rt; finder.advance()?, Answer::Found((3, 3)));
    Ok(())
}

#[test]
fn limit_two_does_not(rt: HostRuntime) -> Result<(), Fail> {
    let mut finder = sheet(2, 2, Charge::nodes(), &SUMS)?;
    assert_eq!(rt; finder.advance()?, Answer::Level(1, 4));
    assert_eq!(rt; finder.advance()?, Answer::None);
    assert_eq!(rt; finder.advance(), Err(FirmwareRefusal::Settled));
    Ok(())
}

#[test]
fn by_depth_it_is_found_at_the_second(rt: HostRuntime) -> Result<(), Fail> {
    let mut finder = sheet(2, 10, Depth, &SUMS)?;
    assert_eq!(rt; finder.advance()?, Answer::Level(1, 4));
    assert_eq!(rt; finder.advance()?, Answer::Found((2, 3)));
    Ok(())
}

#[test]
fn with_no_row_the_first_channel_fits(rt: HostRuntime) -> Result<(), Fail> {
    let mut finder = sheet(2, 10, Charge::nodes(), &SUMS[0..0])?;
    assert_eq!(rt; finder.advance()?, Answer::Found((1, 1)));
    Ok(())
}

#[test]
fn with_no_channel_constants_are_made(rt: HostRuntime) -> Result<(), Fail> {
    let mut finder = sheet(0, 10, Charge::nodes(), &[&[2]])?;
    assert_eq!(rt; finder.advance()?, Answer::Level(1, 2));
    assert_eq!(rt; finder.advance()?, Answer::Found((2, 2)));
    Ok(())
}

#[test]
fn a_shared_part_is_one_step(rt: HostRuntime) -> Result<(), Fail> {
    // twice the channel: the sum of it with itself
    let mut finder = sheet(1, 20, Charge::nodes(), &[&[6, 3], &[2, 1], &[14, 7]])?;
    assert_eq!(rt; finder.advance()?, Answer::Level(1, 3));
    assert_eq!(rt; finder.advance()?, Answer::Level(2, 5));
    assert_eq!(rt; finder.advance()?, Answer::Found((3, 2)));
    Ok(())
}

#[test]
fn many_columns_go_past_the_bank(rt: HostRuntime) -> Result<(), Fail> {
    let rows: [&[u8]; 4] = [
        &[14, 1, 9, 4],
        &[13, 2, 7, 11],
        &[0, 5, 3, 2],
        &[9, 12, 6, 1],
    ];
    let mut finder = sheet(3, 1_000_000, Depth, &rows)?;
    let mut last = finder.advance()?;
    for _ in 0..20 {
        last = finder.advance().unwrap_or(last);
    }
    assert_eq!(rt; last, Answer::Full);
    Ok(())
}

#[test]
fn refusals_have_their_number_and_place(rt: HostRuntime) -> Result<(), Fail> {
    assert!(rt; ChannelCount::new(9).is_err());
    assert!(rt; Limit::new(0).is_err());
    assert!(rt; Limit::new(1_000_001).is_err());
    let mut finder = sheet(2, 10, Charge::nodes(), &SUMS)?;
    assert_eq!(rt; finder.add(&[]), Err(SheetRefusal::Length));
    assert_eq!(rt; finder.add(&[1, 2]), Err(SheetRefusal::Length));
    assert_eq!(rt; finder.add(&[15, 2, 99]), Err(SheetRefusal::Band(0)));
    assert_eq!(rt; finder.add(&[14, 15, 16]), Err(SheetRefusal::Band(2)));
    assert_eq!(rt; SheetRefusal::Band(2).number(), 2);
    assert_eq!(rt; SheetRefusal::Band(2).place(), 2);
    for _ in 0..14 {
        finder.add(&[14, 15, 0])?;
    }
    assert_eq!(rt; finder.add(&[99]), Err(SheetRefusal::Rows));
    Ok(())
}
