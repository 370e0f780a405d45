use crate::shared::{SUM, refused};
use laws::law::Law;
use operators::builtin::Builtin;
use operators::set::OperatorSet;
use rows::channels::ChannelCount;
use std::process::Abort;
use std::test::Fail;

fn answers(rt: &impl Abort, law: &Law<Builtin>, reading: &[u8], band: u8) -> Result<(), Fail> {
    assert_eq!(rt; law.band(reading)?, band);
    Ok(())
}

fn refuses(
    rt: &impl Abort,
    law: &Law<Builtin>,
    reading: &[u8],
    number: u8,
    place: usize,
) -> Result<(), Fail> {
    assert_eq!(rt; refused(law.band(reading))?, (number, place));
    Ok(())
}

#[test]
fn a_law_of_a_sum(rt: HostRuntime) -> Result<(), Fail> {
    let mut law = Law::new(Builtin, ChannelCount::new(2)?);
    answers(&rt, &law, &[9, 7], 15)?;
    assert!(rt; law.fill(&SUM).is_ok());
    answers(&rt, &law, &[9, 7], 14)?;
    answers(&rt, &law, &[1, 2], 3)?;
    answers(&rt, &law, &[15, 2], 15)?;
    // a refused filling leaves it
    assert!(rt; !law.fill(&[0, 0]).is_ok());
    answers(&rt, &law, &[1, 2], 3)?;
    // next of P2
    assert!(rt; law.fill(&[0, 2, 65, 2, 0, 0, 0, 0, 0, 0, 0, 0]).is_ok());
    answers(&rt, &law, &[1, 2], 3)?;
    answers(&rt, &law, &[1, 14], 14)
}

#[test]
fn readings_that_are_refused(rt: HostRuntime) -> Result<(), Fail> {
    let law = Law::new(Builtin, ChannelCount::new(2)?);
    refuses(&rt, &law, &[1], 1, 0)?;
    refuses(&rt, &law, &[1, 2, 16], 1, 0)?;
    refuses(&rt, &law, &[16, 2], 2, 0)?;
    refuses(&rt, &law, &[15, 16], 2, 1)
}

#[test]
fn the_same_bytes_again(rt: HostRuntime) -> Result<(), Fail> {
    let mut law = Law::new(Builtin, ChannelCount::new(2)?);
    let mut buffer = [7; 18];
    assert_eq!(rt; refused(law.record(&mut buffer))?.0, 8);
    assert!(rt; law.fill(&SUM).is_ok());
    assert_eq!(rt; law.record(&mut buffer)?, 17);
    assert!(rt; &buffer[0..17] == &SUM[..] && buffer[17] == 7);
    let mut small = [7; 16];
    assert_eq!(rt; refused(law.record(&mut small))?.0, 9);
    assert!(rt; small == [7; 16]);
    Ok(())
}

#[test]
fn a_record_for_more_channels(rt: HostRuntime) -> Result<(), Fail> {
    let mut law = Law::new(Builtin, ChannelCount::new(1)?);
    assert_eq!(rt; refused(law.fill(&SUM))?, (17, 1));
    Ok(())
}
