use crate::shared::refused;
use operators::builtin::Builtin;
use records::read::read_record;
use rows::channels::ChannelCount;
use std::process::Abort;
use std::test::Fail;

// With the built-in operators and two channels: the number of steps that is read.
fn reads(rt: &impl Abort, bytes: &[u8], steps: usize) -> Result<(), Fail> {
    let read = read_record(bytes, &Builtin, ChannelCount::new(2)?)?;
    assert_eq!(rt; read.count, steps);
    Ok(())
}

// The number and the place that a record is refused with.
fn refuses(rt: &impl Abort, bytes: &[u8], number: u8, place: usize) -> Result<(), Fail> {
    let read = read_record(bytes, &Builtin, ChannelCount::new(2)?);
    assert_eq!(rt; refused(read)?, (number, place));
    Ok(())
}

#[test]
fn lawful_records(rt: HostRuntime) -> Result<(), Fail> {
    // P2; then sum(P1,P2)
    reads(&rt, &[0, 1, 65, 0, 0, 0, 0], 1)?;
    reads(
        &rt,
        &[0, 3, 64, 65, 3, 0, 0, 0, 0, 0, 0, 0, 0, 0, 0, 0, 1],
        3,
    )?;
    // P1 twice, of which the second is not used, and next of the first
    reads(
        &rt,
        &[0, 3, 64, 64, 2, 0, 0, 0, 0, 0, 0, 0, 0, 0, 0, 0, 0],
        3,
    )?;
    // an operator of no arguments, and sum of it with itself
    reads(&rt, &[0, 2, 1, 3, 0, 0, 0, 0, 0, 0, 0, 0], 2)
}

#[test]
fn most_steps(rt: HostRuntime) -> Result<(), Fail> {
    let mut bytes = [0; 2567];
    bytes[0] = 2;
    bytes[1] = 1;
    bytes[2..515].fill(64);
    reads(&rt, &bytes, 513)?;
    // the argument of the last step is step 512, which is itself, and then step 511
    bytes[514] = 2;
    bytes[2563] = 2;
    refuses(&rt, &bytes, 18, 512)?;
    bytes[2563] = 1;
    bytes[2564] = 255;
    reads(&rt, &bytes, 513)
}

#[test]
fn wrong_sizes(rt: HostRuntime) -> Result<(), Fail> {
    refuses(&rt, &[], 15, 0)?;
    refuses(&rt, &[0], 15, 0)?;
    refuses(&rt, &[0, 0], 16, 0)?;
    // 514 steps, and 256 of which the high byte counts
    refuses(&rt, &[2, 2], 16, 0)?;
    refuses(&rt, &[1, 0], 15, 0)?;
    refuses(&rt, &[0, 1, 64, 0, 0, 0], 15, 0)?;
    refuses(&rt, &[0, 1, 64, 0, 0, 0, 0, 0], 15, 0)?;
    // the number of steps comes before the length, and the length before the codes
    refuses(&rt, &[0, 0, 99], 16, 0)?;
    refuses(&rt, &[0, 1, 99], 15, 0)
}

#[test]
fn wrong_codes(rt: HostRuntime) -> Result<(), Fail> {
    refuses(&rt, &[0, 1, 9, 0, 0, 0, 0], 17, 0)?;
    refuses(&rt, &[0, 1, 63, 0, 0, 0, 0], 17, 0)?;
    refuses(&rt, &[0, 1, 66, 0, 0, 0, 0], 17, 0)?;
    refuses(&rt, &[0, 1, 255, 0, 0, 0, 0], 17, 0)?;
    refuses(&rt, &[0, 2, 64, 66, 0, 0, 0, 0, 0, 0, 0, 0], 17, 1)?;
    // the code before the arguments, and the earlier step before the later one
    refuses(&rt, &[0, 1, 66, 0, 0, 0, 1], 17, 0)?;
    refuses(&rt, &[0, 2, 64, 66, 0, 1, 0, 0, 0, 0, 0, 0], 18, 0)
}

#[test]
fn wrong_arguments(rt: HostRuntime) -> Result<(), Fail> {
    // its own step, a later step, and the second argument
    refuses(&rt, &[0, 1, 2, 0, 0, 0, 0], 18, 0)?;
    refuses(&rt, &[0, 2, 64, 2, 0, 0, 0, 0, 0, 1, 0, 0], 18, 1)?;
    refuses(&rt, &[0, 2, 64, 3, 0, 0, 0, 0, 0, 0, 0, 1], 18, 1)?;
    // high byte first: 256 is no earlier step
    refuses(&rt, &[0, 2, 64, 2, 0, 0, 0, 0, 1, 0, 0, 0], 18, 1)?;
    // not used and not 0
    refuses(&rt, &[0, 1, 64, 0, 0, 0, 1], 18, 0)?;
    refuses(&rt, &[0, 2, 64, 2, 0, 0, 0, 0, 0, 0, 0, 1], 18, 1)
}
