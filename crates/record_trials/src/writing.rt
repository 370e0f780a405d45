use crate::shared::{SUM, refused};
use formulas::steps::{Step, Steps, Top};
use operators::builtin::Builtin;
use records::rewrite::rewrite;
use records::write::write_record;
use rows::channels::ChannelCount;
use std::test::Fail;

#[test]
fn the_record_of_a_sum(rt: HostRuntime) -> Result<(), Fail> {
    let mut steps = Steps::empty();
    let _ = steps.push(Step {
        top: Top::Channel(0),
        args: [0, 0],
    });
    let _ = steps.push(Step {
        top: Top::Channel(1),
        args: [0, 0],
    });
    let _ = steps.push(Step {
        top: Top::Operator(3),
        args: [0, 1],
    });
    let mut small = [7; 16];
    assert_eq!(rt; refused(write_record(&steps, &mut small))?.0, 9);
    assert!(rt; small == [7; 16]);
    let mut buffer = [7; 18];
    assert_eq!(rt; write_record(&steps, &mut buffer)?, 17);
    assert!(rt; &buffer[0..17] == &SUM[..] && buffer[17] == 7);
    Ok(())
}

#[test]
fn the_same_bytes_again(rt: HostRuntime) -> Result<(), Fail> {
    let channels = ChannelCount::new(2)?;
    let mut buffer = [7; 18];
    let Ok(size) = rewrite(&SUM, &Builtin, channels, &mut buffer) else {
        return Err(Fail::new("refused"));
    };
    assert_eq!(rt; size, 17);
    assert!(rt; &buffer[0..17] == &SUM[..] && buffer[17] == 7);
    let one = ChannelCount::new(1)?;
    let rewritten = rewrite(&SUM, &Builtin, one, &mut buffer);
    assert_eq!(rt; refused(rewritten)?, (17, 1));
    let mut small = [7; 16];
    let rewritten = rewrite(&SUM, &Builtin, channels, &mut small);
    assert_eq!(rt; refused(rewritten)?.0, 9);
    Ok(())
}
