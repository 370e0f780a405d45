ghost use Rattle.std.specs.Prelude.{◌≡◌, ◌<◌, ◌≤◌, true, ◌↔◌, is_ok, IfOk, Some, None, Ok, Err, OnOk};
ghost use Rattle.refusals.specs.Numbers.{record_refusal, refused_by};
ghost use Rattle.formulas.specs.Says.{LawfulSteps};
ghost use Rattle.formulas.specs.Steps.{listed, most_steps};
ghost use Rattle.records.specs.Bytes.{steps_in, step_at, steps_of};
ghost use Rattle.records.specs.Record.{Lawful, SaysOneFormula};
ghost use Rattle.records.specs.Reading.{known_top, argument_fits, arguments_fit, step_refusal, size_refusal, bytes_refusal};

use crate::bytes::{byte, number};
use crate::code::Code;
use crate::size::{FIELD_WIDTH, record_size};
use formulas::steps::{MOST_STEPS, Step, Steps, Top};
use operators::set::OperatorSet;
use refusals::record::RecordRefusal;
use rows::channels::ChannelCount;

// The bytes of a record, whose number of steps is 1 to 513 and whose length is what that asks for. The number is that of its first
// two bytes, read once; it is no length of the bytes.
#[derive(Clone, Copy)]
struct Record<'a> {
    bytes: &'a [u8],
    count: usize,
    ghost counted: { count ≡ steps_in bytes.now },
    ghost some: { 1 ≤ count },
    ghost few: { count ≤ most_steps },
}

impl<'a> Record<'a> {
    // The bytes as a record of as many steps as their first two say.
    fn sized(bytes: &'a [u8]) -> Result<Record<'a>, RecordRefusal>
        ensures refused { refused_by record_refusal result ≡ size_refusal bytes.now None }
        ensures same { IfOk result (λ r. r.bytes.now ≡ bytes.now) }
    {
        if bytes.len() < 2 {
            return Err(RecordRefusal::Length);
        }
        let n = number(bytes, 0) as usize;
        if n < 1 || n > MOST_STEPS {
            return Err(RecordRefusal::Count);
        }
        if bytes.len() != record_size(n) {
            return Err(RecordRefusal::Length);
        }
        Ok(Record { bytes, count: n })
    }

    // Step `i`, counted from 0.
    fn step(&self, i: usize) -> Step
        requires { i < self.now.count }
        ensures { result ≡ step_at self.now.bytes.now i }
    {
        let field = 2 + (self.count + FIELD_WIDTH * i);
        Step {
            top: Top::from(Code(byte(self.bytes, 2 + i))),
            args: [number(self.bytes, field), number(self.bytes, field + 2)],
        }
    }
}

// Whether it is a channel that is there or an operator that is offered.
fn known<S: OperatorSet>(top: Top, set: &S, channels: ChannelCount) -> bool
    ensures { result ≡ known_top (S.OperatorSet.meaning set.now) channels.value top }
{
    match top {
        Top::Channel(channel) => channel < channels.get(),
        Top::Operator(op) => op < set.count(),
    }
}

// Whether an argument of step `i` is an earlier step where it is used, and 0 where it is not.
fn fits(used: bool, i: usize, argument: u16) -> bool
    ensures { result ≡ argument_fits used i argument }
{
    if used {
        (argument as usize) < i
    } else {
        argument == 0
    }
}

// Whether each argument of step `i` fits.
fn all_fit(arity: u8, i: usize, step: Step) -> bool
    ensures { result ≡ arguments_fit arity i step }
{
    let [first, second] = step.args;
    fits(0 < arity, i, first) && fits(1 < arity, i, second)
}

// Refuses a step that is not lawful as step `i`. Set and channel count come apart, here and in what reads records: `read_record` and
// `rewrite` are public, and who calls them holds the two as they are.
fn check_step<S: OperatorSet>(
    step: Step,
    i: usize,
    set: &S,
    channels: ChannelCount,
) -> Result<(), RecordRefusal>
    ensures { refused_by record_refusal result ≡ step_refusal (S.OperatorSet.meaning set.now) channels.value i step }
{
    if !known(step.top, set, channels) {
        return Err(RecordRefusal::Code(i));
    }
    if !all_fit(step.top.arity(set), i, step) {
        return Err(RecordRefusal::Argument(i));
    }
    Ok(())
}

// The steps of a record, or why it is refused.
fn read_steps<S: OperatorSet>(
    bytes: &[u8],
    set: &S,
    channels: ChannelCount,
) -> Result<Steps, RecordRefusal>
    ensures refused { refused_by record_refusal result ≡ bytes_refusal (S.OperatorSet.meaning set.now) channels.value bytes.now }
    ensures steps { IfOk result (λ s. listed s ≡ steps_of bytes.now) }
{
    let record = Record::sized(bytes)?;
    let mut steps = Steps::empty();
    // by number, which is the place of a refusal
    for i in 0..record.count {
        let step = record.step(i);
        check_step(step, i, set, channels)?;
        // there is room for 513 steps
        let _ = steps.push(step);
    }
    Ok(steps)
}

// The steps of a record. Only a lawful record is read; it then says one well-formed formula.
pub fn read_record<S: OperatorSet>(
    bytes: &[u8],
    set: &S,
    channels: ChannelCount,
) -> Result<Steps, RecordRefusal>
    ensures refused { refused_by record_refusal result ≡ bytes_refusal (S.OperatorSet.meaning set.now) channels.value bytes.now }
    ensures steps { IfOk result (λ s. listed s ≡ steps_of bytes.now) }
    ensures lawful { (is_ok result ≡ true) ↔ Lawful (S.OperatorSet.meaning set.now) channels.value bytes.now }
    ensures checked { IfOk result (λ s. LawfulSteps (S.OperatorSet.meaning set.now) channels.value (listed s)) }
    ensures formula { OnOk result (SaysOneFormula (S.OperatorSet.meaning set.now) channels.value bytes.now) }
{
    read_steps(bytes, set, channels)
}
