ghost use Rattle.std.specs.Prelude.{◌≡◌, IfOk, Some, None};
ghost use Rattle.refusals.specs.Numbers.{sheet_refusal, record_refusal, refused_by};
ghost use Rattle.records.specs.Reading.{bytes_refusal};
ghost use Rattle.laws.specs.Laws.{Filled, LawBand, AnswersRecord, reading_refusal, Recorded};

use evaluation::band::band_of;
use formulas::steps::Steps;
use operators::set::{MARK, OperatorSet};
use records::read::read_record;
use records::write::write_record;
use refusals::firmware::FirmwareRefusal;
use refusals::record::RecordRefusal;
use refusals::sheet::SheetRefusal;
use rows::channels::ChannelCount;
use rows::read::sound_bands;

// A formula over an operator set and a number of channels, or none yet.
#[derive(Drop)]
pub struct Law<S> {
    set: S,
    channels: ChannelCount,
    steps: Option<Steps>,
}

// Refuses a reading that has not one band or mark for each channel. What it shares with a row is `sound_bands`: a row's wanted band is
// tested after the length and before the others, so that one function for both would have to know of it.
fn check_reading(reading: &[u8], channels: u8) -> Result<(), SheetRefusal>
    ensures { refused_by sheet_refusal result ≡ reading_refusal channels reading.now }
{
    if reading.len() != channels as usize {
        return Err(SheetRefusal::Length);
    }
    let sound = sound_bands(reading);
    if sound < reading.len() {
        return Err(SheetRefusal::Band(sound));
    }
    Ok(())
}

impl<S: OperatorSet> Law<S> {
    // A law without a formula.
    pub fn new(set: S, channels: ChannelCount) -> Law<S>
        ensures { (result.set ≡ set) × (result.channels ≡ channels) × (result.steps ≡ None) }
    {
        Law {
            set,
            channels,
            steps: None,
        }
    }

    // Takes the formula that a record says. A refused record leaves the law as it was.
    pub fn fill(&mut self, bytes: &[u8]) -> Result<(), RecordRefusal>
        ensures refused { refused_by record_refusal result ≡ bytes_refusal (S.OperatorSet.meaning self.old.set) self.old.channels.value bytes.now }
        ensures filled { Filled (S.OperatorSet.meaning self.old.set) self.old.channels.value bytes.now self.old.steps self.new.steps result }
        ensures ground { (self.new.set ≡ self.old.set) × (self.new.channels ≡ self.old.channels) }
    {
        self.steps = Some(read_record(bytes, &self.set, self.channels)?);
        Ok(())
    }

    // The formula's band at a reading, one byte for each channel; the mark for no reading where there is no formula.
    pub fn band(&self, reading: &[u8]) -> Result<u8, SheetRefusal>
        ensures refused { refused_by sheet_refusal result ≡ reading_refusal self.now.channels.value reading.now }
        ensures band { IfOk result (λ b. LawBand (S.OperatorSet.meaning self.now.set) self.now.steps reading.now b) }
        ensures filled { IfOk result (λ b. AnswersRecord (S.OperatorSet.meaning self.now.set) self.now.channels.value self.now.steps reading.now b) }
    {
        check_reading(reading, self.channels.get())?;
        Ok(
            self.steps
                .as_ref()
                .map_or(MARK, |steps| band_of(steps, &self.set, reading)),
        )
    }

    // Writes the record of the law's steps into the front of the buffer: refused without a formula, then for want of room.
    pub fn record(&self, buffer: &mut [u8]) -> Result<usize, FirmwareRefusal>
        ensures { Recorded self.now.steps buffer.old buffer.new result }
    {
        let steps = self.steps.as_ref().ok_or(FirmwareRefusal::NotFound)?;
        write_record(steps, buffer)
    }
}
