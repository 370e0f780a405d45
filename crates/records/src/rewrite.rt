ghost use Rattle.std.specs.Prelude.{◌≡◌, ◌≤◌, true, ◌↔◌, length, is_ok};
ghost use Rattle.refusals.specs.Numbers.{refused_by};
ghost use Rattle.records.specs.Record.{Lawful};
ghost use Rattle.records.specs.Rewriting.{rewrite_refusal, bytes_and_room, Rewritten};
ghost use Rattle.records.specs.declared.rewrite.RewriteRefusal.TheVariants.{Record, Firmware};

use crate::read::read_record;
use crate::write::write_record;
use operators::set::OperatorSet;
use refusals::firmware::FirmwareRefusal;
use refusals::record::RecordRefusal;
use refusals::refusal::Refusal;
use rows::channels::ChannelCount;

// Why a record is not written again.
#[derive(Clone, Copy, PartialEq, Eq, Debug)]
pub enum RewriteRefusal {
    // The record is not lawful.
    Record(RecordRefusal),
    // The buffer is too small.
    Firmware(FirmwareRefusal),
}

impl Refusal for RewriteRefusal {
    ghost meaning = { rewrite_refusal };

    fn number(self) -> u8 {
        match self {
            RewriteRefusal::Record(refusal) => refusal.number(),
            RewriteRefusal::Firmware(refusal) => refusal.number(),
        }
    }

    fn place(self) -> usize {
        match self {
            RewriteRefusal::Record(refusal) => refusal.place(),
            RewriteRefusal::Firmware(refusal) => refusal.place(),
        }
    }
}

impl From<RecordRefusal> for RewriteRefusal {
    ghost from_gives = { λ e r. r ≡ Record e };

    fn from(refusal: RecordRefusal) -> RewriteRefusal {
        RewriteRefusal::Record(refusal)
    }
}

impl From<FirmwareRefusal> for RewriteRefusal {
    ghost from_gives = { λ e r. r ≡ Firmware e };

    fn from(refusal: FirmwareRefusal) -> RewriteRefusal {
        RewriteRefusal::Firmware(refusal)
    }
}

// Reads a record and writes its steps again, into the front of the buffer: those are the same bytes.
pub fn rewrite<S: OperatorSet>(
    bytes: &[u8],
    set: &S,
    channels: ChannelCount,
    buffer: &mut [u8],
) -> Result<usize, RewriteRefusal>
    ensures refused { refused_by rewrite_refusal result ≡ bytes_and_room (S.OperatorSet.meaning set.now) channels.value bytes.now buffer.old }
    ensures lawful { (is_ok result ≡ true) ↔ (Lawful (S.OperatorSet.meaning set.now) channels.value bytes.now × (length bytes.now ≤ length buffer.old)) }
    ensures written { Rewritten bytes.now buffer.old buffer.new result }
{
    let steps = read_record(bytes, set, channels)?;
    let size = write_record(&steps, buffer)?;
    Ok(size)
}
