ghost use Rattle.std.specs.Prelude.{◌≡◌, ◌≤◌, length, Ok, Err};
ghost use Rattle.refusals.specs.Numbers.{sheet_refusal};
ghost use Rattle.rows.specs.Rows.{band_or_mark, sound_bands, padded, judged, said, refused};
ghost use Rattle.rows.specs.Read.{Read};

use crate::channels::ChannelCount;
use crate::row::Row;
use refusals::sheet::SheetRefusal;

// Whether a byte is a band or the mark for no reading.
fn sound(byte: u8) -> bool
    ensures { result ≡ band_or_mark byte }
{
    byte <= 15
}

// How many bands stand before the first byte above 15.
pub fn sound_bands(bands: &[u8]) -> usize
    ensures { result ≡ sound_bands bands.now }
{
    bands.iter().take_while(|b| sound(**b)).count()
}

// The bytes of a row taken apart: the wanted band, then the channels' bands. What it shares with a reading is `sound_bands`.
fn parted<'a>(bytes: &'a [u8], channels: u8) -> Result<(u8, &'a [u8]), SheetRefusal>
    ensures { elim result [ Ok p ↦ (judged channels bytes.now ≡ said p.0 p.1.now) × (length p.1.now ≡ channels) | Err e ↦ judged channels bytes.now ≡ refused (sheet_refusal e).0 (sheet_refusal e).1 ] }
{
    let [wanted, bands @ ..] = bytes else {
        return Err(SheetRefusal::Length);
    };
    if bands.len() != channels as usize {
        return Err(SheetRefusal::Length);
    }
    if *wanted > 14 {
        return Err(SheetRefusal::Band(0));
    }
    let sound = sound_bands(bands);
    if sound < bands.len() {
        return Err(SheetRefusal::Band(sound + 1));
    }
    Ok((*wanted, bands))
}

// The bands in the front of a table of eight, and the mark for no reading behind them.
fn table(bands: &[u8]) -> [u8; 8]
    requires { length bands.now ≤ 8 }
    ensures { result ≡ padded bands.now }
{
    let mut all = [15; 8];
    all[..bands.len()].copy_from_slice(bands);
    all
}

impl Row {
    // The row that the bytes say: the wanted band first, then one band for each channel.
    pub fn read(bytes: &[u8], channels: ChannelCount) -> Result<Row, SheetRefusal>
        ensures { Read channels.value bytes.now result }
    {
        let (wanted, bands) = parted(bytes, channels.get())?;
        Ok(Row {
            wanted,
            bands: table(bands),
        })
    }
}
