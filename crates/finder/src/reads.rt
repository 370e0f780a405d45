ghost use Rattle.std.specs.Prelude.{◌≡◌, ℕ, ◌<◌, get_or, length, map, take, Decides, slice_index_or};
ghost use Rattle.rows.specs.Rows.{wanted_of};
ghost use Rattle.search.specs.Stored.{no_row};
ghost use Rattle.finder.specs.View.{rows_seen};

use crate::bank::Column;
use crate::sheet::Sheet;
use operators::set::MARK;
use rows::row::Row;

// Whether the bands are those that the rows want, as many on both sides.
fn gives(rows: &[Row], bands: &[u8]) -> bool
    requires { length rows.now ≡ length bands.now }
    ensures { Decides result (map (λ row. row.wanted) rows.now ≡ bands.now) }
{
    rows.iter()
        .zip(bands)
        .all(|(row, band)| row.wanted == *band)
}

impl Sheet {
    // The band of a channel in the row `j`.
    pub(crate) fn band(&self, j: usize, channel: u8) -> u8
        requires { j < self.now.rows.count }
        ensures { result ≡ slice_index_or (get_or (rows_seen self.now) j no_row).bands channel 15 }
    {
        if channel < self.channels.get() {
            self.rows.as_slice()[j].bands[channel as usize]
        } else {
            MARK
        }
    }

    // Whether the column is that of the wanted bands.
    pub(crate) fn wants(&self, column: &Column) -> bool
        ensures { Decides result (take self.now.rows.count column.now.bands ≡ wanted_of (rows_seen self.now)) }
    {
        let rows = self.rows.as_slice();
        gives(rows, &column.bands[..rows.len()])
    }
}
