ghost use Rattle.std.specs.Prelude.{◌≡◌, []};
ghost use Rattle.fixed.specs.Listed.{listed};

use fixed::list::FixedList;
use rows::channels::ChannelCount;
use rows::limit::Limit;
use rows::row::Row;

// The standing rows, and what the sheet was opened with.
#[derive(Drop)]
pub struct Sheet {
    pub(crate) rows: FixedList<Row, 16>,
    pub(crate) channels: ChannelCount,
    pub(crate) limit: Limit,
}

impl Sheet {
    // A sheet with no row.
    pub(crate) fn open(channels: ChannelCount, limit: Limit) -> Sheet
        ensures channels { result.channels ≡ channels }
        ensures limit { result.limit ≡ limit }
        ensures rows { listed result.rows ≡ [] }
    {
        Sheet {
            rows: FixedList::empty(),
            channels,
            limit,
        }
    }
}
