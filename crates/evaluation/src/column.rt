ghost use Rattle.std.specs.Prelude.{◌≡◌};
ghost use Rattle.formulas.specs.Steps.{listed};
ghost use Rattle.rows.specs.Read.{row_seen};
ghost use Rattle.evaluation.specs.Columns.{ColumnIn, BandIn};

use crate::band::band_of;
use formulas::steps::Steps;
use operators::set::{MARK, OperatorSet};
use rows::channels::ChannelCount;
use rows::row::Row;
use std::array;

// The bands of the channels in a row.
fn reading(row: &Row, channels: ChannelCount) -> &[u8]
    ensures { result.now ≡ (row_seen channels.value row.now).bands }
{
    let bands = &row.bands[..];
    &bands[0..channels.get() as usize]
}

// The column of the formula that the steps say, over the first sixteen rows: a band for each, and the mark behind them. No list: it
// is a public type, and as many bands count as the caller has rows.
pub fn column_of<S: OperatorSet>(
    steps: &Steps,
    set: &S,
    rows: &[Row],
    channels: ChannelCount,
) -> [u8; 16]
    ensures { ColumnIn (S.OperatorSet.meaning set.now) channels.value (listed steps.now) rows.now result }
{
    array::from_fn(
        |i| -> u8
            ensures { BandIn (S.OperatorSet.meaning set.entry.now) channels.value (listed steps.entry.now) rows.entry.now i result }
        {
            rows.get(i)
                .map_or(MARK, |row| band_of(steps, set, reading(row, channels)))
        },
    )
}
