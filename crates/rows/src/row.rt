ghost use Rattle.std.specs.Prelude.{◌≡◌, length, replicate};

// The wanted band, and the channels' bands in order; those past the channel count are 15 and mean nothing.
// A table without a length: the channel count is the sheet's, one for all its rows, and a list in each row would hold it again.
#[derive(Clone, Copy)]
pub struct Row {
    pub wanted: u8,
    pub bands: [u8; 8],
    ghost wide: { length bands ≡ 8 },
}

// What stands where there is no row.
impl Default for Row {
    ghost is_default = { λ r. (r.wanted ≡ 0) × (r.bands ≡ replicate 8 15) };

    fn default() -> Row {
        Row {
            wanted: 0,
            bands: [15; 8],
        }
    }
}
