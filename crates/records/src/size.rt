ghost use Rattle.std.specs.Prelude.{◌≡◌, ◌≤◌};
ghost use Rattle.records.specs.Size.{record_size};

// Codes below this are operator numbers, any other is this plus a channel number.
pub(crate) const FIRST_CHANNEL: u8 = 64;

// Bytes of a step's arguments, two for each.
pub(crate) const FIELD_WIDTH: usize = 4;

// Bytes of the record of `n` steps: the number of steps, and a code and a field for each.
pub(crate) fn record_size(n: usize) -> usize
    requires { n ≤ 65535 }
    ensures { result ≡ record_size n }
{
    2 + (1 + FIELD_WIDTH) * n
}
