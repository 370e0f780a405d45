ghost use Rattle.std.specs.Prelude.{◌≡◌, ◌+◌, ◌*◌, ◌^◌, ◌<◌, slice_index};
ghost use Rattle.records.specs.Bytes.{number_at};

// The byte at a place, 0 past the end. One chain of the library's methods, as in other layers: the function names what this one means.
pub(crate) fn byte(bytes: &[u8], at: usize) -> u8
    ensures { result ≡ slice_index bytes.now at }
{
    bytes.get(at).copied().unwrap_or(0)
}

// The number of two bytes.
fn joined(high: u8, low: u8) -> u16
    ensures { result ≡ high * 256 + low }
{
    u16::from_be_bytes([high, low])
}

// The number in the two bytes from a place on, high byte first.
pub(crate) fn number(bytes: &[u8], at: usize) -> u16
    requires { at < 2 ^ 32 }
    ensures { result ≡ number_at bytes.now at }
{
    joined(byte(bytes, at), byte(bytes, at + 1))
}
