// The front of a buffer, written up to the byte `at`: both at once, as a call answers how much it has written and leaves the rest.
#[derive(Drop)]
pub struct Front<'a> {
    pub out: &'a mut [u8],
    pub at: usize,
}

pub mod put;
