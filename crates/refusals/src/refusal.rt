ghost use Rattle.std.specs.Prelude.{◌≡◌, ℕ};

// Why a call is refused: a number, which is part of the product, and the place of the first byte at fault, counted from 0, in a
// record the step at fault; 0 for a length, a number or a call.
pub trait Refusal: Copy {
    // Number and place.
    ghost meaning: { Self → ℕ × ℕ };

    fn number(self) -> u8
        ensures { result ≡ (meaning self).0 };

    fn place(self) -> usize
        ensures { result ≡ (meaning self).1 };
}
