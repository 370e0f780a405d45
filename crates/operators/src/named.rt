ghost use Rattle.std.specs.Prelude.{◌≡◌, ℕ, List};
ghost use Rattle.operators.specs.Names.{NameLaws};

use crate::set::OperatorSet;

// The name of an operator that is not offered.
pub const NO_NAME: [u8; 4] = *b"    ";

// An operator set that also has a name of four bytes for each operator.
pub trait Named: OperatorSet {
    ghost names: { Self → ℕ → List ℕ };

    // One to four letters a to z and then spaces, four spaces where the operator is not offered.
    fn name(&self, op: u8) -> [u8; 4]
        ensures { result ≡ names self.now op };

    ghost spelt: { (s : Self) → NameLaws (Self.OperatorSet.meaning s) (names s) };
}
