ghost use Rattle.std.specs.Prelude.{◌≡◌, ◌<◌, ◌≤◌};
ghost use Rattle.operators.specs.Bands.{mark, argument, SetMeaning, SetLaws};

// The band for no reading. A number among the bands and no None: in every row, reading, column and table it is a byte.
pub const MARK: u8 = 15;

// A set of operators on bands. Asking it changes nothing and is refused nothing.
pub trait OperatorSet {
    // How many operators it offers, each one's arity, and the band that each gives.
    ghost meaning: { Self → SetMeaning };

    // How many operators it offers, numbered from 0.
    fn count(&self) -> u8
        ensures { result ≡ (meaning self.now).count };

    // How many arguments an operator takes, 0 where it is not offered.
    fn arity(&self, op: u8) -> u8
        ensures { result ≡ (meaning self.now).arity op };

    // The band that an operator gives for its arguments' bands, 15 where it is not offered.
    fn band(&self, op: u8, args: &[u8]) -> u8
        ensures { result ≡ (meaning self.now).band op args.now };

    ghost lawful: { (s : Self) → SetLaws (meaning s) };
}

// The argument at place `i` as an operator sees it: 15 where it is missing or above 15. One chain of the library's methods, as in
// other layers: the function names what this one means.
pub fn arg(args: &[u8], i: usize) -> u8
    ensures { result ≡ argument args.now i }
{
    args.get(i).map_or(MARK, |band| (*band).min(MARK))
}

// What an operator gives for one argument: the mark for the mark, else what `rule` says.
pub fn given<F: FnOnce(u8) -> u8>(a: u8, rule: F) -> u8
    requires { a < mark → F.pre rule a }
    ensures marked { mark ≤ a → result ≡ mark }
    ensures ruled { a < mark → F.post rule a result }
{
    if a >= MARK { MARK } else { rule(a) }
}

// The same for two arguments.
pub fn both<F: FnOnce(u8, u8) -> u8>(a: u8, b: u8, rule: F) -> u8
    requires { a < mark → b < mark → F.pre rule a b }
    ensures first_marked { mark ≤ a → result ≡ mark }
    ensures second_marked { mark ≤ b → result ≡ mark }
    ensures ruled { a < mark → b < mark → F.post rule a b result }
{
    if a >= MARK || b >= MARK {
        MARK
    } else {
        rule(a, b)
    }
}
