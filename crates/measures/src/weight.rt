ghost use Rattle.std.specs.Prelude.{◌≡◌, ◌+◌, ◌≤◌, min, max, if◌then◌else◌, Some, None, nat_lt};

// The plain number that stands for beyond.
const BEYOND: u32 = 1_000_001;

// A weight of 1 to 1,000,000, or beyond, which is greater.
// One number and no enum: what a weight means in specs/ is that number, 1,000,001 where it is beyond, and clauses speak of `value`.
#[derive(Clone, Copy, PartialEq, Eq, PartialOrd, Ord)]
pub struct Weight {
    value: u32,
    ghost within: { (1 ≤ value) × (value ≤ 1000001) },
}

impl Weight {
    pub fn one() -> Weight
        ensures { result.value ≡ 1 }
    {
        Weight { value: 1 }
    }

    // The weight that is greater than all others.
    pub fn beyond() -> Weight
        ensures { result.value ≡ 1000001 }
    {
        Weight { value: BEYOND }
    }

    // The weight `n`: 1 where that is 0, and beyond where it is past 1,000,000.
    pub fn clamped(n: u32) -> Weight
        ensures { result.value ≡ max 1 (min n 1000001) }
    {
        Weight {
            value: n.min(BEYOND).max(1),
        }
    }

    // The sum, or beyond where that is past 1,000,000. No `+`, since it stops there.
    pub fn plus(self, other: Weight) -> Weight
        ensures { result.value ≡ min (self.value + other.value) 1000001 }
    {
        Weight {
            value: (self.value + other.value).min(BEYOND),
        }
    }

    // The plain number, or none where it is beyond.
    pub fn number(self) -> Option<u32>
        ensures { result ≡ (if nat_lt self.value 1000001 then Some self.value else None) }
    {
        if self.value < BEYOND {
            Some(self.value)
        } else {
            None
        }
    }

    // The plain number, 1,000,001 where it is beyond.
    pub fn value(self) -> u32
        ensures { result ≡ self.value }
    {
        self.value
    }
}
