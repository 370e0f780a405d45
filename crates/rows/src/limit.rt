ghost use Rattle.std.specs.Prelude.{◌≡◌, ◌≤◌, IfOk};
ghost use Rattle.refusals.specs.Numbers.{sheet_refusal, refused_by};
ghost use Rattle.rows.specs.Bounds.{limit_refusal};

use refusals::sheet::SheetRefusal;

// The greatest weight that a formula may have, 1 to 1,000,000.
#[derive(Clone, Copy)]
pub struct Limit {
    value: u32,
    ghost within: { (1 ≤ value) × (value ≤ 1000000) },
}

impl Limit {
    pub fn new(n: u32) -> Result<Limit, SheetRefusal>
        ensures refused { refused_by sheet_refusal result ≡ limit_refusal n }
        ensures value { IfOk result (λ l. l.value ≡ n) }
    {
        if n < 1 || n > 1_000_000 {
            return Err(SheetRefusal::Limit);
        }
        Ok(Limit { value: n })
    }

    pub fn get(self) -> u32
        ensures { result ≡ self.value }
    {
        self.value
    }
}
