ghost use Rattle.records.specs.Examples.{AsWorked};

// The worked examples of bands, weights and records hold of what the operators, the measures and the records mean.
pub fn worked_examples() -> u8
    ensures { AsWorked }
{
    0
}
