use refusals::refusal::Refusal;
use std::test::Fail;

// The record of sum(P1,P2).
pub(crate) const SUM: [u8; 17] = [0, 3, 64, 65, 3, 0, 0, 0, 0, 0, 0, 0, 0, 0, 0, 0, 1];

// The number and the place of a refusal that must come.
pub(crate) fn refused<T: Drop, R: Refusal + Drop>(
    answer: Result<T, R>,
) -> Result<(u8, usize), Fail> {
    let Err(refusal) = answer else {
        return Err(Fail::new("not refused"));
    };
    Ok((refusal.number(), refusal.place()))
}
