use grid::Refusal;
use numbering::Unbroken;

// Follows every step of a numbering from its first cell, and answers whether each led to the next key's cell.
pub(crate) fn all_shared<N: Unbroken>(numbering: &N) -> Result<bool, Refusal> {
    for key in 0..numbering.steps() {
        if !leads_on(numbering, key)? {
            return Ok(false);
        }
    }
    Ok(true)
}

// Whether the step from a key's cell leads to the next one's.
fn leads_on<N: Unbroken>(numbering: &N, key: u64) -> Result<bool, Refusal> {
    let step = numbering.step(key)?;
    let next = numbering::neighbour(numbering, key, step)?;
    Ok(next == key + 1)
}
