// The gate's history on a list: a row of scans and then trials of lockouts, over one record buffer that begins with zeros.
use crate::list::{List, Records};
use crate::patience::patience;
use crate::scans::scans;
use crate::tally::Tally;
use std::alloc::{AllocError, Global};
use testing::Random;

// The row, and then the trials, which meet the records that it left.
pub fn history(
    tally: &mut Tally,
    alloc: Global,
    list: List,
    seed: Random,
) -> Result<(), AllocError> {
    let mut held = Records::zeros(alloc, list)?;
    scans(tally, list, &mut held, seed);
    patience(tally, list, &mut held, seed);
    Ok(())
}
