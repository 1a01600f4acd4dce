// The checker: questions 1 to 13, with 35, of any bytes.
#![tactic(auto)]

pub mod band;
pub mod needed;
pub mod page;

ghost use Rattle.std.specs.Prelude.{◌≡◌};
ghost use Rattle.format.specs.Answer;
ghost use Rattle.format.specs.Refusal.{outcome_of};

use band::bands_refusal;
use format::Refusal;
use header::{header_refusal, key_count};

// Questions 1 to 13 in order, pages in image order: the key count of an accepted image.
pub fn check(image: &[u8]) -> Result<usize, Refusal>
    ensures { outcome_of result ≡ Answer.check image.now }
{
    header_refusal(image)?;
    bands_refusal(image)?;
    Ok(key_count(image))
}

// The lift that an accepted image is for, 0 in version 1.
pub fn lift(image: &[u8]) -> Result<usize, Refusal>
    ensures { outcome_of result ≡ Answer.lift image.now }
{
    check(image)?;
    Ok(header::lift(image))
}
