// Damaged page heads: key count, root counts, T and B worked out afresh from the page counts and the nodes.
#![tactic(auto)]

mod fill;
mod judge;
mod roots;

ghost use Rattle.std.specs.Prelude.{◌≡◌};
ghost use Rattle.format.specs.Refusal.{outcome_of};
ghost use Rattle.repair.specs.Repair;

use fill::fill;
use format::Refusal;
use judge::judge;

// Gives the one accepted image of that length that agrees in the kept bytes: 17, then 37 where there is none. Nothing is written before both got a yes. Returns
// how many 16-bit numbers are altered.
pub fn repair(image: &[u8], out: &mut [u8]) -> Result<usize, Refusal>
    ensures { (outcome_of result ≡ Repair.repair image.now out.old) × (out.new ≡ Repair.buffer_after_repair image.now out.old) }
{
    if out.len() < image.len() {
        return Err(Refusal::Room);
    }
    // T's and B's in two arrays: the laws of both are one, over a list of numbers (`put_next`, proofs/Judging).
    let mut counts = [0u16; 9];
    let mut t = [0u16; 384];
    let mut b = [0u16; 384];
    if !judge(image, &mut counts, &mut t, &mut b) {
        return Err(Refusal::Repair);
    }
    Ok(fill(image, out, &counts, &t, &b))
}
