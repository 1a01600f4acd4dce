// The writer: from a list of admissions or keys to its image in a lent buffer. The image is planned first (crate image_writer), so that
// nothing is written where the buffer is too small, and then filled. Both passes share one array: the first uses up the first keys only,
// which are put there again for the second.
#![tactic(auto)]

mod list; // list.rt: the lent list of admissions, woven into keys

ghost use Rattle.std.specs.Prelude.{◌≡◌, true, false, ◌≤◌, length, take, MatchResult};
ghost use Rattle.format.specs.Question.{is_lift};
ghost use Rattle.format.specs.Writer.{lift_question, either_question};
ghost use Rattle.format.specs.declared.refusal.Refusal.TheVariants.{Lift};
ghost use Rattle.writer.specs.Outcomes.{WrittenKeys, WrittenList, WrittenFirst};
ghost use Rattle.writer.specs.List.{yes_to_35, keys_in};
ghost use Rattle.packing.specs.Run.{Prefixes};
ghost use Rattle.packing.specs.Memory.{Free};
ghost use Rattle.image_writer.specs.Image.{Planned};

use copying::load;
use format::{Admission, Refusal};
use image_writer::Plan;
use list::weave_first;

// Question 17, and the image of the keys that a plan is for.
fn fill_image(keys: &mut [u32], out: &mut [u8], plan: &Plan) -> Result<usize, Refusal>
    requires { Prefixes keys.old × Planned keys.old plan.now }
    ensures { (WrittenKeys yes_to_35 plan.now.lift keys.old out.old result out.new) × (Free keys.old keys.new) }
{
    let length = 64 + 64 * plan.pages;
    if out.len() < length {
        return Err(Refusal::Room);
    }
    image_writer::fill_header(out, plan.lift, keys.len() as u16, &plan.bands);
    image_writer::fill_bands(keys, out, plan);
    Ok(length)
}

// Writes the image of the keys for a lift, with as many places to work in.
fn write_over(places: &mut [u32], keys: &[u32], lift: u16, out: &mut [u8]) -> Result<usize, Refusal>
    requires { (length places.old ≡ length keys.now) × (length keys.now ≤ 4096) }
    ensures { (WrittenKeys yes_to_35 lift keys.now out.old result out.new) × (Free places.old places.new) }
{
    load(places, keys);
    let plan = image_writer::plan_keys(places, lift)?;
    load(places, &keys[..plan.used_up()]);
    fill_image(places, out, &plan)
}

// The same for the keys of a list of admissions. A closure that puts the keys, in place of two functions, is no plainer: its clauses are
// longer than these four lines.
fn write_woven(
    places: &mut [u32],
    list: &[Admission],
    lift: u16,
    out: &mut [u8],
) -> Result<usize, Refusal>
    requires { (length places.old ≡ length list.now) × (length list.now ≤ 4096) }
    ensures { (WrittenKeys yes_to_35 lift (keys_in list.now) out.old result out.new) × (Free places.old places.new) }
{
    weave_first(list, places);
    let plan = image_writer::plan_keys(places, lift)?;
    weave_first(&list[..plan.used_up()], places);
    fill_image(places, out, &plan)
}

// Writes the image of a list of keys in either version, where lift 0 is version 1: questions 35, 14, 15 and 17, then the image's length.
pub fn write_either(keys: &[u32], lift: u32, out: &mut [u8]) -> Result<usize, Refusal>
    ensures { WrittenKeys (either_question lift) lift keys.now out.old result out.new }
{
    if 999 < lift {
        return Err(Refusal::Lift);
    }
    if 4096 < keys.len() {
        return Err(Refusal::More);
    }
    let mut places = [0; 4096];
    write_over(&mut places[..keys.len()], keys, lift as u16, out)
}

// Question 35: the lift, if it is 1 to 999.
#[tactic(auto, using(format::proofs::Jobs::lift_range))]
fn asked_lift(lift: u32) -> Result<u16, Refusal>
    ensures { MatchResult result (λ kept. (kept ≡ lift) × (is_lift lift ≡ true)) (λ refusal. (refusal ≡ Lift) × (is_lift lift ≡ false)) }
{
    if !format::is_lift(lift as usize) {
        return Err(Refusal::Lift);
    }
    Ok(lift as u16)
}

// Writes the image of a list of keys in version 2: questions 35, 14, 15 and 17, then the image's length.
pub fn write_keys(keys: &[u32], lift: u32, out: &mut [u8]) -> Result<usize, Refusal>
    ensures { WrittenKeys (lift_question lift) lift keys.now out.old result out.new }
{
    asked_lift(lift)?;
    write_either(keys, lift, out)
}

// The job: writes the image of the list for a lift, in version 2, into the first bytes of the buffer, and returns its length.
pub fn write(list: &[Admission], lift: u32, out: &mut [u8]) -> Result<usize, Refusal>
    ensures { WrittenList lift list.now out.old result out.new }
{
    let lift = asked_lift(lift)?;
    if 4096 < list.len() {
        return Err(Refusal::More);
    }
    let mut places = [0; 4096];
    write_woven(&mut places[..list.len()], list, lift, out)
}

// The same for a caller that owns the array: an `n` above 4,096 gets a no at 35 or 14. `WrittenFirst` holds it to an array and a count.
#[tactic(auto, using(crate::specs::Outcomes::in_array, crate::specs::Outcomes::past_array))]
pub fn write_first(
    list: [Admission; 4096],
    n: usize,
    lift: u32,
    out: &mut [u8],
) -> Result<usize, Refusal>
    ensures { WrittenFirst lift list n out.old result out.new }
{
    if 4096 < n {
        asked_lift(lift)?;
        return Err(Refusal::More);
    }
    write(&list[..n], lift, out)
}
