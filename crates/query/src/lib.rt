// Lookup, count, listing and finding by rank. Each job asks 1 to 13 by itself first.
#![tactic(auto)]

ghost use Rattle.std.specs.Prelude.{◌≡◌, ltb, length};
ghost use Rattle.format.specs.Answer;
ghost use Rattle.format.specs.Exact.{Accepted};
ghost use Rattle.format.specs.Image.{key_count};
ghost use Rattle.format.specs.Refusal.{outcome_of};
ghost use Rattle.paged_lookup.specs.Outcomes.{lookup_outcome};
ghost use Rattle.query.specs.Outcomes.{find_outcome};

use checker::check;
use climb::key_at;
use format::{Admission, Rectangle, Refusal};
use paged_lookup::{Found, lookup_accepted};
use walk::{count_members, list_members};
use zorder::unweave;

// Looks a holder and a slot up: the rank and the eight page numbers on the key's path, or absent with the number of smaller keys. In an accepted image the eight-page
// lookup finds just that.
pub fn lookup(image: &[u8], holder: u16, slot: u16) -> Result<Found, Refusal>
    ensures { lookup_outcome result ≡ Answer.lookup image.now holder slot }
{
    check(image)?; // so that no page is judged again
    lookup_accepted(image, holder, slot)
}

// Whether each low of a rectangle is at most its high.
fn in_order(rectangle: Rectangle) -> bool
    ensures { result ≡ (Answer.rectangle_question rectangle).1 }
{
    let holders = rectangle.holders;
    if holders.high < holders.low {
        return false;
    }
    let slots = rectangle.slots;
    slots.low <= slots.high
}

// Counts the members of a rectangle.
pub fn count(image: &[u8], rectangle: Rectangle) -> Result<usize, Refusal>
    ensures { outcome_of result ≡ Answer.count image.now rectangle }
{
    check(image)?;
    if !in_order(rectangle) {
        return Err(Refusal::Rectangle);
    }
    Ok(count_members(image, rectangle))
}

// Whether a buffer of `places` places lacks one for a member. One with a place for every key of the image, `all`, needs no count.
fn is_short(image: &[u8], rectangle: Rectangle, all: usize, places: usize) -> bool
    requires { (Accepted image.now) × (all ≡ key_count image.now) }
    ensures { result ≡ ltb places (length (Answer.member_keys image.now rectangle)) }
{
    if all <= places {
        return false;
    }
    places < count_members(image, rectangle)
}

// Lists the members of a rectangle: their keys, ascending, in as many first places. Returns how many they are.
pub fn list(image: &[u8], rectangle: Rectangle, keys: &mut [u32]) -> Result<usize, Refusal>
    ensures { (outcome_of result ≡ Answer.listing image.now rectangle keys.old) × (keys.new ≡ Answer.buffer_after_listing image.now rectangle keys.old) }
{
    let all = check(image)?;
    if !in_order(rectangle) {
        return Err(Refusal::Rectangle);
    }
    if is_short(image, rectangle, all, keys.len()) {
        return Err(Refusal::Place);
    }
    Ok(list_members(image, rectangle, keys))
}

// Finds the admission of a rank.
pub fn find(image: &[u8], rank: u32) -> Result<Admission, Refusal>
    ensures { find_outcome result ≡ Answer.find image.now rank }
{
    let keys = check(image)?;
    let wide = rank as usize;
    if keys <= wide {
        return Err(Refusal::Rank);
    }
    Ok(unweave(key_at(image, wide)))
}
