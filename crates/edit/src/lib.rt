// One sale, one withdrawal: from an image and its records to those of the changed list, in a second image buffer and a second record buffer.
#![tactic(auto)]

mod keys; // keys.rt: the changed list, and its image
mod records; // records.rt: the changed records

ghost use Rattle.std.specs.Prelude.{◌≡◌, ◌<◌, is_some};
ghost use Rattle.format.specs.Question.{first_no};
ghost use Rattle.format.specs.Refusal.{refusal_of};
ghost use Rattle.paged_lookup.specs.Outcomes.{rank_in, smaller_in};
ghost use Rattle.edit.specs.Edit.{can_change, changed_count, few_enough, change_questions};
ghost use Rattle.edit.specs.Outcomes.{Located, KeyEdited, EditedRight};

use format::{LANES, Refusal};
use keys::write_changed;
use paged_lookup::Found;
use records::move_records;

// What is done to the list. An enum and no closures: the definitions say by it which list, which records and which questions an edit has (specs/Edit).
#[derive(Clone, Copy, Debug, PartialEq, Eq)]
pub enum Change {
    Add,
    Withdraw,
}

// 30: the admission to add is not listed, the one to withdraw is.
fn can_change(change: Change, listed: bool) -> bool
    ensures { result ≡ can_change change listed }
{
    match change {
        Change::Add => !listed,
        Change::Withdraw => listed,
    }
}

// 14: an addition makes at most 4,096; a withdrawal is not asked.
fn few_enough(change: Change, keys: usize) -> bool
    ensures { result ≡ few_enough change keys }
{
    match change {
        Change::Add => keys < 4096,
        Change::Withdraw => true,
    }
}

// How many keys there are then.
fn changed_count(change: Change, keys: usize) -> usize
    requires { keys < 65536 }
    ensures { (result ≡ changed_count change keys) × (result < 65537) }
{
    match change {
        Change::Add => keys + 1,
        Change::Withdraw => {
            if keys == 0 {
                return 0;
            }
            keys - 1
        }
    }
}

// 21, 30, 14 and 17 of the output for the records, of an image with `keys` keys, `records` records, and `places` places for the new ones: the first that
// gets a no.
fn change_refusal(
    change: Change,
    keys: usize,
    records: usize,
    listed: bool,
    places: usize,
) -> Result<(), Refusal>
    requires { keys < 65536 }
    ensures { refusal_of result ≡ first_no (change_questions change keys records listed places) }
{
    let length_right = records == keys + LANES;
    let can = can_change(change, listed);
    let few = few_enough(change, keys);
    let room = changed_count(change, keys) + LANES <= places;
    if !length_right {
        return Err(Refusal::Records);
    }
    if !can {
        return Err(Refusal::Change);
    }
    if !few {
        return Err(Refusal::More);
    }
    if !room {
        return Err(Refusal::Room);
    }
    Ok(())
}

// The edit by key, after 1 to 13, where lookup found so much. The image is written first, which asks 17 of its output before any byte is written.
fn edit_at(
    image: &[u8],
    records: &[u32],
    change: Change,
    key: u32,
    found: Found,
    new_image: &mut [u8],
    new_records: &mut [u32],
) -> Result<usize, Refusal>
    requires { Located image.now key (is_some (rank_in found)) (smaller_in found) }
    ensures { KeyEdited change image.now records.now key new_image.old new_records.old result new_image.new new_records.new }
{
    let keys = header::key_count(image);
    let listed = found.rank().is_some();
    change_refusal(change, keys, records.len(), listed, new_records.len())?;
    let place = found.smaller() as usize;
    let length = write_changed(image, change, key, place, new_image)?;
    move_records(change, records, keys, place, new_records);
    Ok(length)
}

// The edit: its place comes from lookup, of an absent admission too.
fn edit(
    image: &[u8],
    records: &[u32],
    change: Change,
    holder: u16,
    slot: u16,
    new_image: &mut [u8],
    new_records: &mut [u32],
) -> Result<usize, Refusal>
    ensures { EditedRight change image.now records.now holder slot new_image.old new_records.old result new_image.new new_records.new }
{
    let key = zorder::weave(holder, slot);
    let found = query::lookup(image, holder, slot)?;
    edit_at(image, records, change, key, found, new_image, new_records)
}

// Adds an admission: the new image in the first bytes of `new_image`, and the new records in the first elements of `new_records`. Returns the new image's
// length, or the number of the question that got a no; then neither buffer changes.
pub fn add(
    image: &[u8],
    records: &[u32],
    holder: u16,
    slot: u16,
    new_image: &mut [u8],
    new_records: &mut [u32],
) -> Result<usize, Refusal>
    ensures { EditedRight Change.Add image.now records.now holder slot new_image.old new_records.old result new_image.new new_records.new }
{
    edit(
        image,
        records,
        Change::Add,
        holder,
        slot,
        new_image,
        new_records,
    )
}

// Withdraws an admission, in the same way.
pub fn withdraw(
    image: &[u8],
    records: &[u32],
    holder: u16,
    slot: u16,
    new_image: &mut [u8],
    new_records: &mut [u32],
) -> Result<usize, Refusal>
    ensures { EditedRight Change.Withdraw image.now records.now holder slot new_image.old new_records.old result new_image.new new_records.new }
{
    edit(
        image,
        records,
        Change::Withdraw,
        holder,
        slot,
        new_image,
        new_records,
    )
}
