// What the test programs share of the jobs: images of lists, and edits by key.
#![tactic(auto)]

ghost use Rattle.std.specs.Prelude.{◌≡◌, ⊤, MatchOption, MatchResult};
ghost use Rattle.format.specs.Writer.{image_of};

use edit::Change;
use format::{MOST_BYTES, Refusal};
use std::alloc::{AllocError, Global};
use testing::{holder_of, slot_of};

// The image of the keys for a lift, 0 for version 1; none where they are refused.
pub fn image_of(alloc: Global, keys: &[u32], lift: u32) -> Result<Option<Vec<u8>>, AllocError>
    ensures { MatchResult result (λ made. MatchOption made ⊤ (λ image. image.items ≡ image_of lift keys.now)) (λ _. ⊤) }
{
    let mut image = vec![in alloc; 0; MOST_BYTES]?;
    let Ok(length) = writer::write_either(keys, lift, &mut image) else {
        return Ok(None);
    };
    image.truncate(length);
    Ok(Some(image))
}

// Adds the admission of a key, or withdraws it.
pub fn edit_key(
    change: Change,
    image: &[u8],
    records: &[u32],
    key: u32,
    new_image: &mut [u8],
    new_records: &mut [u32],
) -> Result<usize, Refusal> {
    let holder = holder_of(key);
    let slot = slot_of(key);
    match change {
        Change::Add => edit::add(image, records, holder, slot, new_image, new_records),
        Change::Withdraw => edit::withdraw(image, records, holder, slot, new_image, new_records),
    }
}
