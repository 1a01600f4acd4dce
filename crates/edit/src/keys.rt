// The keys of an image with one put in or left out, and their image.
ghost use Rattle.std.specs.Prelude.{◌≡◌, ◌+◌, ◌≤◌, ◌<◌, length, take};
ghost use Rattle.format.specs.Seq.{insert_at, delete_at};
ghost use Rattle.format.specs.Image.{key_count, keys_of, lift_of};
ghost use Rattle.format.specs.Writer.{either_question};
ghost use Rattle.format.specs.Exact.{Accepted};
ghost use Rattle.writer.specs.Outcomes.{WrittenKeys};
ghost use Rattle.edit.specs.Edit.{changed_keys};
ghost use Rattle.edit.specs.Outcomes.{Changing, KeysIn};

use crate::Change;
use copying::move_down;
use format::{Rectangle, Refusal};
use walk::list_members;
use writer::write_either;

// The keys with one put in at `rank`, in the first places; how many, since memory is fixed and so there is no Vec. They are listed from the second place on, and those before the new one are moved down.
fn keys_with(image: &[u8], key: u32, rank: usize, keys: &mut [u32]) -> usize
    requires { (Accepted image.now) × (rank ≤ key_count image.now) × (key_count image.now < length keys.old) }
    ensures { KeysIn (insert_at rank key (keys_of image.now)) keys.new result }
{
    let n = list_members(image, Rectangle::whole_square(), &mut keys[1..]);
    move_down(keys, 0, rank + 1, rank);
    keys[rank] = key;
    n + 1
}

// The keys without the one at `rank`, in the first places; how many.
fn keys_without(image: &[u8], rank: usize, keys: &mut [u32]) -> usize
    requires { (Accepted image.now) × (rank < key_count image.now) × (key_count image.now ≤ length keys.old) }
    ensures { KeysIn (delete_at rank (keys_of image.now)) keys.new result }
{
    let n = list_members(image, Rectangle::whole_square(), keys);
    move_down(keys, rank, n, n - rank - 1);
    n - 1
}

// The changed list's keys, in the first places; how many.
fn changed_keys(image: &[u8], change: Change, key: u32, rank: usize, keys: &mut [u32]) -> usize
    requires { (Changing change image.now key rank) × (length keys.old ≡ 4096) }
    ensures { KeysIn (changed_keys change key (keys_of image.now)) keys.new result }
{
    match change {
        Change::Add => keys_with(image, key, rank, keys),
        Change::Withdraw => keys_without(image, rank, keys),
    }
}

// Writes the changed list's image, in the version and for the lift of the image that is changed.
pub fn write_changed(
    image: &[u8],
    change: Change,
    key: u32,
    rank: usize,
    out: &mut [u8],
) -> Result<usize, Refusal>
    requires { Changing change image.now key rank }
    ensures { WrittenKeys (either_question (lift_of image.now)) (lift_of image.now) (changed_keys change key (keys_of image.now)) out.old result out.new }
{
    let lift = header::lift(image);
    let mut keys = [0u32; 4096];
    let n = changed_keys(image, change, key, rank, &mut keys);
    write_either(&keys[0..n], lift as u32, out)
}
