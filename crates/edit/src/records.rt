// The records of an image with `keys` keys, with a 0 put in or one left out. What follows them, the lanes' counts, comes along.
ghost use Rattle.std.specs.Prelude.{◌≡◌, ◌++◌, ◌+◌, ◌-◌, ◌≤◌, ◌<◌, length, drop};
ghost use Rattle.format.specs.Seq.{insert_at, delete_at};
ghost use Rattle.format.specs.Scan.{records_length};
ghost use Rattle.edit.specs.Edit.{changed_count};
ghost use Rattle.edit.specs.Outcomes.{RecordRoom, records_at};

use crate::Change;
use copying::load;
use format::LANES;

// The records with a 0 put in at `rank`, in the first places.
fn records_with(records: &[u32], keys: usize, rank: usize, places: &mut [u32])
    requires { (length records.now ≡ records_length keys) × (rank ≤ keys) × (keys < 65536) × (length records.now < length places.old) }
    ensures { places.new ≡ insert_at rank 0 records.now ++ drop (length records.now + 1) places.old }
{
    let end = keys + LANES;
    let next = rank + 1;
    places[rank] = 0;
    load(places, &records[0..rank]);
    load(&mut places[next..], &records[rank..end]);
}

// The records without the one at rank `gone`, in the first places.
fn records_without(records: &[u32], keys: usize, gone: usize, places: &mut [u32])
    requires { (length records.now ≡ records_length keys) × (gone ≤ keys) × (keys < 65536) × (length records.now ≤ length places.old + 1) }
    ensures { places.new ≡ delete_at gone records.now ++ drop (length records.now - 1) places.old }
{
    let length = keys + LANES;
    let after = gone + 1;
    load(places, &records[0..gone]);
    load(&mut places[gone..], &records[after..length]);
}

// The changed list's records, in the first places.
pub fn move_records(change: Change, records: &[u32], keys: usize, rank: usize, places: &mut [u32])
    requires { RecordRoom change records.now keys rank places.old }
    ensures { places.new ≡ records_at change rank records.now ++ drop (changed_count change (length records.now)) places.old }
{
    match change {
        Change::Add => records_with(records, keys, rank, places),
        Change::Withdraw => records_without(records, keys, rank, places),
    }
}
