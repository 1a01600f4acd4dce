// The gate's scan: whether a card opens, and what is recorded.
#![tactic(auto)]

ghost use Rattle.std.specs.Prelude.{◌≡◌, ◌≤◌, ◌<◌, is_some, unwrap_or, ltb, length, get_or};
ghost use Rattle.format.specs.Question.{settle};
ghost use Rattle.format.specs.Image.{key_count};
ghost use Rattle.format.specs.Refusal.{outcome_of};
ghost use Rattle.format.specs.Scan;

use format::{LANES, Refusal, one_to};
use holder::holder_record;

// 36: the image names no lift, or the gate's.
fn lift_fits(image: &[u8], lift: u32) -> bool
    requires { 64 ≤ length image.now }
    ensures { result ≡ Scan.lift_fits lift image.now }
{
    let named = header::lift(image);
    if named == 0 {
        return true;
    }
    named == lift as usize
}

// 25, of a holder's record: never opened, or the time is not before the last opening. The sums are wider than 32 bits, so that none wraps.
fn time_right(last: u32, time: u32) -> bool
    ensures { result ≡ Scan.time_right last time }
{
    if last == 0 {
        return true;
    }
    last as u64 <= time as u64 + 1
}

// 26, of a holder's record: never opened, or at least the lockout seconds since.
fn lockout_over(last: u32, time: u32, lockout: u32) -> bool
    ensures { result ≡ Scan.lockout_over last time lockout }
{
    if last == 0 {
        return true;
    }
    last as u64 + lockout as u64 <= time as u64 + 1
}

// 29: the lane is one of 1 to 8.
fn is_lane(lane: u32) -> bool
    ensures { result ≡ Scan.is_lane lane }
{
    one_to(LANES, lane as usize)
}

// The place of a lane's count in the records of an image with `keys` keys.
fn lane_place(keys: usize, lane: u32) -> usize
    requires { (keys < 65536) × (1 ≤ lane) × (lane ≤ 8) }
    ensures { result ≡ Scan.lane_place keys lane }
{
    keys + (lane as usize - 1)
}

// 23: the count at that place is below 4,294,967,295.
fn below_end(records: &[u32], place: usize) -> bool
    requires { place < length records.now }
    ensures { result ≡ ltb (get_or records.now place 0) Scan.largest32 }
{
    records[place] < 4294967295
}

// 36, 29 and 21 to 24, of an image with a header: the rank of the admission, where it is listed.
fn at_gate(
    image: &[u8],
    records: &[u32],
    lane: u32,
    lift: u32,
    rank: Option<u32>,
    time: u32,
) -> Result<u32, Refusal>
    requires { 64 ≤ length image.now }
    ensures { outcome_of result ≡ settle (Scan.gate_questions (Scan.lift_fits lift image.now) (key_count image.now) records.now lane (is_some rank) time) (unwrap_or rank 0) }
{
    let keys = header::key_count(image);
    let fits = lift_fits(image, lift);
    let lane_right = is_lane(lane);
    let length_right = records.len() == keys + LANES;
    if !fits {
        return Err(Refusal::Gate);
    }
    if !lane_right {
        return Err(Refusal::Lane);
    }
    if !length_right {
        return Err(Refusal::Records);
    }
    if time == 4294967295 {
        return Err(Refusal::Time);
    }
    let count_place = lane_place(keys, lane);
    if !below_end(records, count_place) {
        return Err(Refusal::Openings);
    }
    rank.ok_or(Refusal::Admission)
}

// 25 and 26, of the holder's record `last`, where the lane, the records and the time fit; and the opening of the admission at `rank`.
fn admit(
    records: &mut [u32],
    keys: usize,
    lane: u32,
    rank: u32,
    last: u32,
    time: u32,
    lockout: u32,
) -> Result<u32, Refusal>
    requires { (keys < 65536) × (rank < keys) × (Scan.RecordsFit keys records.old lane time) }
    ensures { (outcome_of result ≡ settle (Scan.lockout_questions last time lockout) rank) × (records.new ≡ Scan.records_after (outcome_of result) keys records.old lane time) }
{
    let record_place = rank as usize;
    if !time_right(last, time) {
        return Err(Refusal::Earlier);
    }
    if !lockout_over(last, time, lockout) {
        return Err(Refusal::Lockout);
    }
    let count_place = lane_place(keys, lane);
    let openings = records[count_place];
    records[record_place] = time + 1;
    records[count_place] = openings + 1;
    Ok(rank)
}

// Whether the admission opens in that lane of a gate of that lift, at that time, after the lockout since its holder's last opening under any listed slot.
// An opening returns its rank, records time + 1 there and adds one to the lane's count; a refusal changes nothing.
pub fn scan(
    image: &[u8],
    records: &mut [u32],
    holder: u16,
    slot: u16,
    time: u32,
    lockout: u32,
    lane: u32,
    lift: u32,
) -> Result<u32, Refusal>
    ensures { (outcome_of result ≡ Scan.scan lift image.now records.old lane holder slot time lockout) × (records.new ≡ Scan.records_after_scan lift image.now records.old lane holder slot time lockout) }
{
    let found = query::lookup(image, holder, slot)?;
    let rank = at_gate(image, records, lane, lift, found.rank(), time)?;
    let keys = header::key_count(image);
    let last = holder_record(image, records, holder);
    admit(records, keys, lane, rank, last, time, lockout)
}
