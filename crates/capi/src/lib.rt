// The C interface, as include/lpt.h declares it: an answer of 0 or more, or -n where question n got a no.
#![tactic(auto)]

ghost use Rattle.std.specs.Prelude.{◌≡◌, ◌∷◌, ◌<◌, IfOk, pos, neg_ℤ};
ghost use Rattle.format.specs.Key.{key_of, holder_of, slot_of};
ghost use Rattle.format.specs.Writer;
ghost use Rattle.format.specs.Answer;
ghost use Rattle.format.specs.Scan;
ghost use Rattle.format.specs.Refusal.{number_of, outcome_of};
ghost use Rattle.paged_lookup.specs.Outcomes.{lookup_outcome};
ghost use Rattle.paged_lookup.specs.Paged.{paged_lookup};
ghost use Rattle.capi.specs.Encoding.{encoded, encoded_admission, encoded_lookup, lookup_buffer, encoded_find, rectangle_of, WrittenToC, EditedToC};
ghost use Rattle.edit.specs.declared.Change.{Change};
ghost use Rattle.repair.specs.Repair;

use format::{Admission, Range, Rectangle, Refusal};
use paged_lookup::Found;

// The answer of a question that got a no.
fn refused(refusal: Refusal) -> i64
    ensures { result ≡ neg_ℤ (pos (number_of refusal)) }
{
    0 - refusal.number() as i64
}

// The answer of a job that returns a number.
fn answer(answered: Result<usize, Refusal>) -> i64
    requires { IfOk answered (λ n. n < 9223372036854775808) }
    ensures { result ≡ encoded (outcome_of answered) }
{
    match answered {
        Ok(n) => n as i64,
        Err(refusal) => refused(refusal),
    }
}

// An admission in one number.
fn admission(a: Admission) -> i64
    ensures { result ≡ encoded_admission (a.holder, a.slot) }
{
    (a.holder as i64) * 65536 + a.slot as i64
}

fn rectangle_of(h0: u16, h1: u16, s0: u16, s1: u16) -> Rectangle
    ensures { result ≡ rectangle_of h0 h1 s0 s1 }
{
    Rectangle {
        holders: Range { low: h0, high: h1 },
        slots: Range { low: s0, high: s1 },
    }
}

#[unsafe(no_mangle)]
pub extern "C" fn lpt_key(holder: u16, slot: u16) -> i64
    ensures { result ≡ pos (key_of holder slot) }
{
    zorder::weave(holder, slot) as i64
}

#[unsafe(no_mangle)]
pub extern "C" fn lpt_admission_of(key: u32) -> i64
    ensures { result ≡ encoded_admission (holder_of key, slot_of key) }
{
    admission(zorder::unweave(key))
}

#[unsafe(no_mangle)]
pub extern "C" fn lpt_write(list: &[Admission], lift: u32, out: &mut [u8]) -> i64
    ensures { WrittenToC lift list.now out.old result out.new }
{
    answer(writer::write(list, lift, out))
}

#[unsafe(no_mangle)]
pub extern "C" fn lpt_write_keys(keys: &[u32], lift: u32, out: &mut [u8]) -> i64
    ensures { (result ≡ encoded (Writer.write_keys (Writer.lift_question lift) lift keys.now out.old)) × (out.new ≡ Writer.buffer_after_write_keys (Writer.lift_question lift) lift keys.now out.old) }
{
    answer(writer::write_keys(keys, lift, out))
}

#[unsafe(no_mangle)]
pub extern "C" fn lpt_check(img: &[u8]) -> i64
    ensures { result ≡ encoded (Answer.check img.now) }
{
    answer(checker::check(img))
}

#[unsafe(no_mangle)]
pub extern "C" fn lpt_lift(img: &[u8]) -> i64
    ensures { result ≡ encoded (Answer.lift img.now) }
{
    answer(checker::lift(img))
}

// The rank and the page numbers in the nine places.
fn fill(out: &mut [u32; 9], rank: u32, pages: [u32; 8])
    ensures { out.new ≡ rank ∷ pages }
{
    *out = [
        rank, pages[0], pages[1], pages[2], pages[3], pages[4], pages[5], pages[6], pages[7],
    ];
}

// What a lookup found: 1 with the nine places filled, 0 with the first filled, or a refusal.
fn looked_up(answered: Result<Found, Refusal>, out: &mut [u32; 9]) -> i64
    ensures { (result ≡ encoded_lookup (lookup_outcome answered)) × (out.new ≡ lookup_buffer (lookup_outcome answered) out.old) }
{
    match answered {
        Ok(Found::Listed { rank, pages }) => {
            fill(out, rank, pages);
            1
        }
        Ok(Found::Absent { smaller }) => {
            out[0] = smaller;
            0
        }
        Err(refusal) => refused(refusal),
    }
}

#[unsafe(no_mangle)]
pub extern "C" fn lpt_lookup(img: &[u8], holder: u16, slot: u16, out: &mut [u32; 9]) -> i64
    ensures { (result ≡ encoded_lookup (Answer.lookup img.now holder slot)) × (out.new ≡ lookup_buffer (Answer.lookup img.now holder slot) out.old) }
{
    looked_up(query::lookup(img, holder, slot), out)
}

#[unsafe(no_mangle)]
pub extern "C" fn lpt_lookup8(img: &[u8], holder: u16, slot: u16, out: &mut [u32; 9]) -> i64
    ensures { (result ≡ encoded_lookup (paged_lookup img.now holder slot)) × (out.new ≡ lookup_buffer (paged_lookup img.now holder slot) out.old) }
{
    looked_up(paged_lookup::lookup(img, holder, slot), out)
}

#[unsafe(no_mangle)]
pub extern "C" fn lpt_count(img: &[u8], h0: u16, h1: u16, s0: u16, s1: u16) -> i64
    ensures { result ≡ encoded (Answer.count img.now (rectangle_of h0 h1 s0 s1)) }
{
    answer(query::count(img, rectangle_of(h0, h1, s0, s1)))
}

#[unsafe(no_mangle)]
pub extern "C" fn lpt_list(img: &[u8], h0: u16, h1: u16, s0: u16, s1: u16, keys: &mut [u32]) -> i64
    ensures { (result ≡ encoded (Answer.listing img.now (rectangle_of h0 h1 s0 s1) keys.old)) × (keys.new ≡ Answer.buffer_after_listing img.now (rectangle_of h0 h1 s0 s1) keys.old) }
{
    answer(query::list(img, rectangle_of(h0, h1, s0, s1), keys))
}

#[unsafe(no_mangle)]
pub extern "C" fn lpt_find(img: &[u8], rank: u32) -> i64
    ensures { result ≡ encoded_find (Answer.find img.now rank) }
{
    match query::find(img, rank) {
        Ok(a) => admission(a),
        Err(refusal) => refused(refusal),
    }
}

#[unsafe(no_mangle)]
pub extern "C" fn lpt_scan(
    img: &[u8],
    rec: &mut [u32],
    holder: u16,
    slot: u16,
    time: u32,
    lockout: u32,
    lane: u32,
    lift: u32,
) -> i64
    ensures { (result ≡ encoded (Scan.scan lift img.now rec.old lane holder slot time lockout)) × (rec.new ≡ Scan.records_after_scan lift img.now rec.old lane holder slot time lockout) }
{
    match gate::scan(img, rec, holder, slot, time, lockout, lane, lift) {
        Ok(rank) => rank as i64,
        Err(refusal) => refused(refusal),
    }
}

#[unsafe(no_mangle)]
pub extern "C" fn lpt_add(
    img: &[u8],
    rec: &[u32],
    holder: u16,
    slot: u16,
    out: &mut [u8],
    out_rec: &mut [u32],
) -> i64
    ensures { EditedToC Change.Add img.now rec.now holder slot out.old out_rec.old result out.new out_rec.new }
{
    answer(edit::add(img, rec, holder, slot, out, out_rec))
}

#[unsafe(no_mangle)]
pub extern "C" fn lpt_withdraw(
    img: &[u8],
    rec: &[u32],
    holder: u16,
    slot: u16,
    out: &mut [u8],
    out_rec: &mut [u32],
) -> i64
    ensures { EditedToC Change.Withdraw img.now rec.now holder slot out.old out_rec.old result out.new out_rec.new }
{
    answer(edit::withdraw(img, rec, holder, slot, out, out_rec))
}

#[unsafe(no_mangle)]
pub extern "C" fn lpt_repair(img: &[u8], out: &mut [u8]) -> i64
    ensures { (result ≡ encoded (Repair.repair img.now out.old)) × (out.new ≡ Repair.buffer_after_repair img.now out.old) }
{
    answer(repair::repair(img, out))
}
