// The eight-page lookup against the plain reader of its steps: the whole answer, page numbers too.
use crate::steps;
use crate::tally::{Kind, Tally};
use format::Refusal;
use paged_lookup::Found;
use testing::{holder_of, slot_of};

// A lookup in a sound image, where the full lookup must have found the same too.
pub fn ask_sound(
    tally: &mut Tally,
    image: &[u8],
    full: Result<Found, Refusal>,
    holder: u16,
    slot: u16,
) {
    let plain = steps::lookup(image, holder, slot);
    let paged = paged_lookup::lookup(image, holder, slot);
    tally.expect(Kind::Eight, paged == plain);
    tally.expect(Kind::Eight, full == plain);
}

// A lookup in a damaged image.
fn ask(tally: &mut Tally, image: &[u8], holder: u16, slot: u16) {
    let plain = steps::answer(image, holder, slot);
    let found = paged_lookup::lookup(image, holder, slot);
    let is_right = found == plain.map_err(|refused| refused.refusal);
    tally.expect(Kind::EightDamaged, is_right);
    match plain {
        Ok(Found::Listed { .. }) => tally.note(Kind::EightListed),
        Ok(Found::Absent { .. }) => tally.note(Kind::EightAbsent),
        Err(refused) => {
            tally.note_eight_refused(refused.refusal);
            if refused.is_off {
                tally.note(Kind::EightPastOff);
            }
        }
    }
}

// A bit of a holder or a slot, each in turn, so that keys leave a listed one's path in every band.
pub fn one_bit(turn: usize) -> u16 {
    1 << (turn % 16)
}

// The key of a rank, or 0 where there is none.
pub fn key_at(keys: &[u32], rank: usize) -> u32 {
    keys.get(rank).copied().unwrap_or(0)
}

// Lookups in a damaged image of the keys: of a rank's admission, of two beside it, which are often not listed, and of one of a smaller rank.
pub fn ask_damaged(tally: &mut Tally, image: &[u8], keys: &[u32], rank: usize) {
    let key = key_at(keys, rank);
    let holder = holder_of(key);
    let slot = slot_of(key);
    let smaller = key_at(keys, rank / 8);
    let bit = one_bit(rank);
    ask(tally, image, holder, slot);
    ask(tally, image, holder ^ bit, slot);
    ask(tally, image, holder, slot ^ bit);
    ask(tally, image, holder_of(smaller), slot_of(smaller));
}
