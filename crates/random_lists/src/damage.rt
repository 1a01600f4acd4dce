// Damaged images. One that is still accepted must be the exact image of its list and its lift, and is counted by what it is: the same list
// and lift, where two pages alike were exchanged, the same list for another lift, or another list. In every one the eight-page lookup must do
// what its steps say.
use crate::eight;
use crate::tally::{Kind, Tally};
use format::{MOST_BYTES, Rectangle};
use testing::Random;

// Of the sound image: its keys and its lift, and the rank of an admission that is looked up in the damaged one.
#[derive(Clone, Copy)]
pub struct Sound<'a> {
    pub keys: &'a [u32],
    pub lift: u32,
    pub rank: usize,
}

// A change of a byte: the bits that are turned over.
#[derive(Clone, Copy)]
pub struct Flip {
    pub at: usize,
    pub by: u8,
}

impl Flip {
    pub fn turn(self, image: &mut [u8]) {
        if let Some(byte) = image.get_mut(self.at) {
            *byte ^= self.by;
        }
    }
}

// Whether the writer makes this image of the keys for a lift.
fn is_image(keys: &[u32], lift: u32, image: &[u8]) -> bool {
    let mut out = [0; MOST_BYTES];
    let written = writer::write_either(keys, lift, &mut out);
    written == Ok(image.len()) && out.starts_with(image)
}

// The judgement of an accepted image: whether it is what the writer makes of its listing for its lift, and what it is.
fn judge_accepted(tally: &mut Tally, image: &[u8], sound: Sound) {
    let mut places = [0; 4096];
    let listed = query::list(image, Rectangle::whole_square(), &mut places);
    let listed = listed.ok().and_then(|n| places.get(..n));
    let lift = checker::lift(image)
        .ok()
        .and_then(|lift| u32::try_from(lift).ok());
    let (Some(listed), Some(lift)) = (listed, lift) else {
        tally.expect(Kind::Damaged, false);
        return;
    };
    tally.expect(Kind::Damaged, is_image(listed, lift, image));
    tally.note(if listed != sound.keys {
        Kind::OtherList
    } else if lift != sound.lift {
        Kind::OtherLift
    } else {
        Kind::Same
    });
}

// The judgement of a damaged image.
fn judge(tally: &mut Tally, image: &[u8], sound: Sound) {
    eight::ask_damaged(tally, image, sound.keys, sound.rank);
    match checker::check(image) {
        Ok(_) => judge_accepted(tally, image, sound),
        Err(refusal) => {
            tally.expect(Kind::Damaged, true);
            tally.note_refused(refusal);
        }
    }
}

// The image with a byte changed, judged; the byte is changed back.
pub fn change(tally: &mut Tally, image: &mut [u8], sound: Sound, flip: Flip) {
    if flip.at < image.len() {
        flip.turn(image);
        judge(tally, image, sound);
        flip.turn(image);
    }
}

// Each of the bytes changed in turn.
pub fn change_each(tally: &mut Tally, image: &mut [u8], sound: Sound, flips: [Flip; 5]) {
    for flip in flips {
        change(tally, image, sound, flip);
    }
}

// The place of a byte of a page.
pub fn place(page: usize, byte: usize) -> usize {
    page.saturating_mul(64).saturating_add(byte % 64)
}

// Two pages exchanged.
fn swap_pages(image: &mut [u8], a: usize, b: usize) {
    for i in 0..64 {
        let first = place(a, i);
        let second = place(b, i);
        if first < image.len() && second < image.len() {
            image.swap(first, second);
        }
    }
}

// Two pages exchanged, judged, and exchanged again.
pub fn swap(tally: &mut Tally, image: &mut [u8], sound: Sound, a: usize, b: usize) {
    if a != b {
        swap_pages(image, a, b);
        judge(tally, image, sound);
        swap_pages(image, a, b);
    }
}

// The bit of a byte.
pub fn bit(random: Random) -> u8 {
    1 << (random.pick(8) % 8)
}

// A bit of any byte, of a byte of the header, and of T, B and the first nodes of a page, two pages exchanged, and the end cut off.
fn damage_at(tally: &mut Tally, image: &mut [u8], sound: Sound, random: Random, other: Random) {
    let bytes = image.len();
    let page = random.pick(bytes / 64);
    let by = bit(other);
    let flips = [
        (random.pick(bytes), by),
        (random.pick(64), by),
        (place(page, 1), 1),
        (place(page, 3), 1),
        (place(page, 4), by),
    ];
    change_each(tally, image, sound, flips.map(|(at, by)| Flip { at, by }));
    swap(tally, image, sound, page, other.pick(bytes / 64));
    let size = other.pick(bytes);
    if size < bytes {
        judge(tally, &image[..size], sound);
    }
}

// 40 random places of the image of the keys for a lift.
pub fn damage(tally: &mut Tally, image: &mut [u8], keys: &[u32], lift: u32, seed: Random) {
    let mut random = seed;
    for _ in 0..40 {
        random = random.next();
        let other = random.next();
        let rank = other.pick(keys.len());
        let sound = Sound { keys, lift, rank };
        damage_at(tally, image, sound, random, other);
        random = other.next();
    }
}
