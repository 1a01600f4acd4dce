// Damage on the path of an admission: to the page that it reads in a band, to the first page of that band, and to the counts that are asked there.
use crate::damage::{Flip, Sound, bit, change, change_each, place, swap};
use crate::eight::key_at;
use crate::plain::Plain;
use crate::steps;
use crate::tally::Tally;
use paged_lookup::Found;
use testing::{Random, holder_of, slot_of};

// The page that the admission of a key reads in a band, where it is listed.
fn page_on_path(image: &[u8], key: u32, band: usize) -> Option<usize> {
    match steps::lookup(image, holder_of(key), slot_of(key)) {
        Ok(Found::Listed { pages, .. }) => Some(pages[band % 8] as usize),
        _ => None,
    }
}

// The place of the number where a page's roots end: the next page's T, or for a band's last page the band's root count.
fn roots_end(image: &[u8], page: usize, band: usize) -> usize {
    let band = band % 8;
    let next = page.saturating_add(1);
    if next < (Plain { image }).first_page(band + 1) {
        place(next, 1)
    } else {
        11 + 4 * band
    }
}

// T and B of a page, where its roots end, and a byte of its nodes.
fn page_places(page: usize, end: usize, node: usize) -> [usize; 5] {
    [
        place(page, 1),
        place(page, 2),
        place(page, 3),
        end,
        place(page, 4 + node % 60),
    ]
}

// T of the band's first page, the band's root count, and what is asked on leaving it: the next band's root count, or out of the last band the key count.
fn band_places(first_page: usize, band: usize) -> [usize; 5] {
    let band = band % 8;
    let limit = if band == 7 { 6 } else { 14 + 4 * band };
    [
        place(first_page, 1),
        10 + 4 * band,
        11 + 4 * band,
        limit,
        limit + 1,
    ]
}

fn flips(at: [usize; 5], by: [u8; 5]) -> [Flip; 5] {
    [
        Flip {
            at: at[0],
            by: by[0],
        },
        Flip {
            at: at[1],
            by: by[1],
        },
        Flip {
            at: at[2],
            by: by[2],
        },
        Flip {
            at: at[3],
            by: by[3],
        },
        Flip {
            at: at[4],
            by: by[4],
        },
    ]
}

// All this for the page that a rank's admission reads in a band. A page's T and where its roots end are changed alike too: often the page then has as many
// roots as before, under other numbers. The page is exchanged with the band's first too, so that its T's are out of order.
fn damage_page(tally: &mut Tally, image: &mut [u8], sound: Sound, band: usize, random: Random) {
    let Some(page) = page_on_path(image, key_at(sound.keys, sound.rank), band) else {
        return;
    };
    let a = bit(random);
    let b = bit(random.next());
    let end = roots_end(image, page, band);
    let first = Plain { image }.first_page(band % 8);
    let numbers = page_places(page, end, random.pick(60));
    change_each(tally, image, sound, flips(numbers, [a, 1, a, b, b]));
    let counts = band_places(first, band);
    change_each(tally, image, sound, flips(counts, [b, 1, a, 1, b]));
    let t = Flip {
        at: place(page, 1),
        by: a,
    };
    t.turn(image);
    change(tally, image, sound, Flip { at: end, by: a });
    t.turn(image);
    swap(tally, image, sound, page, first);
}

// 24 ranks, the bands in turn.
pub fn damage(tally: &mut Tally, image: &mut [u8], keys: &[u32], lift: u32, seed: Random) {
    let mut random = seed;
    for i in 0..24 {
        random = random.next();
        let rank = random.pick(keys.len());
        random = random.next();
        let sound = Sound { keys, lift, rank };
        damage_page(tally, image, sound, i, random);
    }
}
