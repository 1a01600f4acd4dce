// Lookup, count, listing and finding by rank against the plain reader.
use crate::eight::{ask_sound, one_bit};
use crate::list::List;
use crate::tally::{Kind, Tally};
use format::{Admission, Rectangle, Refusal};
use paged_lookup::Found;
use testing::{Random, is_inside, key_of, rank_of, rectangle};

// Whether the listing of a rectangle is the keys inside, in order.
fn is_listing(list: List, rectangle: Rectangle) -> bool {
    let mut places = [0; 4096];
    let listed = query::list(list.image, rectangle, &mut places);
    let Some(listed) = listed.ok().and_then(|n| places.get(..n)) else {
        return false;
    };
    let inside = list.keys.iter().filter(|key| is_inside(**key, rectangle));
    inside.eq(listed.iter())
}

// Count and listing of a rectangle.
fn members(tally: &mut Tally, list: List, rectangle: Rectangle) {
    let n = testing::count_inside(list.keys, rectangle);
    tally.expect(Kind::Counts, query::count(list.image, rectangle) == Ok(n));
    tally.expect(Kind::Listings, is_listing(list, rectangle));
}

// The whole square.
pub fn whole(tally: &mut Tally, list: List) {
    members(tally, list, Rectangle::whole_square());
}

// Whether lookup found the rank that the plain reader finds, or, where that finds none, as many smaller keys.
fn is_right(keys: &[u32], found: Result<Found, Refusal>, key: u32) -> bool {
    let rank = rank_of(keys, key);
    let is_listed = keys.get(rank) == Some(&key);
    match found {
        Ok(Found::Listed { rank: r, .. }) => is_listed && r as usize == rank,
        Ok(Found::Absent { smaller }) => !is_listed && smaller as usize == rank,
        Err(_) => false,
    }
}

// The admission of a rank; the last of all where there is none.
pub fn at_rank(image: &[u8], rank: usize) -> Admission {
    let rank = u32::try_from(rank).unwrap_or(4294967295);
    query::find(image, rank).unwrap_or(Admission {
        holder: 65535,
        slot: 65535,
    })
}

// Lookup of an admission against the plain reader, and both lookups against the steps.
fn look_up(tally: &mut Tally, list: List, holder: u16, slot: u16) {
    let found = query::lookup(list.image, holder, slot);
    let key = key_of(holder, slot);
    tally.expect(Kind::Lookups, is_right(list.keys, found, key));
    ask_sound(tally, list.image, found, holder, slot);
}

// A rank, and lookup of its admission and of others beside it, most of them not listed; in an empty list lookup of any.
fn ask_rank(tally: &mut Tally, list: List, rank: usize) {
    let Some(key) = list.keys.get(rank) else {
        look_up(tally, list, 0, 0);
        return;
    };
    let Admission { holder, slot } = at_rank(list.image, rank);
    tally.expect(Kind::Finds, key_of(holder, slot) == *key);
    let bit = one_bit(rank);
    for (holder, slot) in [
        (holder, slot),
        (holder ^ 1, slot),
        (holder, slot ^ 4),
        (holder ^ bit, slot),
        (holder, slot ^ bit),
    ] {
        look_up(tally, list, holder, slot);
    }
}

// A rectangle between two ranks' admissions, where these are its corners.
fn ask_between(tally: &mut Tally, list: List, low: usize, high: usize) {
    let a = at_rank(list.image, low);
    let b = at_rank(list.image, high);
    if a.holder <= b.holder && a.slot <= b.slot {
        members(tally, list, rectangle(a.holder, b.holder, a.slot, b.slot));
    }
}

// 60 ranks, and as many rectangles.
pub fn ask(tally: &mut Tally, list: List, seed: Random) {
    let mut random = seed;
    for _ in 0..60 {
        random = random.next();
        let low = random.pick(list.keys.len());
        ask_rank(tally, list, low);
        random = random.next();
        ask_between(tally, list, low, random.pick(list.keys.len()));
    }
}
