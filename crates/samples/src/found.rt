// What the cases of both lookups compare: whole answers, of one lookup or of both.
use crate::say::Tally;
use format::Refusal;
use paged_lookup::Found;
use std::io;
use testing::{holder_of, slot_of};

pub type Answer = Result<Found, Refusal>;

pub fn listed(rank: u32, pages: [u32; 8]) -> Answer {
    Ok(Found::Listed { rank, pages })
}

// Listed, where the bands 1 to 7 have a page each: in the pages 1 to 7 and `last`.
pub fn in_page(rank: u32, last: u32) -> Answer {
    listed(rank, [1, 2, 3, 4, 5, 6, 7, last])
}

// Absent, where so many keys are smaller.
pub fn absent(smaller: u32) -> Answer {
    Ok(Found::Absent { smaller })
}

// A case: the eight-page lookup gives this answer.
pub fn finds(
    tally: &mut Tally,
    name: &str,
    image: &[u8],
    holder: u16,
    slot: u16,
    expected: Answer,
) -> io::Result<()> {
    tally.case(name, paged_lookup::lookup(image, holder, slot) == expected)
}

// A case: the eight-page lookup and the full one both give this answer.
pub fn both_find(
    tally: &mut Tally,
    name: &str,
    image: &[u8],
    holder: u16,
    slot: u16,
    expected: Answer,
) -> io::Result<()> {
    let full = query::lookup(image, holder, slot);
    let paged = paged_lookup::lookup(image, holder, slot);
    tally.case(name, full == expected && paged == expected)
}

// A case: the eight-page lookup gives this answer, and the full one refuses.
pub fn finds_beside(
    tally: &mut Tally,
    name: &str,
    image: &[u8],
    holder: u16,
    slot: u16,
    expected: Answer,
    refusal: Refusal,
) -> io::Result<()> {
    let full = query::lookup(image, holder, slot);
    let paged = paged_lookup::lookup(image, holder, slot);
    tally.case(name, full == Err(refusal) && paged == expected)
}

// A case: both lookups of a key give this answer.
pub fn both_find_key(
    tally: &mut Tally,
    name: &str,
    image: &[u8],
    key: u32,
    expected: Answer,
) -> io::Result<()> {
    both_find(tally, name, image, holder_of(key), slot_of(key), expected)
}

// A case: the eight-page lookup of a key gives this answer, and the full one refuses.
pub fn finds_key_beside(
    tally: &mut Tally,
    name: &str,
    image: &[u8],
    key: u32,
    expected: Answer,
    refusal: Refusal,
) -> io::Result<()> {
    let holder = holder_of(key);
    finds_beside(tally, name, image, holder, slot_of(key), expected, refusal)
}
