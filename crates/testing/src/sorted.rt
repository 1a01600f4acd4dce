// A plain reader of a sorted array of keys.
ghost use Rattle.std.specs.Prelude.{◌≤◌, length};

use format::{Range, Rectangle};

// The key of a holder and a slot, bit by bit.
pub fn key_of(holder: u16, slot: u16) -> u32 {
    let mut key = 0;
    for i in 0..16u32 {
        let pair = u32::from(holder >> i & 1) << 1 | u32::from(slot >> i & 1);
        key |= pair << (2 * i);
    }
    key
}

// Every second bit of `key`, from bit 0 on.
fn even_bits(key: u32) -> u16 {
    let mut bits = 0;
    for i in 0..16u32 {
        let bit = (key >> (2 * i) & 1) as u16;
        bits |= bit << i;
    }
    bits
}

// The holder of a key.
pub fn holder_of(key: u32) -> u16 {
    even_bits(key >> 1)
}

// The slot of a key.
pub fn slot_of(key: u32) -> u16 {
    even_bits(key)
}

fn is_in(number: u16, range: Range) -> bool {
    range.low <= number && number <= range.high
}

// Whether the key's holder and slot lie in the rectangle.
pub fn is_inside(key: u32, rectangle: Rectangle) -> bool {
    is_in(holder_of(key), rectangle.holders) && is_in(slot_of(key), rectangle.slots)
}

// How many of the keys are smaller.
pub fn rank_of(keys: &[u32], key: u32) -> usize
    ensures { result ≤ length keys.now }
{
    keys.iter().take_while(|other| **other < key).count()
}

// How many of the keys are inside.
pub fn count_inside(keys: &[u32], rectangle: Rectangle) -> usize
    ensures { result ≤ length keys.now }
{
    let members = keys.iter().filter(|key| is_inside(**key, rectangle));
    members.count()
}

pub fn rectangle(low_holder: u16, high_holder: u16, low_slot: u16, high_slot: u16) -> Rectangle {
    Rectangle {
        holders: Range {
            low: low_holder,
            high: high_holder,
        },
        slots: Range {
            low: low_slot,
            high: high_slot,
        },
    }
}
