// The walks over the subtries that have members. The walker of a subtrie and the opener of a band call each other until no band is left: `open_band` and
// `walk_subtrie` where blocks lie across the rectangle, `open_inside` and `walk_inside` below a block that lies inside. The two walks are no one generic
// function: one that lists all keys keeps no holder and no slot, asks nothing, and passes single out-links in a loop; a trait for that would be longer.
#![tactic(auto)]

mod block;

ghost use Rattle.std.specs.Prelude.{◌≡◌, true, [], ◌∷◌, ◌+◌, ◌-◌, ◌*◌, ◌≤◌, ◌<◌, ◌^◌, length, set};
ghost use Rattle.format.specs.Answer.{inside, member_keys};
ghost use Rattle.format.specs.Exact.{Accepted};
ghost use Rattle.format.specs.Seq.{select};
ghost use Rattle.subtries.specs.Spot.{Spots};
ghost use Rattle.walk.specs.Block.{BlockOf};
ghost use Rattle.walk.specs.Walk.{FirstOn, Opening, Walking, Listed, any_key, members_between};

use crate::block::{Block, Place};
use format::{OutLink, Rectangle, cross};
use subtries::{NO_SPOT, Spot, Subtrie, next_subtrie};

// The first on bit of a set of 16, bit 15 for 0.
fn first_on(set: u32) -> u32
    requires { (0 < set) × (set < 65536) }
    ensures { FirstOn set result }
{
    set.leading_zeros() - 16
}

// A set without its bit for `ending`.
fn without(set: u32, ending: u32) -> u32
    requires { FirstOn set ending }
    ensures { result ≡ set - 2 ^ (15 - ending) }
{
    set - (32768u32 >> ending)
}

// Writes a key at a place, if the buffer has it. The next place.
#[tactic(auto, using(crate::proofs::Places::set_past))]
fn put(keys: &mut [u32], at: usize, key: u32) -> usize
    requires { at < 4096 }
    ensures { (result ≡ at + 1) × (keys.new ≡ set keys.old at key) }
{
    if at < keys.len() {
        keys[at] = key;
    }
    at + 1
}

// An image, and the rectangle whose members are looked for in it. The buffer and the reading of the bands are handed on beside it: of a `&mut` in a struct
// that is itself behind a `&mut` a caller does not learn what it holds in the end.
#[derive(Clone, Copy, Debug, PartialEq, Eq)]
struct Search<'a> {
    image: &'a [u8],
    rectangle: Rectangle,
}

impl<'a> Search<'a> {
    // Writes a key at a place, if it is inside the rectangle. The next place.
    fn list_key(&self, keys: &mut [u32], at: usize, key: Block) -> usize
        requires { (BlockOf key) × (inside self.now.rectangle key.prefix ≡ true → at < 4096) }
        ensures { Listed (select (inside self.now.rectangle) (key.prefix ∷ [])) keys.old at keys.new result }
    {
        if key.is_in(self.rectangle) {
            return put(keys, at, key.prefix);
        }
        at
    }

    // Lists the keys that start with `prefix`, to which the out-link leads. Where a subtrie has one out-link alone, the band below is read at once.
    #[cycle(list_below_open_inside_walk_inside)]
    fn open_inside(
        &self,
        keys: &mut [u32],
        spots: &mut [Spot; 8],
        done: usize,
        band: usize,
        link: OutLink,
        prefix: u32,
    ) -> usize
        requires { (Opening self.now.image.now band link.0 prefix) × (Spots self.now.image.now spots.old) × (done + length (members_between self.now.image.now any_key (prefix * 2 ^ (36 - 4 * band)) ((prefix + 1) * 2 ^ (36 - 4 * band))) ≤ 4096) }
        ensures { (Listed (members_between self.now.image.now any_key (prefix * 2 ^ (36 - 4 * band)) ((prefix + 1) * 2 ^ (36 - 4 * band))) keys.old done keys.new result) × (Spots self.now.image.now spots.new) }
    {
        let mut next = link;
        let mut key = prefix;
        for number in band..9 {
            let subtrie = next_subtrie(self.image, spots, number, cross(next));
            let ending = first_on(subtrie.set);
            if without(subtrie.set, ending) != 0 {
                return self.walk_inside(keys, spots, done, number, subtrie, key);
            }
            next = subtrie.link;
            key = 16 * key + ending;
        }
        put(keys, done, key)
    }

    // Lists the keys that start with `prefix`, to which the out-link leads; out of band 8 that is one.
    #[cycle(list_below_open_inside_walk_inside)]
    fn list_below(
        &self,
        keys: &mut [u32],
        spots: &mut [Spot; 8],
        done: usize,
        band: usize,
        link: OutLink,
        prefix: u32,
    ) -> usize
        requires { (Opening self.now.image.now band link.0 prefix) × (Spots self.now.image.now spots.old) × (done + length (members_between self.now.image.now any_key (prefix * 2 ^ (36 - 4 * band)) ((prefix + 1) * 2 ^ (36 - 4 * band))) ≤ 4096) }
        ensures { (Listed (members_between self.now.image.now any_key (prefix * 2 ^ (36 - 4 * band)) ((prefix + 1) * 2 ^ (36 - 4 * band))) keys.old done keys.new result) × (Spots self.now.image.now spots.new) }
    {
        if band == 9 {
            return put(keys, done, prefix);
        }
        self.open_inside(keys, spots, done, band, link, prefix)
    }

    // Lists the keys below the out-links of a subtrie.
    #[cycle(list_below_open_inside_walk_inside)]
    fn walk_inside(
        &self,
        keys: &mut [u32],
        spots: &mut [Spot; 8],
        done: usize,
        number: usize,
        subtrie: Subtrie,
        prefix: u32,
    ) -> usize
        requires { (Walking self.now.image.now number subtrie.set subtrie.link.0 prefix 0) × (Spots self.now.image.now spots.old) × (done + length (members_between self.now.image.now any_key ((16 * prefix + 0) * 2 ^ (36 - 4 * (number + 1))) ((16 * prefix + 16) * 2 ^ (36 - 4 * (number + 1)))) ≤ 4096) }
        ensures { (Listed (members_between self.now.image.now any_key ((16 * prefix + 0) * 2 ^ (36 - 4 * (number + 1))) ((16 * prefix + 16) * 2 ^ (36 - 4 * (number + 1)))) keys.old done keys.new result) × (Spots self.now.image.now spots.new) }
    {
        let mut n = done;
        let mut next = subtrie.link;
        let mut rest = subtrie.set;
        // No `for`: nothing is counted, each turn takes the first on bit out of the set.
        while rest != 0 {
            let ending = first_on(rest);
            rest = without(rest, ending);
            let key = 16 * prefix + ending;
            n = self.list_below(keys, spots, n, number + 1, next, key);
            next = OutLink(next.0 + 1);
        }
        n
    }

    // Lists the members in a block that lies across the rectangle, to which the out-link leads.
    #[cycle(list_block_open_band_walk_subtrie)]
    fn open_band(
        &self,
        keys: &mut [u32],
        spots: &mut [Spot; 8],
        done: usize,
        number: usize,
        link: OutLink,
        block: Block,
    ) -> usize
        requires { (Opening self.now.image.now number link.0 block.prefix) × (number ≤ 8) × (BlockOf block) × (Spots self.now.image.now spots.old) × (done + length (members_between self.now.image.now (inside self.now.rectangle) (block.prefix * 2 ^ (36 - 4 * number)) ((block.prefix + 1) * 2 ^ (36 - 4 * number))) ≤ 4096) }
        ensures { (Listed (members_between self.now.image.now (inside self.now.rectangle) (block.prefix * 2 ^ (36 - 4 * number)) ((block.prefix + 1) * 2 ^ (36 - 4 * number))) keys.old done keys.new result) × (Spots self.now.image.now spots.new) }
    {
        let subtrie = next_subtrie(self.image, spots, number, cross(link));
        self.walk_subtrie(keys, spots, done, number, subtrie, block)
    }

    // Lists the members in a block, to which the out-link leads; out of band 8 that is a key.
    #[cycle(list_block_open_band_walk_subtrie)]
    fn list_block(
        &self,
        keys: &mut [u32],
        spots: &mut [Spot; 8],
        done: usize,
        number: usize,
        link: OutLink,
        block: Block,
    ) -> usize
        requires { (Opening self.now.image.now number link.0 block.prefix) × (BlockOf block) × (Spots self.now.image.now spots.old) × (done + length (members_between self.now.image.now (inside self.now.rectangle) (block.prefix * 2 ^ (36 - 4 * number)) ((block.prefix + 1) * 2 ^ (36 - 4 * number))) ≤ 4096) }
        ensures { (Listed (members_between self.now.image.now (inside self.now.rectangle) (block.prefix * 2 ^ (36 - 4 * number)) ((block.prefix + 1) * 2 ^ (36 - 4 * number))) keys.old done keys.new result) × (Spots self.now.image.now spots.new) }
    {
        if number == 9 {
            return self.list_key(keys, done, block);
        }
        match block.place_in(self.rectangle, 18 - 2 * number) {
            Place::Apart => done,
            Place::Inside => self.open_inside(keys, spots, done, number, link, block.prefix),
            Place::Across => self.open_band(keys, spots, done, number, link, block),
        }
    }

    // Lists the members below the out-links of a subtrie. Each opens the band below.
    #[cycle(list_block_open_band_walk_subtrie)]
    fn walk_subtrie(
        &self,
        keys: &mut [u32],
        spots: &mut [Spot; 8],
        done: usize,
        number: usize,
        subtrie: Subtrie,
        block: Block,
    ) -> usize
        requires { (Walking self.now.image.now number subtrie.set subtrie.link.0 block.prefix 0) × (BlockOf block) × (Spots self.now.image.now spots.old) × (done + length (members_between self.now.image.now (inside self.now.rectangle) ((16 * block.prefix + 0) * 2 ^ (36 - 4 * (number + 1))) ((16 * block.prefix + 16) * 2 ^ (36 - 4 * (number + 1)))) ≤ 4096) }
        ensures { (Listed (members_between self.now.image.now (inside self.now.rectangle) ((16 * block.prefix + 0) * 2 ^ (36 - 4 * (number + 1))) ((16 * block.prefix + 16) * 2 ^ (36 - 4 * (number + 1)))) keys.old done keys.new result) × (Spots self.now.image.now spots.new) }
    {
        let mut n = done;
        let mut next = subtrie.link;
        let mut rest = subtrie.set;
        // No `for`, as in `walk_inside`.
        while rest != 0 {
            let ending = first_on(rest);
            rest = without(rest, ending);
            let below = block.part(ending);
            n = self.list_block(keys, spots, n, number + 1, next, below);
            next = OutLink(next.0 + 1);
        }
        n
    }
}

// Lists the members of the rectangle, ascending, into the first places of `keys`, as far as it has places. How many there are.
pub fn list_members(image: &[u8], rectangle: Rectangle, keys: &mut [u32]) -> usize
    requires { Accepted image.now }
    ensures { Listed (member_keys image.now rectangle) keys.old 0 keys.new result }
{
    if header::key_count(image) == 0 {
        return 0;
    }
    let search = Search { image, rectangle };
    let whole = Block::whole();
    let mut spots = [NO_SPOT; 8];
    match whole.place_in(rectangle, 16) {
        Place::Inside => search.open_inside(keys, &mut spots, 0, 1, OutLink(0), 0),
        _ => search.open_band(keys, &mut spots, 0, 1, OutLink(0), whole),
    }
}

// How many members the rectangle has. All keys are, where it is the whole square.
pub fn count_members(image: &[u8], rectangle: Rectangle) -> usize
    requires { Accepted image.now }
    ensures { (result ≡ length (member_keys image.now rectangle)) × (result ≤ 4096) }
{
    match Block::whole().place_in(rectangle, 16) {
        Place::Inside => header::key_count(image),
        _ => {
            let mut scratch = [0u32; 1];
            list_members(image, rectangle, &mut scratch)
        }
    }
}
