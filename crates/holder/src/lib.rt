// A holder's record: the largest among those of the holder's keys. One walk goes down the branches whose bits are the holder's; out of band 8 an out-link's
// number is the rank of a key.
#![tactic(auto)]

ghost use Rattle.std.specs.Prelude.{◌≡◌, ◌+◌, ◌≤◌, ◌<◌, length};
ghost use Rattle.format.specs.Exact.{Accepted};
ghost use Rattle.format.specs.Image.{key_count};
ghost use Rattle.format.specs.Scan.{holder_record};
ghost use Rattle.subtries.specs.Spot.{Spots};
ghost use Rattle.holder.specs.Below.{HasBits, PairHasBits, PairRead, below_record, first_ending, pair_record};

use format::{OutLink, Root, cross};
use nodes::ones_in;
use subtries::{NO_SPOT, Spot, Subtrie, next_subtrie};

// The first of the four endings that have the two bits of `holder` that band `number` reads; the others are 1, 4 and 5 after it.
fn first_ending(holder: u16, number: usize) -> usize
    requires { number ≤ 8 }
    ensures { (result ≡ first_ending holder number) × (result ≤ 10) }
{
    let bits = (usize::from(holder) >> (16 - 2 * number)) % 4;
    8 * (bits / 2) + 2 * (bits % 2)
}

// Two endings of a subtrie, one after the other: their two bits of the set, and the first out-link from there on.
#[derive(Clone, Copy, Debug, PartialEq, Eq)]
struct Pair {
    on: u32,
    link: OutLink,
}

impl Pair {
    // The endings `ending` and `ending + 1` of a subtrie.
    fn of(subtrie: Subtrie, ending: usize) -> Pair
        requires { (subtrie.link.0 < 65536) × (ending ≤ 14) }
        ensures { PairRead subtrie.set subtrie.link.0 ending result }
    {
        Pair {
            on: (subtrie.set >> (14 - ending)) % 4,
            link: OutLink(subtrie.link.0 + ones_in(u64::from(subtrie.set) >> (16 - ending))),
        }
    }
}

// A holder, in an image whose keys have these records.
#[derive(Clone, Copy, Debug, PartialEq, Eq)]
struct Holder<'a> {
    image: &'a [u8],
    records: &'a [u32],
    number: u16,
}

impl<'a> Holder<'a> {
    // The largest record of the holder's keys below an out-link that leads to band `band`; out of band 8, where `band` is 9, it leads to a key, and its
    // number is the key's rank.
    #[cycle(record_at_record_below_record_of_pair)]
    fn record_at(&self, spots: &mut [Spot; 8], band: usize, link: OutLink) -> u32
        requires { (HasBits self.now.image.now self.now.number band link.0) × (Spots self.now.image.now spots.old) × (key_count self.now.image.now ≤ length self.now.records.now) }
        ensures { (result ≡ below_record self.now.image.now self.now.records.now self.now.number band link.0) × (Spots self.now.image.now spots.new) }
    {
        if band == 9 {
            let rank = link.0;
            return self.records[rank];
        }
        self.record_below(spots, band, cross(link))
    }

    // The largest record of the holder's keys below a pair of endings; `band` is the band below the pair's.
    #[cycle(record_at_record_below_record_of_pair)]
    fn record_of_pair(&self, spots: &mut [Spot; 8], band: usize, pair: Pair) -> u32
        requires { (PairHasBits self.now.image.now self.now.number band pair.on pair.link.0) × (Spots self.now.image.now spots.old) × (key_count self.now.image.now ≤ length self.now.records.now) }
        ensures { (result ≡ pair_record self.now.image.now self.now.records.now self.now.number band pair.on pair.link.0) × (Spots self.now.image.now spots.new) }
    {
        if pair.on == 0 {
            return 0;
        }
        let left = self.record_at(spots, band, pair.link);
        if pair.on < 3 {
            return left;
        }
        let right = self.record_at(spots, band, OutLink(pair.link.0 + 1));
        left.max(right)
    }

    // The largest record of the holder's keys below a root of band `band`.
    #[cycle(record_at_record_below_record_of_pair)]
    fn record_below(&self, spots: &mut [Spot; 8], band: usize, root: Root) -> u32
        requires { (HasBits self.now.image.now self.now.number band root.0) × (band ≤ 8) × (Spots self.now.image.now spots.old) × (key_count self.now.image.now ≤ length self.now.records.now) }
        ensures { (result ≡ below_record self.now.image.now self.now.records.now self.now.number band root.0) × (Spots self.now.image.now spots.new) }
    {
        let subtrie = next_subtrie(self.image, spots, band, root);
        let ending = first_ending(self.number, band);
        let upper = self.record_of_pair(spots, band + 1, Pair::of(subtrie, ending));
        let lower = self.record_of_pair(spots, band + 1, Pair::of(subtrie, ending + 4));
        upper.max(lower)
    }
}

// The largest record among those of the holder's listed admissions; 0 where there are none.
pub fn holder_record(image: &[u8], records: &[u32], holder: u16) -> u32
    requires { (Accepted image.now) × (key_count image.now ≤ length records.now) }
    ensures { result ≡ holder_record image.now records.now holder }
{
    if header::key_count(image) == 0 {
        return 0;
    }
    let holder = Holder {
        image,
        records,
        number: holder,
    };
    holder.record_below(&mut [NO_SPOT; 8], 1, Root(0))
}
