// The place of an on bit in a page: the word by the counts before the words, then the bit in its word by counts over halves.
ghost use Rattle.std.specs.Prelude.{◌≡◌, ◌+◌, ◌/◌, ◌%◌, ◌^◌, ◌≤◌, ◌<◌, get_or};
ghost use Rattle.std.specs.Int.Bits.{bit_and};
ghost use Rattle.std.specs.Int.Count.{ones};
ghost use Rattle.nodes.specs.Words.{counts_before};
ghost use Rattle.climb.specs.Select.{Halved, Selected, SideOf};

use nodes::Words;

// A part of a word: the place of its lowest bit, counted from the word's lowest, and the on bits of the part to pass over.
#[derive(Clone, Copy, Debug, PartialEq, Eq)]
struct Part {
    low: usize,
    left: usize,
}

// The sums of neighbours: of each two fields of `width` bits, where `lower` covers every lower one.
fn sums(x: u64, width: usize, lower: u64) -> u64
    requires { (width < 64) × (lower < 2 ^ 63) }
    ensures { result ≡ bit_and x lower + bit_and (x / 2 ^ width) lower }
{
    (x & lower) + ((x >> width) & lower)
}

impl Part {
    // The half, of `width` bits, in which its on bit `left` is. `counts` has the on bits of each `width` bits.
    fn halve(self, counts: u64, width: usize) -> Part
        requires { self.low + width < 64 }
        ensures { Halved (counts / 2 ^ (self.low + width) % 2 ^ width) width self.low self.left result.low result.left }
    {
        let upper = ((counts >> (self.low + width)) % (1 << width)) as usize;
        if self.left < upper {
            Part {
                low: self.low + width,
                left: self.left,
            }
        } else {
            Part {
                low: self.low,
                left: self.left - upper,
            }
        }
    }
}

// The place of on bit `left` of a word, both counted from 0: the bit from the highest, the place from the lowest.
fn select(w: u64, left: usize) -> usize
    requires { left < ones w }
    ensures { Selected w left result }
{
    let twos = sums(w, 1, 0x5555_5555_5555_5555);
    let fours = sums(twos, 2, 0x3333_3333_3333_3333);
    let eights = sums(fours, 4, 0x0f0f_0f0f_0f0f_0f0f);
    let sixteens = sums(eights, 8, 0x00ff_00ff_00ff_00ff);
    let halves = sums(sixteens, 16, 0x0000_ffff_0000_ffff);
    Part { low: 0, left }
        .halve(halves, 32)
        .halve(sixteens, 16)
        .halve(eights, 8)
        .halve(fours, 4)
        .halve(twos, 2)
        .halve(w, 1)
        .low
}

// The word that has on bit `number` of the page.
fn word_of(before: &[u16; 9], number: usize) -> usize
    requires { (get_or before.now 0 0 ≤ number) × (number < get_or before.now 8 0) }
    ensures { (result < 8) × (get_or before.now result 0 ≤ number) × (number < get_or before.now (result + 1) 0) }
{
    for j in 0..7 {
        if number < usize::from(before[j + 1]) {
            return j;
        }
    }
    7
}

// On bit `number` of the page: twice its node's place, and 1 more for the second bit of the node.
pub fn on_bit(words: &Words, number: usize) -> usize
    requires { (words.now.before ≡ counts_before 0 words.now.word) × (get_or words.now.word 0 0 < 4294967296) × (number < get_or words.now.before 8 0) }
    ensures { (result / 2 < 240) × (SideOf words.now.word words.now.before (result / 2) number (result % 2)) }
{
    let j = word_of(&words.before, number);
    let passed = usize::from(words.before[j]);
    64 * j + 31 - select(words.word[j], number - passed)
}
