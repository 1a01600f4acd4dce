// Counts over the nodes of a page. A page's 60 bytes of two-bit nodes are gathered once into words, with the on bits before each word, and every count
// over the page is then taken from one word.
#![tactic(auto)]

ghost use Rattle.std.specs.Prelude.{◌≡◌, ◌+◌, ◌-◌, ◌*◌, ◌/◌, ◌%◌, ◌^◌, ◌≤◌, ◌<◌, eqb, length, get_or};
ghost use Rattle.std.specs.Int.Count.{ones};
ghost use Rattle.nodes.specs.Words.{half_at, word_at, words_of, counts_before, ones_before, ones_through, rest_empty, node_in, low_bits, used_nodes, none_empty};

// A page's nodes, the first in the highest bits: 16 in the low half of word 0, 32 in each of words 1 to 7; word 8 is 0. `before` has the on bits of
// the words before each.
#[derive(Debug, PartialEq, Eq, Drop)]
pub struct Words {
    pub word: [u64; 9],
    pub before: [u16; 9],
}

// The lowest bit of each node of a word.
const LOW_BITS: u64 = 0x5555_5555_5555_5555;

// The number of set bits of `w`, as the counts before words have it.
fn ones_of(w: u64) -> u16
    ensures { (result ≡ ones w) × (result ≤ 64) }
{
    w.count_ones() as u16
}

// The number of set bits of `w`, as a `usize`.
pub fn ones_in(w: u64) -> usize
    ensures { (result ≡ ones w) × (result ≤ 64) }
{
    w.count_ones() as usize
}

// Four bytes of `s` as one number, the first the highest.
fn half(s: &[u8], at: usize) -> u64
    requires { at + 4 ≤ length s.now }
    ensures { (result ≡ half_at s.now at) × (result < 4294967296) }
{
    u64::from(u32::from_be_bytes([s[at], s[at + 1], s[at + 2], s[at + 3]]))
}

// Eight bytes of `s` as one number, the first the highest: from two halves, each of which is compiled to one load.
pub fn word(s: &[u8], at: usize) -> u64
    requires { at + 8 ≤ length s.now }
    ensures { result ≡ word_at s.now at }
{
    (half(s, at) << 32) + half(s, at + 4)
}

// The set bits of the words before each.
fn counts_before(word: &[u64; 9]) -> [u16; 9]
    ensures { result ≡ counts_before 0 word.now }
{
    let mut before = [0; 9];
    for j in 1..9 {
        before[j] = before[j - 1] + ones_of(word[j - 1]);
    }
    before
}

// The words of the page at `at`.
pub fn gather(bytes: &[u8], at: usize) -> Words
    requires { at + 64 ≤ length bytes.now }
    ensures { result ≡ words_of bytes.now at }
{
    let word = [
        half(bytes, at + 4),
        word(bytes, at + 8),
        word(bytes, at + 16),
        word(bytes, at + 24),
        word(bytes, at + 32),
        word(bytes, at + 40),
        word(bytes, at + 48),
        word(bytes, at + 56),
        0,
    ];
    let before = counts_before(&word);
    Words { word, before }
}

// The low bit of each node of `w` that is not 00.
fn used_nodes(w: u64) -> u64
    ensures { result ≡ used_nodes w }
{
    (w | (w >> 1)) & LOW_BITS
}

// Whether none of the first `k` nodes of `w` is 00.
fn first_used(w: u64, k: usize) -> bool
    requires { (0 < k) × (k ≤ 32) }
    ensures { result ≡ eqb (used_nodes (w / 2 ^ (64 - 2 * k))) (low_bits / 2 ^ (64 - 2 * k)) }
{
    let shift = 64 - 2 * k;
    used_nodes(w >> shift) == LOW_BITS >> shift
}

// The word of node `n`, and the node's place in it.
fn place_of(n: usize) -> (usize, usize)
    requires { n ≤ 240 }
    ensures { (result.0 ≡ (n + 16) / 32) × (result.1 ≡ (n + 16) % 32) }
{
    ((n + 16) / 32, (n + 16) % 32)
}

impl Words {
    // The on bits of the first `n` nodes.
    pub fn on_bits_before(&self, n: usize) -> usize
        requires { n ≤ 240 }
        ensures { (result ≡ ones_before self.now.word self.now.before n) × (result < 65600) }
    {
        let (j, k) = place_of(n);
        usize::from(self.before[j]) + ones_in((self.word[j] >> 1) >> (63 - 2 * k))
    }

    // The on bits of the first `n` nodes and of node `n` itself.
    pub fn on_bits_through(&self, n: usize) -> usize
        requires { n < 240 }
        ensures { (result ≡ ones_through self.now.word self.now.before n) × (result < 65600) }
    {
        let (j, k) = place_of(n);
        usize::from(self.before[j]) + ones_in(self.word[j] >> (62 - 2 * k))
    }

    // The on bits of all nodes.
    pub fn on_bits(&self) -> usize
        ensures { (result ≡ get_or self.now.before 8 0) × (result < 65536) }
    {
        usize::from(self.before[8])
    }

    // Node `n`: 2 for its first bit, 1 for its second, 3 for both, 0 for neither.
    pub fn node_at(&self, n: usize) -> u64
        requires { n < 240 }
        ensures { (result ≡ node_in self.now.word n) × (result < 4) }
    {
        let (j, k) = place_of(n);
        (self.word[j] >> (62 - 2 * k)) % 4
    }

    // Whether the nodes from `n` on are all 00. In a nearly full page word 7 alone tells.
    pub fn rest_empty(&self, n: usize) -> bool
        requires { n ≤ 240 }
        ensures { result ≡ rest_empty self.now.word self.now.before n }
    {
        if 208 < n {
            let shift = 64 - 2 * (n - 208);
            return (self.word[7] >> shift) << shift == self.word[7];
        }
        self.on_bits_before(n) == self.on_bits()
    }

    // Whether none of the first `n` nodes is 00.
    pub fn none_empty(&self, n: usize) -> bool
        requires { n ≤ 240 }
        ensures { result ≡ none_empty self.now.word n }
    {
        if 208 < n {
            return self.none_empty_late(n - 208);
        }
        let mut left = n + 16;
        let mut w = self.word[0] | 0xffff_ffff_0000_0000;
        for next in &self.word[1..] {
            if left <= 32 {
                break;
            }
            if used_nodes(w) != LOW_BITS {
                return false;
            }
            left -= 32;
            w = *next;
        }
        first_used(w, left)
    }

    // Whether none of the nodes of words 0 to 6 is 00, nor of the first `k` of word 7: without a loop, since most pages are nearly full.
    fn none_empty_late(&self, k: usize) -> bool
        requires { (0 < k) × (k ≤ 32) }
        ensures { result ≡ none_empty self.now.word (208 + k) }
    {
        let w = &self.word;
        let a = used_nodes(w[0] | 0xffff_ffff_0000_0000) & used_nodes(w[1]);
        let b = used_nodes(w[2]) & used_nodes(w[3]);
        let c = used_nodes(w[4]) & used_nodes(w[5]);
        (a & b) & (c & used_nodes(w[6])) == LOW_BITS && first_used(w[7], k)
    }
}
