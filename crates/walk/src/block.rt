// Blocks of the square: the keys that start with the same bits. Their holders, and their slots, are those from one number to another.
ghost use Rattle.std.specs.Prelude.{◌≡◌, ◌+◌, ◌*◌, ◌≤◌, ◌<◌, ◌^◌, ◌-◌};
ghost use Rattle.format.specs.Answer.{inside, is_within};
ghost use Rattle.walk.specs.Block.{BlockOf, RangeRight, PlaceRight};

use format::{Range, Rectangle};

// The keys that start with `prefix`. Its bits are those of `holder` and of `slot` by turns.
#[derive(Clone, Copy, Debug, PartialEq, Eq)]
pub struct Block {
    pub prefix: u32,
    pub holder: u32,
    pub slot: u32,
}

// How a block lies to a rectangle, from outside to inside.
#[derive(Clone, Copy, Debug, PartialEq, Eq, PartialOrd, Ord)]
pub enum Place {
    Apart,
    Across,
    Inside,
}

// How the numbers from `first` to `last` lie to a range.
fn range_place(range: Range, first: u32, last: u32) -> Place
    ensures { RangeRight range first last result }
{
    let low = u32::from(range.low);
    let high = u32::from(range.high);
    if last < low || high < first {
        Place::Apart
    } else if low <= first && last <= high {
        Place::Inside
    } else {
        Place::Across
    }
}

// Whether a number is in a range.
fn is_within(range: Range, n: u32) -> bool
    ensures { result ≡ is_within range n }
{
    u32::from(range.low) <= n && n <= u32::from(range.high)
}

impl Block {
    // The block of all keys.
    pub fn whole() -> Block
        ensures { (result.prefix ≡ 0) × (BlockOf result) }
    {
        Block {
            prefix: 0,
            holder: 0,
            slot: 0,
        }
    }

    // The part whose keys have the four bits `ending` next.
    pub fn part(self, ending: u32) -> Block
        requires { (BlockOf self) × (self.prefix < 268435456) × (ending < 16) }
        ensures { (BlockOf result) × (result.prefix ≡ 16 * self.prefix + ending) }
    {
        Block {
            prefix: 16 * self.prefix + ending,
            holder: 4 * self.holder + 2 * (ending / 8) + ending / 2 % 2,
            slot: 4 * self.slot + 2 * (ending / 4 % 2) + ending % 2,
        }
    }

    // How it lies to a rectangle, where 2 * `half` bits of its keys are to come: its holders and its slots tell, whichever lie further out.
    pub fn place_in(self, rectangle: Rectangle, half: usize) -> Place
        requires { (half ≤ 16) × (BlockOf self) × (self.prefix < 2 ^ (32 - 2 * half)) }
        ensures { PlaceRight rectangle (2 * half) self.prefix result }
    {
        let more = (1u32 << half) - 1;
        let holder = self.holder << half;
        let slot = self.slot << half;
        match range_place(rectangle.holders, holder, holder + more) {
            Place::Apart => Place::Apart, // the slots are not asked
            by_holder => by_holder.min(range_place(rectangle.slots, slot, slot + more)),
        }
    }

    // Whether it is a key inside a rectangle.
    pub fn is_in(self, rectangle: Rectangle) -> bool
        requires { BlockOf self }
        ensures { result ≡ inside rectangle self.prefix }
    {
        is_within(rectangle.holders, self.holder) && is_within(rectangle.slots, self.slot)
    }
}
