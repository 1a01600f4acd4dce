// What the test programs share: a generator with a fixed seed, lists of many shapes, and a plain reader of a sorted array.
// Nothing here uses the format's crates but for its types, so that an answer is held against another way to it.
#![tactic(auto)]

mod lists;
mod random;
mod sorted;

pub use lists::{clustered, spaced};
pub use random::Random;
pub use sorted::{count_inside, holder_of, is_inside, key_of, rank_of, rectangle, slot_of};
