// Pairs of lists that differ only outside a rectangle must list alike inside it, whatever their versions and lifts.
use crate::ask::at_rank;
use crate::list::List;
use crate::tally::{Kind, Tally};
use format::{MOST_BYTES, Rectangle};
use std::alloc::{AllocError, Global};
use testing::{Random, is_inside, rectangle};

// The keys inside, and about half of those outside.
fn thin(
    alloc: Global,
    keys: &[u32],
    asked: Rectangle,
    seed: Random,
) -> Result<Vec<u32>, AllocError> {
    let mut kept = Vec::new(alloc);
    let mut random = seed;
    for key in keys {
        random = random.next();
        if is_inside(*key, asked) || random.state / 7 % 2 == 0 {
            kept.push(*key)?;
        }
    }
    Ok(kept)
}

// Whether both images list alike inside the rectangle. What is not listed stays 0 in both.
fn list_alike(image: &[u8], other: &[u8], asked: Rectangle) -> bool {
    let mut a = [0; 4096];
    let mut b = [0; 4096];
    let listed = query::list(image, asked, &mut a);
    listed.is_ok() && listed == query::list(other, asked, &mut b) && a == b
}

// A case: the list and a thinned list, written for a lift of its own, are alike inside the rectangle.
fn pair(
    tally: &mut Tally,
    alloc: Global,
    list: List,
    asked: Rectangle,
    seed: Random,
) -> Result<(), AllocError> {
    let thinned = thin(alloc, list.keys, asked, seed)?;
    let mut other = [0; MOST_BYTES];
    let are_alike = match writer::write_keys(&thinned, 77, &mut other) {
        Ok(length) => other
            .get(..length)
            .is_some_and(|other| list_alike(list.image, other, asked)),
        Err(_) => false,
    };
    tally.expect(Kind::Pairs, are_alike);
    Ok(())
}

// 10 ranks: a pair for some holders up to that of a rank's admission, and one for some slots too.
pub fn pairs(tally: &mut Tally, alloc: Global, list: List, seed: Random) -> Result<(), AllocError> {
    let mut random = seed;
    for _ in 0..10 {
        random = random.next();
        let a = at_rank(list.image, random.pick(list.keys.len()));
        let holders = rectangle(0, a.holder, 0, 65535);
        let both = rectangle(a.holder / 2, a.holder, a.slot / 2, a.slot);
        pair(tally, alloc, list, holders, random)?;
        pair(tally, alloc, list, both, random)?;
    }
    Ok(())
}
