// Lists of many shapes, as ascending keys.
ghost use Rattle.std.specs.Prelude.{◌≤◌, ◌<◌, length};

use crate::random::Random;
use crate::sorted::key_of;

// Fills the first places with keys from `first` on, each 1 to `gap` above the one before it, as many as there are places and keys below 2 ^ 32. Returns
// how many.
pub fn spaced(keys: &mut [u32], first: u32, gap: u32, seed: Random) -> usize
    ensures { result ≤ length keys.old }
{
    let mut random = seed;
    let mut next = Some(first);
    for (n, place) in keys.iter_mut().enumerate() {
        let Some(key) = next else {
            return n;
        };
        *place = key;
        random = random.next();
        next = key
            .checked_add(1)
            .and_then(|after| after.checked_add(step(random, gap)));
    }
    keys.len()
}

// A number below `n`, or 0 where there is none.
fn step(random: Random, n: u32) -> u32 {
    if n == 0 { 0 } else { random.below(n) }
}

// Puts a key in its place among the first `n`, if it is not there and there is room. Returns how many there are then.
fn insert(keys: &mut [u32], n: usize, key: u32) -> usize
    requires { n ≤ length keys.old }
    ensures { result ≤ length keys.new }
{
    if n == keys.len() {
        return n;
    }
    let Err(place) = keys[..n].binary_search(&key) else {
        return n;
    };
    keys[place..n + 1].rotate_right(1);
    keys[place] = key;
    n + 1
}

// Fills the first places with the keys of holders who each have about `each` half-days of a season of `season` slots, `turns` draws in all. Returns how many.
pub fn clustered(keys: &mut [u32], turns: u32, season: u32, each: u32, seed: Random) -> usize
    ensures { result ≤ length keys.new }
{
    let mut random = seed;
    let mut n = 0;
    for i in 0..turns {
        random = random.next();
        n = insert(keys, n, draw(random, i, season, each));
    }
    n
}

fn holder_of(i: u32, each: u32) -> u16 {
    (i.checked_div(each).unwrap_or(0) % 21845 * 3) as u16
}

// The key of draw `i`: a holder for every `each` draws, and any slot of the season.
fn draw(random: Random, i: u32, season: u32, each: u32) -> u32 {
    let slot = step(random, season) % 65536;
    key_of(holder_of(i, each), slot as u16)
}
