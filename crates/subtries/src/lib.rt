// The subtries of an accepted image, as a walk reads them: those of a band from left to right. Where the reading of each band stands is kept, so that the
// next subtrie of a page is read from where the last one ended, and a page is looked for only where the walk leaves the one that it is in.
#![tactic(auto)]

mod level;
mod spot;
mod word;

ghost use Rattle.std.specs.Prelude.{◌≡◌, ◌≤◌, ◌<◌};
ghost use Rattle.format.specs.Image.{root_count};
ghost use Rattle.pages.specs.Page.{Ready};
ghost use Rattle.subtries.specs.Spot.{Spots, root_prefix};
ghost use Rattle.subtries.specs.Subtrie.{SubtrieRead};

use format::{OutLink, Root};
pub use spot::{NO_SPOT, Spot};

// The out-links of a root: bit 15 of `set` for the ending 0, bit 0 for 15. `link` is the first of them.
#[derive(Clone, Copy, Debug, PartialEq, Eq)]
pub struct Subtrie {
    pub set: u32,
    pub link: OutLink,
}

// The subtrie of a root, from where the reading of its band stands if that is the root. `seek` and `advance` are called in two places each, so that they are not
// compiled in here and this function is compiled into the loops that call it.
pub fn next_subtrie(image: &[u8], spots: &mut [Spot; 8], number: usize, root: Root) -> Subtrie
    requires { (Ready image.now) × (1 ≤ number) × (number ≤ 8) × (root.0 < root_count image.now number) × (Spots image.now spots.old) }
    ensures { (SubtrieRead image.now number (root_prefix image.now number root.0) result.set result.link.0) × (Spots image.now spots.new) }
{
    let spot = &mut spots[number - 1];
    if spot.root.0 != root.0 {
        spot.seek(image, number, root);
        return spot.advance(image, number);
    }
    if spot.end.0 <= root.0 {
        spot.seek(image, number, root);
    }
    spot.advance(image, number)
}
