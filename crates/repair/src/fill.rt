// The output: a copy of the image, and the restored image's numbers put in their places.
ghost use Rattle.std.specs.Prelude.{◌≡◌, ◌+◌, ◌-◌, ◌*◌, ◌/◌, ◌≤◌, length, drop};
ghost use mathlib.Core.List.{[], ◌∷◌, ◌++◌, map, flat_map};
ghost use Rattle.format.specs.Seq.{numbers_from, up_to};
ghost use Rattle.format.specs.Page.{number_at};
ghost use Rattle.repair.specs.Numbers.{restored};
ghost use Rattle.repair.specs.Repair.{differing, page_places};
ghost use Rattle.repair.specs.Inner.{CountsNoted, FillReady, Filled, HeadsNoted, Noted};

use copying::load;
use header::number;
use page_writer::put_number;

// Puts a number of two bytes at `at`, and says how many numbers that alters: 1 where the image has another there.
fn put(image: &[u8], out: &mut [u8], at: usize, x: u16) -> usize
    requires { (at + 2 ≤ length image.now) × (length image.now ≤ length out.old) × (x ≡ number_at (restored image.now) at) }
    ensures { Filled image.now (at ∷ []) out.old out.new result }
{
    put_number(out, at, x);
    if number(image, at) == usize::from(x) {
        return 0;
    }
    1
}

// The key count and the root counts.
fn fill_header(image: &[u8], out: &mut [u8], counts: &[u16; 9]) -> usize
    requires { (FillReady image.now out.old) × CountsNoted image.now counts.now }
    ensures { Filled image.now (map (λ k. 6 + 4 * k) (up_to 9)) out.old out.new result }
{
    let mut altered = 0;
    for k in 0..9 {
        altered += put(image, out, 6 + 4 * k, counts[k]);
    }
    altered
}

// T and B of each page, noted at the place before the page's number.
fn fill_pages(image: &[u8], out: &mut [u8], t: &[u16; 384], b: &[u16; 384]) -> usize
    requires { (FillReady image.now out.old) × HeadsNoted image.now (length image.now / 64) t.now b.now }
    ensures { Filled image.now (flat_map page_places (numbers_from 1 (length image.now / 64 - 1))) out.old out.new result }
{
    let end = image.len() / 64;
    let mut altered = 0;
    for p in 1..end {
        altered += put(image, out, 64 * p, t[p - 1]);
        altered += put(image, out, 64 * p + 2, b[p - 1]);
    }
    altered
}

// Writes the restored image into the first bytes, and says how many numbers it altered.
pub(crate) fn fill(
    image: &[u8],
    out: &mut [u8],
    counts: &[u16; 9],
    t: &[u16; 384],
    b: &[u16; 384],
) -> usize
    requires { (FillReady image.now out.old) × Noted image.now counts.now t.now b.now }
    ensures { (out.new ≡ restored image.now ++ drop (length (restored image.now)) out.old) × (result ≡ differing image.now (restored image.now)) }
{
    load(out, image);
    let in_header = fill_header(image, out, counts);
    in_header + fill_pages(image, out, t, b)
}
