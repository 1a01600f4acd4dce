// The listing program's output, written into a lent buffer.
#![tactic(auto)]

ghost use Rattle.std.specs.Prelude.{◌≡◌, ◌++◌, ◌+◌, ◌*◌, ◌≤◌, ◌<◌, ◌^◌, length, take};
ghost use Rattle.std.proofs.lemmas.List.Edits.{sets};
ghost use Rattle.format.specs.Text.{digits, rows, admissions_word, refused_word};
ghost use Rattle.report.specs.Outcomes.{Reported};
ghost use Rattle.report.specs.Row.{field_of, row_of, Put};

use format::{Rectangle, Refusal};

// The character of a digit.
fn digit(n: u32) -> u8
    requires { n < 10 }
    ensures { result ≡ 48 + n }
{
    b'0' + n as u8
}

// Writes `n`, which has at most `d` + 1 decimal digits, from `at` on, and returns the place after it.
fn put_digits(out: &mut [u8], at: usize, d: usize, n: u32) -> usize
    requires { (at + d < length out.old) × (n < 10 ^ (d + 1)) }
    ensures { (out.new ≡ sets out.old at (digits d n)) × (result ≡ at + length (digits d n)) }
{
    if n < 10 {
        out[at] = digit(n);
        return at + 1;
    }
    let next = put_digits(out, at, d - 1, n / 10);
    out[next] = digit(n % 10);
    next + 1
}

// Writes `n` in decimal and a byte after it, from `at` on, and returns the place after both.
fn put_field(out: &mut [u8], at: usize, n: u32, end: u8) -> usize
    requires { (at + 6 ≤ length out.old) × (n < 100000) }
    ensures { Put out.old at (field_of n end) 6 out.new result }
{
    let next = put_digits(out, at, 4, n);
    out[next] = end;
    next + 1
}

// Writes the line of a key, from `at` on, and returns the place after it.
fn put_row(out: &mut [u8], at: usize, key: u32, rank: u32) -> usize
    requires { (at + 18 ≤ length out.old) × (rank < 100000) }
    ensures { Put out.old at (row_of key rank) 18 out.new result }
{
    let admission = zorder::unweave(key);
    let slot_at = put_field(out, at, u32::from(admission.holder), b' ');
    let rank_at = put_field(out, slot_at, u32::from(admission.slot), b' ');
    put_field(out, rank_at, rank, b'\n')
}

// Writes the lines of the keys, from `at` on, and returns the place after them.
fn put_rows(out: &mut [u8], at: usize, keys: &[u32]) -> usize
    requires { (length keys.now ≤ 4096) × (at + 18 * length keys.now ≤ length out.old) }
    ensures { Put out.old at (rows 0 keys.now) (18 * length keys.now) out.new result }
{
    let mut next = at;
    for (i, key) in keys.iter().enumerate() {
        next = put_row(out, next, *key, i as u32);
    }
    next
}

// Writes `admissions ` at the start.
fn put_admissions(out: &mut [u8])
    requires { 11 ≤ length out.old }
    ensures { out.new ≡ sets out.old 0 admissions_word }
{
    out[..11].copy_from_slice(b"admissions ");
}

// Writes `refused ` at the start.
fn put_refused(out: &mut [u8])
    requires { 8 ≤ length out.old }
    ensures { out.new ≡ sets out.old 0 refused_word }
{
    out[..8].copy_from_slice(b"refused ");
}

// Writes the line of a refusal at the start, and returns its length.
fn put_refusal(out: &mut [u8], n: u8) -> usize
    requires { 14 ≤ length out.old }
    ensures { Put out.old 0 (refused_word ++ field_of n 10) 14 out.new result }
{
    put_refused(out);
    put_field(out, 8, u32::from(n), b'\n')
}

// Writes the whole listing of the keys at the start, and returns its length.
fn put_listing(out: &mut [u8], keys: &[u32]) -> usize
    requires { (length keys.now ≤ 4096) × (73745 ≤ length out.old) }
    ensures { Put out.old 0 (admissions_word ++ field_of (length keys.now) 10 ++ rows 0 keys.now) (17 + 18 * length keys.now) out.new result }
{
    put_admissions(out);
    let at = put_field(out, 11, keys.len() as u32, b'\n');
    put_rows(out, at, keys)
}

// Writes the listing program's output for an image into the first bytes of a buffer that has room for every output, and returns its length: 17 bytes at most for
// the first line, 18 for each of 4,096 others.
pub fn report(image: &[u8], out: &mut [u8; 73745]) -> usize
    ensures { Reported image.now out.old out.new result }
{
    if 65536 < image.len() {
        return put_refusal(out, Refusal::Length.number());
    }
    let mut keys = [0u32; 4096];
    match query::list(image, Rectangle::whole_square(), &mut keys) {
        Err(refusal) => put_refusal(out, refusal.number()),
        Ok(n) => put_listing(out, &keys[..n]),
    }
}

// The output for input that was read into an array with one place more than the 65,536 bytes that are listed, so that longer input shows: the first `n`
// places are the input, or all where `n` is larger.
pub fn report_input(input: &[u8; 65537], n: usize, out: &mut [u8; 73745]) -> usize
    ensures { Reported (take n input.now) out.old out.new result }
{
    let all: &[u8] = input;
    if all.len() <= n {
        return report(all, out);
    }
    report(&all[..n], out)
}
