// The header's numbers, which every job reads through these functions, and questions 1 to 7 with 35.
#![tactic(auto)]

ghost use Rattle.std.specs.Prelude.{◌≡◌, map, ◌+◌, ◌*◌, ◌-◌, ◌%◌, ◌≤◌, ◌<◌, length, take, drop};
ghost use Rattle.format.specs.Seq.{every, numbers_from, total};
ghost use Rattle.format.specs.Page.{number_at};
ghost use Rattle.format.specs.Image.{bands, version_of, lift_of, key_count, page_count, page_number, pages_before, root_count};
ghost use Rattle.format.specs.Question.{is_zero, mark_right, version_known, zeros_right, lift_right, counts_fit, header_questions, first_no, out_links_due};
ghost use Rattle.format.specs.Refusal.{refusal_of};
ghost use Rattle.header.specs.Counts.{counts_positive};

use format::Refusal;

// The number of two bytes at `at`, the higher byte first.
pub fn number(bytes: &[u8], at: usize) -> usize
    requires { at + 2 ≤ length bytes.now }
    ensures { (result ≡ number_at bytes.now at) × (result < 65536) }
{
    usize::from(u16::from_be_bytes([bytes[at], bytes[at + 1]]))
}

// The version.
fn version(image: &[u8]) -> usize
    requires { 64 ≤ length image.now }
    ensures { (result ≡ version_of image.now) × (result < 65536) }
{
    number(image, 3)
}

// The lift that the image is for, 0 in version 1.
pub fn lift(image: &[u8]) -> usize
    requires { 64 ≤ length image.now }
    ensures { (result ≡ lift_of image.now) × (result < 65536) }
{
    if version(image) == 1 {
        return 0;
    }
    number(image, 40)
}

// The key count.
pub fn key_count(image: &[u8]) -> usize
    requires { 64 ≤ length image.now }
    ensures { (result ≡ key_count image.now) × (result < 65536) }
{
    number(image, 6)
}

// The page count of band `band`, from 1 to 8.
pub fn page_count(image: &[u8], band: usize) -> usize
    requires { (64 ≤ length image.now) × (band ≤ 8) }
    ensures { (result ≡ page_count image.now band) × (result < 65536) }
{
    number(image, 4 + 4 * band)
}

// The root count of band `band`, from 1 to 8.
pub fn root_count(image: &[u8], band: usize) -> usize
    requires { (64 ≤ length image.now) × (band ≤ 8) }
    ensures { (result ≡ root_count image.now band) × (result < 65536) }
{
    number(image, 6 + 4 * band)
}

// The out-links that band `band`, from 1 to 8, must have: the root count of the band below, or of band 8 the key count.
pub fn links_due(image: &[u8], band: usize) -> usize
    requires { (64 ≤ length image.now) × (band ≤ 8) }
    ensures { (result ≡ out_links_due image.now band) × (result < 65536) }
{
    if band < 8 {
        return root_count(image, band + 1);
    }
    key_count(image)
}

// The pages of the bands before band `band`, from 1 to 9.
fn pages_before(image: &[u8], band: usize) -> usize
    requires { (64 ≤ length image.now) × (1 ≤ band) × (band ≤ 9) }
    ensures { (result ≡ pages_before image.now band) × (result + 65535 ≤ 65535 * band) }
{
    let mut pages = 0;
    for passed in 1..band {
        pages += page_count(image, passed);
    }
    pages
}

// The pages of all bands.
pub fn total_pages(image: &[u8]) -> usize
    requires { 64 ≤ length image.now }
    ensures { (result ≡ total (map (page_count image.now) bands)) × (result < 524288) }
{
    pages_before(image, 9)
}

// The number in the image of the first page of band `band`, from 1 to 8.
pub fn first_page(image: &[u8], band: usize) -> usize
    requires { (64 ≤ length image.now) × (1 ≤ band) × (band ≤ 8) }
    ensures { (result ≡ page_number image.now band 0) × (result ≤ 524288) }
{
    1 + pages_before(image, band)
}

// Whether the bytes are zero.
fn all_zero(bytes: &[u8]) -> bool
    ensures { result ≡ every is_zero bytes.now }
{
    bytes.iter().all(|b| *b == 0)
}

// Question 2: whether bytes 0 to 2 are 4C 50 54.
pub fn mark_right(image: &[u8]) -> bool
    requires { 64 ≤ length image.now }
    ensures { result ≡ mark_right image.now }
{
    if image[0] != 0x4C {
        return false;
    }
    if image[1] != 0x50 {
        return false;
    }
    image[2] == 0x54
}

// Question 3: whether the version is 1 or 2.
pub fn version_known(image: &[u8]) -> bool
    requires { 64 ≤ length image.now }
    ensures { result ≡ version_known image.now }
{
    if version(image) == 1 {
        return true;
    }
    version(image) == 2
}

// Question 5: whether byte 5 and bytes 40 to 63 are zero, but for the lift of version 2.
pub fn zeros_right(image: &[u8]) -> bool
    requires { 64 ≤ length image.now }
    ensures { result ≡ zeros_right image.now }
{
    if image[5] != 0 {
        return false;
    }
    if version(image) == 2 {
        return all_zero(&image[42..64]);
    }
    if number(image, 40) != 0 {
        return false;
    }
    all_zero(&image[42..64])
}

// Question 35: whether the lift of version 2 is 1 to 999.
pub fn lift_right(image: &[u8]) -> bool
    requires { 64 ≤ length image.now }
    ensures { result ≡ lift_right image.now }
{
    let names_none = version(image) == 1;
    if names_none {
        return true;
    }
    format::is_lift(lift(image))
}

// Whether the counts of bands 2 to 8 are all at least 1.
fn counts_positive(image: &[u8]) -> bool
    requires { 64 ≤ length image.now }
    ensures { result ≡ every (counts_positive image.now) (numbers_from 2 7) }
{
    for band in 2..9 {
        if page_count(image, band) < 1 {
            return false;
        }
        if root_count(image, band) < 1 {
            return false;
        }
    }
    true
}

// Question 7.
fn counts_fit(image: &[u8]) -> bool
    requires { 64 ≤ length image.now }
    ensures { result ≡ counts_fit image.now }
{
    if key_count(image) == 0 {
        return all_zero(&image[8..40]);
    }
    if page_count(image, 1) != 1 {
        return false;
    }
    if root_count(image, 1) != 1 {
        return false;
    }
    counts_positive(image)
}

// The first question of 1 to 5, 35, 6 and 7 that gets a no.
pub fn header_refusal(image: &[u8]) -> Result<(), Refusal>
    ensures { refusal_of result ≡ first_no (header_questions image.now) }
{
    if image.len() < 64 {
        return Err(Refusal::Header);
    }
    if !mark_right(image) {
        return Err(Refusal::Mark);
    }
    if !version_known(image) {
        return Err(Refusal::Version);
    }
    if 4096 < key_count(image) {
        return Err(Refusal::KeyCount);
    }
    if !zeros_right(image) {
        return Err(Refusal::ZeroBytes);
    }
    if !lift_right(image) {
        return Err(Refusal::Lift);
    }
    if image.len() != 64 * (1 + total_pages(image)) {
        return Err(Refusal::Length);
    }
    if !counts_fit(image) {
        return Err(Refusal::BandCounts);
    }
    Ok(())
}
