// The plates without a star, packings at their edges, and a list that needs many pages.
use crate::images::{Base, five_nodes, number, part_is, steps};
use crate::judge::accepts;
use crate::say::Tally;
use format::{MOST_BYTES, Rectangle};
use std::io;

// Whether the pages of band 8 of the image of keys 0 to 4095, whose first is page 8, have T 16 i and B 256 i.
fn are_heads(image: &[u8]) -> bool {
    (0..16u16).all(|i| {
        let at = 512 + 64 * usize::from(i);
        number(image, at) == Some(16 * i) && number(image, at + 2) == Some(256 * i)
    })
}

// Whether the listing of the image is the list of keys 0 to 4095, and no place after it is touched.
fn is_dense(image: &[u8], keys: &[u32]) -> bool {
    let mut listed = [77; 4097];
    let members = query::list(image, Rectangle::whole_square(), &mut listed);
    members == Ok(4096) && listed.strip_prefix(keys) == Some(&[77])
}

// Keys 0 to 4095, in a longer buffer.
pub fn dense(tally: &mut Tally) -> io::Result<()> {
    let keys = Base::Dense.keys(tally.alloc)?;
    let mut out = [0xee; 1600];
    let written = writer::write_keys(&keys, 1, &mut out);
    let (image, rest) = out.split_at(1536);
    let is_whole = written == Ok(1536) && part_is(rest, 0, 64, 0xee);
    tally.case(
        "keys 0 to 4095: 1,536 bytes, and no byte after them is touched",
        is_whole,
    )?;
    let names = "\
        keys 0 to 4095: band 7 has one page\n\
        keys 0 to 4095: band 7 has 16 roots\n";
    for (name, (at, n)) in names.lines().zip([(32, 1), (34, 16)]) {
        tally.case(name, number(image, at) == Some(n))?;
    }
    let all_on = part_is(image, 452, 512, 0xff);
    tally.case("keys 0 to 4095: band 7 has 240 nodes, all 11", all_on)?;
    let names = "\
        keys 0 to 4095: band 8 has 16 pages\n\
        keys 0 to 4095: band 8 has 256 roots\n";
    for (name, (at, n)) in names.lines().zip([(36, 16), (38, 256)]) {
        tally.case(name, number(image, at) == Some(n))?;
    }
    tally.case(
        "keys 0 to 4095: T 0, 16 to 240 and B 0, 256 to 3,840",
        are_heads(image),
    )?;
    accepts(tally, "keys 0 to 4095: accepted", image, 1536)?;
    let is_list = is_dense(image, &keys);
    tally.case("keys 0 to 4095: the listing is the list", is_list)
}

// Counts of pages and roots in band 8, and T and B in its second page there, page 9.
#[derive(Clone, Copy, PartialEq, Eq)]
struct Counts {
    pages: u16,
    roots: u16,
    root: u16,
    link: u16,
}

fn counts_of(image: &[u8]) -> Option<Counts> {
    Some(Counts {
        pages: number(image, 36)?,
        roots: number(image, 38)?,
        root: number(image, 576)?,
        link: number(image, 578)?,
    })
}

// A case: the image of the keys has these counts. Where there is no page 9 the buffer stays 0 there.
fn parted(
    tally: &mut Tally,
    name: &str,
    keys: &[u32],
    pages: u16,
    roots: u16,
    root: u16,
    link: u16,
) -> io::Result<()> {
    let mut image = [0; 1024];
    let written = writer::write_keys(keys, 1, &mut image);
    let expected = Counts {
        pages,
        roots,
        root,
        link,
    };
    tally.case(name, written.is_ok() && counts_of(&image) == Some(expected))
}

// Subtries of 4 and of 15 nodes in band 8.
pub fn packings(tally: &mut Tally) -> io::Result<()> {
    let alloc = tally.alloc;
    let names = "\
        60 subtries of 4 nodes: one page\n\
        61 subtries of 4 nodes: 60 and 1\n";
    let cases = [(60, 1, 60, 0, 0), (61, 2, 61, 60, 60)];
    for (name, (n, pages, roots, root, link)) in names.lines().zip(cases) {
        parted(tally, name, &steps(alloc, 16, n)?, pages, roots, root, link)?;
    }
    let name = "59 subtries of 4 nodes and one of 5: 59 and 1";
    parted(tally, name, &five_nodes(alloc)?, 2, 60, 59, 59)?;
    let names = "\
        16 subtries of 15 nodes: one page\n\
        17 subtries of 15 nodes: 16 and 1\n\
        16 subtries of 15 nodes and one of 4: 16 and 1\n";
    let cases = [
        (256, 1, 16, 0, 0),
        (272, 2, 17, 16, 256),
        (257, 2, 17, 16, 256),
    ];
    for (name, (n, pages, roots, root, link)) in names.lines().zip(cases) {
        parted(tally, name, &steps(alloc, 1, n)?, pages, roots, root, link)?;
    }
    Ok(())
}

// Many pages: 363 of the 384 that no list exceeds, in a buffer that has room for any image.
pub fn far_apart(tally: &mut Tally) -> io::Result<()> {
    let keys = Base::FarApart.keys(tally.alloc)?;
    let mut out = [0xee; MOST_BYTES];
    let written = writer::write_keys(&keys, 1, &mut out);
    let (image, rest) = out.split_at(23296);
    let is_whole = written == Ok(23296) && rest.iter().all(|byte| *byte == 0xee);
    tally.case(
        "keys 0, 2^20 to 4,095 x 2^20: 23,296 bytes, and no byte after them is touched",
        is_whole,
    )?;
    let names = "\
        keys 0, 2^20 to 4,095 x 2^20: band 1 has one page\n\
        keys 0, 2^20 to 4,095 x 2^20: band 2 has one page\n";
    for (name, at) in names.lines().zip([8, 12]) {
        tally.case(name, number(image, at) == Some(1))?;
    }
    let all_on = part_is(image, 132, 192, 0xff);
    tally.case(
        "keys 0, 2^20 to 4,095 x 2^20: band 2 has 240 nodes, all 11",
        all_on,
    )?;
    let third = number(image, 16) == Some(16);
    tally.case("keys 0, 2^20 to 4,095 x 2^20: band 3 has 16 pages", third)?;
    let later = [20, 24, 28, 32, 36]
        .iter()
        .all(|at| number(image, *at) == Some(69));
    tally.case(
        "keys 0, 2^20 to 4,095 x 2^20: bands 4 to 8 have 69 pages each",
        later,
    )?;
    accepts(
        tally,
        "keys 0, 2^20 to 4,095 x 2^20: accepted",
        image,
        23296,
    )
}

// Whether the listing program prints this text for an image.
fn is_printed(image: &[u8], text: &[u8]) -> bool {
    let mut out = [0u8; 73745];
    let size = report::report(image, &mut out);
    &out[..size] == text
}

// Plate 9 and the empty list as the listing program prints them.
pub fn printed(tally: &mut Tally) -> io::Result<()> {
    let names = "plate 9 printed\nthe empty list printed\n";
    let cases: [(Base, &[u8]); 2] = [
        (Base::TwoKeys, b"admissions 2\n0 0 0\n0 1 1\n"),
        (Base::NoKey, b"admissions 0\n"),
    ];
    for (name, (base, text)) in names.lines().zip(cases) {
        let image = base.image(tally.alloc)?;
        tally.case(name, is_printed(&image, text))?;
    }
    Ok(())
}
