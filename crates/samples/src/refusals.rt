// Version 1 images that questions 1 to 13 refuse, and images at the other side of the same edges.
use crate::images::{Base, early_page, first, five_nodes, steps, written};
use crate::judge::{accepts, refuses, refuses_zeros};
use crate::say::Tally;
use format::Refusal;
use std::io;

// 1 to 5.
pub fn headers(tally: &mut Tally) -> io::Result<()> {
    let image = Base::OneKey.image(tally.alloc)?;
    refuses(tally, "1: no byte", &[], Refusal::Header)?;
    refuses(tally, "1: 63 bytes", first(&image, 63), Refusal::Header)?;
    let names = "\
        2: first byte of the mark\n\
        2: last byte of the mark\n\
        3: version 0\n\
        3: version 3\n\
        3: version 257\n\
        4: key count 4,096 goes on to 13\n\
        4: key count 4,097\n\
        5: byte 5\n\
        5: byte 40\n\
        5: byte 63\n";
    let cases: [(&[(usize, u8)], Refusal); 10] = [
        (&[(0, 0x4d)], Refusal::Mark),
        (&[(2, 0x55)], Refusal::Mark),
        (&[(4, 0)], Refusal::Version),
        (&[(4, 3)], Refusal::Version),
        (&[(3, 1)], Refusal::Version),
        (&[(6, 16), (7, 0)], Refusal::Links),
        (&[(6, 16), (7, 1)], Refusal::KeyCount),
        (&[(5, 1)], Refusal::ZeroBytes),
        (&[(40, 1)], Refusal::ZeroBytes),
        (&[(63, 128)], Refusal::ZeroBytes),
    ];
    for (name, (bytes, refusal)) in names.lines().zip(cases) {
        let image = Base::OneKey.with(tally.alloc, bytes)?;
        refuses(tally, name, &image, refusal)?;
    }
    Ok(())
}

// The empty list's image with other low bytes of the key count and of band 8's root count.
fn empty_with(keys: u8, roots: u8) -> [u8; 64] {
    let mut empty = [0u8; 64];
    empty[0] = 0x4c;
    empty[1] = 0x50;
    empty[2] = 0x54;
    empty[4] = 1;
    empty[7] = keys;
    empty[39] = roots;
    empty
}

// 7, without pages.
pub fn empties(tally: &mut Tally) -> io::Result<()> {
    accepts(tally, "the image of the empty list", &empty_with(0, 0), 64)?;
    let root = empty_with(0, 1);
    let key = empty_with(1, 0);
    refuses(
        tally,
        "7: the empty list with a root",
        &root,
        Refusal::BandCounts,
    )?;
    refuses(tally, "7: a key without pages", &key, Refusal::BandCounts)
}

// 6 and 7.
pub fn counts(tally: &mut Tally) -> io::Result<()> {
    let mut longer = Base::OneKey.image(tally.alloc)?;
    accepts(tally, "the image of key 0", &longer, 576)?;
    longer.push(0)?;
    let names = "6: 64 bytes of 576\n6: 575 bytes of 576\n6: one byte more\n";
    for (name, size) in names.lines().zip([64, 575, 577]) {
        refuses(tally, name, first(&longer, size), Refusal::Length)?;
    }
    let names = "\
        6: a page count one more\n\
        7: key count 0 with pages\n\
        7: band 1 with two roots\n\
        7: band 3 without a root\n";
    let cases = [
        (13, 2, Refusal::Length),
        (7, 0, Refusal::BandCounts),
        (11, 2, Refusal::BandCounts),
        (19, 0, Refusal::BandCounts),
    ];
    for (name, (at, byte, refusal)) in names.lines().zip(cases) {
        let image = Base::OneKey.with(tally.alloc, &[(at, byte)])?;
        refuses(tally, name, &image, refusal)?;
    }
    Ok(())
}

// The listing program's input: longer than 65,536 bytes is 6, whatever else is wrong.
pub fn inputs(tally: &mut Tally) -> io::Result<()> {
    refuses_zeros(
        tally,
        "2: 65,536 bytes of zeros, listed",
        65536,
        Refusal::Mark,
    )?;
    refuses_zeros(
        tally,
        "6: 65,537 bytes of zeros, listed",
        65537,
        Refusal::Length,
    )
}

// 8 and 9.
pub fn heads(tally: &mut Tally) -> io::Result<()> {
    let image = Base::TwoPages.image(tally.alloc)?;
    accepts(tally, "61 subtries in two pages", &image, 640)?;
    let names = "\
        8: T of a band's first page\n\
        8: B of a band's first page\n\
        8: B of a later page one less\n\
        8: B of a later page one more\n\
        9: 61 roots, by T of the next page\n\
        9: no root, by T of the next page\n\
        13: a root count one less, asked after the band above\n\
        11: 59 roots, by T of the next page\n";
    let cases = [
        (Base::OneKey, 65, 1, Refusal::Counters),
        (Base::OneKey, 515, 1, Refusal::Counters),
        (Base::TwoPages, 579, 59, Refusal::Counters),
        (Base::TwoPages, 579, 61, Refusal::Counters),
        (Base::TwoPages, 577, 61, Refusal::Roots),
        (Base::TwoPages, 577, 0, Refusal::Roots),
        (Base::TwoPages, 39, 60, Refusal::Links),
        (Base::TwoPages, 577, 59, Refusal::Padding),
    ];
    for (name, (base, at, byte, refusal)) in names.lines().zip(cases) {
        let image = base.with(tally.alloc, &[(at, byte)])?;
        refuses(tally, name, &image, refusal)?;
    }
    Ok(())
}

// 10, 11 and 13.
pub fn nodes(tally: &mut Tally) -> io::Result<()> {
    let names = "\
        10: the first node 00\n\
        10: the fourth node 00\n\
        10: 243 nodes\n\
        11: a pair after the last node\n\
        11: the last pair of the last page\n\
        13: two out-links to one root\n\
        13: two out-links and one key\n\
        13: one out-link and two keys\n";
    let cases = [
        (Base::OneKey, 68, 0x2a, Refusal::Nodes),
        (Base::OneKey, 516, 0xa8, Refusal::Nodes),
        (Base::TwoPages, 516, 0xea, Refusal::Nodes),
        (Base::OneKey, 69, 0x40, Refusal::Padding),
        (Base::OneKey, 575, 1, Refusal::Padding),
        (Base::OneKey, 68, 0xab, Refusal::Links),
        (Base::OneKey, 516, 0xab, Refusal::Links),
        (Base::OneKey, 7, 2, Refusal::Links),
    ];
    for (name, (base, at, byte, refusal)) in names.lines().zip(cases) {
        let image = base.with(tally.alloc, &[(at, byte)])?;
        refuses(tally, name, &image, refusal)?;
    }
    Ok(())
}

// 12.
pub fn packed(tally: &mut Tally) -> io::Result<()> {
    let alloc = tally.alloc;
    let one_page = written(alloc, &steps(alloc, 16, 60)?, 0, 640)?;
    accepts(
        tally,
        "12: 60 subtries, 240 nodes in one page",
        &one_page,
        576,
    )?;
    let early = early_page(alloc)?;
    refuses(
        tally,
        "12: 236 nodes and a page for 4 more",
        &early,
        Refusal::Packing,
    )?;
    let needed = written(alloc, &five_nodes(alloc)?, 0, 640)?;
    accepts(tally, "12: 236 nodes and a page for 5 more", &needed, 640)
}
