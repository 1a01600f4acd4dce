// The eight-page lookup on sound images, and on headers that are refused: the full lookup gives the same answer.
use crate::found::{absent, both_find, in_page, listed};
use crate::images::{Base, first};
use crate::say::Tally;
use format::Refusal;
use std::io;

// Images with one page a band, and the one without pages.
pub fn single_pages(tally: &mut Tally) -> io::Result<()> {
    let names = "\
        both lookups: key 0 alone, in the pages 1 to 8\n\
        both lookups: key 1 beside key 0 alone, absent: 1 smaller\n\
        both lookups: the last key of all beside key 0 alone, absent: 1 smaller\n\
        both lookups: plate 9 for lift 7, key 1\n\
        both lookups: plate 9 for lift 7, key 2 absent: 2 smaller\n\
        both lookups: the empty list, key 0 absent: 0 smaller\n\
        both lookups: the empty list, the last key of all absent: 0 smaller\n";
    let cases = [
        (Base::OneKey, 0, 0, 0, in_page(0, 8)),
        (Base::OneKey, 0, 0, 1, absent(1)),
        (Base::OneKey, 0, 65535, 65535, absent(1)),
        (Base::TwoKeys, 7, 0, 1, in_page(1, 8)),
        (Base::TwoKeys, 7, 1, 0, absent(2)),
        (Base::NoKey, 0, 0, 0, absent(0)),
        (Base::NoKey, 0, 65535, 65535, absent(0)),
    ];
    for (name, (base, lift, holder, slot, expected)) in names.lines().zip(cases) {
        let image = base.image_for(tally.alloc, lift)?;
        both_find(tally, name, &image, holder, slot, expected)?;
    }
    Ok(())
}

// The two pages of 61 subtries. Key 944 is holder 28, slot 20; key 960 is holder 24, slot 24; key 976, holder 24, slot 28, has its off bit in band 7.
pub fn subtries(tally: &mut Tally) -> io::Result<()> {
    let names = "\
        both lookups: 61 subtries, the first key of page 8\n\
        both lookups: 61 subtries, the last key of page 8\n\
        both lookups: 61 subtries, the key of page 9\n\
        both lookups: 61 subtries, an absent key of page 8: 1 smaller\n\
        both lookups: 61 subtries, an absent key of page 9: 61 smaller\n\
        both lookups: 61 subtries, a key absent in band 7: 61 smaller\n";
    let cases = [
        (0, 0, in_page(0, 8)),
        (28, 20, in_page(59, 8)),
        (24, 24, in_page(60, 9)),
        (0, 1, absent(1)),
        (24, 25, absent(61)),
        (24, 28, absent(61)),
    ];
    let image = Base::TwoPages.image(tally.alloc)?;
    for (name, (holder, slot, expected)) in names.lines().zip(cases) {
        both_find(tally, name, &image, holder, slot, expected)?;
    }
    Ok(())
}

// Pages of keys 0 to 4095.
pub fn dense_pages(tally: &mut Tally) -> io::Result<()> {
    let names = "\
        both lookups: keys 0 to 4095, key 0 in page 8\n\
        both lookups: keys 0 to 4095, key 255 in page 8\n\
        both lookups: keys 0 to 4095, key 256 in page 9\n\
        both lookups: keys 0 to 4095, key 2047 in page 15\n\
        both lookups: keys 0 to 4095, key 2048 in page 16\n\
        both lookups: keys 0 to 4095, key 3840 in page 23\n\
        both lookups: keys 0 to 4095, key 4095 in page 23\n\
        both lookups: keys 0 to 4095, key 4096 absent: 4,096 smaller\n";
    let cases = [
        (0, 0, in_page(0, 8)),
        (15, 15, in_page(255, 8)),
        (0, 16, in_page(256, 9)),
        (31, 63, in_page(2047, 15)),
        (32, 0, in_page(2048, 16)),
        (48, 48, in_page(3840, 23)),
        (63, 63, in_page(4095, 23)),
        (0, 64, absent(4096)),
    ];
    let image = Base::Dense.image(tally.alloc)?;
    for (name, (holder, slot, expected)) in names.lines().zip(cases) {
        both_find(tally, name, &image, holder, slot, expected)?;
    }
    Ok(())
}

// Several pages in each of the bands 3 to 8. Rank r is in root r / 16 of band 3, 16 roots a page, and in root r of the later bands, 60 roots a page.
pub fn far_apart(tally: &mut Tally) -> io::Result<()> {
    let first = listed(0, [1, 2, 3, 19, 88, 157, 226, 295]);
    let middle = listed(2050, [1, 2, 11, 53, 122, 191, 260, 329]);
    let later = listed(3415, [1, 2, 16, 75, 144, 213, 282, 351]);
    let last = listed(4095, [1, 2, 18, 87, 156, 225, 294, 363]);
    let names = "\
        both lookups: keys 0, 2^20 to 4,095 x 2^20, the first\n\
        both lookups: keys 0, 2^20 to 4,095 x 2^20, rank 2,050\n\
        both lookups: keys 0, 2^20 to 4,095 x 2^20, rank 3,415\n\
        both lookups: keys 0, 2^20 to 4,095 x 2^20, the last\n\
        both lookups: keys 0, 2^20 to 4,095 x 2^20, key 1 absent: 1 smaller\n";
    let cases = [
        (0, 0, first),
        (33792, 0, middle),
        (33792, 64512, later),
        (64512, 64512, last),
        (0, 1, absent(1)),
    ];
    let image = Base::FarApart.image(tally.alloc)?;
    for (name, (holder, slot, expected)) in names.lines().zip(cases) {
        both_find(tally, name, &image, holder, slot, expected)?;
    }
    Ok(())
}

// 1 to 7 and 35.
pub fn headers(tally: &mut Tally) -> io::Result<()> {
    let image = Base::OneKey.image(tally.alloc)?;
    let names = "\
        1: 63 bytes, in both lookups\n\
        6: 512 bytes of 576, in both lookups\n";
    let cases = [(63, Refusal::Header), (512, Refusal::Length)];
    for (name, (size, refusal)) in names.lines().zip(cases) {
        both_find(tally, name, first(&image, size), 0, 0, Err(refusal))?;
    }
    let names = "\
        2: first byte of the mark, in both lookups\n\
        3: version 3, in both lookups\n\
        4: key count 4,097, in both lookups\n\
        5: byte 40, in both lookups\n\
        35: version 2 and lift 0, in both lookups\n\
        6: a page count one more, in both lookups\n\
        7: key count 0 with pages, in both lookups\n\
        7: band 1 with two roots, in both lookups\n\
        7: band 3 without a root, in both lookups\n";
    let cases: [(&[(usize, u8)], Refusal); 9] = [
        (&[(0, 0x4d)], Refusal::Mark),
        (&[(4, 3)], Refusal::Version),
        (&[(6, 16), (7, 1)], Refusal::KeyCount),
        (&[(40, 1)], Refusal::ZeroBytes),
        (&[(4, 2)], Refusal::Lift),
        (&[(13, 2)], Refusal::Length),
        (&[(7, 0)], Refusal::BandCounts),
        (&[(11, 2)], Refusal::BandCounts),
        (&[(19, 0)], Refusal::BandCounts),
    ];
    for (name, (bytes, refusal)) in names.lines().zip(cases) {
        let image = Base::OneKey.with(tally.alloc, bytes)?;
        both_find(tally, name, &image, 0, 0, Err(refusal))?;
    }
    Ok(())
}
