// Images that the full lookup refuses and the eight-page lookup walks through: T's out of order, and damage beside the key's path.
use crate::found::{Answer, absent, finds_beside, in_page, listed};
use crate::images::{Base, early_page};
use crate::say::Tally;
use format::Refusal;
use std::io;

// Keys 0 to 4095 with T 0 and 16 in the pages 13 and 14, in place of 80 and 96. For root 0 a search by halves would find page 8, which is also the first
// that fits. The last page in page order: 13 for the roots 0 to 15, 14 for 16 to 111. Key 1024 is holder 0, slot 32 and of root 64; key 1792 is holder 16, slot 48 and of root 112.
pub fn order(tally: &mut Tally) -> io::Result<()> {
    let names = "\
        T 0 again in page 13: key 0 is found there, with rank 1,280\n\
        T 0 again in page 13: key 255 is found there, with rank 1,535\n\
        9: T 16 again in page 14, which has 96 roots: key 256 of root 16\n\
        9: T 16 again in page 14, which has 96 roots: key 1024 of root 64\n\
        T 16 again in page 14: key 1792 of root 112 is found in page 15\n\
        T 16 again in page 14: key 4095 is found in page 23\n\
        T 16 again in page 14: key 4096 is absent in band 5, 4,096 smaller\n";
    let cases = [
        (0, 0, in_page(1280, 13)),
        (15, 15, in_page(1535, 13)),
        (0, 16, Err(Refusal::Roots)),
        (0, 32, Err(Refusal::Roots)),
        (16, 48, in_page(1792, 15)),
        (63, 63, in_page(4095, 23)),
        (0, 64, absent(4096)),
    ];
    let image = Base::Dense.with(tally.alloc, &[(833, 0), (897, 16)])?;
    for (name, (holder, slot, expected)) in names.lines().zip(cases) {
        finds_beside(tally, name, &image, holder, slot, expected, Refusal::Roots)?;
    }
    Ok(())
}

// Keys 0 to 4095 with the T's of the pages 10 and 11 changed for each other: 0, 16, 48, 32, 64 and so on. 32 subtries of 15 nodes are 480 nodes. Page 10, with T 48 and then 32, has no root: 9 would come if any key's path went there.
pub fn exchanged(tally: &mut Tally) -> io::Result<()> {
    let names = "\
        T 48 and 32 in the pages 10 and 11: key 0 is found in page 8\n\
        10: T 48 in page 10: page 9 has 32 roots, key 256 of root 16\n\
        10: T 32 in page 11, which has 32 roots: key 512 of root 32\n\
        10: T 32 in page 11, which has 32 roots: key 768 of root 48\n\
        T 48 and 32 in the pages 10 and 11: key 1024 of root 64 is found in page 12\n";
    let cases = [
        (0, 0, in_page(0, 8)),
        (0, 16, Err(Refusal::Nodes)),
        (16, 0, Err(Refusal::Nodes)),
        (16, 16, Err(Refusal::Nodes)),
        (0, 32, in_page(1024, 12)),
    ];
    let image = Base::Dense.with(tally.alloc, &[(641, 48), (705, 32)])?;
    for (name, (holder, slot, expected)) in names.lines().zip(cases) {
        finds_beside(tally, name, &image, holder, slot, expected, Refusal::Nodes)?;
    }
    Ok(())
}

// The two pages with T 0 in both; keys 0 to 4095 with T 0 in the last page too; and keys 2^20 apart with T 0 and 16 in the pages 8 and 9 of band 3, in place of
// 80 and 96: key 0 goes on from root 1,280 of band 4. The last page in page order at the ends of a band, and in band 3. Page 8 is the first whose T is 0.
pub fn last_pages(tally: &mut Tally) -> io::Result<()> {
    let found = listed(1280, [1, 2, 8, 40, 109, 178, 247, 316]);
    let names = "\
        T 0 in both pages and one root: key 0 is found in page 9, with rank 60\n\
        28: T 0 in both pages and one root: key 16 of root 1\n\
        9: T 0 in both pages: page 9 has 61 roots, key 0\n\
        9: T 0 in page 23, which has 256 roots: key 0\n\
        9: T 0 in page 23, which has 256 roots: key 2048\n\
        T 0 again in page 8 of band 3: key 0 is found there, with rank 1,280\n";
    let cases: [(Base, &[(usize, u8)], u16, u16, Answer, Refusal); 6] = [
        (
            Base::TwoPages,
            &[(577, 0), (39, 1)],
            0,
            0,
            in_page(60, 9),
            Refusal::Links,
        ),
        (
            Base::TwoPages,
            &[(577, 0), (39, 1)],
            0,
            4,
            Err(Refusal::Number),
            Refusal::Links,
        ),
        (
            Base::TwoPages,
            &[(577, 0)],
            0,
            0,
            Err(Refusal::Roots),
            Refusal::Roots,
        ),
        (
            Base::Dense,
            &[(1473, 0)],
            0,
            0,
            Err(Refusal::Roots),
            Refusal::Roots,
        ),
        (
            Base::Dense,
            &[(1473, 0)],
            32,
            0,
            Err(Refusal::Roots),
            Refusal::Roots,
        ),
        (
            Base::FarApart,
            &[(513, 0), (577, 16)],
            0,
            0,
            found,
            Refusal::Roots,
        ),
    ];
    for (name, (base, bytes, holder, slot, expected, refusal)) in names.lines().zip(cases) {
        let image = base.with(tally.alloc, bytes)?;
        finds_beside(tally, name, &image, holder, slot, expected, refusal)?;
    }
    Ok(())
}

// Damage in another page than the key's: 8, 10 and 11. Key 944 is the last of page 8, and key 960 the key of page 9.
pub fn other_pages(tally: &mut Tally) -> io::Result<()> {
    let names = "\
        8 in the full lookup alone: B of page 9 one more, key 944 of page 8\n\
        28, and 8 in the full lookup: B of page 9 one more, an absent key of page 9\n\
        8 in the full lookup alone: B of page 9 one less, its key has rank 59\n\
        10 in the full lookup alone: a node of page 9 00, key 944 of page 8\n\
        10 in both: a node of page 9 00, its key\n\
        10 in the full lookup alone: a node of page 8 00, key 960 of page 9\n\
        10 in the full lookup alone: 243 nodes in page 8, key 960 of page 9\n\
        11 in the full lookup alone: a pair after the last node of page 9, key 944 of page 8\n\
        11 in the full lookup alone: a pair after the last node of page 9, an absent key of page 8, 1 smaller\n\
        11 in both: a pair after the last node of page 9, its key\n";
    let cases: [(&[(usize, u8)], u16, u16, Answer, Refusal); 10] = [
        (&[(579, 61)], 28, 20, in_page(59, 8), Refusal::Counters),
        (
            &[(579, 61)],
            24,
            25,
            Err(Refusal::Number),
            Refusal::Counters,
        ),
        (&[(579, 59)], 24, 24, in_page(59, 9), Refusal::Counters),
        (&[(580, 0xa8)], 28, 20, in_page(59, 8), Refusal::Nodes),
        (&[(580, 0xa8)], 24, 24, Err(Refusal::Nodes), Refusal::Nodes),
        (&[(516, 0x2a)], 24, 24, in_page(60, 9), Refusal::Nodes),
        (&[(516, 0xea)], 24, 24, in_page(60, 9), Refusal::Nodes),
        (&[(581, 1)], 28, 20, in_page(59, 8), Refusal::Padding),
        (&[(581, 1)], 0, 1, absent(1), Refusal::Padding),
        (&[(581, 1)], 24, 24, Err(Refusal::Padding), Refusal::Padding),
    ];
    for (name, (bytes, holder, slot, expected, refusal)) in names.lines().zip(cases) {
        let image = Base::TwoPages.with(tally.alloc, bytes)?;
        finds_beside(tally, name, &image, holder, slot, expected, refusal)?;
    }
    Ok(())
}

// Keys 0 to 4095 with T 224 in the last page, so that the page before it has no root. Root counts beside the path, and packing: 9 and 12.
pub fn packing(tally: &mut Tally) -> io::Result<()> {
    let names = "\
        9 in the full lookup alone: page 22 without a root, key 0 of page 8\n\
        10, and 9 in the full lookup: page 23 with 32 roots, key 4095\n";
    let cases = [(0, 0, in_page(0, 8)), (63, 63, Err(Refusal::Nodes))];
    let image = Base::Dense.with(tally.alloc, &[(1473, 224)])?;
    for (name, (holder, slot, expected)) in names.lines().zip(cases) {
        finds_beside(tally, name, &image, holder, slot, expected, Refusal::Roots)?;
    }
    let names = "\
        12 in the full lookup alone: a page for 4 nodes more, key 0 of page 8\n\
        12 in the full lookup alone: a page for 4 nodes more, key 944 of page 9\n\
        12 in the full lookup alone: a page for 4 nodes more, key 960 absent, 60 smaller\n";
    let cases = [
        (0, 0, in_page(0, 8)),
        (28, 20, in_page(59, 9)),
        (24, 24, absent(60)),
    ];
    let image = early_page(tally.alloc)?;
    for (name, (holder, slot, expected)) in names.lines().zip(cases) {
        finds_beside(
            tally,
            name,
            &image,
            holder,
            slot,
            expected,
            Refusal::Packing,
        )?;
    }
    Ok(())
}

// Counts that do not fit the out-links: 13. Slot 16384 is of the second out-link of band 1.
pub fn sums(tally: &mut Tally) -> io::Result<()> {
    let names = "\
        13 in the full lookup alone: the key count one more, key 960 of the last rank\n\
        13 in the full lookup alone: the key count one more, an absent key, 61 smaller\n\
        13 in the full lookup alone: the key count one less, key 944\n\
        13 in the full lookup alone: a root count one more, key 0 of page 8\n\
        10, and 13 in the full lookup: a root count one more, key 960 of page 9\n\
        13 in the full lookup alone: two out-links to one root of band 2, key 0\n\
        28, and 13 in the full lookup: the second out-link to one root of band 2\n\
        13 in the full lookup alone: two out-links and one key, key 0\n\
        28, and 13 in the full lookup: the second out-link of band 8, key 1\n";
    let cases: [(Base, &[(usize, u8)], u16, u16, Answer); 9] = [
        (Base::TwoPages, &[(7, 62)], 24, 24, in_page(60, 9)),
        (Base::TwoPages, &[(7, 62)], 24, 25, absent(61)),
        (Base::TwoPages, &[(7, 60)], 28, 20, in_page(59, 8)),
        (Base::TwoPages, &[(39, 62)], 0, 0, in_page(0, 8)),
        (Base::TwoPages, &[(39, 62)], 24, 24, Err(Refusal::Nodes)),
        (Base::OneKey, &[(68, 0xab)], 0, 0, in_page(0, 8)),
        (Base::OneKey, &[(68, 0xab)], 0, 16384, Err(Refusal::Number)),
        (Base::OneKey, &[(516, 0xab)], 0, 0, in_page(0, 8)),
        (Base::OneKey, &[(516, 0xab)], 0, 1, Err(Refusal::Number)),
    ];
    for (name, (base, bytes, holder, slot, expected)) in names.lines().zip(cases) {
        let image = base.with(tally.alloc, bytes)?;
        finds_beside(tally, name, &image, holder, slot, expected, Refusal::Links)?;
    }
    Ok(())
}
