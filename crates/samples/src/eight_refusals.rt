// Where the eight-page lookup ends with 27, 9 to 11 or 28, and where all keys lie left of the key's off bit, so that it ends before.
use crate::found::{Answer, absent, finds, in_page};
use crate::images::Base;
use crate::say::Tally;
use format::Refusal;
use std::io;

// 27 with one page in the band. A page with T 1 and root count 1 has no root, so that 9 would say no too.
pub fn band_pages(tally: &mut Tally) -> io::Result<()> {
    let names = "\
        27: T of band 1's page above root 0\n\
        27: T of band 1's page above root 0, for a key whose first bit is off\n\
        27: T 256 in band 1's page\n\
        27: T of band 4's page above root 0\n\
        27: T of band 8's page above root 0\n\
        27: T of band 8's page above root 0, for a key absent there\n\
        27: T of band 2's page above root 0\n\
        absent, 1 smaller: T of band 2's page above root 0, for a key whose first bit is off\n";
    let cases: [(&[(usize, u8)], u16, u16, Answer); 8] = [
        (&[(65, 1)], 0, 0, Err(Refusal::Page)),
        (&[(65, 1)], 65535, 65535, Err(Refusal::Page)),
        (&[(64, 1)], 0, 0, Err(Refusal::Page)),
        (&[(257, 1)], 0, 0, Err(Refusal::Page)),
        (&[(513, 1)], 0, 0, Err(Refusal::Page)),
        (&[(513, 1)], 0, 1, Err(Refusal::Page)),
        (&[(129, 1)], 0, 0, Err(Refusal::Page)),
        (&[(129, 1)], 65535, 65535, absent(1)),
    ];
    for (name, (bytes, holder, slot, expected)) in names.lines().zip(cases) {
        let image = Base::OneKey.with(tally.alloc, bytes)?;
        finds(tally, name, &image, holder, slot, expected)?;
    }
    Ok(())
}

// 27 with two pages in the band. With each T and the root count one more, every root but 0 leads to the subtrie before its own, and 9 to 11 get a yes in
// either page. Key 16 is holder 0, slot 4.
pub fn two_heads(tally: &mut Tally) -> io::Result<()> {
    let names = "\
        27: T 1 and 61 in two pages, key 0 of root 0\n\
        T 1 and 61 in two pages: key 16 of root 1 is found in page 8's first subtrie\n\
        T 1 and 61 in two pages: key 960 of root 60 is found in page 8's last subtrie\n\
        27: T 1 and 60 in two pages, key 0 of root 0\n\
        11: T 1 and 60 in two pages, key 16 of root 1: page 8 has 59 roots\n\
        27: T 60 and 60 in two pages, key 944 of root 59\n\
        T 60 and 60 in two pages: key 960 of root 60 is found in page 9\n\
        27: T 61 and 60 in two pages, key 944 of root 59\n\
        T 61 and 60 in two pages: key 960 of root 60 is found in page 9\n";
    let cases: [(&[(usize, u8)], u16, u16, Answer); 9] = [
        (&[(39, 62), (513, 1), (577, 61)], 0, 0, Err(Refusal::Page)),
        (&[(39, 62), (513, 1), (577, 61)], 0, 4, in_page(0, 8)),
        (&[(39, 62), (513, 1), (577, 61)], 24, 24, in_page(59, 8)),
        (&[(513, 1)], 0, 0, Err(Refusal::Page)),
        (&[(513, 1)], 0, 4, Err(Refusal::Padding)),
        (&[(513, 60)], 28, 20, Err(Refusal::Page)),
        (&[(513, 60)], 24, 24, in_page(60, 9)),
        (&[(513, 61)], 28, 20, Err(Refusal::Page)),
        (&[(513, 61)], 24, 24, in_page(60, 9)),
    ];
    for (name, (bytes, holder, slot, expected)) in names.lines().zip(cases) {
        let image = Base::TwoPages.with(tally.alloc, bytes)?;
        finds(tally, name, &image, holder, slot, expected)?;
    }
    Ok(())
}

// 9. It never finds 0 roots: the root that led to the page is one of them, or 27 or 28 came first, or a figure at the limit.
pub fn root_counts(tally: &mut Tally) -> io::Result<()> {
    let names = "\
        9: 61 roots by T of the next page, key 0 of root 0\n\
        9: 61 roots by T of the next page, key 960 of root 60\n\
        9: 61 roots by T of the next page, and a node 00\n\
        9: 61 roots by band 3's root count\n\
        10: 60 roots by band 3's root count\n\
        9: 65,281 roots by band 3's root count\n\
        9: 61 roots of page 9 by band 8's root count\n\
        10: 60 roots of page 9 by band 8's root count\n";
    let cases: [(Base, &[(usize, u8)], u16, u16, Answer); 8] = [
        (Base::TwoPages, &[(577, 61)], 0, 0, Err(Refusal::Roots)),
        (Base::TwoPages, &[(577, 61)], 24, 24, Err(Refusal::Roots)),
        (
            Base::TwoPages,
            &[(516, 0x2a), (577, 61)],
            0,
            0,
            Err(Refusal::Roots),
        ),
        (Base::OneKey, &[(19, 61)], 0, 0, Err(Refusal::Roots)),
        (Base::OneKey, &[(19, 60)], 0, 0, Err(Refusal::Nodes)),
        (Base::OneKey, &[(18, 255)], 0, 0, Err(Refusal::Roots)),
        (Base::TwoPages, &[(39, 121)], 24, 24, Err(Refusal::Roots)),
        (Base::TwoPages, &[(39, 120)], 24, 24, Err(Refusal::Nodes)),
    ];
    for (name, (base, bytes, holder, slot, expected)) in names.lines().zip(cases) {
        let image = base.with(tally.alloc, bytes)?;
        finds(tally, name, &image, holder, slot, expected)?;
    }
    Ok(())
}

// 10 and 11 of the page on the path, whether or not the key's own nodes are sound.
pub fn page_nodes(tally: &mut Tally) -> io::Result<()> {
    let names = "\
        10: the first node of band 1 00\n\
        10: the first node of band 1 00, for a key whose first bit is off\n\
        10: the fourth node of band 8 00\n\
        10: the node 00 of another root of the page\n\
        10: 243 nodes in the page\n\
        10: page 9 with T 59 has 2 roots, key 944 of root 59\n\
        11: page 9 with T 59, so that page 8 has 59 roots, key 0\n\
        11: a pair after the last node of band 1\n\
        11: the last pair of band 8's page\n\
        11: the last pair of band 8's page, for a key absent there\n\
        absent, 1 smaller: a node of band 2 00, for a key whose first bit is off\n\
        absent, 1 smaller: a pair after the last node of band 2, for a key whose first bit is off\n";
    let cases: [(Base, &[(usize, u8)], u16, u16, Answer); 12] = [
        (Base::OneKey, &[(68, 0x2a)], 0, 0, Err(Refusal::Nodes)),
        (
            Base::OneKey,
            &[(68, 0x2a)],
            65535,
            65535,
            Err(Refusal::Nodes),
        ),
        (Base::OneKey, &[(516, 0xa8)], 0, 0, Err(Refusal::Nodes)),
        (Base::TwoPages, &[(530, 0xa8)], 0, 0, Err(Refusal::Nodes)),
        (Base::TwoPages, &[(516, 0xea)], 0, 0, Err(Refusal::Nodes)),
        (Base::TwoPages, &[(577, 59)], 28, 20, Err(Refusal::Nodes)),
        (Base::TwoPages, &[(577, 59)], 0, 0, Err(Refusal::Padding)),
        (Base::OneKey, &[(69, 0x40)], 0, 0, Err(Refusal::Padding)),
        (Base::OneKey, &[(575, 1)], 0, 0, Err(Refusal::Padding)),
        (Base::OneKey, &[(575, 1)], 0, 1, Err(Refusal::Padding)),
        (Base::OneKey, &[(132, 0x2a)], 65535, 65535, absent(1)),
        (Base::OneKey, &[(133, 0x40)], 65535, 65535, absent(1)),
    ];
    for (name, (base, bytes, holder, slot, expected)) in names.lines().zip(cases) {
        let image = base.with(tally.alloc, bytes)?;
        finds(tally, name, &image, holder, slot, expected)?;
    }
    Ok(())
}

// 28 by B, with one page and one root in each band. Slot 1024 has its off bit in band 3, with one on bit left of it: its figure is B + 1.
pub fn links(tally: &mut Tally) -> io::Result<()> {
    let names = "\
        28: out of band 1 with 1, the root count of band 2\n\
        28: out of band 3 with 1, the root count of band 4\n\
        28: out of band 3 with 65,280\n\
        28: out of band 7 with 1, the root count of band 8\n\
        28: out of band 8 with 1, the key count\n\
        28: out of band 3 with 1, found before 27 in band 4\n\
        28: an off bit in band 3's page, whose B is 1: figure 2, above the root count of band 4\n\
        28: an off bit in band 3's page, whose B is 65,280\n\
        28: an off bit in band 8's page, whose B is 1: figure 2, above the key count\n";
    let cases: [(&[(usize, u8)], u16); 9] = [
        (&[(67, 1)], 0),
        (&[(195, 1)], 0),
        (&[(194, 255)], 0),
        (&[(451, 1)], 0),
        (&[(515, 1)], 0),
        (&[(195, 1), (257, 2)], 0),
        (&[(195, 1)], 1024),
        (&[(194, 255)], 1024),
        (&[(515, 1)], 1),
    ];
    for (name, (bytes, slot)) in names.lines().zip(cases) {
        let image = Base::OneKey.with(tally.alloc, bytes)?;
        finds(tally, name, &image, 0, slot, Err(Refusal::Number))?;
    }
    Ok(())
}

// 28 with several roots, on both sides. Key 768, holder 16 and slot 16, is in the last of band 7's four roots.
pub fn several_links(tally: &mut Tally) -> io::Result<()> {
    let names = "\
        28: out of band 7 with 60, the root count of band 8\n\
        out of band 7 with 59, one below the root count of band 8\n\
        28: out of band 8 with 60, the key count\n\
        out of band 8 with 59, one below the key count: the rank\n\
        28: out of band 8 with 61, the key count, by B of page 9\n\
        28: out of band 6 with 4, the root count of band 7, by B\n\
        out of band 6 with 1 in place of 0, by B: key 0 has key 256's rank\n";
    let cases: [(&[(usize, u8)], u16, u16, Answer); 7] = [
        (&[(39, 60)], 24, 24, Err(Refusal::Number)),
        (&[(39, 60)], 28, 20, in_page(59, 8)),
        (&[(7, 60)], 24, 24, Err(Refusal::Number)),
        (&[(7, 60)], 28, 20, in_page(59, 8)),
        (&[(579, 61)], 24, 24, Err(Refusal::Number)),
        (&[(387, 1)], 16, 16, Err(Refusal::Number)),
        (&[(387, 1)], 0, 0, in_page(16, 8)),
    ];
    for (name, (bytes, holder, slot, expected)) in names.lines().zip(cases) {
        let image = Base::TwoPages.with(tally.alloc, bytes)?;
        finds(tally, name, &image, holder, slot, expected)?;
    }
    Ok(())
}

// 28 at the largest numbers: other key counts with another B in band 8's page, and B 65,535 in a page. 65,536 does not fit the two bytes of a number in the image, and must not come out as 0.
pub fn large_links(tally: &mut Tally) -> io::Result<()> {
    let names = "\
        out of band 8 with 1, one below key count 2: the rank\n\
        out of band 8 with 4,095, one below key count 4,096: the rank\n\
        28: out of band 8 with 4,096, the key count\n\
        28: out of band 8 with 65,535\n\
        28: out of band 8 with 65,536\n\
        28: out of band 7 with 65,536\n";
    let cases: [(Base, &[(usize, u8)], u16, Answer); 6] = [
        (
            Base::OneKey,
            &[(6, 0), (7, 2), (514, 0), (515, 1)],
            0,
            in_page(1, 8),
        ),
        (
            Base::OneKey,
            &[(6, 16), (7, 0), (514, 15), (515, 255)],
            0,
            in_page(4095, 8),
        ),
        (
            Base::OneKey,
            &[(6, 16), (7, 0), (514, 16), (515, 0)],
            0,
            Err(Refusal::Number),
        ),
        (
            Base::TwoPages,
            &[(514, 255), (515, 255)],
            0,
            Err(Refusal::Number),
        ),
        (
            Base::TwoPages,
            &[(514, 255), (515, 255)],
            4,
            Err(Refusal::Number),
        ),
        (
            Base::TwoPages,
            &[(450, 255), (451, 255)],
            4,
            Err(Refusal::Number),
        ),
    ];
    for (name, (base, bytes, slot, expected)) in names.lines().zip(cases) {
        let image = base.with(tally.alloc, bytes)?;
        finds(tally, name, &image, 0, slot, expected)?;
    }
    Ok(())
}

// The same past an off bit. A figure may be equal to the key count. Key 976, holder 24 and slot 28, has its off bit in band 7, right of 61 on bits.
pub fn large_figures(tally: &mut Tally) -> io::Result<()> {
    let names = "\
        absent, 2 smaller: figure 2 out of band 8, key count 2\n\
        absent, 4,096 smaller: figure 4,096 out of band 8, the key count\n\
        28: figure 4,097 out of band 8, above key count 4,096\n\
        28: figure 65,536 out of band 8\n\
        28: figure 65,596 out of band 7\n";
    let cases: [(Base, &[(usize, u8)], u16, u16, Answer); 5] = [
        (
            Base::OneKey,
            &[(6, 0), (7, 2), (514, 0), (515, 1)],
            0,
            1,
            absent(2),
        ),
        (
            Base::OneKey,
            &[(6, 16), (7, 0), (514, 15), (515, 255)],
            0,
            1,
            absent(4096),
        ),
        (
            Base::OneKey,
            &[(6, 16), (7, 0), (514, 16), (515, 0)],
            0,
            1,
            Err(Refusal::Number),
        ),
        (
            Base::TwoPages,
            &[(514, 255), (515, 255)],
            0,
            1,
            Err(Refusal::Number),
        ),
        (
            Base::TwoPages,
            &[(450, 255), (451, 255)],
            24,
            28,
            Err(Refusal::Number),
        ),
    ];
    for (name, (base, bytes, holder, slot, expected)) in names.lines().zip(cases) {
        let image = base.with(tally.alloc, bytes)?;
        finds(tally, name, &image, holder, slot, expected)?;
    }
    Ok(())
}
