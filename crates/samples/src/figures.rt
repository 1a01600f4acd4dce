// The eight-page lookup past an off bit, in images that the full lookup refuses: the figure leads to a page that is refused, above what the next band has, or to a wrong
// number of smaller keys.
use crate::found::{Answer, absent, finds_key_beside};
use crate::images::Base;
use crate::say::Tally;
use format::Refusal;
use std::io;

// 27 and 9 to 11 in the band below. Key 79 has its off bit in band 7, right of two on bits: root 2 of band 8. The page of band 8 has 28 nodes, to byte 522.
pub fn next_band(tally: &mut Tally) -> io::Result<()> {
    let names = "\
        27 past an off bit of band 7: T 3 in band 8's page, root 2\n\
        9 past an off bit of band 7: 61 roots by band 8's root count\n\
        10 past an off bit of band 7: 60 roots by band 8's root count\n\
        10 past an off bit of band 7: the first node of band 8's page 00\n\
        11 past an off bit of band 7: a pair after the last node of band 8's page\n\
        11 past an off bit of band 7: T 2 in band 8's page, which has 3 roots\n";
    let cases: [(&[(usize, u8)], Answer, Refusal); 6] = [
        (&[(513, 3)], Err(Refusal::Page), Refusal::Counters),
        (&[(39, 61)], Err(Refusal::Roots), Refusal::Links),
        (&[(39, 60)], Err(Refusal::Nodes), Refusal::Links),
        (&[(516, 0x1f)], Err(Refusal::Nodes), Refusal::Nodes),
        (&[(523, 0x40)], Err(Refusal::Padding), Refusal::Padding),
        (&[(513, 2)], Err(Refusal::Padding), Refusal::Counters),
    ];
    for (name, (bytes, expected, refusal)) in names.lines().zip(cases) {
        let image = Base::EightKeys.with(tally.alloc, bytes)?;
        finds_key_beside(tally, name, &image, 79, expected, refusal)?;
    }
    Ok(())
}

// The same in bands further below, where every band has one root: 0x7fffffff has its off bit at the first level of band 1, and figure 0 in every band.
pub fn further_bands(tally: &mut Tally) -> io::Result<()> {
    let names = "\
        27 past an off bit of band 1: T 1 in band 2's page\n\
        27 past an off bit of band 1: T 1 in band 5's page\n\
        27 past an off bit of band 1: T 1 in band 8's page\n\
        9 past an off bit of band 1: 61 roots by band 5's root count\n\
        10 past an off bit of band 1: the first node of band 5's page 00\n\
        11 past an off bit of band 1: a pair after the last node of band 5's page\n\
        28 past an off bit of band 1: figure 2 out of band 5 by B, above the root count of band 6\n\
        28 past an off bit of band 1: figure 2 out of band 8 by B, above the key count\n\
        absent, 1 smaller and not 0: figure 1 out of band 5 by B, the root count of band 6\n\
        absent, 1 smaller and not 0: figure 1 out of band 8 by B, the key count\n";
    let cases: [(&[(usize, u8)], Answer, Refusal); 10] = [
        (&[(129, 1)], Err(Refusal::Page), Refusal::Counters),
        (&[(321, 1)], Err(Refusal::Page), Refusal::Counters),
        (&[(513, 1)], Err(Refusal::Page), Refusal::Counters),
        (&[(27, 61)], Err(Refusal::Roots), Refusal::Links),
        (&[(324, 0x15)], Err(Refusal::Nodes), Refusal::Nodes),
        (&[(325, 0x40)], Err(Refusal::Padding), Refusal::Padding),
        (&[(323, 2)], Err(Refusal::Number), Refusal::Counters),
        (&[(515, 2)], Err(Refusal::Number), Refusal::Counters),
        (&[(323, 1)], absent(1), Refusal::Counters),
        (&[(515, 1)], absent(1), Refusal::Counters),
    ];
    for (name, (bytes, expected, refusal)) in names.lines().zip(cases) {
        let image = Base::LastKey.with(tally.alloc, bytes)?;
        finds_key_beside(tally, name, &image, 0x7fffffff, expected, refusal)?;
    }
    Ok(())
}

// Band 4 has the pages 8 to 12. Pages that the keys beside the off bit do not share. Right of 0x3b000000, the last key of page 8, the figure is 60: the first root of page 9, 0x3c999999's; right of
// 0xef000000 it is 240, the first of page 12. From band 4 on page 9 is not read.
pub fn other_pages(tally: &mut Tally) -> io::Result<()> {
    let names = "\
        9 past an off bit of band 3: root 60 in page 8, which has 61 roots by T of page 9\n\
        10 past an off bit of band 3: the first node of page 9 00\n\
        11 past an off bit of band 3: a pair after the last node of page 12\n\
        10 in the full lookup alone: the first node of page 9 00, an off bit of page 8: 60 smaller\n\
        11 in the full lookup alone: a pair after the last node of page 12, an off bit of page 11: 240 smaller\n";
    let cases: [(&[(usize, u8)], u32, Answer, Refusal); 5] = [
        (
            &[(577, 61)],
            0x3b8fffff,
            Err(Refusal::Roots),
            Refusal::Roots,
        ),
        (
            &[(580, 0x2a)],
            0x3b8fffff,
            Err(Refusal::Nodes),
            Refusal::Nodes,
        ),
        (
            &[(788, 0x40)],
            0xef8fffff,
            Err(Refusal::Padding),
            Refusal::Padding,
        ),
        (&[(580, 0x2a)], 0x3b08ffff, absent(60), Refusal::Nodes),
        (&[(788, 0x40)], 0xef08ffff, absent(240), Refusal::Padding),
    ];
    for (name, (bytes, key, expected, refusal)) in names.lines().zip(cases) {
        let image = Base::FivePages.with(tally.alloc, bytes)?;
        finds_key_beside(tally, name, &image, key, expected, refusal)?;
    }
    Ok(())
}

// 28 above the next band's root count or the key count; at it all keys are smaller, by the header's key count. Key 256 has its off bit in band 6, right of one on bit.
pub fn limits(tally: &mut Tally) -> io::Result<()> {
    let names = "\
        28 past an off bit of band 7: figure 6 by B, above the root count of band 8\n\
        absent, 8 smaller and not 2: figure 5 by B, the root count of band 8\n\
        28 past an off bit of band 7: figure 2, above root count 1 of band 8\n\
        absent, 8 smaller and not 2: figure 2, root count 2 of band 8\n\
        28 past an off bit of band 7: figure 9 out of band 8 by B, above the key count\n\
        absent, 8 smaller and not 2: figure 8 out of band 8 by B, the key count\n\
        28 past an off bit of band 7: figure 2 out of band 8, above key count 1\n\
        absent, 2 smaller: figure 2 out of band 8, key count 2\n\
        absent, 9 smaller of 8 keys: figure 1, the root count of band 7, and key count 9\n";
    let cases: [(&[(usize, u8)], u32, Answer, Refusal); 9] = [
        (&[(451, 4)], 79, Err(Refusal::Number), Refusal::Counters),
        (&[(451, 3)], 79, absent(8), Refusal::Counters),
        (&[(39, 1)], 79, Err(Refusal::Number), Refusal::Links),
        (&[(39, 2)], 79, absent(8), Refusal::Links),
        (&[(515, 7)], 79, Err(Refusal::Number), Refusal::Counters),
        (&[(515, 6)], 79, absent(8), Refusal::Counters),
        (&[(7, 1)], 79, Err(Refusal::Number), Refusal::Links),
        (&[(7, 2)], 79, absent(2), Refusal::Links),
        (&[(7, 9)], 256, absent(9), Refusal::Links),
    ];
    for (name, (bytes, key, expected, refusal)) in names.lines().zip(cases) {
        let image = Base::EightKeys.with(tally.alloc, bytes)?;
        finds_key_beside(tally, name, &image, key, expected, refusal)?;
    }
    Ok(())
}

// With T 0 and 60 in the pages 10 and 11, in place of 120 and 180, the last page for root 1 of band 4 is 10, whose B is 120. Wrong counters that no question sees, since 8 is not asked.
pub fn wrong_counters(tally: &mut Tally) -> io::Result<()> {
    let names = "\
        absent, 3 smaller and not 2: B 1 in band 8's page\n\
        absent, 5 smaller and not 2: B 1 in band 7's page, which leads to root 3 of band 8\n\
        absent, 60 smaller and not 61: B of page 9 one less, key 961 of page 9\n\
        absent, 61 smaller and not 60: B of page 9 one more, past an off bit of band 3\n\
        absent, 59 smaller and not 60: B of page 9 one less, past an off bit of band 3\n\
        absent, 121 smaller and not 1: T 0 again in page 10, past an off bit of band 3\n";
    let cases: [(Base, &[(usize, u8)], u32, Answer, Refusal); 6] = [
        (
            Base::EightKeys,
            &[(515, 1)],
            79,
            absent(3),
            Refusal::Counters,
        ),
        (
            Base::EightKeys,
            &[(451, 1)],
            79,
            absent(5),
            Refusal::Counters,
        ),
        (
            Base::TwoPages,
            &[(579, 59)],
            961,
            absent(60),
            Refusal::Counters,
        ),
        (
            Base::FivePages,
            &[(579, 61)],
            0x3b8fffff,
            absent(61),
            Refusal::Counters,
        ),
        (
            Base::FivePages,
            &[(579, 59)],
            0x3b8fffff,
            absent(59),
            Refusal::Counters,
        ),
        (
            Base::FivePages,
            &[(641, 0), (705, 60)],
            0x008fffff,
            absent(121),
            Refusal::Roots,
        ),
    ];
    for (name, (base, bytes, key, expected, refusal)) in names.lines().zip(cases) {
        let image = base.with(tally.alloc, bytes)?;
        finds_key_beside(tally, name, &image, key, expected, refusal)?;
    }
    Ok(())
}
