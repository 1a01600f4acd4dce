// Absent keys of sound images: both lookups say how many of the list's keys are smaller.
use crate::found::{absent, both_find_key};
use crate::images::Base;
use crate::say::Tally;
use std::io;

// Before the first key, and after the last.
pub fn ends(tally: &mut Tally) -> io::Result<()> {
    let names = "\
        both lookups: key 0 before the last key of all, off at the first level of band 1: 0 smaller\n\
        both lookups: key 2,147,483,647 before the last of all, off at the first level of band 1: 0 smaller\n\
        both lookups: the key before the last of all, off at the fourth level of band 8: 0 smaller\n\
        both lookups: 256 keys, off right of the last at the first level of band 3: 256 smaller\n\
        both lookups: 256 keys, off right of the last at the fourth level of band 8: 256 smaller\n\
        both lookups: keys 0 to 4095, the last key of all: 4,096 smaller\n";
    let cases = [
        (Base::LastKey, 0, 0),
        (Base::LastKey, 2147483647, 0),
        (Base::LastKey, 4294967294, 0),
        (Base::FivePages, 0xff800000, 256),
        (Base::FivePages, 0xff000001, 256),
        (Base::Dense, 4294967295, 4096),
    ];
    for (name, (base, key, smaller)) in names.lines().zip(cases) {
        let image = base.image(tally.alloc)?;
        both_find_key(tally, name, &image, key, absent(smaller))?;
    }
    Ok(())
}

// Between neighbours of one subtrie, and between subtries: the keys are 3, 44, 128, 133, 136, 160, 172 and 192.
pub fn neighbours(tally: &mut Tally) -> io::Result<()> {
    let names = "\
        both lookups: the eight keys, key 2 before the first, 3: 0 smaller\n\
        both lookups: the eight keys, key 4 after 3, in its subtrie: 1 smaller\n\
        both lookups: the eight keys, key 43 before 44, in its subtrie: 1 smaller\n\
        both lookups: the eight keys, key 79 between the subtries of 44 and 128: 2 smaller\n\
        both lookups: the eight keys, key 129 between 128 and 133, in one subtrie: 3 smaller\n\
        both lookups: the eight keys, key 132 between 128 and 133, in one subtrie: 3 smaller\n\
        both lookups: the eight keys, key 134 between 133 and 136, in one subtrie: 4 smaller\n\
        both lookups: the eight keys, key 150 between the subtries of 136 and 160: 5 smaller\n\
        both lookups: the eight keys, key 171 between 160 and 172, in one subtrie: 6 smaller\n\
        both lookups: the eight keys, key 191 between the subtries of 172 and 192: 7 smaller\n\
        both lookups: the eight keys, key 193 after the last, 192: 8 smaller\n";
    let cases = [
        (2, 0),
        (4, 1),
        (43, 1),
        (79, 2),
        (129, 3),
        (132, 3),
        (134, 4),
        (150, 5),
        (171, 6),
        (191, 7),
        (193, 8),
    ];
    let image = Base::EightKeys.image(tally.alloc)?;
    for (name, (key, smaller)) in names.lines().zip(cases) {
        both_find_key(tally, name, &image, key, absent(smaller))?;
    }
    Ok(())
}

// Left of 0x99999999, with key 0 before it: every 9 is the bits 1001, so that 0 leaves its path at a band's first level. In band 1 the first level has both bits on. The
// bits after the off bit are 1, and must not count.
pub fn first_levels(tally: &mut Tally) -> io::Result<()> {
    let names = "\
        both lookups: three keys, off at the first level of band 2: 1 smaller\n\
        both lookups: three keys, off at the first level of band 3: 1 smaller\n\
        both lookups: three keys, off at the first level of band 4: 1 smaller\n\
        both lookups: three keys, off at the first level of band 5: 1 smaller\n\
        both lookups: three keys, off at the first level of band 6: 1 smaller\n\
        both lookups: three keys, off at the first level of band 7: 1 smaller\n\
        both lookups: three keys, off at the first level of band 8: 1 smaller\n";
    let cases = [
        0x90ffffff, 0x990fffff, 0x9990ffff, 0x99990fff, 0x999990ff, 0x9999990f, 0x99999997,
    ];
    let image = Base::ThreeKeys.image(tally.alloc)?;
    for (name, key) in names.lines().zip(cases) {
        both_find_key(tally, name, &image, key, absent(1))?;
    }
    Ok(())
}

// The same at a band's fourth level, where 8 leaves the path of 9; and right of it, where 10 leaves it at the third.
pub fn fourth_levels(tally: &mut Tally) -> io::Result<()> {
    let names = "\
        both lookups: three keys, off at the fourth level of band 1: 1 smaller\n\
        both lookups: three keys, off at the fourth level of band 2: 1 smaller\n\
        both lookups: three keys, off at the fourth level of band 3: 1 smaller\n\
        both lookups: three keys, off at the fourth level of band 4: 1 smaller\n\
        both lookups: three keys, off at the fourth level of band 5: 1 smaller\n\
        both lookups: three keys, off at the fourth level of band 6: 1 smaller\n\
        both lookups: three keys, off at the fourth level of band 7: 1 smaller\n\
        both lookups: three keys, off at the fourth level of band 8: 1 smaller\n\
        both lookups: three keys, off at the third level of band 1: 2 smaller\n\
        both lookups: three keys, off at the third level of band 5: 2 smaller\n\
        both lookups: three keys, off at the third level of band 8: 2 smaller\n";
    let cases = [
        (0x8fffffff, 1),
        (0x98ffffff, 1),
        (0x998fffff, 1),
        (0x9998ffff, 1),
        (0x99998fff, 1),
        (0x999998ff, 1),
        (0x9999998f, 1),
        (0x99999998, 1),
        (0xa0000000, 2),
        (0x9999a000, 2),
        (0x9999999a, 2),
    ];
    let image = Base::ThreeKeys.image(tally.alloc)?;
    for (name, (key, smaller)) in names.lines().zip(cases) {
        both_find_key(tally, name, &image, key, absent(smaller))?;
    }
    Ok(())
}

// Right of 0x3b000000, rank 59, the last key of a page in each of the bands 3 to 8: root 60 of the band below is the first of the next page.
pub fn after_pages(tally: &mut Tally) -> io::Result<()> {
    let names = "\
        both lookups: after a page's last key, off at the first level of band 3: 60 smaller\n\
        both lookups: after a page's last key, off at the first level of band 4: 60 smaller\n\
        both lookups: after a page's last key, off at the first level of band 7: 60 smaller\n\
        both lookups: after a page's last key, off at the first level of band 8: 60 smaller\n\
        both lookups: after a page's last key, off at the fourth level of band 3: 60 smaller\n\
        both lookups: after a page's last key, off at the fourth level of band 4: 60 smaller\n\
        both lookups: after a page's last key, off at the fourth level of band 7: 60 smaller\n\
        both lookups: after a page's last key, off at the fourth level of band 8: 60 smaller\n";
    let cases = [
        0x3b8fffff, 0x3b08ffff, 0x3b00008f, 0x3b000008, 0x3b1fffff, 0x3b01ffff, 0x3b00001f,
        0x3b000001,
    ];
    let image = Base::FivePages.image(tally.alloc)?;
    for (name, key) in names.lines().zip(cases) {
        both_find_key(tally, name, &image, key, absent(60))?;
    }
    Ok(())
}

// Left of 0x3c999999, rank 60, the first key of the next pages; and right of it.
pub fn before_pages(tally: &mut Tally) -> io::Result<()> {
    let names = "\
        both lookups: before a page's first key, off at the first level of band 3: 60 smaller\n\
        both lookups: before a page's first key, off at the first level of band 4: 60 smaller\n\
        both lookups: before a page's first key, off at the first level of band 7: 60 smaller\n\
        both lookups: before a page's first key, off at the first level of band 8: 60 smaller\n\
        both lookups: before a page's first key, off at the fourth level of band 3: 60 smaller\n\
        both lookups: before a page's first key, off at the fourth level of band 4: 60 smaller\n\
        both lookups: before a page's first key, off at the fourth level of band 7: 60 smaller\n\
        both lookups: before a page's first key, off at the fourth level of band 8: 60 smaller\n\
        both lookups: after a page's first key, off at the third level of band 8: 61 smaller\n\
        both lookups: after a page's first key, off at the third level of band 3: 61 smaller\n";
    let cases = [
        (0x3c0fffff, 60),
        (0x3c90ffff, 60),
        (0x3c99990f, 60),
        (0x3c999997, 60),
        (0x3c8fffff, 60),
        (0x3c98ffff, 60),
        (0x3c99998f, 60),
        (0x3c999998, 60),
        (0x3c99999a, 61),
        (0x3cafffff, 61),
    ];
    let image = Base::FivePages.image(tally.alloc)?;
    for (name, (key, smaller)) in names.lines().zip(cases) {
        both_find_key(tally, name, &image, key, absent(smaller))?;
    }
    Ok(())
}

// Further borders of pages. Of keys 2^20 apart the ranks 959 and 1,019 are the last of two neighbouring pages, in each of the bands 4 to 8.
pub fn longer_lists(tally: &mut Tally) -> io::Result<()> {
    let names = "\
        both lookups: 61 subtries, key 945 after the last key of page 8: 60 smaller\n\
        both lookups: 61 subtries, key 959 after the last key of page 8: 60 smaller\n\
        both lookups: keys 0, 2^20 to 4,095 x 2^20, after rank 959 in band 4: 960 smaller\n\
        both lookups: keys 0, 2^20 to 4,095 x 2^20, after rank 1,019 in band 8: 1,020 smaller\n\
        both lookups: keys 0, 2^20 to 4,095 x 2^20, after rank 1,020 in band 8: 1,021 smaller\n\
        both lookups: keys 0, 2^20 to 4,095 x 2^20, after the last in band 4: 4,096 smaller\n";
    let cases = [
        (Base::TwoPages, 945, 60),
        (Base::TwoPages, 959, 60),
        (Base::FarApart, 0x3bf8ffff, 960),
        (Base::FarApart, 0x3fb00001, 1020),
        (Base::FarApart, 0x3fc00001, 1021),
        (Base::FarApart, 0xfff80000, 4096),
    ];
    for (name, (base, key, smaller)) in names.lines().zip(cases) {
        let image = base.image(tally.alloc)?;
        both_find_key(tally, name, &image, key, absent(smaller))?;
    }
    Ok(())
}
