// From a node to its child in sound images: both lookups find a key. A name says by which children on the first three levels of a band: a child without a sibling is alone.
use crate::found::{both_find_key, in_page};
use crate::images::Base;
use crate::say::Tally;
use std::io;

// The keys 3, 44, 128, 133, 136, 160, 172 and 192: the children of band 7, and then of band 8.
pub fn eight(tally: &mut Tally) -> io::Result<()> {
    let names = "\
        both lookups: the eight keys, key 3: left, left alone, left; left alone, left alone, right alone\n\
        both lookups: the eight keys, key 44: left, left alone, right; right alone, right alone, left alone\n\
        both lookups: the eight keys, key 128: right, left, left; left, left, left alone\n\
        both lookups: the eight keys, key 133: right, left, left; left, right, left alone\n\
        both lookups: the eight keys, key 136: right, left, left; right, left alone, left alone\n\
        both lookups: the eight keys, key 160: right, left, right; left, left alone, left alone\n\
        both lookups: the eight keys, key 172: right, left, right; right, right alone, left alone\n\
        both lookups: the eight keys, key 192: right, right, left alone; left alone, left alone, left alone\n";
    let cases = [
        (3, in_page(0, 8)),
        (44, in_page(1, 8)),
        (128, in_page(2, 8)),
        (133, in_page(3, 8)),
        (136, in_page(4, 8)),
        (160, in_page(5, 8)),
        (172, in_page(6, 8)),
        (192, in_page(7, 8)),
    ];
    let image = Base::EightKeys.image(tally.alloc)?;
    for (name, (key, expected)) in names.lines().zip(cases) {
        both_find_key(tally, name, &image, key, expected)?;
    }
    Ok(())
}

// Keys 0 to 4095, where every node of bands 6 to 8 has both bits: each left child has a sibling. Band 8 has the pages 8 to 23, of 256 keys each.
pub fn siblings(tally: &mut Tally) -> io::Result<()> {
    let names = "\
        both lookups: keys 0 to 4095, key 0: left, left, left in each of bands 6 to 8\n\
        both lookups: keys 0 to 4095, key 1365: left, right, left in each\n\
        both lookups: keys 0 to 4095, key 1911: left, right, right in each\n\
        both lookups: keys 0 to 4095, key 2184: right, left, left in each\n\
        both lookups: keys 0 to 4095, key 2730: right, left, right in each\n\
        both lookups: keys 0 to 4095, key 4095: right, right, right in each\n";
    let cases = [
        (0, in_page(0, 8)),
        (1365, in_page(1365, 13)),
        (1911, in_page(1911, 15)),
        (2184, in_page(2184, 16)),
        (2730, in_page(2730, 18)),
        (4095, in_page(4095, 23)),
    ];
    let image = Base::Dense.image(tally.alloc)?;
    for (name, (key, expected)) in names.lines().zip(cases) {
        both_find_key(tally, name, &image, key, expected)?;
    }
    Ok(())
}
