// Lists and images that the cases start from, and ways to look at buffers.
use std::alloc::{AllocError, Global};

// The lists whose images in version 1 most cases start from.
#[derive(Clone, Copy)]
pub enum Base {
    NoKey,
    // Key 0.
    OneKey,
    // The keys 0 and 1, plate 9.
    TwoKeys,
    // The last key of all: one root a band, every node 01.
    LastKey,
    // 0, 0x99999999 and the last of all: three roots in each of the bands 2 to 8, of one out-link each.
    ThreeKeys,
    // The eight keys of document 004, plate 12: one root in each of the bands 1 to 7, and five in band 8, of 1, 1, 3, 2 and 1 keys.
    EightKeys,
    // 61 keys with 16 between them: two pages of subtries of 4 nodes in band 8, 60 and 1, every node 10.
    TwoPages,
    // 256 keys with 2 ^ 24 between them, but for rank 60, which has room for other keys left of it: band 3 begins with page 3, and each of the bands
    // 3 to 8 has five pages, of 60, 60, 60, 60 and 16 subtries of 4 nodes. Rank 60 is the first key of the second pages.
    FivePages,
    // The keys 0 to 4095: band 8 has the pages 8 to 23, of 16 roots and 256 keys each.
    Dense,
    // 4,096 keys as far apart as they can be: 64 slots of each of 64 holders, the slots and the holders 1,024 apart.
    FarApart,
}

impl Base {
    pub fn keys(self, alloc: Global) -> Result<Vec<u32>, AllocError> {
        match self {
            Base::NoKey => vec![in alloc],
            Base::OneKey => Ok(vec![in alloc; 0]?),
            Base::TwoKeys => Ok(vec![in alloc; 0, 1]?),
            Base::LastKey => Ok(vec![in alloc; 4294967295]?),
            Base::ThreeKeys => Ok(vec![in alloc; 0, 0x99999999, 4294967295]?),
            Base::EightKeys => Ok(vec![in alloc; 3, 44, 128, 133, 136, 160, 172, 192]?),
            Base::TwoPages => steps(alloc, 16, 61),
            Base::FivePages => five_pages(alloc),
            Base::Dense => steps(alloc, 1, 4096),
            Base::FarApart => steps(alloc, 1048576, 4096),
        }
    }

    // How many bytes its image has.
    fn size(self) -> usize {
        match self {
            Base::NoKey => 64,
            Base::OneKey | Base::TwoKeys | Base::LastKey | Base::ThreeKeys | Base::EightKeys => 576,
            Base::TwoPages => 640,
            Base::FivePages => 2112,
            Base::Dense => 1536,
            Base::FarApart => 23296,
        }
    }

    // The image for a lift, 0 for version 1.
    pub fn image_for(self, alloc: Global, lift: u32) -> Result<Vec<u8>, AllocError> {
        written(alloc, &self.keys(alloc)?, lift, self.size())
    }

    pub fn image(self, alloc: Global) -> Result<Vec<u8>, AllocError> {
        self.image_for(alloc, 0)
    }

    // The image with other bytes at some places.
    pub fn with(self, alloc: Global, bytes: &[(usize, u8)]) -> Result<Vec<u8>, AllocError> {
        let mut image = self.image(alloc)?;
        change(&mut image, bytes);
        Ok(image)
    }
}

fn five_pages(alloc: Global) -> Result<Vec<u32>, AllocError> {
    let mut keys = steps(alloc, 16777216, 256)?;
    if let Some(key) = keys.get_mut(60) {
        *key = 0x3c999999;
    }
    Ok(keys)
}

// Puts other bytes at some places.
pub fn change(image: &mut [u8], bytes: &[(usize, u8)]) {
    for (at, byte) in bytes {
        if let Some(place) = image.get_mut(*at) {
            *place = *byte;
        }
    }
}

// The first `n` bytes, or all where there are fewer.
pub fn first(image: &[u8], n: usize) -> &[u8] {
    image.get(..n).unwrap_or(image)
}

// A buffer of `size` zeros in which the image of the keys for a lift, 0 for version 1, was written: so an image of another length shows.
pub fn written(alloc: Global, keys: &[u32], lift: u32, size: usize) -> Result<Vec<u8>, AllocError> {
    let mut image = vec![in alloc; 0; size]?;
    let _written = writer::write_either(keys, lift, &mut image);
    Ok(image)
}

// The first `n` of the keys 0, `step`, twice `step` and so on, as numbers below 2 ^ 32.
pub fn steps(alloc: Global, step: u32, n: u32) -> Result<Vec<u32>, AllocError> {
    (0..n).map(|i| i.wrapping_mul(step)).collect(alloc)
}

// The image of 60 keys 16 apart with the last subtrie in a page of its own, where one page has room for all 240 nodes.
pub fn early_page(alloc: Global) -> Result<Vec<u8>, AllocError> {
    let mut image = written(alloc, &steps(alloc, 16, 60)?, 0, 640)?;
    change(
        &mut image,
        &[(37, 2), (575, 0), (577, 59), (579, 59), (580, 0xaa)],
    );
    Ok(image)
}

// 61 keys in 60 subtries of which the last has 5 nodes, so that a page with the others, 236 nodes, has no room for it.
pub fn five_nodes(alloc: Global) -> Result<Vec<u32>, AllocError> {
    let mut keys = steps(alloc, 16, 60)?;
    keys.push(946)?;
    Ok(keys)
}

// The number that stands at a place.
pub fn number(bytes: &[u8], at: usize) -> Option<u16> {
    let high = *bytes.get(at)?;
    let low = *bytes.get(at.checked_add(1)?)?;
    Some(u16::from_be_bytes([high, low]))
}

// Whether every item is this one.
pub fn all_are<T: Copy + PartialEq>(items: &[T], item: T) -> bool {
    items.iter().all(|x| *x == item)
}

// Whether every byte from `from` to before `end` is `byte`.
pub fn part_is(bytes: &[u8], from: usize, end: usize, byte: u8) -> bool {
    bytes.get(from..end).is_some_and(|part| all_are(part, byte))
}
