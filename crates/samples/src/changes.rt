// How the cases of sales and withdrawals look at an edit: the answer, and every byte and element of both outputs.
use crate::images::{all_are, written};
use answers::edit_key;
use edit::Change;
use format::Refusal;
use std::alloc::{AllocError, Global};

// More than any image has, and more elements than any record buffer.
const BYTES: usize = format::MOST_BYTES + 64;

const ELEMENTS: usize = 4110;

// A sale or a withdrawal of a key.
#[derive(Clone, Copy)]
pub struct Edit {
    pub change: Change,
    pub key: u32,
}

pub fn add(key: u32) -> Edit {
    Edit {
        change: Change::Add,
        key,
    }
}

pub fn withdraw(key: u32) -> Edit {
    Edit {
        change: Change::Withdraw,
        key,
    }
}

// An image, and the records and counts that are held with it.
#[derive(Clone, Copy)]
pub struct Held<'a> {
    pub image: &'a [u8],
    pub records: &'a [u32],
}

impl<'a> Held<'a> {
    // Whether an edit gives the image that the writer gives for `keys` and that lift, and `after` for records, and leaves what lies past their ends.
    pub fn gives(self, edit: Edit, keys: &[u32], lift: u32, after: &[u32]) -> bool {
        let mut image = [0xee; BYTES];
        let mut records = [77; ELEMENTS];
        let edited = self.edit(edit, &mut image, &mut records);
        let mut expected = [0xee; BYTES];
        edited.is_ok()
            && edited == writer::write_either(keys, lift, &mut expected)
            && image == expected
            && records
                .split_at_checked(after.len())
                .is_some_and(|(first, rest)| first == after && all_are(rest, 77))
    }

    fn edit(self, edit: Edit, image: &mut [u8], records: &mut [u32]) -> Result<usize, Refusal> {
        edit_key(
            edit.change,
            self.image,
            self.records,
            edit.key,
            image,
            records,
        )
    }

    // Whether an edit into so many bytes and elements is refused and leaves both as lent; or, where no refusal is expected, is done.
    pub fn ends(
        self,
        edit: Edit,
        bytes: usize,
        elements: usize,
        expected: Option<Refusal>,
    ) -> bool {
        let mut image = [0xee; BYTES];
        let mut records = [77; ELEMENTS];
        let (Some(room), Some(places)) = (image.get_mut(..bytes), records.get_mut(..elements))
        else {
            return false;
        };
        let edited = self.edit(edit, room, places);
        let is_lent = all_are(room, 0xee) && all_are(places, 77);
        edited.err() == expected && is_lent == expected.is_some()
    }

    // Whether an edit into outputs with room for anything is refused and leaves both as lent.
    pub fn refuses(self, edit: Edit, refusal: Refusal) -> bool {
        self.ends(edit, BYTES, ELEMENTS, Some(refusal))
    }
}

// The image of the keys 5, 9 and 12 for a lift, 0 for version 1.
pub fn three_for(alloc: Global, lift: u32) -> Result<Vec<u8>, AllocError> {
    written(alloc, &[5, 9, 12], lift, 576)
}

// Its records, and the counts of the lanes 1 to 8.
pub const THREE_RECORDS: [u32; 11] = [501, 901, 1201, 10, 20, 30, 40, 50, 60, 70, 80];
