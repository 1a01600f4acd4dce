// Refusals: which question got a no.
ghost use Rattle.std.specs.Prelude.{◌≡◌, Some, decimal};
ghost use Rattle.format.specs.Refusal.{number_of};

use std::error::Error;
use std::fmt;

// The question that got a no. include/lpt.h has the same names and numbers.
#[derive(Clone, Copy, Debug, PartialEq, Eq)]
pub enum Refusal {
    // Fewer than 64 bytes.
    Header = 1,
    // The first bytes are not 4C 50 54.
    Mark = 2,
    // The version is neither 1 nor 2.
    Version = 3,
    // More than 4,096 keys.
    KeyCount = 4,
    // A byte that must be zero is not.
    ZeroBytes = 5,
    // The length is not 64 x (1 + all page counts).
    Length = 6,
    // Page and root counts do not fit the key count.
    BandCounts = 7,
    // T or B of a band's first page is not 0, or a later page's B is wrong.
    Counters = 8,
    // A page has not 1 to 60 roots.
    Roots = 9,
    // A page calls for more than 240 nodes, or a node is 00.
    Nodes = 10,
    // A pair after a page's last node is not 00.
    Padding = 11,
    // A page was started before it had to be.
    Packing = 12,
    // A band's out-links do not fit the band below, or the key count.
    Links = 13,
    // More than 4,096 admissions.
    More = 14,
    // The keys do not strictly ascend.
    Order = 15,
    // An output buffer is too short.
    Room = 17,
    // A low end is above its high end.
    Rectangle = 18,
    // Fewer places than members.
    Place = 19,
    // The rank is not below the key count.
    Rank = 20,
    // The number of records is not key count + lanes.
    Records = 21,
    // The time is 4,294,967,295.
    Time = 22,
    // The lane's count is 4,294,967,295.
    Openings = 23,
    // The admission is not listed.
    Admission = 24,
    // The time is before the holder's last opening.
    Earlier = 25,
    // The lockout since the holder's last opening is not over.
    Lockout = 26,
    // No page of a band has a T at or below the root's number.
    Page = 27,
    // The number out of a band does not fit the band below, or the key count.
    Number = 28,
    // The lane is not 1 to 8.
    Lane = 29,
    // To add: the admission is listed already; to withdraw: it is not.
    Change = 30,
    // The lift is not 1 to 999.
    Lift = 35,
    // The image is for another lift than the gate's.
    Gate = 36,
    // No accepted image agrees in the kept bytes.
    Repair = 37,
}

impl Refusal {
    // The question's number.
    pub fn number(self) -> u8
        ensures { result ≡ number_of self }
    {
        self as u8
    }
}

impl fmt::Display for Refusal {
    ghost output = { λ refusal. Some (decimal (number_of refusal)) };

    fn fmt<W: fmt::Write>(&self, f: &mut fmt::Formatter<W>) -> fmt::Result {
        write!(f, "{}", self.number())
    }
}

impl Error for Refusal {}
