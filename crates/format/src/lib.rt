// The types that the jobs share, the crossing between bands and back, the most bytes of an image and the lanes of a gate, and which numbers are lift numbers. The definitions of the format are in specs/, the laws about them in proofs/.
#![tactic(auto)]

mod refusal;

ghost use Rattle.std.specs.Prelude.{◌≡◌};
ghost use Rattle.format.specs.Band.{crossed};
ghost use Rattle.format.specs.Exact.{whole_square};
ghost use Rattle.format.specs.Question.{is_lift, one_to};

pub use refusal::Refusal;

// The most bytes that an image can have (specs/Bounds): a buffer of so many has room for any.
pub const MOST_BYTES: usize = 24640;

// The lanes of a gate, numbered from 1: its records end in so many counts.
pub const LANES: usize = 8;

// A holder number and a slot number, laid out as C lays it out.
#[repr(C)]
#[derive(Clone, Copy, Debug, PartialEq, Eq)]
pub struct Admission {
    pub holder: u16,
    pub slot: u16,
}

// The numbers from `low` to `high`, ends included.
#[derive(Clone, Copy, Debug, PartialEq, Eq)]
pub struct Range {
    pub low: u16,
    pub high: u16,
}

// The admissions whose holder and slot lie in these ranges.
#[derive(Clone, Copy, Debug, PartialEq, Eq)]
pub struct Rectangle {
    pub holders: Range,
    pub slots: Range,
}

impl Rectangle {
    // Every holder and every slot.
    pub fn whole_square() -> Self
        ensures { result ≡ whole_square }
    {
        let all = Range {
            low: 0,
            high: 65535,
        };
        Rectangle {
            holders: all,
            slots: all,
        }
    }
}

// The number of a root of a band, counted from 0.
#[derive(Clone, Copy, Debug, PartialEq, Eq)]
pub struct Root(pub usize);

// The number of an out-link of a band, counted from 0: of an on bit of the band's fourth level.
#[derive(Clone, Copy, Debug, PartialEq, Eq)]
pub struct OutLink(pub usize);

// The one place where an out-link becomes a root: out-link n of a band leads to root n of the band below.
pub fn cross(link: OutLink) -> Root
    ensures { result ≡ crossed link }
{
    Root(link.0)
}

// The way back: the out-link that leads to a root.
pub fn link_to(root: Root) -> OutLink
    ensures { crossed result ≡ root }
{
    OutLink(root.0)
}

// Whether `n` is one of 1 to `most`.
pub fn one_to(most: usize, n: usize) -> bool
    ensures { result ≡ one_to most n }
{
    1 <= n && n <= most
}

// Whether it is a lift number, 1 to 999: 35 asks it of an image, and of what the writer is to write.
pub fn is_lift(n: usize) -> bool
    ensures { result ≡ is_lift n }
{
    one_to(999, n)
}
