// The numbers of the refusals, held against the papers'.
use format::Refusal;

// The paper's numbers of the refusals, so that the library's are held against another table.
const NUMBERS: [(Refusal, u8); 32] = [
    (Refusal::Header, 1),
    (Refusal::Mark, 2),
    (Refusal::Version, 3),
    (Refusal::KeyCount, 4),
    (Refusal::ZeroBytes, 5),
    (Refusal::Length, 6),
    (Refusal::BandCounts, 7),
    (Refusal::Counters, 8),
    (Refusal::Roots, 9),
    (Refusal::Nodes, 10),
    (Refusal::Padding, 11),
    (Refusal::Packing, 12),
    (Refusal::Links, 13),
    (Refusal::More, 14),
    (Refusal::Order, 15),
    (Refusal::Room, 17),
    (Refusal::Rectangle, 18),
    (Refusal::Place, 19),
    (Refusal::Rank, 20),
    (Refusal::Records, 21),
    (Refusal::Time, 22),
    (Refusal::Openings, 23),
    (Refusal::Admission, 24),
    (Refusal::Earlier, 25),
    (Refusal::Lockout, 26),
    (Refusal::Page, 27),
    (Refusal::Number, 28),
    (Refusal::Lane, 29),
    (Refusal::Change, 30),
    (Refusal::Lift, 35),
    (Refusal::Gate, 36),
    (Refusal::Repair, 37),
];

// Whether the library's numbers of the refusals are the paper's.
pub fn are_right() -> bool {
    NUMBERS.iter().all(|(refusal, n)| refusal.number() == *n)
}
