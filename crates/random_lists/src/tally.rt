// Counts of what was compared.
use format::Refusal;
use std::fmt;
use std::io::{self, Stdout};

// What is counted, but for the refusals.
#[derive(Clone, Copy)]
pub enum Kind {
    Lists,
    Lookups,
    // Eight-page lookups and full lookups in a sound image, each held against the steps.
    Eight,
    Counts,
    Listings,
    Finds,
    Scans,
    // Scans refused by another of the holder's records.
    Another,
    // Lockouts that a trial went through, and the scans meanwhile.
    Lockouts,
    RefusedBetween,
    // Of the refused ones, the trial's holder's own that got 26.
    TriedAgain,
    OpenedBetween,
    // Edits that are done, edits that are refused, and a scan after each that is done.
    Sales,
    Withdrawals,
    RefusedEdits,
    CardsAfter,
    Pairs,
    Damaged,
    Same,
    OtherLift,
    OtherList,
    EightDamaged,
    EightListed,
    EightAbsent,
    // Of the refused ones, those that had an off bit before.
    EightPastOff,
    Differences,
}

impl fmt::Display for Kind {
    fn fmt<W: fmt::Write>(&self, f: &mut fmt::Formatter<W>) -> fmt::Result {
        f.write_str(match self {
            Kind::Lists => "lists",
            Kind::Lookups => "lookups",
            Kind::Eight => "lookups in full and by eight pages, as by the steps",
            Kind::Counts => "counts",
            Kind::Listings => "listings",
            Kind::Finds => "found by rank",
            Kind::Scans => "scans",
            Kind::Another => "refused by another of the holder's records",
            Kind::Lockouts => "lockouts, scanned in their last second and in the one after",
            Kind::RefusedBetween => "refused between",
            Kind::TriedAgain => "refused between with 26, of the same holder",
            Kind::OpenedBetween => "opened between, by other holders",
            Kind::Sales => "sales",
            Kind::Withdrawals => "withdrawals",
            Kind::RefusedEdits => "refused sales and withdrawals",
            Kind::CardsAfter => "cards at the gate after them",
            Kind::Pairs => "pairs of lists",
            Kind::Damaged => "damaged images",
            Kind::Same => "accepted, with the same list and lift",
            Kind::OtherLift => "accepted, with the same list for another lift",
            Kind::OtherList => "accepted, with another list",
            Kind::EightDamaged => "eight-page lookups in damaged images",
            Kind::EightListed => "listed",
            Kind::EightAbsent => "absent",
            Kind::EightPastOff => "refused past an off bit",
            Kind::Differences => "differences",
        })
    }
}

// What is printed before the damaged images' table of refusals, and then before the eight-page lookups'.
const OF_LISTS: [Kind; 21] = [
    Kind::Lists,
    Kind::Lookups,
    Kind::Eight,
    Kind::Counts,
    Kind::Listings,
    Kind::Finds,
    Kind::Scans,
    Kind::Another,
    Kind::Lockouts,
    Kind::RefusedBetween,
    Kind::TriedAgain,
    Kind::OpenedBetween,
    Kind::Sales,
    Kind::Withdrawals,
    Kind::RefusedEdits,
    Kind::CardsAfter,
    Kind::Pairs,
    Kind::Damaged,
    Kind::Same,
    Kind::OtherLift,
    Kind::OtherList,
];

const OF_EIGHT: [Kind; 4] = [
    Kind::EightDamaged,
    Kind::EightListed,
    Kind::EightAbsent,
    Kind::EightPastOff,
];

// A table of refusals by the question's number.
#[derive(Clone, Copy)]
struct Refusals {
    counts: [u32; 41],
}

impl Refusals {
    fn note(&mut self, refusal: Refusal) {
        if let Some(count) = self.counts.get_mut(usize::from(refusal.number())) {
            *count = count.saturating_add(1);
        }
    }

    fn say(&self, out: Stdout) -> io::Result<()> {
        for (n, count) in self.counts.iter().enumerate() {
            if *count != 0 {
                println!(out; "    question {n} refuses {count}")?;
            }
        }
        Ok(())
    }
}

#[derive(Clone, Copy)]
pub struct Tally {
    counts: [u32; 26],
    // The damaged images that were refused, and the eight-page lookups in damaged images.
    refused: Refusals,
    eight_refused: Refusals,
}

impl Tally {
    pub fn new() -> Tally {
        let refused = Refusals { counts: [0; 41] };
        Tally {
            counts: [0; 26],
            refused,
            eight_refused: refused,
        }
    }

    // One more of a kind.
    pub fn note(&mut self, kind: Kind) {
        if let Some(count) = self.counts.get_mut(kind as usize) {
            *count = count.saturating_add(1);
        }
    }

    // One more damaged image that is refused.
    pub fn note_refused(&mut self, refusal: Refusal) {
        self.refused.note(refusal);
    }

    // One more eight-page lookup in a damaged image that is refused.
    pub fn note_eight_refused(&mut self, refusal: Refusal) {
        self.eight_refused.note(refusal);
    }

    // One more difference unless it is right.
    pub fn must(&mut self, is_right: bool) {
        if !is_right {
            self.note(Kind::Differences);
        }
    }

    // One more comparison of a kind, and one more difference unless it is right.
    pub fn expect(&mut self, kind: Kind, is_right: bool) {
        self.note(kind);
        self.must(is_right);
    }

    // The count of a kind.
    pub fn count(&self, kind: Kind) -> u32 {
        self.counts.get(kind as usize).copied().unwrap_or(0)
    }

    fn say_counts(&self, out: Stdout, kinds: &[Kind]) -> io::Result<()> {
        for kind in kinds {
            let count = self.count(*kind);
            println!(out; "  {count} {kind}")?;
        }
        Ok(())
    }

    // The lines of a shape.
    pub fn say(&self, out: Stdout, name: &str) -> io::Result<()> {
        println!(out; "{name}:")?;
        self.say_counts(out, &OF_LISTS)?;
        self.refused.say(out)?;
        self.say_counts(out, &OF_EIGHT)?;
        self.eight_refused.say(out)?;
        self.say_counts(out, &[Kind::Differences])
    }
}
