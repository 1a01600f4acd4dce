// Reads an image from standard input, turns over each of its bits in turn, and prints how many of these images each question refuses, which have
// another lift and are accepted with the same list, and which are accepted otherwise, with the list that such an image then has. No image is: a bit
// of the lift is the only one that can go unnoticed. Input that is refused prints what the listing program prints of it.
#![tactic(auto)]

use format::Refusal;
use std::io::{self, Stdout};

// What is known of the image that is surveyed: what the listing program prints of it, and its lift.
#[derive(Clone, Copy)]
struct Sound<'a> {
    text: &'a [u8],
    lift: Result<usize, Refusal>,
}

// What becomes of an image with a bit turned over.
#[derive(Clone, Copy)]
enum Verdict {
    Refused(Refusal),
    // Accepted with the same list and another lift.
    OtherLift,
    // Accepted otherwise.
    Unnoticed,
}

// How many images with a bit turned over became what: the refused ones by the question's number.
#[derive(Drop)]
struct Survey {
    refused: [u32; 41],
    other_lift: u32,
    unnoticed: u32,
}

impl Survey {
    fn new() -> Survey {
        Survey {
            refused: [0; 41],
            other_lift: 0,
            unnoticed: 0,
        }
    }

    fn count(&mut self, verdict: Verdict) {
        match verdict {
            Verdict::Refused(refusal) => {
                if let Some(count) = self.refused.get_mut(usize::from(refusal.number())) {
                    *count = count.saturating_add(1);
                }
            }
            Verdict::OtherLift => self.other_lift = self.other_lift.saturating_add(1),
            Verdict::Unnoticed => self.unnoticed = self.unnoticed.saturating_add(1),
        }
    }

    // The lines of the questions that refused an image, and the last two lines.
    fn say(&self, out: Stdout, bytes: usize) -> io::Result<()> {
        for (n, count) in self.refused.iter().enumerate() {
            if *count != 0 {
                println!(out; "question {n} refuses {count}")?;
            }
        }
        let other_lift = self.other_lift;
        let unnoticed = self.unnoticed;
        let flips = bytes.saturating_mul(8);
        println!(out; "{other_lift} give the same list for another lift")?;
        println!(out; "{flips} flips, {unnoticed} accepted otherwise")
    }
}

// Says that the image is accepted with a bit of byte `at` turned over, and prints its list.
fn say_accepted(out: Stdout, image: &[u8], at: usize, bit: u32) -> io::Result<()> {
    println!(out; "accepted with bit {bit} of byte {at} turned over (bit 0 is the lowest):")?;
    let mut text = [0u8; 73745];
    let size = report::report(image, &mut text);
    out.write_all(&text[..size])
}

// Whether the listing program prints this text of an image.
fn is_printed(image: &[u8], text: &[u8]) -> bool {
    let mut out = [0u8; 73745];
    let size = report::report(image, &mut out);
    &out[..size] == text
}

// The verdict on an image with a bit turned over.
fn judge(image: &[u8], sound: Sound) -> Verdict {
    if let Err(refusal) = checker::check(image) {
        return Verdict::Refused(refusal);
    }
    if checker::lift(image) != sound.lift && is_printed(image, sound.text) {
        Verdict::OtherLift
    } else {
        Verdict::Unnoticed
    }
}

// The image with one bit of byte `at` turned over, judged; the bit is turned back. An image that is accepted otherwise than for another lift is said.
fn survey_bit(
    out: Stdout,
    image: &mut [u8],
    sound: Sound,
    at: usize,
    bit: u32,
) -> io::Result<Verdict> {
    turn_over(image, at, bit);
    let verdict = judge(image, sound);
    if matches!(verdict, Verdict::Unnoticed) {
        say_accepted(out, image, at, bit)?;
    }
    turn_over(image, at, bit);
    Ok(verdict)
}

// Turns a bit of byte `at` over: bit 0 is the lowest.
fn turn_over(image: &mut [u8], at: usize, bit: u32) {
    if let Some(byte) = image.get_mut(at) {
        *byte ^= 1u8.rotate_left(bit);
    }
}

// Each bit of each byte, the highest of a byte first.
fn survey_image(out: Stdout, image: &mut [u8], text: &[u8]) -> io::Result<Survey> {
    let sound = Sound {
        text,
        lift: checker::lift(image),
    };
    let mut survey = Survey::new();
    for at in 0..image.len() {
        for bit in (0..8).rev() {
            survey.count(survey_bit(out, image, sound, at, bit)?);
        }
    }
    Ok(survey)
}

fn main(rt: HostRuntime) -> io::Result<()> {
    let out = rt.stdout();
    let mut input = [0u8; 65537];
    let n = input::read_full(&mut rt.stdin(), &mut input)?;
    let mut listing = [0u8; 73745];
    let size = report::report_input(&input, n, &mut listing);
    let text = &listing[..size];
    if text.starts_with(b"refused ") {
        return out.write_all(text);
    }
    survey_image(out, &mut input[..n], text)?.say(out, n)
}
