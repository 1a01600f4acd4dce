// The repair program: reads an image from standard input and writes it, repaired, to standard output; to standard error, how many numbers it altered, or
// the number of the refusal. The array has one place more than the 65,536 bytes that are taken, so that longer input shows: 37 refuses it, for no image is
// so long.
#![tactic(auto)]

use std::io;

fn main(rt: HostRuntime) -> io::Result<()> {
    let mut input = [0u8; 65537];
    let n = input::read_full(&mut rt.stdin(), &mut input)?;
    let mut out = [0u8; 65537];
    match repair::repair(&input[..n], &mut out) {
        Ok(altered) => {
            rt.write_all(&out[..n])?;
            eprintln!(rt; "altered {altered}")
        }
        Err(refusal) => eprintln!(rt; "refused {refusal}"),
    }
}
