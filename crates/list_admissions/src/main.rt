// The listing program: reads an image from standard input and prints its admissions, or the number of the refusal.
#![tactic(auto)]

use std::io;

fn main(rt: HostRuntime) -> io::Result<()> {
    let mut input = [0u8; 65537];
    let n = input::read_full(&mut rt.stdin(), &mut input)?;
    let mut out = [0u8; 73745];
    let size = report::report_input(&input, n, &mut out);
    rt.write_all(&out[..size])
}
