// What the cases print, and how many were right.
use std::alloc::Global;
use std::io::{self, Stdout};

#[derive(Clone, Copy)]
pub struct Tally {
    out: Stdout,
    // What the cases make their images with.
    pub alloc: Global,
    right: u32,
    wrong: u32,
}

impl Tally {
    pub fn new(out: Stdout, alloc: Global) -> Tally {
        Tally {
            out,
            alloc,
            right: 0,
            wrong: 0,
        }
    }

    // A line for a case.
    pub fn case(&mut self, name: &str, is_right: bool) -> io::Result<()> {
        if is_right {
            self.right = self.right.saturating_add(1);
            println!(self.out; "right  {name}")
        } else {
            self.wrong = self.wrong.saturating_add(1);
            println!(self.out; "WRONG  {name}")
        }
    }

    // The last lines.
    pub fn finish(&self) -> io::Result<()> {
        let right = self.right;
        let wrong = self.wrong;
        if 0 < wrong {
            println!(self.out; "{wrong} cases WRONG")?;
        }
        println!(self.out; "{right} cases right")
    }
}
