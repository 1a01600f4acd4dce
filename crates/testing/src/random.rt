// A generator of Lehmer's kind: the same seed gives the same numbers on every machine.
ghost use Rattle.std.specs.Prelude.{◌≡◌, ◌<◌};

#[derive(Clone, Copy)]
pub struct Random {
    pub state: u64,
}

impl Random {
    // The generator one step on, never at 0.
    pub fn next(self) -> Random {
        Random {
            state: (self.state % 2147483646 + 1) * 48271 % 2147483647,
        }
    }

    // A number below `n`, which is not 0.
    pub fn below(self, n: u32) -> u32
        requires { 0 < n }
        ensures { result < n }
    {
        (self.state / 7 % u64::from(n)) as u32
    }

    // A number below `n`, or 0 where there is none.
    pub fn pick(self, n: usize) -> usize
        ensures below { 0 < n → result < n }
        ensures none { n ≡ 0 → result ≡ 0 }
    {
        (self.state as usize / 7).checked_rem(n).unwrap_or(0)
    }
}
