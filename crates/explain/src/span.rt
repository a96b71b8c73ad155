// Parts of an order.
ghost use Rattle.std.specs.Prelude.{◌≡◌, ◌+◌, ◌^◌, ◌<◌, ◌≤◌, length};
ghost use Rattle.explain.specs.Flags.{filled};
ghost use Rattle.explain.specs.Parts.{Halved};

// `count` places of an order, from `from` on.
// Kept: not the `Stretch` of the crate `table`, which tells a caller where a body stands; this one is halved and filled,
// by methods that no other crate has a use for.
#[derive(Clone, Copy)]
pub struct Span {
    pub from: usize,
    pub count: usize,
}

impl Span {
    // Its two halves. Where they differ the second is the longer one.
    pub fn halves(self) -> (Span, Span)
        requires { self.from + self.count < 2 ^ 64 }
        ensures { Halved self.from self.count result.0 result.1 }
    {
        let half = self.count / 2;
        let first = Span {
            from: self.from,
            count: half,
        };
        let second = Span {
            from: self.from + half,
            count: self.count - half,
        };
        (first, second)
    }

    // Sets the flags of its places to a value.
    pub fn fill(self, flags: &mut [bool], value: bool)
        requires { self.from + self.count ≤ length flags.old }
        ensures { flags.new ≡ filled self.from self.count value flags.old }
    {
        flags[self.from..self.from + self.count].fill(value);
    }
}
