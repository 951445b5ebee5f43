ghost use Rattle.std.specs.Prelude.{◌≡◌, ◌+◌, ◌<◌, ◌||◌, nat_lt, true, false, if◌then◌else◌};

/// How far the nodes have been gone through since the last bit. Between two bits they begin by rising number,
/// but for one time, where a repetition begins a turn again: so the steps have a bound.
#[derive(Clone, Copy)]
pub(crate) struct Pace {
    /// The number behind the node that began last.
    next: u16,
    /// Whether one began again.
    again: bool,
}

impl Pace {
    /// No node has begun.
    pub fn new() -> Pace
        ensures { result ≡ record { next = 0; again = false } }
    {
        Pace {
            next: 0,
            again: false,
        }
    }

    /// A node begins.
    pub fn begin(&mut self, node: u16)
        requires { node < 65535 }
        ensures { self.new ≡ record { next = node + 1; again = self.old.again || nat_lt node self.old.next } }
    {
        if node < self.next {
            self.again = true;
        }
        self.next = node + 1;
    }

    /// Some bits are taken, or none.
    pub fn bits(&mut self, taken: bool)
        ensures { self.new ≡ record { next = self.old.next; again = if taken then false else self.old.again } }
    {
        if taken {
            self.again = false;
        }
    }
}
