// The parts of a list, in places of a fixed number, while they are read.
ghost use Rattle.std.specs.Prelude.{◌≡◌, ◌<◌};
ghost use Rattle.steps.specs.inner.Parts.{no_parts, one_more};

// The places of a list, of which the first `count` are used.
#[derive(Clone, Copy)]
pub struct Parts<T, const N: usize> {
    pub places: [T; N],
    pub count: usize,
}

impl<T: Copy, const N: usize> Parts<T, N> {
    // No place is used; each holds `unused`.
    pub fn new(unused: T) -> Parts<T, N>
        ensures { result ≡ no_parts N unused }
    {
        Parts {
            places: [unused; N],
            count: 0,
        }
    }

    // A part more, in the first place that is not used.
    pub fn push(&mut self, part: T)
        requires { self.old.count < N }
        ensures { self.new ≡ one_more self.old part }
    {
        self.places[self.count] = part;
        self.count += 1;
    }
}
