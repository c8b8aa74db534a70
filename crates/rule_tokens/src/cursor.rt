// A place in a text.
ghost use Rattle.std.specs.Prelude.{◌≡◌, ◌+◌, ◌^◌, ◌<◌, ◌≤◌, length, take, drop};

#[derive(Drop)]
pub(crate) struct Cursor<'a> {
    // the bytes from the place on
    pub(crate) rest: &'a [u8],
    pub(crate) place: usize,
    ghost fits: { place + length rest.now < 2 ^ 64 },
}

impl<'a> Cursor<'a> {
    // At the front of a text.
    pub(crate) fn new(text: &'a [u8]) -> Cursor<'a>
        ensures rest { result.rest.now ≡ text.now }
        ensures place { result.place ≡ 0 }
    {
        Cursor {
            rest: text,
            place: 0,
        }
    }

    // Takes `len` bytes off the front.
    pub(crate) fn take(&mut self, len: usize) -> &'a [u8]
        requires { len ≤ length self.old.rest.now }
        ensures taken { result.now ≡ take len self.old.rest.now }
        ensures rest { self.new.rest.now ≡ drop len self.old.rest.now }
        ensures place { self.new.place ≡ self.old.place + len }
    {
        let (taken, rest) = self.rest.split_at(len);
        self.rest = rest;
        self.place += len;
        taken
    }
}
