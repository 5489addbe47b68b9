// Reading the bytes of a task one after another.
ghost use Rattle.std.specs.Prelude.{◌≡◌, ◌<◌, ◌≤◌, length, is_some, true};

use lengths::{Plain, Sides};

// What is still to be read.
#[derive(Clone, Copy)]
pub(crate) struct Bytes<'a>(pub &'a [u8]);

impl<'a> Bytes<'a> {
    // The next bytes, as many as are asked for.
    pub(crate) fn several(&mut self, count: usize) -> Option<&'a [u8]>
        ensures { length self.new.0.now ≤ length self.old.0.now }
    {
        let (several, rest) = self.0.split_at_checked(count)?;
        self.0 = rest;
        Some(several)
    }

    // The next byte.
    pub(crate) fn byte(&mut self) -> Option<u8>
        ensures never_more { length self.new.0.now ≤ length self.old.0.now }
        ensures fewer { is_some result ≡ true → length self.new.0.now < length self.old.0.now }
    {
        let (&byte, rest) = self.0.split_first()?;
        self.0 = rest;
        Some(byte)
    }

    // The number of a module, or how many there are of something: one byte.
    pub(crate) fn count(&mut self) -> Option<usize>
        ensures { length self.new.0.now ≤ length self.old.0.now }
    {
        self.byte().map(usize::from)
    }

    // How many codes there are: two bytes, the lowest first.
    pub(crate) fn long_count(&mut self) -> Option<usize>
        ensures { length self.new.0.now ≤ length self.old.0.now }
    {
        let (&two, rest) = self.0.split_first_chunk::<2>()?;
        self.0 = rest;
        Some(usize::from(u16::from_le_bytes(two)))
    }

    // A length: four bytes, the lowest first.
    pub(crate) fn length(&mut self) -> Option<Plain>
        ensures { length self.new.0.now ≤ length self.old.0.now }
    {
        let (&four, rest) = self.0.split_first_chunk::<4>()?;
        self.0 = rest;
        Some(Plain(u32::from_le_bytes(four)))
    }

    // Width and height of a module.
    pub(crate) fn sides(&mut self) -> Option<Sides<Plain>>
        ensures { length self.new.0.now ≤ length self.old.0.now }
    {
        Some(Sides {
            width: self.length()?,
            height: self.length()?,
        })
    }
}
