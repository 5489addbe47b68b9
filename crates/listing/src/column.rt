// A number in columns: right-aligned, with blanks before it.
ghost use Rattle.listing.specs.Padded.{padded};
ghost use Rattle.listing.specs.declared.column.TheConstants.{ROOM};
ghost use Rattle.sheets.specs.Fields.{field_number};
ghost use Rattle.std.specs.Prelude.{◌≡◌, ◌≤◌, Some};

use itoa::write_digits;

// The most columns that a number is written in: the digits of the greatest.
pub(crate) const ROOM: usize = 20;

// A width and a number that is right-aligned in it; a longer one is written whole.
#[derive(Clone, Copy)]
pub(crate) struct Column(pub usize, pub u64);

impl Column {
    // Writes the number at the end of a room, and lends its bytes with the blanks before them.
    pub(crate) fn write(self, room: &mut [u8; ROOM]) -> &[u8]
        requires { self.0 ≤ ROOM }
        ensures bytes { result.now ≡ padded self.0 self.1 }
        ensures reads_back { field_number result.now ≡ Some self.1 }
    {
        let Column(width, number) = self;
        *room = [b' '; ROOM];
        let start = write_digits(number, room, ROOM);
        &room[start.min(ROOM - width)..]
    }
}
