// Fields: numbers in columns.
ghost use Rattle.std.specs.Prelude.{◌≡◌, ◌<◌, ◌≤◌, length, if◌then◌else◌, Some, None};
ghost use Rattle.sheets.specs.Fields.{after_blanks, all_digits, value_after, field_number};

// What is left of a field behind its blanks.
fn after_blanks<'a>(field: &'a [u8]) -> &'a [u8]
    ensures rest { result.now ≡ after_blanks field.now }
    ensures within { length result.now ≤ length field.now }
{
    let mut rest = field;
    // `trim_ascii_start` would drop more than blanks, and `position` tells no place where all are blank.
    while let [b' ', tail @ ..] = rest {
        rest = tail;
    }
    rest
}

// The number that a field's digits write, if they are digits; `parse` would take a sign too.
fn digits(field: &[u8]) -> Option<u32>
    requires { length field.now < 10 }
    ensures { result ≡ (if all_digits field.now then Some (value_after 0 field.now) else None) }
{
    let mut value = 0;
    for b in field {
        if !b.is_ascii_digit() {
            return None;
        }
        value = 10 * value + u32::from(*b - b'0');
    }
    Some(value)
}

// The number that a field holds, if it is written as it should be.
pub(crate) fn number(field: &[u8]) -> Option<u32>
    requires { length field.now < 10 }
    ensures { result ≡ field_number field.now }
{
    match after_blanks(field) {
        [] | [b'0', _, ..] => None,
        rest => digits(rest),
    }
}
