// Cases in a file: a line with CASE, three lengths in eight columns each, a blank and the case's name; then the
// bytes of the sizes sheet, of the plan sheet and of the expected listing, as many as the lengths say.
ghost use Rattle.std.specs.Prelude.{◌≡◌, ◌+◌, ◌<◌, length, IfSome};
ghost use Rattle.std.specs.Iterator.{at_most};

// One case.
#[derive(Drop)]
pub struct Case<'a> {
    pub name: &'a [u8],
    pub sizes: &'a [u8],
    pub plan: &'a [u8],
    pub expected: &'a [u8],
}

// The cases at the start of the bytes, and what is left of these.
#[derive(Drop)]
pub struct Cases<'a>(pub &'a [u8]);

impl<'a> Iterator for Cases<'a> {
    type Item = Case<'a>;

    ghost remaining = { λ s. at_most (length s.0.now) };

    fn next(&mut self) -> Option<Case<'a>> {
        let (case, rest) = first_case(self.0)?;
        self.0 = rest;
        Some(case)
    }
}

// The case at the start of the bytes, if one stands there whole, and what follows it.
fn first_case(bytes: &[u8]) -> Option<(Case<'_>, &[u8])>
    ensures { IfSome result (λ r. length r.1.now < length bytes.now) }
{
    let (word, rest) = bytes.split_at_checked(4)?;
    if word != b"CASE".as_slice() {
        return None;
    }
    let (sizes, rest) = rest.split_at_checked(8)?;
    let (plan, rest) = rest.split_at_checked(8)?;
    let (expected, rest) = rest.split_at_checked(8)?;
    let (_blank, rest) = rest.split_at_checked(1)?;
    let (name, rest) = rest.split_at_checked(line_length(rest))?;
    let (_end, rest) = rest.split_at_checked(1)?;
    let (sizes, rest) = rest.split_at_checked(number(sizes))?;
    let (plan, rest) = rest.split_at_checked(number(plan))?;
    let (expected, rest) = rest.split_at_checked(number(expected))?;
    let case = Case {
        name,
        sizes,
        plan,
        expected,
    };
    Some((case, rest))
}

// How many bytes stand before the first line's end.
fn line_length(bytes: &[u8]) -> usize {
    bytes
        .iter()
        .position(|&byte| byte == b'\n')
        .unwrap_or(bytes.len())
}

// The number that the digits among the bytes make; `parse` would refuse what else may stand there.
fn number(bytes: &[u8]) -> usize {
    bytes
        .iter()
        .filter(|byte| byte.is_ascii_digit())
        .fold(0usize, |value, byte| {
            value.wrapping_mul(10).wrapping_add((*byte & 15) as usize)
        })
}
