ghost use Rattle.std.specs.Prelude.{◌≡◌, option_map};
ghost use Rattle.command_line.specs.Saved.{behind_digits, is_ending, is_first_ending, is_first_under, is_left_under, is_numbered, names_left, names_one, writes_over};

/// Whether a file is one of those that are left under the prefix. The lemmas and the witness are written behind
/// these, and would so stand in the place of a check's CNF or proof, of which the verdict speaks.
pub(crate) fn names_left(out: Option<&str>, file: Option<&str>) -> bool
    ensures { result ≡ names_left (option_map (λ s. s.now) out.entry) (option_map (λ s. s.now) file.entry) }
{
    match out {
        Some(prefix) => match file {
            Some(name) => is_left_under(prefix, name),
            None => false,
        },
        None => false,
    }
}

/// Whether two files are one. The lemmas are written last, and would so stand in the place of the witness.
pub(crate) fn names_one(file: Option<&str>, other: Option<&str>) -> bool
    ensures { result ≡ names_one (option_map (λ s. s.now) file.entry) (option_map (λ s. s.now) other.entry) }
{
    match file {
        Some(name) => match other {
            Some(other) => name == other,
            None => false,
        },
        None => false,
    }
}

/// Whether the file of the reduced circuit is one of those that are left under the prefix. These would be written
/// behind it, and so stand in its place.
pub(crate) fn writes_over(out: Option<&str>, reduced: &str) -> bool
    ensures { result ≡ writes_over (option_map (λ s. s.now) out.entry) reduced.now }
{
    match out {
        Some(prefix) => is_first_under(prefix, reduced),
        None => false,
    }
}

/// Whether the name is that of a file of the check 0 under the prefix.
fn is_first_under(prefix: &str, name: &str) -> bool
    ensures { result ≡ is_first_under prefix.now name.now }
{
    match name.as_bytes().strip_prefix(prefix.as_bytes()) {
        Some(rest) => is_first_ending(rest),
        None => false,
    }
}

fn is_first_ending(text: &[u8]) -> bool
    ensures { result ≡ is_first_ending text.now }
{
    text == b".0.cnf".as_slice() || text == b".0.lrat".as_slice()
}

/// Whether the name is that of a file which a check may leave under the prefix, whatever its number.
fn is_left_under(prefix: &str, name: &str) -> bool
    ensures { result ≡ is_left_under prefix.now name.now }
{
    match name.as_bytes().strip_prefix(prefix.as_bytes()) {
        Some(rest) => match rest.strip_prefix(b".") {
            Some(rest) => is_numbered(rest),
            None => false,
        },
        None => false,
    }
}

/// Whether these are decimal digits, one at least, and then the ending of a CNF's name or of a proof's.
fn is_numbered(text: &[u8]) -> bool
    ensures { result ≡ is_numbered text.now }
{
    match text {
        [first, rest @ ..] => first.is_ascii_digit() && is_ending(behind_digits(rest)),
        [] => false,
    }
}

/// What stands behind the digits with which the text begins.
fn behind_digits<'a>(text: &'a [u8]) -> &'a [u8]
    ensures { result.now ≡ behind_digits text.now }
{
    let mut rest = text;
    while let [first, others @ ..] = rest {
        if !first.is_ascii_digit() {
            return rest;
        }
        rest = others;
    }
    rest
}

fn is_ending(text: &[u8]) -> bool
    ensures { result ≡ is_ending text.now }
{
    text == b".cnf".as_slice() || text == b".lrat".as_slice()
}
