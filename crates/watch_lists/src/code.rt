ghost use Rattle.std.specs.Prelude.{◌≡◌};
ghost use Rattle.watch_lists.specs.Codes.{flip};

/// The code of the negation.
#[inline(always)]
pub fn flip(code: u32) -> u32
    ensures { result ≡ flip code }
{
    if code % 2 == 0 { code + 1 } else { code - 1 }
}
