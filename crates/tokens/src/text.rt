ghost use Rattle.std.specs.Prelude.{◌≡◌, ◌++◌, OnOk, OnErr, decimal};
ghost use Rattle.tokens.specs.Text.{literal_text, IsInRange, Begins};

use itoa::Buffer;
use lits::Dim;
use std::alloc::AllocError;

/// Appends the number in decimal digits.
pub fn push_number(text: &mut Vec<u8>, number: u64) -> Result<(), AllocError>
    ensures ok { OnOk result (text.new.items ≡ text.old.items ++ decimal number) }
    ensures err { OnErr result (text.new.items ≡ text.old.items) }
{
    let mut digits = Buffer::new();
    text.extend_from_slice(digits.format(number).as_bytes())
}

/// Appends the literal. Where memory is refused, its first part may stand there.
#[tactic(auto, unfolding(crate::specs::Text::literal_text))]
pub fn push_literal(text: &mut Vec<u8>, literal: Dim) -> Result<(), AllocError>
    ensures ok { OnOk result (text.new.items ≡ text.old.items ++ literal_text literal) }
    ensures err { OnErr result (Begins text.old.items text.new.items) }

    // As every `Dim` is; a writer needs it for what the text says.
    ensures range { OnOk result (IsInRange literal) }
{
    if literal.is_negated() {
        text.push(b'-')?;
    }
    push_number(text, u64::from(literal.var()))
}
