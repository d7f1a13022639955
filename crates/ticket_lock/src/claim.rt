//! What the user of a lock claims of it, and what each of its calls makes of a pass.
ghost use Rattle.std.specs.Prelude.{ℕ};
ghost use Rattle.ticket_lock.specs.Views.{Member};
ghost use Rattle.ticket_lock.specs.Claims.{Account};

/// What a user claims: S is what lies in the slot, U what the user keeps of each pass, and K what the lock is told
/// once, when it is made.
pub trait Claim<S, U, K> {
    // What holds between any two steps.
    ghost holds: { K → Account S U → Type 0 };

    // What is kept of the first pass.
    ghost first: { K → U };

    // How many of its turns a pass has ended or drawn.
    ghost made: { U → ℕ };

    // What stands in the view of a pass that took nothing yet: any value does.
    ghost blank: { S };
}

/// What a pass learns when it has come in.
pub trait Lesson<S, U> {
    // Of the pass and of what lies in the slot.
    ghost fact: { Member U → S → Type 0 };
}

/// What the end of a turn makes of a pass, and tells it.
pub trait Ending<S, U> {
    // Of the pass and of what it took out of the slot.
    ghost after: { Member U → S → U };

    ghost told: { Member U → S → Type 0 };
}

/// What a draw makes of a pass, and tells it.
pub trait Drawing<U> {
    // Of the pass and of the number that was drawn.
    ghost after: { Member U → ℕ → U };

    ghost told: { Member U → ℕ → Type 0 };
}
