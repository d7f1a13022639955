/// At most so many turns pass before a search is tried again.
const LONGEST: u32 = 15;

/// When a kind of search is tried that has failed of late: after each failure it rests for twice as many turns
/// as before, and one more, and after each success for half as many.
///
/// So where a kind of search is in vain it takes a small part of the time, and where it begins to pay it comes
/// back.
#[derive(Clone, Copy)]
pub struct Backoff {
    /// For how many turns it rests after a failure.
    pause: u32,
    /// How many of them are left.
    left: u32,
}

impl Backoff {
    /// Of a search that wasn't tried yet.
    pub fn new() -> Backoff {
        Backoff { pause: 0, left: 0 }
    }

    /// Whether it is tried at this turn.
    pub fn is_due(&mut self) -> bool {
        let is_due = self.left == 0;
        self.left = self.left.saturating_sub(1);
        is_due
    }

    /// Notes whether it succeeded.
    pub fn note(&mut self, is_found: bool) {
        if is_found {
            self.pause /= 2;
        } else {
            self.pause = self.pause.saturating_mul(2).saturating_add(1).min(LONGEST);
            self.left = self.pause;
        }
    }
}
