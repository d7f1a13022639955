ghost use Rattle.std.specs.Prelude.{◌≡◌, ◌<◌, ◌^◌};
ghost use Rattle.std.specs.Int.{trailing_zeros, w64};
ghost use Rattle.strash_pass.specs.Coded.{asks_word, is_single, open_word, turned, Sets};

/// The literals that are true where hints are looked for, by their bits, and those that are false.
#[derive(Clone, Copy)]
pub struct Marks {
    pub yes: u64,
    pub no: u64,
}

impl Marks {
    /// Of the literals of a clause those that aren't false.
    pub fn open(self, clause: u64) -> u64
        ensures { result ≡ open_word self clause }
    {
        clause & !self.no
    }

    /// Whether the clause asks for a hint: one literal at most isn't false, and that one isn't true.
    pub fn asks(self, clause: u64) -> bool
        ensures { result ≡ asks_word self clause }
    {
        let open = self.open(clause);
        self.yes & open == 0 && is_single(open)
    }

    /// The marks where the literal of this bit is true too.
    pub fn with(self, bit: u32) -> Marks
        requires { bit < 64 }
        ensures yes { Sets self.yes bit result.yes }
        ensures no { Sets self.no (turned bit) result.no }
        ensures small { result.no < 2 ^ 64 }
    {
        let other = turned(bit);
        Marks {
            yes: set(self.yes, bit),
            no: set(self.no, other),
        }
    }
}

/// The bit of the negation.
pub fn turned(bit: u32) -> u32
    requires { bit < 64 }
    ensures value { result ≡ turned bit }
    ensures small { result < 64 }
{
    if bit % 2 == 0 { bit + 1 } else { bit - 1 }
}

/// The word with one more bit.
pub fn set(word: u64, bit: u32) -> u64
    requires { bit < 64 }
    ensures { Sets word bit result }
{
    word | (1 << bit)
}

/// Whether the word has one bit at most.
fn is_single(word: u64) -> bool
    ensures { result ≡ is_single word }
{
    word == 0 || word == lowest(word)
}

/// The lowest bit of a word that has one.
fn lowest(word: u64) -> u64
    requires { 0 < word }
    ensures { result ≡ 2 ^ trailing_zeros w64 word }
{
    1 << word.trailing_zeros()
}
