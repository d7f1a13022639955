ghost use Rattle.std.specs.Prelude.{◌≡◌, ℕ};
ghost use Rattle.netlist.specs.Circuit.{Aig, IsCircuit};
ghost use Rattle.aiger_file.specs.File.{SpellsAiger, aiger_in};
ghost use Rattle.circuit_text.specs.AsciiText.{ascii_text, IsBound};
ghost use Rattle.circuit_text.specs.BinaryText.{binary_text, IsInSequence};

/// A law of the readers: the ASCII text of a circuit spells that circuit, with its constraints and names,
/// under each M that no variable exceeds.
///
/// It does nothing when it runs.
pub fn written_ascii()
    ensures { (m : ℕ) (c : Aig) → IsCircuit c → IsBound m c → SpellsAiger (ascii_text m c) c }
{}

/// A law of the readers: the binary text of a circuit in AIGER's order spells that circuit, with its
/// constraints and names.
///
/// It does nothing when it runs.
pub fn written_binary()
    ensures { (c : Aig) → IsCircuit c → IsInSequence c → SpellsAiger (binary_text c) c }
{}

/// A law of the readers: the two texts of a circuit in AIGER's order are read as one circuit.
///
/// It does nothing when it runs.
pub fn written_in_both_forms()
    ensures { (m : ℕ) (c : Aig) → IsCircuit c → IsBound m c → IsInSequence c
        → aiger_in (ascii_text m c) ≡ aiger_in (binary_text c) }
{}
