//! What the circuits of a workload have in common, as the contract of a function that does nothing when
//! it runs.
ghost use Rattle.std.specs.Prelude.{◌≡◌, ℕ, ◌≤◌, length};
ghost use Rattle.workload_gen.specs.Workload.{first_circuit, second_circuit};
ghost use Rattle.workload_gen.specs.declared.kind.Kind.{Kind};

/// They have equally many inputs and equally many outputs, so that they can be compared.
pub fn circuits_are_alike()
    ensures inputs { (kind : Kind) (n : ℕ) →
        length (first_circuit kind n).inputs ≡ length (second_circuit kind n).inputs }
    ensures outputs { (kind : Kind) (n : ℕ) → 1 ≤ n →
        length (first_circuit kind n).outputs ≡ length (second_circuit kind n).outputs }
{}
