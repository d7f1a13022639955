//! An input on which circuits differ, as a file that other tools replay.
ghost use Rattle.std.specs.Prelude.{◌≡◌, ◌++◌, None, IfOk, OnOk, option_map};
ghost use Rattle.std.specs.Option.{option_copied};
ghost use Rattle.check_session.specs.Outputs.{finding_of};
ghost use Rattle.cec_top.specs.Check.{witness_files, witness_in};
ghost use Rattle.cec_top.specs.Steps.{WritesOutputs, line_at};
ghost use Rattle.cec_top.specs.Witness.{named_line, named_lines, witness_text};

use crate::texts::{digit_of, push_digits};
use check_session::Verdict;
use desk_port::{Desk, PutErr, put_in_pieces};
use endings::{Content, Stop, write_file};
use lits::Side;
use netlist::{Circuit, Net};
use std::alloc::{AllocError, Global};

/// Leaves the witness of a check that has its verdict, if a file is named for one: where an output differs, and
/// nowhere else.
pub(crate) fn leave_witness<D: Desk>(
    alloc: Global,
    desk: &mut D,
    net: &Net,
    verdict: &Verdict,
    witness: Option<&str>,
) -> Result<(), Stop>
    requires started { (D.state desk.old).started ≡ None }
    ensures { WritesOutputs (witness_in (option_map (λ s. s.now) witness.entry) net.now (finding_of verdict.now))
        (D.state desk.old) (D.state desk.new) result }
{
    match witness {
        Some(name) => leave_under(alloc, desk, net, verdict, name),
        None => Ok(()),
    }
}

/// Leaves it in the file of this name.
fn leave_under<D: Desk>(
    alloc: Global,
    desk: &mut D,
    net: &Net,
    verdict: &Verdict,
    name: &str,
) -> Result<(), Stop>
    requires started { (D.state desk.old).started ≡ None }
    ensures { WritesOutputs (witness_files name.now net.now (finding_of verdict.now))
        (D.state desk.old) (D.state desk.new) result }
{
    match verdict {
        Verdict::Different { input, .. } => {
            let witness = Witness {
                circuit: net.circuit(Side::A),
                input: input.as_slice(),
            };
            write_file(alloc, desk, name, &witness)?;
            Ok(())
        }
        Verdict::Equivalent | Verdict::Undecided { .. } => Ok(()),
    }
}

/// An input of a circuit.
#[derive(Clone, Copy)]
struct Witness<'a> {
    circuit: &'a Circuit,
    input: &'a [bool],
}

impl Content for Witness<'_> {
    ghost use Rattle.cec_top.specs.Witness.{witness_text};

    type Told = ();

    ghost is_ready = { λ _. Unit {0} };

    ghost bytes = { λ w. witness_text w.circuit.now w.input.now };

    ghost tells = { λ _ _. Unit {0} };

    fn put<D: Desk>(&self, alloc: Global, desk: &mut D) -> Result<(), PutErr> {
        let text = witness_text(alloc, self.circuit, self.input)?;
        put_in_pieces(alloc, desk, text.as_slice())
    }
}

/// The text of it. A step of a witness is one line, a digit an input, and a circuit without latches needs one
/// step; what names its inputs stands behind the witness, where a reader has stopped.
#[tactic(auto, unfolding(crate::specs::Witness::witness_text))]
fn witness_text(alloc: Global, circuit: &Circuit, input: &[bool]) -> Result<Vec<u8>, AllocError>
    ensures { IfOk result (λ v. v.items ≡ witness_text circuit.now input.now) }
{
    let mut text = Vec::from_slice(alloc, b"1\nb0\n\n")?;
    push_digits(&mut text, input)?;
    text.extend_from_slice(b"\n.\n")?;
    push_named(&mut text, circuit, input)?;
    Ok(text)
}

/// Appends a comment line for each input that has a name.
fn push_named(text: &mut Vec<u8>, circuit: &Circuit, input: &[bool]) -> Result<(), AllocError>
    ensures { OnOk result
        (text.new.items ≡ text.old.items ++ named_lines circuit.now.names.inputs input.now) }
{
    let count = circuit.inputs().len() as u32;
    for k in 0..count {
        push_at(text, circuit, input, k)?;
    }
    Ok(())
}

/// Appends the line of input k, if it has a name.
fn push_at(text: &mut Vec<u8>, circuit: &Circuit, input: &[bool], k: u32) -> Result<(), AllocError>
    ensures { OnOk result
        (text.new.items ≡ text.old.items ++ line_at circuit.now.names.inputs input.now k) }
{
    match input.get(k as usize) {
        Some(bit) => push_line(text, circuit.input_name(k), *bit),
        None => Ok(()),
    }
}

/// Appends the line of an input, if it has a name.
#[tactic(auto, unfolding(crate::specs::Witness::named_line))]
fn push_line(text: &mut Vec<u8>, name: Option<&[u8]>, bit: bool) -> Result<(), AllocError>
    ensures { OnOk result
        (text.new.items ≡ text.old.items ++ named_line (option_copied name.entry) bit) }
{
    let Some(name) = name else {
        return Ok(());
    };
    text.extend_from_slice(b"c ")?;
    text.extend_from_slice(name)?;
    text.extend_from_slice(b" ")?;
    text.push(digit_of(bit))?;
    text.extend_from_slice(b"\n")
}
