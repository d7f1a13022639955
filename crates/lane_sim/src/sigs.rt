ghost use Rattle.std.specs.Prelude.{◌≡◌, IfOk, OnOk, OnErr, length, take};
ghost use Rattle.word_sim.specs.Rows.{AreSignatures};

use crate::rows::{Known, fill, fill_behind};
use netlist::Net;
use std::alloc::{AllocError, Global};
use word_sim::{Pool, Sigs};

/// The rows of all nodes on the patterns of a pool.
pub fn signatures(alloc: Global, net: &Net, pool: &Pool) -> Result<Sigs, AllocError>
    requires { pool.now.inputs ≡ length net.now.a.inputs }
    ensures { IfOk result (AreSignatures net.now pool.now.patterns) }
{
    let mut words = vec![in alloc; 0; net.positions() as usize * pool.words() as usize]?;
    fill(net, pool, words.as_mut_slice());
    Ok(Sigs::of(net, pool, words))
}

/// Brings the rows of all nodes on the first patterns of a pool up to all of them. A whole word of 64
/// patterns that the rows have is taken over. Where memory is refused the rows stay as they are.
pub fn extend(alloc: Global, net: &Net, pool: &Pool, sigs: &mut Sigs) -> Result<(), AllocError>
    requires inputs { pool.now.inputs ≡ length net.now.a.inputs }
    requires sigs { AreSignatures net.now (take sigs.old.patterns pool.now.patterns) sigs.old }
    ensures ok { OnOk result (AreSignatures net.now pool.now.patterns sigs.new) }
    ensures err { OnErr result (sigs.new ≡ sigs.old) }
{
    let mut words = vec![in alloc; 0; net.positions() as usize * pool.words() as usize]?;
    let known = Known {
        rows: sigs.words(),
        stride: sigs.patterns().div_ceil(64) as usize,
        words: (sigs.patterns() / 64) as usize,
    };
    fill_behind(net, pool, known, words.as_mut_slice());
    *sigs = Sigs::of(net, pool, words);
    Ok(())
}
