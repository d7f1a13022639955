use crate::given::Given;
use crate::solver::LazySolver;
use crate::variables::{Kind, Variable};
use std::alloc::AllocError;
use xor_sums::Exclusive;

impl LazySolver {
    /// The code that one is equal to by merges and equalities, and that isn't merged itself. All on the way is
    /// loaded.
    pub(super) fn root(&mut self, given: &Given, code: u32) -> Result<u32, AllocError> {
        let mut root = code;
        for _ in 0..u32::MAX {
            let known = self.known(given, root / 2)?;
            match known.kind {
                Kind::Merged(_) | Kind::Shown => root = known.first ^ (root & 1),
                _ => break,
            }
        }
        Ok(root)
    }

    /// The codes whose exclusive OR a variable is, if it is one: the AND of two gates' complements, of which one
    /// is the AND of two codes and the other one that of their complements.
    pub(super) fn exclusive(
        &mut self,
        given: &Given,
        var: u32,
    ) -> Result<Option<Exclusive>, AllocError> {
        let Some((one, two)) = self.fanin_roots(given, var)? else {
            return Ok(None);
        };
        if one & two & 1 == 0 {
            return Ok(None);
        }
        let (Some(one), Some(two)) = (
            self.fanin_roots(given, one / 2)?,
            self.fanin_roots(given, two / 2)?,
        ) else {
            return Ok(None);
        };
        let (left, right) = one;
        let is_straight = two == (left ^ 1, right ^ 1);
        let is_crossed = two == (right ^ 1, left ^ 1);
        if (is_straight || is_crossed) && left / 2 != right / 2 {
            return Ok(Some(Exclusive { left, right }));
        }
        Ok(None)
    }

    /// The roots of both fanins of a variable, if it is a gate.
    fn fanin_roots(&mut self, given: &Given, var: u32) -> Result<Option<(u32, u32)>, AllocError> {
        let Variable {
            kind,
            first,
            second,
            ..
        } = self.known(given, var)?;
        match kind {
            Kind::Gate | Kind::Turned => {
                let first = self.root(given, first)?;
                let second = self.root(given, second)?;
                Ok(Some((first, second)))
            }
            _ => Ok(None),
        }
    }
}
