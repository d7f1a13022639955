use search_parts::{at, put};
use std::alloc::{AllocError, Global};

/// Which learned clauses watch each code, as chains that run through the clauses themselves, so that a watch that
/// moves takes no memory.
///
/// A watch is twice its clause's number and 2, and 1 more where it is that of the clause's second code; 0
/// ends a chain.
#[derive(Drop)]
pub(crate) struct Watches {
    heads: Vec<u32>,
    links: Vec<u32>,
}

impl Watches {
    /// No watches.
    pub(crate) fn new(alloc: Global) -> Watches {
        Watches {
            heads: Vec::new(alloc),
            links: Vec::new(alloc),
        }
    }

    /// Forgets all.
    pub(crate) fn clear(&mut self) {
        self.heads.clear();
        self.links.clear();
    }

    /// Watches the clause that was put last by these two of its codes. So many variables are known.
    pub(crate) fn watch(
        &mut self,
        clause: u32,
        first: u32,
        second: u32,
        variables: u32,
    ) -> Result<(), AllocError> {
        let watch = clause.wrapping_add(1).wrapping_mul(2);
        self.heads
            .resize((variables as usize).saturating_mul(2), 0)?;
        self.links.resize((watch as usize).saturating_add(2), 0)?;
        self.push(first, watch);
        self.push(second, watch | 1);
        Ok(())
    }

    /// The first watch of a code.
    #[inline(always)]
    pub(crate) fn first(&self, code: u32) -> u32 {
        at(&self.heads, code)
    }

    /// The watch behind another one.
    #[inline(always)]
    pub(crate) fn next(&self, watch: u32) -> u32 {
        at(&self.links, watch)
    }

    /// Puts a watch into a code's chain.
    #[inline(always)]
    pub(crate) fn push(&mut self, code: u32, watch: u32) {
        let first = self.first(code);
        put(&mut self.links, watch, first);
        put(&mut self.heads, code, watch);
    }

    /// Takes a watch out of a code's chain, where `before` is the watch before it; 0 where it is the first.
    #[inline(always)]
    pub(crate) fn take(&mut self, code: u32, before: u32, watch: u32) {
        let next = self.next(watch);
        if before == 0 {
            put(&mut self.heads, code, next);
        } else {
            put(&mut self.links, before, next);
        }
    }
}
