use crate::plan::{Plan, Sum, power};
use rand_core::utils::NextWord;
use rand_pcg::Lcg128Xsl64;
use search_parts::{at, count, put};
use std::alloc::AllocError;

/// No sum may have more terms than this: each one more takes twice the clauses.
const WIDEST: u32 = 12;

/// With how many other sums that have a term in common a new one may be joined.
const NEIGHBOURS: u32 = 3;

impl Plan {
    /// Notes which variables a sum has, and with which others it may be joined.
    pub(super) fn link(
        &mut self,
        sum: u32,
        generator: &mut Lcg128Xsl64,
        noise: u64,
    ) -> Result<(), AllocError> {
        self.look_at(sum)?;
        let Sum { start, len, .. } = self.sum(sum);
        for place in start..start.saturating_add(len) {
            let term = at(&self.terms, place);
            let head = at(&self.heads, term);
            self.offer_all(sum, head, generator, noise)?;
            self.links.push((sum, head))?;
            let link = count(self.links.len());
            put(&mut self.heads, term, link);
        }
        Ok(())
    }

    /// Marks the terms of a sum, and no others.
    fn look_at(&mut self, sum: u32) -> Result<(), AllocError> {
        self.look = self.look.wrapping_add(1);
        let Sum { start, len, .. } = self.sum(sum);
        for place in start..start.saturating_add(len) {
            let term = at(&self.terms, place);
            let room = (term as usize).saturating_add(1);
            if room > self.heads.len() {
                self.heads.resize(room, 0)?;
            }
            if room > self.marks.len() {
                self.marks.resize(room, 0)?;
            }
            put(&mut self.marks, term, self.look);
        }
        Ok(())
    }

    /// Notes that a sum may be joined with those of a chain.
    fn offer_all(
        &mut self,
        sum: u32,
        head: u32,
        generator: &mut Lcg128Xsl64,
        noise: u64,
    ) -> Result<(), AllocError> {
        let mut link = head;
        let mut met: u32 = 0;
        for _ in 0..u32::MAX {
            let (other, next) = self.linked(link);
            if link == 0 || met >= NEIGHBOURS {
                break;
            }
            if self.sum(other).is_live && other != sum {
                met = met.wrapping_add(1);
                self.offer(other, sum, generator, noise)?;
            }
            link = next;
        }
        Ok(())
    }

    /// The sum of a link, and the next link.
    fn linked(&self, link: u32) -> (u32, u32) {
        match self.links.get(link.wrapping_sub(1) as usize) {
            Some(linked) => *linked,
            None => (0, 0),
        }
    }

    /// Notes that a sum may be joined with the one whose terms are marked, unless they have too many terms then.
    fn offer(
        &mut self,
        one: u32,
        two: u32,
        generator: &mut Lcg128Xsl64,
        noise: u64,
    ) -> Result<(), AllocError> {
        let (first, second) = (self.width(one), self.width(two));
        let both = self.marked(one).saturating_mul(2);
        let width = first.saturating_add(second).saturating_sub(both);
        if width > WIDEST {
            return Ok(());
        }
        let joined = power(width);
        let parts = power(first).saturating_add(power(second));
        let drawn = generator.next_word() % 16;
        let less = joined.saturating_mul(drawn).saturating_mul(noise) / 8;
        let rank = joined
            .saturating_mul(16)
            .saturating_add(LEAST)
            .saturating_sub(parts.saturating_mul(16))
            .saturating_sub(less);
        self.queue.push(key_of(rank, one, two))?;
        Ok(())
    }

    /// How many terms of a sum are marked.
    fn marked(&self, sum: u32) -> u32 {
        let Sum { start, len, .. } = self.sum(sum);
        let mut many: u32 = 0;
        for place in start..start.saturating_add(len) {
            if at(&self.marks, at(&self.terms, place)) == self.look {
                many = many.saturating_add(1);
            }
        }
        many
    }
}

/// What is added to a join's rank, so that none is below 0.
const LEAST: u64 = 1 << 18;

/// What stands above two numbers of sums in a key.
const ABOVE: u64 = 1 << 44;

/// What stands above one.
const BETWEEN: u64 = 1 << 22;

/// A key that is the greater the less a rank is.
fn key_of(rank: u64, one: u32, two: u32) -> u64 {
    let turned = (BETWEEN / 4)
        .saturating_sub(1)
        .saturating_sub(rank.min(BETWEEN / 4 - 1));
    turned
        .wrapping_mul(ABOVE)
        .wrapping_add(u64::from(one).wrapping_mul(BETWEEN))
        .wrapping_add(u64::from(two))
}

/// The two sums of a key.
pub(super) fn pair_of(key: u64) -> (u32, u32) {
    let one = key / BETWEEN % BETWEEN;
    let two = key % BETWEEN;
    (one as u32, two as u32)
}
