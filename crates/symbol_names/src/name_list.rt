ghost use Rattle.std.specs.Prelude.{◌≡◌, ◌+◌, ◌-◌, ◌<◌, ◌≤◌, ◌++◌, None, IfOk, OnOk, OnErr, length, replicate, slice_set};
ghost use Rattle.std.specs.Option.{option_copied};
ghost use Rattle.symbol_names.specs.NameList.{name_at, name_in, name_of, none_at, IsWithin};

use std::alloc::{AllocError, Global};
use std::marker::Model;

/// The name at each of so many places, or none. A name is one byte or more.
pub struct NameList {
    count: u32,
    bytes: Vec<u8>,
    // One for each place up to the last that was given a name, so that a list without names is empty.
    spans: Vec<Span>,
}

/// Where a name stands among the bytes of all names. It is empty where there is none.
#[derive(Clone, Copy)]
pub(crate) struct Span {
    start: usize,
    len: usize,
}

// Written out, so that a drop is one call and not one for each field at each exit of a function.
impl Drop for NameList {
    fn drop(self) {
        let NameList {
            count: _,
            bytes: _,
            spans: _,
        } = self;
    }
}

impl Model for NameList {
    ghost use Rattle.std.specs.Prelude.{List, Option, ℕ};
    ghost use Rattle.symbol_names.specs.NameList.{names_in, AreSpans};

    ghost Value = { List (Option (List ℕ)) };

    ghost view = { λ n. names_in n.count n.bytes.items n.spans.items };

    ghost invariant = { λ n. AreSpans n.count n.bytes.items n.spans.items };
}

impl NameList {
    /// So many places without a name. No memory is taken.
    pub fn none(alloc: Global, count: u32) -> NameList
        ensures { result ≡ replicate count None }
    {
        NameList {
            count,
            bytes: Vec::new(alloc),
            spans: Vec::new(alloc),
        }
    }

    /// The name at a place; none also where there is no such place.
    pub fn get(&self, place: u32) -> Option<&[u8]>
        ensures { option_copied result ≡ name_at self.now place }
    {
        match self.spans.get(place as usize) {
            Some(span) => named_in(self.bytes.as_slice(), *span),
            None => None,
        }
    }

    /// Gives a place this name in place of the one that it had. An empty name is none.
    pub fn set(&mut self, place: u32, name: &[u8]) -> Result<(), AllocError>
        requires { place < length self.old }
        ensures ok { OnOk result (self.new ≡ slice_set self.old place (name_of name.now)) }
        ensures err { OnErr result (self.new ≡ self.old) }
    {
        let place = place as usize;
        make_room(&mut self.spans, place)?;
        let span = Span {
            start: self.bytes.len(),
            len: name.len(),
        };
        self.bytes.extend_from_slice(name)?;
        self.spans[place] = span;
        Ok(())
    }

    /// The same names once more.
    pub fn copy(&self, alloc: Global) -> Result<NameList, AllocError>
        ensures { IfOk result (λ n. n ≡ self.now) }
    {
        let bytes = Vec::from_slice(alloc, self.bytes.as_slice())?;
        let spans = Vec::from_slice(alloc, self.spans.as_slice())?;
        Ok(NameList {
            count: self.count,
            bytes,
            spans,
        })
    }
}

/// The bytes of a span; none where it is empty.
fn named_in(bytes: &[u8], span: Span) -> Option<&[u8]>
    requires { IsWithin bytes.now span }
    ensures { option_copied result ≡ name_in bytes.now span }
{
    if span.len == 0 {
        return None;
    }
    Some(bytes.split_at(span.start).1.split_at(span.len).0)
}

/// Makes room for a place, where there is none, by places without a name.
fn make_room(spans: &mut Vec<Span>, place: usize) -> Result<(), AllocError>
    requires { place < 4294967296 }
    ensures ok { OnOk result
        (spans.new.items ≡ spans.old.items ++ replicate (place + 1 - length spans.old.items) none_at) }
    ensures err { OnErr result (spans.new.items ≡ spans.old.items) }
{
    let room = place + 1;
    if spans.len() < room {
        spans.resize(room, Span { start: 0, len: 0 })?;
    }
    Ok(())
}
