//! Tables of numbers that are read and written anywhere: outside there is 0, and nothing is written.
ghost use Rattle.std.specs.Prelude.{◌≡◌, ◌-◌, ◌^◌, min, false, slice_set};
ghost use Rattle.std.specs.List.{slice_index_or};

/// What stands for no clause.
pub const NONE: u32 = u32::MAX;

/// The number at a place; 0 outside the table.
#[inline(always)]
pub fn at(table: &[u32], place: u32) -> u32
    ensures { result ≡ slice_index_or table.now place 0 }
{
    match table.get(place as usize) {
        Some(number) => *number,
        None => 0,
    }
}

/// Writes a number at a place of the table.
#[inline(always)]
pub fn put(table: &mut [u32], place: u32, number: u32)
    ensures { table.new ≡ slice_set table.old place number }
{
    let place = place as usize;
    if place < table.len() {
        table[place] = number;
    }
}

/// Sets the mark at a place, or takes it away. Tells whether it was set.
#[inline(always)]
pub fn mark(marks: &mut [bool], place: u32, value: bool) -> bool
    ensures was { result ≡ slice_index_or marks.old place false }
    ensures set { marks.new ≡ slice_set marks.old place value }
{
    let place = place as usize;
    if place >= marks.len() {
        return false;
    }
    let was = marks[place];
    marks[place] = value;
    was
}

/// How many elements a table has.
#[inline(always)]
pub fn count(len: usize) -> u32
    ensures { result ≡ min len (2 ^ 32 - 1) }
{
    match u32::try_from(len) {
        Ok(len) => len,
        Err(_) => u32::MAX,
    }
}

/// The part of a list that begins at a place and has so many elements, as far as it is there.
pub fn part(list: &[u32], start: u32, len: u32) -> &[u32] {
    let start = list.len().min(start as usize);
    let end = list.len().min(start.saturating_add(len as usize));
    if start <= end {
        &list[start..end]
    } else {
        &list[..0]
    }
}
