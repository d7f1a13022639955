/// Where the hints of a learned clause stand in a list of all hints.
#[derive(Clone, Copy)]
pub struct HintSpan {
    pub start: u32,
    pub len: u32,
}
