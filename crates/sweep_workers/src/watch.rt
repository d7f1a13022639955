use desk_port::Gate;

/// A part of a check, in the order in which they come.
#[derive(Clone, Copy)]
pub enum Part {
    Structure,
    Sweep,
    Outputs,
}

/// A gate that is also told how far a check is.
///
/// No contract knows of it, as none knows of a gate. The calls come from the workers' threads, so what is told
/// at one time by two of them comes in no order.
pub trait Watch: Gate {
    /// A part begins, or a round of it with this number, in which so many tasks are to be settled.
    fn begins(&self, part: Part, round: u64, tasks: u64);

    /// A task was settled, and is left open where its budget was spent.
    fn settles(&self, is_open: bool);
}

/// A gate alone, which is told nothing.
pub struct Unwatched<'a, G: Gate>(pub &'a G);

impl<G: Gate> Drop for Unwatched<'_, G> {
    fn drop(self) {
        let Unwatched(_) = self;
    }
}

impl<G: Gate> Gate for Unwatched<'_, G> {
    fn pass(&self, worker: u32, task: u64) {
        self.0.pass(worker, task);
    }
}

impl<G: Gate> Watch for Unwatched<'_, G> {
    fn begins(&self, _part: Part, _round: u64, _tasks: u64) {}

    fn settles(&self, _is_open: bool) {}
}
