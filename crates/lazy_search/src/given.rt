use merged_net::Merges;
use netlist::Net;
use search_parts::Caps;
use shared_equalities::Equalities;

/// What a query may use: the net, what its book merges, and equalities that only proofs of outputs use.
#[derive(Clone, Copy)]
pub struct Given<'a> {
    pub net: &'a Net,
    pub merges: &'a Merges,
    pub equalities: &'a Equalities,
}

/// How far a query goes before it gives up.
#[derive(Clone, Copy)]
pub struct Effort {
    pub caps: Caps,
    /// How many steps it may take to add up sums of exclusive ORs.
    pub steps: u64,
}

/// On which inputs a search looks.
#[derive(Clone, Copy)]
pub enum Domain {
    /// On all. What it shows holds on each input, and an input that it finds may not be admitted.
    All,
    /// On those that are admitted. What it shows may rest on the constraints' units.
    Admitted,
}
