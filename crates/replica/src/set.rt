ghost use Rattle.std.specs.Prelude.{◌≡◌, ◌<◌, ◌≤◌};
ghost use Rattle.common.specs.Quorums.{faults, echoes};

// The numbers of a set of replicas, and the own one. They stay as they were made. `n` and `w` are
// fields and no `Grid` within: many clauses cite `set.n`, and `set.grid.n` would be no plainer.
#[derive(Clone, Copy, PartialEq, Eq)]
pub struct Set {
    // How many replicas there are.
    pub n: u8,
    // How many slots a queue has.
    pub w: u8,
    // How many replicas may be faulty.
    pub f: u8,
    // How many equal echoes make a ready.
    pub q: u8,
    pub me: u8,
    ghost own: { me < n },
    ghost least: { 4 ≤ n },
    ghost most: { n ≤ 16 },
    ghost some: { 1 ≤ w },
    ghost slots: { w ≤ 16 },
    ghost faulty: { f ≡ faults n },
    ghost quorum: { q ≡ echoes n },
}
