use crate::marks::Marks;

// The votes of a round: the values, the seens and the confirms.
#[derive(Clone, Copy, PartialEq, Eq, Debug)]
pub struct Round {
    pub values: Marks,
    pub seens: Marks,
    pub confirms: Marks,
}

// The votes of an epoch: by round, and the finish, in an array of fixed size: there is no heap here.
#[derive(Clone, Copy, PartialEq, Eq, Debug)]
pub struct Votes {
    pub rounds: [Round; 16],
    pub finish: Marks,
}
