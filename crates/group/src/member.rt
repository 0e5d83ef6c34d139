use replica::{Replica, Tables};
use std::marker::Model;

// Tables that a replica has for its own, seen as what they are. The borrow checker does not cover a vector of what holds both
// a `&mut` and a struct with a ghost field, such as a replica's set; behind a model it does. Under a contract it is borrowed by
// a name first (`own`), which tells the proof that the view is the tables.
#[derive(Drop)]
pub struct Own<'a, K> {
    pub tables: Tables<'a, K>,
}

impl<'a, K> Model for Own<'a, K> {
    ghost use Rattle.replica.specs.declared.lent.Tables.{Tables};

    ghost Value = { Tables K };

    ghost view = { λ o. o.tables };
}

// A replica of a group, with its own tables.
#[derive(Drop)]
pub struct Member<'a, K> {
    pub replica: Replica,
    pub tables: Own<'a, K>,
}

// Replicas by their numbers, the coin that they toss, and whether something was altered.
#[derive(Drop)]
pub struct Group<'a, K, C> {
    pub members: Vec<Member<'a, K>>,
    pub coin: C,
    pub altered: bool,
}
