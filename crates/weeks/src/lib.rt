// The tests of replicas that take turns: an epoch of four with one entry, a whole week of seven, and each turn at its
// threshold and one below. The calls are made by `serve`, and so the turns are those of the compiled code; what is
// expected is reckoned from the protocol's rules. Under `rt try --test` the week of seven takes minutes: `--seconds 600`.
// Nothing here is used by another crate.
#![tactic(auto)]

#[cfg(test)]
mod broadcast;
#[cfg(test)]
mod decisions;
#[cfg(test)]
mod groups;
#[cfg(test)]
mod members;
#[cfg(test)]
mod rounds;
#[cfg(test)]
mod seven;
#[cfg(test)]
mod week;
