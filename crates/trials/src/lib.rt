// The tests of a replica that are run: make and page, what it takes in by `hear` and `submit`, each refusal at
// its edge and in its order, that a declined call leaves all as it was, and what `show` and `print` write.
// Each call is compared, cell by cell and number by number, with what is expected of the whole replica.
// Nothing here is used by another crate.
#![tactic(auto)]

#[cfg(test)]
mod hears;
#[cfg(test)]
mod prints;
#[cfg(test)]
mod replicas;
#[cfg(test)]
mod shows;
#[cfg(test)]
mod submits;
#[cfg(test)]
mod worlds;
