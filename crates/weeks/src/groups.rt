// What the replicas of a set do together.
use crate::members::Member;
use coin::Coin;
use entry::Entry;
use printing::print;
use std::process::Abort;
use std::test::*;

// More bytes than a board has here, of seven replicas with two slots each at the end of the week.
const BOARD: usize = 2048;

// All but the sender hear its board. Tells whether one of them took in a statement.
fn hear<K: Entry, C: Coin + Drop>(
    members: &mut [Member<K, C>],
    sender: u8,
    board: &[u8],
) -> Result<bool, Fail> {
    let mut taken = false;
    for member in members.iter_mut() {
        if member.replica.set.me != sender && member.hears(sender, board)? {
            taken = true;
        }
    }
    Ok(taken)
}

// One replica shows its board to the others.
fn tell<K: Entry, C: Coin + Drop>(
    members: &mut [Member<K, C>],
    teller: usize,
) -> Result<bool, Fail> {
    let mut out = [0; BOARD];
    let member = members.get_mut(teller).ok_or("no member")?;
    let sender = member.replica.set.me;
    let length = member.shows(&mut out)?;
    let board = out.get(..length).ok_or("no board")?;
    hear(members, sender, board)
}

// All hear all boards. Tells whether a statement was taken in.
pub fn tell_all<K: Entry, C: Coin + Drop>(members: &mut [Member<K, C>]) -> Result<bool, Fail> {
    let mut taken = false;
    for teller in 0..members.len() {
        if tell(members, teller)? {
            taken = true;
        }
    }
    Ok(taken)
}

// Each turns until it rests. Tells whether one took a turn.
pub fn rest<K: Entry, C: Coin + Drop>(members: &mut [Member<K, C>]) -> Result<bool, Fail> {
    let mut taken = false;
    for member in members.iter_mut() {
        if member.rests()? {
            taken = true;
        }
    }
    Ok(taken)
}

// Each opens its epoch.
pub fn open_all<K: Entry, C: Coin + Drop>(members: &mut [Member<K, C>]) -> Result<(), Fail> {
    for member in members.iter_mut() {
        member.opens(Ok(()))?;
    }
    Ok(())
}

// Each is in an epoch and prints this file.
pub fn stand<K: Entry, C: Coin + Drop>(
    rt: &impl Abort,
    members: &mut [Member<K, C>],
    epoch: u16,
    file: &[u8],
) -> Result<(), Fail> {
    for member in members.iter_mut() {
        let mut out = [7; 256];
        let length = print(&member.replica, &member.cells.tables(), &mut out)?;
        assert_eq!(rt; out.get(..length), Some(file));
        assert_eq!(rt; member.replica.epoch, epoch);
    }
    Ok(())
}
