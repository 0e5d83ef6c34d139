// What a script writes, from its bytes alone.
ghost use Rattle.std.specs.Prelude.{◌≡◌, [], length, IfOk, OnOk};
ghost use Rattle.group.specs.Groups.{group_of};
ghost use Rattle.group.specs.Makings.{Made};
ghost use Rattle.script.specs.Scripts.{form_of, room};
ghost use Rattle.script.specs.Writing.{Writes};

use crate::lines::push_refused;
use crate::player::Player;
use coin::Coin;
use entry::Entry;
use group::{Group, Member, blank};
use replica::Set;
use std::alloc::{AllocError, Global};

// More bytes than a frame's largest statement has, and than the file of the largest set.
const ROOM: usize = 65_536;

impl<'a, K: Entry + 'a, C: Coin + Drop> Player<'a, K, C> {
    // A player with no replicas yet, who has written nothing.
    fn new(heap: Global, coin: C) -> Result<Player<'a, K, C>, AllocError>
        ensures none { IfOk result (λ p. p.group.members.items ≡ []) }
        ensures text { IfOk result (λ p. p.text.items ≡ []) }
        ensures room { IfOk result (λ p. length p.buffer.items ≡ room) }
        ensures coin { IfOk result (λ p. p.group.coin ≡ coin) }
    {
        Ok(Player {
            group: Group {
                members: Vec::new(heap),
                coin,
                altered: false,
            },
            buffer: vec![in heap; 0u8; ROOM]?,
            text: Vec::new(heap),
        })
    }

    // Makes the replicas of a set. None is declined, since its numbers are sound and the tables long enough.
    fn populate(&mut self, heap: Global, set: Set) -> Result<(), AllocError>
        requires { self.old.group.members.items ≡ [] }
        ensures made { OnOk result (Made set.n set.w set.n (group_of K.bytes self.new.group)) }
        ensures coin { C.meaning self.new.group.coin ≡ C.meaning self.old.group.coin }
        ensures text { self.new.text.items ≡ self.old.text.items }
        ensures room { length self.new.buffer.items ≡ length self.old.buffer.items }
    {
        for me in 0..set.n {
            let tables = blank(heap, set.n, set.w)?;
            let Ok(member) = Member::make(set.n, me, set.w, tables) else {
                return Ok(());
            };
            self.group.members.push(member)?;
        }
        Ok(())
    }
}

// What a script writes that is played by `n` replicas with `w` slots each, whose tables are lent for good.
pub fn output<K: Entry, C: Coin + Drop>(
    heap: Global,
    n: u8,
    w: u8,
    coin: C,
    script: &[u8],
) -> Result<Vec<u8>, AllocError>
    ensures { IfOk result (λ text. Writes (form_of K.WIDTH K.valid K.heading K.columns) (C.meaning coin) n w script.now text.items) }
{
    let mut player: Player<'_, K, C> = Player::new(heap, coin)?;
    let set = match Set::new(n, 0, w) {
        Ok(set) => set,
        Err(refusal) => {
            push_refused(&mut player.text, refusal)?;
            return Ok(player.text);
        }
    };
    player.populate(heap, set)?;
    player.play(script)?;
    Ok(player.text)
}
