// A claim as the statement that goes over the wire.
ghost use Rattle.std.specs.Prelude.{◌≡◌, ℕ, ◌≤◌, List, length, take, Some, None};
ghost use Rattle.std.specs.Option.{option_map};
ghost use Rattle.common.specs.Refusals.{numbered};
ghost use Rattle.theory.specs.Statement.{entry_stated};
ghost use Rattle.wire.specs.Statements.{message_of};
ghost use Rattle.wire.specs.Codec.{placed, unfit};
ghost use Rattle.replica.specs.Claims.{claim_of};
ghost use Rattle.showing.specs.Spoken.{spoken, spelled};

use common::Refusal;
use entry::Entry;
use replica::Claim;
use wire::Statement;

// The claim's entry, if it has one.
fn item_in<K: Entry>(claim: &Claim<K>) -> Option<K>
    ensures { option_map K.bytes result ≡ entry_stated (claim_of K.bytes claim.now) }
{
    match claim {
        Claim::Send { item, .. }
        | Claim::Echo { item, .. }
        | Claim::Ready { item, .. }
        | Claim::Have { item, .. } => Some(*item),
        Claim::Value { .. } | Claim::Seen { .. } | Claim::Confirm { .. } | Claim::Finish { .. } =>
            None,
    }
}

// Writes the claim's entry, if it has one, at the front of `out`.
fn put_item<K: Entry>(claim: &Claim<K>, out: &mut [u8])
    requires { K.WIDTH ≤ length out.old }
    ensures { (x : List ℕ) → entry_stated (claim_of K.bytes claim.now) ≡ Some x → take K.WIDTH out.new ≡ x }
{
    if let Some(item) = item_in(claim) {
        item.write(out);
    }
}

// The statement of a claim whose entry, if it has one, has the given bytes.
fn worded<'a, K: Entry>(claim: &Claim<K>, item: &'a [u8]) -> Statement<'a>
    requires { (x : List ℕ) → entry_stated (claim_of K.bytes claim.now) ≡ Some x → item.now ≡ x }
    ensures { message_of result ≡ spoken (claim_of K.bytes claim.now) }
{
    match *claim {
        Claim::Send { slot, .. } => Statement::Send { slot, item },
        Claim::Echo { queue, slot, .. } => Statement::Echo { queue, slot, item },
        Claim::Ready { queue, slot, .. } => Statement::Ready { queue, slot, item },
        Claim::Have { queue, slot, .. } => Statement::Have { queue, slot, item },
        Claim::Value { epoch, round, bit } => Statement::Value {
            epoch,
            round,
            bit: u8::from(bit),
        },
        Claim::Seen { epoch, round, bit } => Statement::Seen {
            epoch,
            round,
            bit: u8::from(bit),
        },
        Claim::Confirm { epoch, round, set } => Statement::Confirm {
            epoch,
            round,
            set: u8::from(set),
        },
        Claim::Finish { epoch, bit } => Statement::Finish {
            epoch,
            bit: u8::from(bit),
        },
    }
}

// Writes a claim's statement at the front of `out`, and answers how many bytes it has.
pub fn write<K: Entry>(claim: &Claim<K>, out: &mut [u8]) -> Result<usize, Refusal>
    requires { unfit K.WIDTH (spoken (claim_of K.bytes claim.now)) ≡ None }
    ensures { (numbered result, out.new) ≡ placed None (spelled (claim_of K.bytes claim.now)) out.old }
{
    // As wide as the widest kind: there is no heap here.
    let mut item = [0; 32];
    put_item(claim, &mut item);
    worded(claim, &item[0..K::WIDTH]).write::<K>(out)
}
