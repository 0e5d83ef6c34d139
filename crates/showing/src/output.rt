// The board, written out.
ghost use Rattle.std.specs.Prelude.{◌≡◌, ◌+◌, ◌^◌, ◌<◌, ◌≤◌, map, length, drop, None, MatchOption};
ghost use Rattle.std.specs.List.{AllByRecursion};
ghost use Rattle.common.specs.Refusals.{answered};
ghost use Rattle.wire.specs.Codec.{unfit};
ghost use Rattle.replica.specs.Store.{store};
ghost use Rattle.showing.specs.Spoken.{spoken, spelled};
ghost use Rattle.showing.specs.Laws.{Shows};
ghost use Rattle.showing.specs.Showing.{pair_of, lay_of, show_of};

use crate::board::Board;
use crate::shown::Shown;
use crate::words::write;
use common::Refusal;
use entry::Entry;
use replica::{Replica, Tables};

// The board behind its first `number` statements, if there are so many. `nth` takes one fewer and answers a statement:
// it would be no plainer.
fn skip<'a, 't, K: Entry>(mut board: Board<'a, 't, K>, number: usize) -> Option<Board<'a, 't, K>>
    ensures { MatchOption result (length board.entry < number) (λ rest. (number ≤ length board.entry) × (rest ≡ drop number board.entry)) }
{
    for _ in 0..number {
        board.next()?;
    }
    Some(board)
}

// Writes the statements of a board, which begin at `number`, while they fit.
fn lay<K: Entry>(board: Board<'_, '_, K>, number: usize, out: &mut [u8]) -> Result<Shown, Refusal>
    requires few { number + length board < 2 ^ 64 }
    requires fit { AllByRecursion (λ s. unfit K.WIDTH (spoken s) ≡ None) board }
    ensures { (answered pair_of result, out.new) ≡ lay_of number (map spelled board.entry) out.old }
{
    let mut shown = Shown {
        bytes: 0,
        next: number,
    };
    for claim in board {
        match write(&claim, &mut out[shown.bytes..]) {
            Ok(bytes) => {
                shown.bytes += bytes;
                shown.next += 1;
            }
            Err(refusal) => {
                if shown.next == number {
                    return Err(refusal);
                }
                break;
            }
        }
    }
    Ok(shown)
}

// Writes the statements of the board from `number` on, whole and one behind the other, while they fit.
pub fn show<K: Entry>(
    replica: &Replica,
    tables: &Tables<'_, K>,
    number: usize,
    out: &mut [u8],
) -> Result<Shown, Refusal>
    ensures value { (answered pair_of result, out.new) ≡ show_of replica.now (store K.bytes tables.now) number out.old }
    ensures law { Shows K.WIDTH replica.now (store K.bytes tables.now) }
{
    let lent = replica.fitted(tables)?;
    let board = Board { lent, place: 0 };
    let rest = skip(board, number).ok_or(Refusal::Number)?;
    lay(rest, number, out)
}
