ghost use Rattle.std.specs.Prelude.{◌≡◌, ◌++◌, ◌∷◌, [], IfOk, OnOk};
ghost use Rattle.listing.specs.Rows.{kind_of, following};
ghost use Rattle.listing.specs.Lists.{Accounts};
ghost use Rattle.listing.specs.Records.{heading_of, fault_in, fault_of, record_of};

use crate::cells::push_cell;
use crate::lists::list;
use entry::Entry;
use itoa::Integer;
use std::alloc::{AllocError, Global};
use wire::Fault;

// The record of a frame.
#[tactic(auto, using(crate::proofs::Accounting::accounts))]
pub fn record<K: Entry>(heap: Global, frame: &[u8]) -> Result<Vec<u8>, AllocError>
    ensures value { IfOk result (λ v. v.items ≡ record_of (kind_of K.WIDTH K.valid K.heading K.columns) frame.now) }
    ensures accounts { Accounts (kind_of K.WIDTH K.valid K.heading K.columns) frame.now }
{
    let listing = list::<K>(heap, frame)?;
    let mut out = Vec::new(heap);
    push_note(&mut out, b"frame", frame.len(), listing.count)?;
    push_heading::<K>(&mut out)?;
    out.extend_from_slice(listing.rows.as_slice())?;
    push_fault(&mut out, listing.fault)?;
    Ok(out)
}

// A row of a word and two numbers.
fn push_note<A: Integer, B: Integer>(
    out: &mut Vec<u8>,
    word: &[u8],
    a: A,
    b: B,
) -> Result<(), AllocError>
    ensures { OnOk result (out.new.items ≡ out.old.items ++ (word.now ++ (following (A.text a ∷ B.text b ∷ []) ++ (10 ∷ [])))) }
{
    out.extend_from_slice(word)?;
    push_cell(out, Some(a))?;
    push_cell(out, Some(b))?;
    out.push(b'\n')?;
    Ok(())
}

fn push_heading<K: Entry>(out: &mut Vec<u8>) -> Result<(), AllocError>
    ensures { OnOk result (out.new.items ≡ out.old.items ++ heading_of K.heading) }
{
    out.extend_from_slice(b"place;letter;says;queue;slot;epoch;round;bit;set;")?;
    out.extend_from_slice(K::names())?;
    out.push(b'\n')?;
    Ok(())
}

fn push_fault(out: &mut Vec<u8>, fault: Option<Fault>) -> Result<(), AllocError>
    ensures { OnOk result (out.new.items ≡ out.old.items ++ fault_of (fault_in fault)) }
{
    let Some(Fault { refusal, place }) = fault else {
        return Ok(());
    };
    push_note(out, b"refused", u8::from(refusal), place)
}
