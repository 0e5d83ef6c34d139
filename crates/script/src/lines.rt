ghost use Rattle.std.specs.Prelude.{◌≡◌, ◌++◌, codes, decimal, length, Some, Err, OnOk};
ghost use Rattle.common.specs.Refusals.{number_of};
ghost use Rattle.group.specs.Groups.{state_of};
ghost use Rattle.script.specs.Scripts.{line_of, room, printed};

use common::Refusal;
use entry::Entry;
use group::Member;
use printing::print;
use std::alloc::AllocError;
use std::io::Write;

// The line of a call that is declined. Only memory can be wanting where a line is written into a `Vec`.
pub fn push_refused(text: &mut Vec<u8>, refusal: Refusal) -> Result<(), AllocError>
    ensures { OnOk result (text.new.items ≡ text.old.items ++ line_of (Err (number_of refusal))) }
{
    writeln!(text, "refused;{refusal}").map_err(|_| AllocError)
}

// The line of a fault at a place.
pub fn push_fault(text: &mut Vec<u8>, place: usize) -> Result<(), AllocError>
    ensures { OnOk result (text.new.items ≡ text.old.items ++ (codes "script;" ++ (decimal place ++ codes "\n"))) }
{
    writeln!(text, "script;{place}").map_err(|_| AllocError)
}

// The file of a replica.
pub fn push_file<K: Entry>(
    text: &mut Vec<u8>,
    member: &Member<'_, K>,
    buffer: &mut [u8],
) -> Result<(), AllocError>
    requires { length buffer.old ≡ room }
    ensures value { OnOk result (text.new.items ≡ text.old.items ++ printed K.heading K.columns (Some (state_of K.bytes member.now))) }
    ensures size { length buffer.new ≡ length buffer.old }
{
    let own = &member.tables;
    let length = match print(&member.replica, &own.tables, buffer) {
        Ok(length) => length,
        Err(refusal) => return push_refused(text, refusal),
    };
    text.extend_from_slice(&buffer[..length])?;
    Ok(())
}
