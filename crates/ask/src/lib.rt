// What a caller asks for: its opcode, and a list of descriptions with outside holds, which are not taken yet.
#![tactic(auto)]

ghost use Rattle.std.specs.Prelude.{◌≡◌};
ghost use Rattle.layout.specs.Layout.{plain_of};
ghost use Rattle.ask.specs.Asked.{asked_of};

use answer::Refusal;
use fd_list::List;
use opcode::Opcode;

// Its opcode's number and its list.
#[derive(Clone, Copy)]
pub struct Asked {
    pub opcode: u8,
    pub list: List,
}

pub fn ask(s: &[u64; 2060], opcode: u64, fds: &[u64]) -> Result<Asked, Refusal>
    ensures { result ≡ asked_of (plain_of s.now) opcode fds.now }
{
    let op = Opcode::try_from_raw(opcode).ok_or(Refusal::BadArgument)?;
    let opcode = op.raw();
    if fds.is_empty() {
        return Ok(Asked {
            opcode,
            list: fd_list::empty(),
        });
    }
    let Some(list) = hold_words::listed(s, &fds[..]) else {
        return Err(hold_words::refused(s, fds));
    };
    Ok(Asked { opcode, list })
}
