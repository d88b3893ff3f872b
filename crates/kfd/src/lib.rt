// `kfdwrite` and `kfdread` (src/scheme/user.rs, lines 1958 to 2046): descriptions that are sent with a call, and a call that asks for
// some. Each is a `call` with an opcode and arguments of its own.
#![tactic(auto)]

ghost use Rattle.std.specs.Prelude.{◌≡◌, length};
ghost use Rattle.events.specs.Submit.{fdwrite_args, fdread_args};
ghost use Rattle.step.specs.Does.{answer_of, effects_of, Does};
ghost use Rattle.events.specs.Event.{on, fdwrite, fdread};

use answer::Refusal;
use opcode::Opcode;
use schemev2::Args;
use step::Step;
use user_args::CallerCtx;

fn send_args(number: u64, flags: u64, metadata: &[u64], fds: &[u64]) -> Args
    ensures { result ≡ fdwrite_args number flags metadata.now fds.now }
{
    let told = flag::send_fd_flags(flags);
    let first = generic_entry::word_or_zero(metadata, 0);
    Args(number, told, first, fds.len() as u64, 0, 0)
}

// A description takes a word of eight bytes in the payload.
fn recv_args(number: u64, len: u64, flags: u64, metadata: &[u64]) -> Args
    ensures { result ≡ fdread_args number len flags metadata.now }
{
    let told = flag::recv_fd_flags(flags);
    let first = generic_entry::word_or_zero(metadata, 0);
    let second = generic_entry::word_or_zero(metadata, 1);
    Args(number, told, len / 8, first, second, 0)
}

pub fn kfdwrite(
    s: &mut [u64; 2060],
    fds: &[u64],
    metadata: &[u64],
    caller: u32,
    number: u64,
    flags: u64,
    ctx: CallerCtx,
) -> Result<Step, Refusal>
    ensures { Does s.old s.new (on (fdwrite caller number flags metadata.now ctx.uid ctx.gid ctx.pid fds.now)) (answer_of result) (effects_of result) }
{
    let args = send_args(number, flags, metadata, fds);
    let op = Opcode::Sendfd.raw() as u64;
    call::call(s, fds, caller, op, args, ctx)
}

// The length is looked at first, before a slot is looked for.
pub fn kfdread(
    s: &mut [u64; 2060],
    metadata: &[u64],
    caller: u32,
    number: u64,
    len: u64,
    flags: u64,
    ctx: CallerCtx,
) -> Result<Step, Refusal>
    ensures { Does s.old s.new (on (fdread caller number len flags metadata.now ctx.uid ctx.gid ctx.pid)) (answer_of result) (effects_of result) }
{
    if len % 8 != 0 {
        return Err(Refusal::Invalid);
    }
    let args = recv_args(number, len, flags, metadata);
    let op = Opcode::Recvfd.raw() as u64;
    call::call(s, &[], caller, op, args, ctx)
}
