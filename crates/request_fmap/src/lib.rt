// `request_fmap` (src/scheme/user.rs, lines 756 to 791): a map request. It is no call, and its offset stays out of the entry.
#![tactic(auto)]

ghost use Rattle.step.specs.Does.{answer_of, effects_of, Does};
ghost use Rattle.events.specs.Event.{on, fmap};

use answer::Refusal;
use opcode::Opcode;
use schemev2::{Args, Sqe};
use step::Step;
use user_args::CallerCtx;

pub fn request_fmap(
    s: &mut [u64; 2060],
    caller: u32,
    id: u64,
    pages: u64,
    flags: u64,
    ctx: CallerCtx,
) -> Result<Step, Refusal>
    ensures { Does s.old s.new (on (fmap caller id pages flags ctx.uid ctx.gid ctx.pid)) (answer_of result) (effects_of result) }
{
    if slot_load::is_full(s) {
        return Err(Refusal::Full);
    }
    if queue_words::queue_full(s) {
        return Err(Refusal::QueueFull);
    }
    let n = slot_load::head(s);
    let v = slot::map_request(caller);
    let who = user_args::uid_gid_hack_merge(ctx.uid, ctx.gid);
    let a = Args(id, flags, pages, 0, 0, who);
    let e = Sqe {
        opcode: Opcode::RequestMmap.raw(),
        sqe_flags: 0,
        tag: n.0 as u32,
        args: a,
        caller: ctx.pid,
    };
    Ok(step::begun(s, v, e))
}
