// `UserInner::call` (src/scheme/user.rs, lines 195 to 254): a slot is given out and its entry queued; argument 5 is
// overwritten with uid and gid.
#![tactic(auto)]

ghost use Rattle.step.specs.Does.{answer_of, effects_of, Does};
ghost use Rattle.events.specs.Event.{on, call as callEvent};

use answer::Refusal;
use schemev2::{Args, Sqe};
use step::Step;
use user_args::CallerCtx;

pub fn call(
    s: &mut [u64; 2060],
    fds: &[u64],
    caller: u32,
    opcode: u64,
    args: Args,
    ctx: CallerCtx,
) -> Result<Step, Refusal>
    ensures { Does s.old s.new (on (callEvent caller opcode args ctx.uid ctx.gid ctx.pid fds.now)) (answer_of result) (effects_of result) }
{
    // lent anew: its pointer and length are then loaded apart, and not as one right after they were stored
    let asked = ask::ask(s, opcode, &fds[..])?;
    if slot_load::is_full(s) {
        return Err(Refusal::Full);
    }
    if queue_words::queue_full(s) {
        return Err(Refusal::QueueFull);
    }
    let n = slot_load::head(s);
    let list = asked.list;
    let v = slot::waiting(caller, list);
    let who = user_args::uid_gid_hack_merge(ctx.uid, ctx.gid);
    let a = Args(args.0, args.1, args.2, args.3, args.4, who);
    let e = Sqe {
        opcode: asked.opcode,
        sqe_flags: 0,
        tag: n.0 as u32,
        args: a,
        caller: ctx.pid,
    };
    hold_words::take(s, list);
    Ok(step::begun(s, v, e))
}
