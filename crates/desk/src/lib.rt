// One call of a script, carried out on a map with closures.
#![tactic(auto)]

ghost use Rattle.std.specs.Prelude.{◌≡◌, ℕ, Bool, true, false, Some, IfOk, OnErr};
ghost use Rattle.desk.specs.Answering.{Granted, Answered, Unanswered};
ghost use Rattle.desk.specs.Telling.{reply_text};

use answers::{ArcsWords, RefusalWords};
use script::calls::Call;
use std::alloc::{AllocError, Global};
use std::fmt;
use street_lists::open_arcs;
use streets::arc::Arc;
use streets::closures::ClosureLayer;
use streets::map::Map;
use streets::refusal::Refusal;

// What a call is answered. `Display` gives the words.
#[derive(Drop)]
pub enum Reply {
    Granted,
    Refused(RefusalWords),
    Arcs(Vec<Arc>),
}

impl From<Result<(), Refusal>> for Reply {
    ghost from_gives = { λ res reply. Granted res (reply_text reply) };

    fn from(res: Result<(), Refusal>) -> Reply {
        match res {
            Ok(()) => Reply::Granted,
            Err(refusal) => Reply::Refused(RefusalWords::new(refusal)),
        }
    }
}

impl fmt::Display for Reply {
    ghost output = { λ reply. Some (reply_text reply) };

    fn fmt<W: fmt::Write>(&self, f: &mut fmt::Formatter<W>) -> fmt::Result {
        match self {
            Reply::Granted => f.write_str("granted"),
            Reply::Refused(words) => write!(f, "{words}"),
            Reply::Arcs(arcs) => write!(f, "{}", ArcsWords(arcs)),
        }
    }
}

// What the call answers. Only the arcs of a point take memory: a closure is always answered.
pub fn answer<M: Map>(
    heap: Global,
    layer: &mut ClosureLayer<M>,
    call: Call,
) -> Result<Reply, AllocError>
    ensures below { layer.new.below ≡ layer.old.below }
    ensures answered { IfOk result (λ reply. Answered (M.view layer.old.below) layer.old.shut.table layer.new.shut.table call (reply_text reply)) }
    ensures unanswered { OnErr result (Unanswered layer.old.shut.table layer.new.shut.table call) }
{
    // A number of a script is as wide as an index, and no `From` goes between the two.
    Ok(match call {
        Call::Shut(arc) => layer.shut(arc as usize).into(),
        Call::Reopen(arc) => layer.reopen(arc as usize).into(),
        Call::Arcs(point) => Reply::Arcs(open_arcs(heap, layer, point as usize)?),
    })
}
