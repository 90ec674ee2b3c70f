//! The coding and the step of a caller's call.
ghost use Rattle.std.specs.Prelude.{◌≡◌, is_some, IsTrue, IfSome};
ghost use Rattle.chunk_server.specs.State.{IsSame};
ghost use Rattle.chunk_server.specs.Core.{core_of};
ghost use Rattle.call_steps.specs.Hearing.{IsToldHere, IsToldThere};
ghost use Rattle.call_steps.specs.Steps.{need_of};
ghost use Rattle.call_machine.specs.Going.{GoesOn};
ghost use Rattle.actors.specs.Steps.{GoesToDirectory, GoesToServer, IsCoded, IsMadeThere, IsMadeHere};

use call_machine::CallMachine;
use call_steps::{DirectoryAnswer, ServerAnswer};
use chunk_server::Server;
use clay_model::Coder;
use std::snapshot::Snapshot;
use std::thread::Threads;
use stripe_dir::Directory;
use version_seal::Book;

/// The coding before the next step of the call in work, if one is due: whether memory was wanting in
/// it.
pub(crate) fn on_coder<R: Threads + Sync, C: Coder>(
    rt: &R,
    coder: &C,
    call: &mut Option<CallMachine>,
) -> bool
    requires there { IsTrue (is_some call.old) }
    requires goes { IfSome call.old (λ c. GoesOn (need_of c.call)) }
    ensures { IsCoded result call.old call.new }
{
    match call {
        Some(call) => call.ready(rt, coder),
        None => unreachable!(),
    }
}

/// The step of the call in work at the directory: the call as the step leaves it, and the answer.
pub(crate) fn step_call_at_directory<'a>(
    call: &mut Option<CallMachine<'a>>,
    directory: &mut Directory,
    book: &Book,
) -> (Snapshot<CallMachine<'a>>, DirectoryAnswer)
    requires goes { GoesToDirectory call.old directory.old }
    requires book { IfSome call.old (λ c. book.now ≡ c.call.book) }
    ensures made { IsMadeThere result.0.value call.old directory.old call.new directory.new }
    ensures told { IfSome call.old (λ c. IsToldThere result.1 c.call directory.old.core result.0.value.call) }
    ensures book { directory.new.book ≡ directory.old.book }
{
    match call {
        Some(call) => {
            let answer = call.on_directory(directory, book);
            (Snapshot::of(call), answer)
        }
        None => unreachable!(),
    }
}

/// The step of the call in work at the server that it needs: the call as the step leaves it, and the
/// answer.
pub(crate) fn step_call_at_server<'a>(
    call: &mut Option<CallMachine<'a>>,
    server: &mut Server,
) -> (Snapshot<CallMachine<'a>>, ServerAnswer)
    requires goes { GoesToServer call.old server.old }
    ensures made { IsMadeHere result.0.value call.old server.old call.new server.new }
    ensures told { IfSome call.old (λ c. IsToldHere result.1 c.call (core_of server.old) result.0.value.call) }
    ensures same { IsSame server.old server.new }
{
    match call {
        Some(call) => {
            let answer = call.on_server(server);
            (Snapshot::of(call), answer)
        }
        None => unreachable!(),
    }
}
