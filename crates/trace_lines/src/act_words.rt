//! Who makes a step, and what the step does, in words.
ghost use Rattle.std.specs.Prelude.{◌≡◌, ◌++◌, OnOk};
ghost use Rattle.trace_lines.specs.Words.{actor_text, caller_text, shortage_text, directory_act_text, server_act_text, act_text};

use call_steps::{Act, DirectoryAct, ServerAct};
use std::alloc::AllocError;
use store_map::{Actor, ClientCall, RepairCall};
use transcript_text::append;

/// Appends the actor's call of this number.
pub fn append_caller(out: &mut Vec<u8>, who: Actor, number: u32) -> Result<(), AllocError>
    ensures { OnOk result (out.new.items ≡ out.old.items ++ caller_text who number) }
{
    match who {
        Actor::Client(client) => append(out, ClientCall { client, number }),
        Actor::Repairer(repairer) => append(out, RepairCall { repairer, number }),
        Actor::Sweeper => append(out, "s"),
        Actor::Operator => append(out, "o"),
    }
}

/// Appends what tells that memory was wanting in the coding before the step, if it was.
pub fn append_shortage(out: &mut Vec<u8>, short: bool) -> Result<(), AllocError>
    ensures { OnOk result (out.new.items ≡ out.old.items ++ shortage_text short) }
{
    if short { append(out, "!") } else { Ok(()) }
}

/// Appends the step's place, and what it does there.
pub fn append_act(out: &mut Vec<u8>, act: Act) -> Result<(), AllocError>
    ensures { OnOk result (out.new.items ≡ out.old.items ++ act_text act) }
{
    match act {
        Act::Directory(step) => {
            append(out, "d ")?;
            append_directory_act(out, step)
        }
        Act::Server(server, step) => {
            append(out, format_args!("{server} "))?;
            append_server_act(out, step)
        }
        Act::Coding => append(out, "- code"),
        Act::Finished => append(out, "- finish"),
    }
}

fn append_directory_act(out: &mut Vec<u8>, act: DirectoryAct) -> Result<(), AllocError>
    ensures { OnOk result (out.new.items ≡ out.old.items ++ directory_act_text act) }
{
    match act {
        DirectoryAct::Look => append(out, "look"),
        DirectoryAct::LookRepair => append(out, "lookrepair"),
        DirectoryAct::Draw => append(out, "draw"),
        DirectoryAct::Commit => append(out, "commit"),
        DirectoryAct::End => append(out, "end"),
        DirectoryAct::Confirm => append(out, "confirm"),
        DirectoryAct::Repaired { server, epoch } => {
            append(out, format_args!("repaired {server} {epoch}"))
        }
        DirectoryAct::NextGarbage => append(out, "garbage"),
        DirectoryAct::Swept(version) => append(out, format_args!("swept {}", version.0)),
        DirectoryAct::Reap(actor) => {
            append(out, "reap ")?;
            append_actor(out, actor)
        }
    }
}

fn append_actor(out: &mut Vec<u8>, actor: Actor) -> Result<(), AllocError>
    ensures { OnOk result (out.new.items ≡ out.old.items ++ actor_text actor) }
{
    match actor {
        Actor::Client(i) => append(out, format_args!("c{i}")),
        Actor::Repairer(i) => append(out, format_args!("r{i}")),
        Actor::Sweeper => append(out, "s"),
        Actor::Operator => append(out, "o"),
    }
}

fn append_server_act(out: &mut Vec<u8>, act: ServerAct) -> Result<(), AllocError>
    ensures { OnOk result (out.new.items ≡ out.old.items ++ server_act_text act) }
{
    match act {
        ServerAct::Prepare(version) => append(out, format_args!("prepare {}", version.0)),
        ServerAct::Settle(version) => append(out, format_args!("settle {}", version.0)),
        ServerAct::Has(version) => append(out, format_args!("has {}", version.0)),
        ServerAct::Fetch(version) => append(out, format_args!("fetch {}", version.0)),
        ServerAct::Install(version) => append(out, format_args!("install {}", version.0)),
        ServerAct::Discard(version) => append(out, format_args!("discard {}", version.0)),
        ServerAct::Wipe => append(out, "wipe"),
        ServerAct::Down => append(out, "down"),
        ServerAct::Up => append(out, "up"),
    }
}
