//! A script's calls by the names that lines give them.
ghost use Rattle.std.specs.Prelude.{◌≡◌};
ghost use Rattle.std.specs.Option.{option_copied};
ghost use Rattle.hist_rules.specs.Calls.{number_of, with_number, same_actor, calls_of, call_of, rebuild_of};

use store_map::{Call, CallName, ClientCall, Rebuild, RepairCall, Script};

/// The call's number among its actor's calls.
pub fn number_of(call: CallName) -> u32
    ensures { result ≡ number_of call }
{
    match call {
        CallName::Client(call) => call.number,
        CallName::Repairer(call) => call.number,
    }
}

/// Another call of the same actor.
pub fn with_number(call: CallName, number: u32) -> CallName
    ensures { result ≡ with_number call number }
{
    match call {
        CallName::Client(call) => CallName::Client(ClientCall { number, ..call }),
        CallName::Repairer(call) => CallName::Repairer(RepairCall { number, ..call }),
    }
}

/// How many calls the script has of the call's actor, none where it has no such actor.
pub fn count_calls(script: &Script, call: CallName) -> usize
    ensures { result ≡ calls_of script.now call }
{
    match call {
        CallName::Client(call) => match script.clients.as_slice().get(call.client as usize) {
            Some(part) => part.calls.len(),
            None => 0,
        },
        CallName::Repairer(call) => match script.repairers.as_slice().get(call.repairer as usize) {
            Some(part) => part.calls.len(),
            None => 0,
        },
    }
}

/// The client's call that is named so.
pub fn call_of(script: &Script, call: ClientCall) -> Option<&Call>
    ensures { option_copied result ≡ call_of script.now call }
{
    let part = script.clients.as_slice().get(call.client as usize)?;
    part.calls.as_slice().get(call.number as usize)
}

/// The repairer's call that is named so.
pub fn rebuild_of(script: &Script, call: RepairCall) -> Option<&Rebuild>
    ensures { option_copied result ≡ rebuild_of script.now call }
{
    let part = script.repairers.as_slice().get(call.repairer as usize)?;
    part.calls.as_slice().get(call.number as usize)
}
