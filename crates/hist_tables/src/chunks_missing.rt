//! Whether a call can have been unavailable, by the servers that it names.
ghost use Rattle.std.specs.Prelude.{◌≡◌, List, [], ◌∷◌, IfOk};
ghost use Rattle.store_map.specs.declared.script.Script.{Script};
ghost use Rattle.store_map.specs.declared.cause.Triple.{Triple};
ghost use Rattle.hist_rules.specs.First.{first_of, first_fault_along};
ghost use Rattle.hist_rules.specs.MissingChunk.{names_server, distinct_servers, skip_fits, away_fits, lost_later, epoch_fits, chunk_missing};
ghost use Rattle.hist_rules.specs.LostChunks.{asks_for_chunks, may_lack_chunks, chunks_lost};
ghost use Rattle.hist_tables.specs.Losses.{AreLosses};

use crate::blame::{blame_unless, downs_fit};
use crate::call_tables::call_of;
use crate::operator_counts::OperatorCounts;
use hist_rules::Verdict;
use std::alloc::{AllocError, Global};
use store_map::{Call, CallName, Found, Placement, Script, Triple};

/// How often the operator empties each server, and makes it away.
#[derive(Drop)]
pub struct Losses {
    pub wipes: OperatorCounts,
    pub downs: OperatorCounts,
}

impl Losses {
    /// The counts of the script's schedule.
    pub fn count(alloc: Global, script: &Script) -> Result<Losses, AllocError>
        ensures { IfOk result (AreLosses script.now) }
    {
        Ok(Losses {
            wipes: OperatorCounts::wipes(alloc, script)?,
            downs: OperatorCounts::downs(alloc, script)?,
        })
    }
}

fn asks_for_chunks(form: u32, call: &Call) -> bool
    ensures { result ≡ asks_for_chunks form call.now }
{
    match call {
        Call::Get { .. } => true,
        Call::ReadAt { .. } => true,
        Call::Write { .. } => true,
        Call::Put { .. } => form == 2,
        _ => false,
    }
}

fn may_lack_chunks(script: &Script, call: CallName) -> bool
    ensures { result ≡ may_lack_chunks script.now call }
{
    match call {
        CallName::Client(call) => match call_of(script, call) {
            Some(call) => asks_for_chunks(script.form, call),
            None => false,
        },
        CallName::Repairer(_) => true,
    }
}

fn names_server(server: u64, triples: &[Triple]) -> bool
    ensures { result ≡ names_server server triples.now }
{
    triples.iter().any(|triple| server == triple.server)
}

// How many different servers the triples name. A code has few.
fn distinct_servers(triples: &[Triple]) -> u64
    ensures { result ≡ distinct_servers triples.now }
{
    let mut count = 0;
    for (place, triple) in triples.iter().enumerate() {
        if !names_server(triple.server, &triples[place + 1..]) {
            count += 1;
        }
    }
    count
}

// Whether a server that took no chunk was away.
fn skip_fits(losses: &Losses, call: CallName, server: u64, placed: Placement) -> Option<Verdict>
    ensures { (script : Script) → AreLosses script losses.now → result ≡ skip_fits script call server placed }
{
    match placed {
        Placement::At(_) => None,
        Placement::Skipped(told) => downs_fit(&losses.downs, call, server, told),
    }
}

// Whether a server that gave no answer was away.
fn away_fits(losses: &Losses, call: CallName, server: u64, found: Found) -> Option<Verdict>
    ensures { (script : Script) → AreLosses script losses.now → result ≡ away_fits script call server found }
{
    match found {
        Found::Absent { .. } => None,
        Found::Away { downs } => downs_fit(&losses.downs, call, server, downs),
    }
}

// Whether a chunk that was placed was lost later.
fn lost_later(call: CallName, placed: Placement, found: Found) -> Option<Verdict>
    ensures { result ≡ lost_later call placed found }
{
    match (placed, found) {
        (Placement::At(placed), Found::Absent { epoch }) => {
            blame_unless(placed < epoch, call, placed, epoch)
        }
        _ => None,
    }
}

// Whether the server was emptied so often.
fn epoch_fits(losses: &Losses, call: CallName, server: u64, found: Found) -> Option<Verdict>
    ensures { (script : Script) → AreLosses script losses.now → result ≡ epoch_fits script call server found }
{
    match found {
        Found::Absent { epoch } => {
            let most = losses.wipes.of(server);
            blame_unless(epoch <= most, call, most, epoch)
        }
        Found::Away { .. } => None,
    }
}

// Whether a server can have told what it is said to have told.
fn answers_fit(losses: &Losses, call: CallName, triple: Triple) -> Option<Verdict>
    ensures { (script : Script) → AreLosses script losses.now → result ≡ first_of
        (skip_fits script call triple.server triple.placed ∷ away_fits script call triple.server triple.found
        ∷ lost_later call triple.placed triple.found ∷ epoch_fits script call triple.server triple.found ∷ []) }
{
    if let Some(fault) = skip_fits(losses, call, triple.server, triple.placed) {
        return Some(fault);
    }
    if let Some(fault) = away_fits(losses, call, triple.server, triple.found) {
        return Some(fault);
    }
    if let Some(fault) = lost_later(call, triple.placed, triple.found) {
        return Some(fault);
    }
    epoch_fits(losses, call, triple.server, triple.found)
}

// Whether one server of a refusal was away or had lost its chunk.
fn chunk_missing(
    script: &Script,
    losses: &Losses,
    call: CallName,
    missing: &[Triple],
    repeated: bool,
    triple: Triple,
) -> Option<Verdict>
    requires losses { AreLosses script.now losses.now }
    ensures { (before : List Triple) → repeated ≡ names_server triple.server before
        → result ≡ chunk_missing script.now call missing.now before triple }
{
    let servers = u64::from(script.geometry.n());
    if let Some(fault) = blame_unless(triple.server < servers, call, servers, triple.server) {
        return Some(fault);
    }
    if repeated {
        return Some(Verdict::BadCause {
            call,
            first: missing.len() as u64,
            second: distinct_servers(missing),
        });
    }
    answers_fit(losses, call, triple)
}

// The fault of the first server that wasn't missing. There are no more servers than the code can
// spare, and one.
fn find_present_chunk(
    script: &Script,
    losses: &Losses,
    call: CallName,
    missing: &[Triple],
) -> Option<Verdict>
    requires losses { AreLosses script.now losses.now }
    ensures { result ≡ first_fault_along (chunk_missing script.now call missing.now) missing.now }
{
    for (place, triple) in missing.iter().enumerate() {
        let repeated = names_server(triple.server, &missing[..place]);
        if let Some(fault) = chunk_missing(script, losses, call, missing, repeated, *triple) {
            return Some(fault);
        }
    }
    None
}

/// Whether the call can have been unavailable for these servers.
pub fn chunks_lost(
    script: &Script,
    losses: &Losses,
    call: CallName,
    missing: &[Triple],
) -> Option<Verdict>
    requires losses { AreLosses script.now losses.now }
    ensures { result ≡ chunks_lost script.now (call, missing.now) }
{
    if let Some(fault) = blame_unless(may_lack_chunks(script, call), call, 0, 1) {
        return Some(fault);
    }
    let wanted = u64::from(script.geometry.m()) + 1;
    let count = missing.len() as u64;
    if let Some(fault) = blame_unless(count == wanted, call, wanted, count) {
        return Some(fault);
    }
    find_present_chunk(script, losses, call, missing)
}
