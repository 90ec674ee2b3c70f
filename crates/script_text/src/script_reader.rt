//! A script that is read line by line, behind its code line.
ghost use Rattle.std.specs.Prelude.{◌≡◌, ◌<◌, ◌↔◌, IsSome, IsTrue, IfSome, vec_len};
ghost use Rattle.clay_grid.specs.Shape.{chunk_count};
ghost use Rattle.script_text.specs.Place.{next_place};
ghost use Rattle.script_text.specs.Behind.{pending};
ghost use Rattle.script_text.specs.Fault.{NamesActorOf, server_of_step};
ghost use Rattle.script_text.specs.Pushes.{PushesCall, PushesRebuild};
ghost use Rattle.line_grammar.specs.Forms.{IsForm};
ghost use Rattle.line_grammar.specs.Lines.{IsFirstWord};
ghost use Rattle.clay_grid.specs.Limits.{IsGeometry};
ghost use Rattle.script_text.specs.Reader.{script_of, opened, IsSound, IsOfKind, Takes};

use crate::load::Load;
use crate::script_place::{LineKind, ScriptPlace, kind_named, next_place};
use clay_grid::Geometry;
use line_grammar::{
    FaultKind, is_text, read_call, read_numbered, read_rebuild, read_token, split_at_first,
};
use std::alloc::Global;
use store_map::{
    Call, ClientPart, DEFAULT_SIZE, ListOf, MAX_CALLS, MAX_CLIENTS, MAX_REPAIRERS, MAX_SCHEDULE,
    MAX_SIZE, MAX_TRIES, Rebuild, RepairPart, Script, Token,
};

const SIZE: &[u8] = b"size ";

const TRIES: &[u8] = b"tries ";

const LEAVE: &[u8] = b"leave ";

/// The script of the lines read so far, and the place behind them.
#[derive(Drop)]
pub struct Reader {
    pub place: ScriptPlace,
    pub form: u32,
    pub geometry: Geometry,
    pub size: Option<u32>,
    pub tries: Option<u32>,
    pub clients: Vec<ClientPart>,
    pub repairers: Vec<RepairPart>,
    pub schedule: Vec<Token>,
    pub load: Load,
}

impl Reader {
    /// A reader behind the code line.
    pub fn new(alloc: Global, form: u32, geometry: Geometry) -> Reader
        ensures script { script_of result ≡ opened form geometry }
        ensures place { result.place ≡ ScriptPlace.Code }
        ensures sound { IsForm form → IsGeometry geometry → IsSound result }
    {
        Reader {
            place: ScriptPlace::Code,
            form,
            geometry,
            size: None,
            tries: None,
            clients: Vec::new(alloc),
            repairers: Vec::new(alloc),
            schedule: Vec::new(alloc),
            load: Load::NONE,
        }
    }

    /// Whether the line `end` was read.
    pub fn has_ended(&self) -> bool
        ensures { IsTrue result ↔ (self.now.place ≡ ScriptPlace.End) }
    {
        matches!(self.place, ScriptPlace::End)
    }

    /// The script so far.
    pub fn into_script(self) -> Script
        ensures { result ≡ script_of self }
    {
        let Reader {
            form,
            geometry,
            size,
            tries,
            clients,
            repairers,
            schedule,
            ..
        } = self;
        Script {
            form,
            geometry,
            size,
            tries,
            clients: ListOf::from_vec(clients),
            repairers: ListOf::from_vec(repairers),
            schedule: ListOf::from_vec(schedule),
        }
    }

    // Goes on by the line of the greatest length of an object.
    fn take_size(&mut self, line: &[u8]) -> Result<(), FaultKind>
        requires sound { IsSound self.old }
        requires place { IsSome (next_place self.old.place LineKind.Size 0) }
        requires kind { IsOfKind line.now LineKind.Size }
        ensures { Takes self.old line.now result self.new }
    {
        let size = read_numbered(SIZE, line)?;
        if size < 1 || size > MAX_SIZE {
            return Err(FaultKind::Limit);
        }
        self.size = Some(size);
        self.place = ScriptPlace::Size;
        Ok(())
    }

    // Goes on by the line of the number of tries.
    fn take_tries(&mut self, line: &[u8]) -> Result<(), FaultKind>
        requires sound { IsSound self.old }
        requires place { IsSome (next_place self.old.place LineKind.Tries 0) }
        requires kind { IsOfKind line.now LineKind.Tries }
        ensures { Takes self.old line.now result self.new }
    {
        let tries = read_numbered(TRIES, line)?;
        if tries < 1 || tries > MAX_TRIES {
            return Err(FaultKind::Limit);
        }
        self.tries = Some(tries);
        self.place = ScriptPlace::Tries;
        Ok(())
    }

    // Goes on by the first line of a client's block.
    fn take_client(&mut self, alloc: Global, line: &[u8]) -> Result<(), FaultKind>
        requires sound { IsSound self.old }
        requires place { IsSome (next_place self.old.place LineKind.Client 0) }
        requires kind { IsOfKind line.now LineKind.Client }
        ensures { Takes self.old line.now result self.new }
    {
        if !is_text(line, b"client") {
            return Err(FaultKind::Syntax);
        }
        if self.clients.as_slice().len() == MAX_CLIENTS {
            return Err(FaultKind::Limit);
        }
        let part = ClientPart {
            calls: ListOf::new(alloc),
            leave: None,
        };
        let Ok(()) = self.clients.push(part) else {
            return Err(FaultKind::OutOfMemory);
        };
        self.place = ScriptPlace::Client;
        Ok(())
    }

    // Goes on by the first line of a repairer's block.
    fn take_repairer(&mut self, alloc: Global, line: &[u8]) -> Result<(), FaultKind>
        requires sound { IsSound self.old }
        requires place { IsSome (next_place self.old.place LineKind.Repairer 0) }
        requires kind { IsOfKind line.now LineKind.Repairer }
        ensures { Takes self.old line.now result self.new }
    {
        if !is_text(line, b"repairer") {
            return Err(FaultKind::Syntax);
        }
        if self.repairers.as_slice().len() == MAX_REPAIRERS {
            return Err(FaultKind::Limit);
        }
        let part = RepairPart {
            calls: ListOf::new(alloc),
            leave: None,
        };
        let Ok(()) = self.repairers.push(part) else {
            return Err(FaultKind::OutOfMemory);
        };
        self.place = ScriptPlace::Repairer;
        Ok(())
    }

    // Goes on by the step limit of the call that stands next.
    fn take_leave(&mut self, line: &[u8]) -> Result<(), FaultKind>
        requires sound { IsSound self.old }
        requires place { IsSome (next_place self.old.place LineKind.Leave 0) }
        requires kind { IsOfKind line.now LineKind.Leave }
        ensures { Takes self.old line.now result self.new }
    {
        let steps = read_numbered(LEAVE, line)?;
        let Some(place) = next_place(self.place, LineKind::Leave, steps) else {
            return Err(FaultKind::Syntax);
        };
        self.place = place;
        Ok(())
    }

    // Goes on by the line before the schedule's.
    fn take_schedule(&mut self, line: &[u8]) -> Result<(), FaultKind>
        requires sound { IsSound self.old }
        requires place { IsSome (next_place self.old.place LineKind.Schedule 0) }
        requires kind { IsOfKind line.now LineKind.Schedule }
        ensures { Takes self.old line.now result self.new }
    {
        if !is_text(line, b"schedule") {
            return Err(FaultKind::Syntax);
        }
        self.place = ScriptPlace::Schedule;
        Ok(())
    }

    // Goes on by the last line.
    fn take_end(&mut self, line: &[u8]) -> Result<(), FaultKind>
        requires sound { IsSound self.old }
        requires place { IsSome (next_place self.old.place LineKind.End 0) }
        requires kind { IsOfKind line.now LineKind.End }
        ensures { Takes self.old line.now result self.new }
    {
        if !is_text(line, b"end") {
            return Err(FaultKind::Syntax);
        }
        self.place = ScriptPlace::End;
        Ok(())
    }

    // Whether the script so far has the actor that a step names.
    fn has_actor(&self, token: Token) -> bool
        ensures { IsTrue result ↔ NamesActorOf (script_of self.now) token }
    {
        match token {
            Token::Client(client) | Token::ReapClient(client) => {
                (client as usize) < self.clients.len()
            }
            Token::Repairer(repairer) | Token::ReapRepairer(repairer) => {
                (repairer as usize) < self.repairers.len()
            }
            Token::Sweep | Token::Wipe(_) | Token::Down(_) | Token::Up(_) | Token::Drain => true,
        }
    }

    // Whether the code has the server that a step names.
    fn has_server(&self, token: Token) -> bool
        ensures { IsTrue result ↔
            IfSome (server_of_step token) (λ server. server < chunk_count self.now.geometry) }
    {
        match token {
            Token::Wipe(server) | Token::Down(server) | Token::Up(server) => {
                server < self.geometry.n()
            },
            Token::Client(_)
            | Token::Repairer(_)
            | Token::Sweep
            | Token::ReapClient(_)
            | Token::ReapRepairer(_)
            | Token::Drain => true,
        }
    }

    // Goes on by a line of the schedule.
    fn take_step(&mut self, line: &[u8]) -> Result<(), FaultKind>
        requires sound { IsSound self.old }
        requires place { IsSome (next_place self.old.place LineKind.Step 0) }
        requires kind { IsOfKind line.now LineKind.Step }
        ensures { Takes self.old line.now result self.new }
    {
        let token = read_token(self.form, line)?;
        if self.schedule.as_slice().len() == MAX_SCHEDULE {
            return Err(FaultKind::Limit);
        }
        if !self.has_actor(token) {
            return Err(FaultKind::NoSuchActor);
        }
        if !self.has_server(token) {
            return Err(FaultKind::NoSuchServer);
        }
        let Ok(()) = self.schedule.push(token) else {
            return Err(FaultKind::OutOfMemory);
        };
        Ok(())
    }

    // Goes on by a client's call.
    fn take_call(&mut self, alloc: Global, line: &[u8]) -> Result<(), FaultKind>
        requires sound { IsSound self.old }
        requires place { IsSome (next_place self.old.place LineKind.Call 0) }
        requires kind { IsOfKind line.now LineKind.Call }
        ensures { Takes self.old line.now result self.new }
    {
        let call = read_call(alloc, line)?;
        let stripe_len = u64::from(self.geometry.stripe_len());
        let size = self.size.unwrap_or(DEFAULT_SIZE);
        let load = self.load.with_call(stripe_len, size, &call);
        if !load.is_allowed(stripe_len) {
            drop(call);
            return Err(FaultKind::Limit);
        }
        let leave = pending(self.place);
        push_call(&mut self.clients, call, leave)?;
        let Some(place) = next_place(self.place, LineKind::Call, 0) else {
            return Err(FaultKind::Syntax);
        };
        self.load = load;
        self.place = place;
        Ok(())
    }

    // Goes on by a repairer's call.
    fn take_rebuild(&mut self, alloc: Global, line: &[u8]) -> Result<(), FaultKind>
        requires sound { IsSound self.old }
        requires place { IsSome (next_place self.old.place LineKind.Rebuild 0) }
        requires kind { IsOfKind line.now LineKind.Rebuild }
        ensures { Takes self.old line.now result self.new }
    {
        let rebuild = read_rebuild(alloc, line)?;
        let server = rebuild.server;
        let leave = pending(self.place);
        // a limit goes before a server that isn't there
        push_rebuild(&mut self.repairers, rebuild, leave)?;
        if server >= self.geometry.n() {
            return Err(FaultKind::NoSuchServer);
        }
        let Some(place) = next_place(self.place, LineKind::Rebuild, 0) else {
            return Err(FaultKind::Syntax);
        };
        self.place = place;
        Ok(())
    }

    /// Goes on by a line, without its line feed. After an error the reader is of no use.
    pub fn take_line(&mut self, alloc: Global, line: &[u8]) -> Result<(), FaultKind>
        requires sound { IsSound self.old }
        ensures { Takes self.old line.now result self.new }
    {
        let Some(kind) = kind_named(first_word(line)) else {
            return Err(FaultKind::Syntax);
        };
        if next_place(self.place, kind, 0).is_none() {
            return Err(FaultKind::Syntax);
        }
        match kind {
            LineKind::Size => self.take_size(line),
            LineKind::Tries => self.take_tries(line),
            LineKind::Client => self.take_client(alloc, line),
            LineKind::Repairer => self.take_repairer(alloc, line),
            LineKind::Leave => self.take_leave(line),
            LineKind::Call => self.take_call(alloc, line),
            LineKind::Rebuild => self.take_rebuild(alloc, line),
            LineKind::Schedule => self.take_schedule(line),
            LineKind::Step => self.take_step(line),
            LineKind::End => self.take_end(line),
            LineKind::Clay | LineKind::Code => Err(FaultKind::Syntax),
        }
    }
}

// A line up to its first space.
fn first_word(line: &[u8]) -> &[u8]
    ensures { IsFirstWord line.now result.now }
{
    match split_at_first(b' ', line) {
        Some((word, _)) => word,
        None => line,
    }
}

// The step limit of the call that stands next.
fn pending(place: ScriptPlace) -> Option<u32>
    ensures { result ≡ pending place }
{
    match place {
        ScriptPlace::ClientLimit(steps) | ScriptPlace::RepairerLimit(steps) => Some(steps),
        _ => None,
    }
}

// Adds a call to the last of the blocks, with its step limit.
fn push_call(clients: &mut Vec<ClientPart>, call: Call, leave: Option<u32>) -> Result<(), FaultKind>
    requires { 0 < vec_len clients.old }
    ensures { PushesCall clients.old.items call leave result clients.new.items }
{
    let Some(part) = clients.pop() else {
        drop(call);
        return Err(FaultKind::Syntax);
    };
    let ClientPart { mut calls, .. } = part;
    if calls.len() == MAX_CALLS {
        drop(call);
        drop(calls);
        return Err(FaultKind::Limit);
    }
    let Ok(()) = calls.push(call) else {
        drop(calls);
        return Err(FaultKind::OutOfMemory);
    };
    let Ok(()) = clients.push(ClientPart { calls, leave }) else {
        return Err(FaultKind::OutOfMemory);
    };
    Ok(())
}

// Adds a rebuild to the last of the blocks, with its step limit.
fn push_rebuild(
    repairers: &mut Vec<RepairPart>,
    rebuild: Rebuild,
    leave: Option<u32>,
) -> Result<(), FaultKind>
    requires { 0 < vec_len repairers.old }
    ensures { PushesRebuild repairers.old.items rebuild leave result repairers.new.items }
{
    let Some(part) = repairers.pop() else {
        drop(rebuild);
        return Err(FaultKind::Syntax);
    };
    let RepairPart {
        calls: mut rebuilds,
        ..
    } = part;
    if rebuilds.len() == MAX_CALLS {
        drop(rebuild);
        drop(rebuilds);
        return Err(FaultKind::Limit);
    }
    let Ok(()) = rebuilds.push(rebuild) else {
        drop(rebuilds);
        return Err(FaultKind::OutOfMemory);
    };
    let Ok(()) = repairers.push(RepairPart {
        calls: rebuilds,
        leave,
    }) else {
        return Err(FaultKind::OutOfMemory);
    };
    Ok(())
}
