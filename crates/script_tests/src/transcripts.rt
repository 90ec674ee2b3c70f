//! Transcripts that are written.
use std::alloc::{AllocError, Global};
use std::test::Fail;
use store_map::{
    CallName, Cause, ClientCall, Found, GLine, HLine, LLine, ListOf, Name, OLine, Placement, RLine,
    RepairCall, RepairResult, Reply, Shown, TLine, Transcript, Triple, XLine,
};
use text_tables::fault_tables::same;
use transcript_text::write_transcript;

const TEXT: &str = "\
H 9 c4294967295.0 ok
H 10 c0.1 bytes hex:0100aff0
H 11 c0.2 bytes hex:
H 12 c0.3 length 18446744073709551615
H 13 c0.4 nosuch
H 14 c0.5 outrange
H 15 c0.6 toolarge
H 18446744073709551615 c0.7 open
X c1.0 unavailable stripe 5 missing 3/0/1 10/u7/a18446744073709551615
X c1.1 contended 0/1 2/10
X c1.2 reaped 3
X c1.3 nomem
R r0.0 rebuilt
R r0.1 here
R r0.2 nosuch
R r0.3 superseded 100
R r0.4 unavailable stripe 5 missing 3/0/1 10/u7/a18446744073709551615
R r0.5 reaped 0
R r0.6 nomem
R r0.7 away 2
O c0.7
O r15.4095
L a-name_of.10 8
L b 0
G c0.1 4 4 0 0
T 0 4 1 0
T 23 18446744073709551615 0 2
end
";

fn client(client: u32, number: u32) -> ClientCall {
    ClientCall { client, number }
}

fn repair(repairer: u32, number: u32) -> RepairCall {
    RepairCall { repairer, number }
}

// Each list is filled where it stands, since a function that owns a list beside others that may fail is dear to prove.
fn add_reply(
    lines: &mut ListOf<HLine>,
    point: u64,
    call: ClientCall,
    reply: Shown,
) -> Result<(), AllocError> {
    lines.push(HLine { point, call, reply })
}

fn add_bytes(
    alloc: Global,
    lines: &mut ListOf<HLine>,
    point: u64,
    call: ClientCall,
    bytes: &[u8],
) -> Result<(), AllocError> {
    let bytes = ListOf::from_vec(Vec::from_slice(alloc, bytes)?);
    add_reply(lines, point, call, Shown::Reply(Reply::Bytes(bytes)))
}

fn add_history(alloc: Global, lines: &mut ListOf<HLine>) -> Result<(), AllocError> {
    let last = u64::MAX;
    add_reply(lines, 9, client(u32::MAX, 0), Shown::Reply(Reply::Done))?;
    add_bytes(alloc, lines, 10, client(0, 1), &[1, 0, 0xaf, 0xf0])?;
    add_bytes(alloc, lines, 11, client(0, 2), &[])?;
    add_reply(lines, 12, client(0, 3), Shown::Reply(Reply::Length(last)))?;
    add_reply(lines, 13, client(0, 4), Shown::Reply(Reply::NoSuch))?;
    add_reply(lines, 14, client(0, 5), Shown::Reply(Reply::OutRange))?;
    add_reply(lines, 15, client(0, 6), Shown::Reply(Reply::TooLarge))?;
    add_reply(lines, last, client(0, 7), Shown::Unfinished)
}

fn missing(alloc: Global) -> Result<ListOf<Triple>, AllocError> {
    Ok(ListOf::from_vec(vec![in alloc;
        Triple {
            server: 3,
            placed: Placement::At(0),
            found: Found::Absent { epoch: 1 },
        },
        Triple {
            server: 10,
            placed: Placement::Skipped(7),
            found: Found::Away { downs: u64::MAX },
        },
    ]?))
}

fn add_refusal(lines: &mut ListOf<XLine>, number: u32, cause: Cause) -> Result<(), AllocError> {
    let call = client(1, number);
    lines.push(XLine { call, cause })
}

fn add_refused(alloc: Global, lines: &mut ListOf<XLine>) -> Result<(), AllocError> {
    let missing = missing(alloc)?;
    add_refusal(lines, 0, Cause::Unavailable { stripe: 5, missing })?;
    let pairs = ListOf::from_vec(vec![in alloc; (0, 1), (2, 10)]?);
    add_refusal(lines, 1, Cause::Contended { pairs })?;
    add_refusal(lines, 2, Cause::Reaped { at: 3 })?;
    add_refusal(lines, 3, Cause::NoMemory)
}

fn add_repair(
    lines: &mut ListOf<RLine>,
    number: u32,
    came: RepairResult,
) -> Result<(), AllocError> {
    lines.push(RLine {
        call: repair(0, number),
        result: came,
    })
}

fn add_repairs(alloc: Global, lines: &mut ListOf<RLine>) -> Result<(), AllocError> {
    add_repair(lines, 0, RepairResult::Rebuilt)?;
    add_repair(lines, 1, RepairResult::Here)?;
    add_repair(lines, 2, RepairResult::NoSuch)?;
    add_repair(lines, 3, RepairResult::Superseded { newer: 100 })?;
    let missing = missing(alloc)?;
    add_repair(lines, 4, RepairResult::Unavailable { stripe: 5, missing })?;
    add_repair(lines, 5, RepairResult::Reaped { at: 0 })?;
    add_repair(lines, 6, RepairResult::NoMemory)?;
    add_repair(lines, 7, RepairResult::Away { downs: 2 })
}

fn add_unanswered(lines: &mut ListOf<OLine>) -> Result<(), AllocError> {
    lines.push(OLine {
        call: CallName::Client(client(0, 7)),
    })?;
    lines.push(OLine {
        call: CallName::Repairer(repair(15, 4095)),
    })
}

fn add_object(
    alloc: Global,
    lines: &mut ListOf<LLine>,
    name: &str,
    length: u64,
) -> Result<(), Fail> {
    let name = Name::new(alloc, name)?;
    Ok(lines.push(LLine { name, length })?)
}

fn add_takes(alloc: Global, lines: &mut ListOf<GLine>) -> Result<(), AllocError> {
    let takes = ListOf::from_vec(vec![in alloc; 4, 4, 0, 0]?);
    let call = CallName::Client(client(0, 1));
    lines.push(GLine { call, takes })
}

fn add_servers(lines: &mut ListOf<TLine>) -> Result<(), AllocError> {
    lines.push(TLine {
        server: 0,
        taken: 4,
        held: 1,
        epoch: 0,
    })?;
    lines.push(TLine {
        server: 23,
        taken: u64::MAX,
        held: 0,
        epoch: 2,
    })
}

fn fill(alloc: Global, transcript: &mut Transcript) -> Result<(), Fail> {
    add_history(alloc, &mut transcript.history)?;
    add_refused(alloc, &mut transcript.refused)?;
    add_repairs(alloc, &mut transcript.repairs)?;
    add_unanswered(&mut transcript.unanswered)?;
    add_object(alloc, &mut transcript.objects, "a-name_of.10", 8)?;
    add_object(alloc, &mut transcript.objects, "b", 0)?;
    add_takes(alloc, &mut transcript.takes)?;
    Ok(add_servers(&mut transcript.servers)?)
}

fn empty(alloc: Global) -> Transcript {
    Transcript {
        history: ListOf::new(alloc),
        refused: ListOf::new(alloc),
        repairs: ListOf::new(alloc),
        unanswered: ListOf::new(alloc),
        objects: ListOf::new(alloc),
        takes: ListOf::new(alloc),
        servers: ListOf::new(alloc),
    }
}

// Its lists are borrowed, since each `?` in a function that owns them drops them all.
fn is_written(alloc: Global, transcript: &mut Transcript) -> Result<(), Fail> {
    fill(alloc, transcript)?;
    same(&write_transcript(alloc, transcript)?, TEXT.as_bytes())
}

#[test]
fn writes_every_form_of_line(rt: HostRuntime) -> Result<(), Fail> {
    let mut transcript = empty(rt.alloc());
    is_written(rt.alloc(), &mut transcript)
}
