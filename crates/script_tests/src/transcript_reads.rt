//! Transcripts that are read, whole and damaged.
use std::alloc::Global;
use std::test::Fail;
use store_map::Transcript;
use text_tables::fault_tables::{Around, Reader, have_faults, same};
use transcript_read::read_transcript;
use transcript_text::write_transcript;

// A line of each form, with three servers.
const WHOLE: &[u8] = b"\
H 9 c4294967295.0 ok
H 10 c0.1 bytes hex:0100aff0
H 11 c0.2 bytes hex:
H 12 c0.3 length 18446744073709551615
H 13 c0.4 nosuch
H 14 c0.5 outrange
H 15 c0.6 toolarge
H 18446744073709551615 c0.7 open
X c1.0 unavailable stripe 5 missing 3/0/1 10/u7/a18446744073709551615
X c1.1 contended 0/1 2/10
X c1.2 reaped 3
X c1.3 nomem
R r0.0 rebuilt
R r0.1 here
R r0.2 nosuch
R r0.3 superseded 100
R r0.4 unavailable stripe 5 missing 3/0/1 10/u7/a18446744073709551615
R r0.5 reaped 0
R r0.6 nomem
R r0.7 away 2
O c0.7
O r15.4095
L b 0
L a-name_of.10 8
G c0.1 4 0 0
T 0 4 1 0
T 1 0 0 0
T 2 18446744073709551615 0 2
end
";

fn transcript_of(alloc: Global, text: &[u8], servers: u32) -> Result<Transcript, Fail> {
    if text.len() >= 1 << 31 {
        return Err(Fail::from("too long"));
    }
    match read_transcript(alloc, text, servers) {
        Ok(transcript) => Ok(transcript),
        Err(_) => Err(Fail::from("refused")),
    }
}

// It is borrowed, since each `?` in a function that owns a transcript drops all of its lists.
fn is_whole(alloc: Global, transcript: &Transcript) -> Result<(), Fail> {
    if transcript.history.len() != 8 || transcript.servers.len() != 3 {
        return Err(Fail::from("other numbers of lines"));
    }
    same(&write_transcript(alloc, transcript)?, WHOLE)
}

#[test]
fn reads_every_form_of_line(rt: HostRuntime) -> Result<(), Fail> {
    is_whole(rt.alloc(), &transcript_of(rt.alloc(), WHOLE, 3)?)
}

// The ends of transcripts with two servers.
const SERVERS: &[u8] = b"T 0 0 0 0\nT 1 0 0 0\nend\n";

const WITHOUT_THEIR_FORM: &[u8] = b"\
    line 1: syntax>\n|\
    line 1: syntax>H 00 c0.0 ok\n|\
    line 1: syntax>H 18446744073709551616 c0.0 ok\n|\
    line 1: syntax>H 0 c4294967296.0 ok\n|\
    line 1: syntax>H 0 c0 ok\n|\
    line 1: syntax>H 0 r0.0 ok\n|\
    line 1: syntax>H 0 c0.0 ok \n|\
    line 1: syntax>H 0  c0.0 ok\n|\
    line 1: syntax>H 0 c0.0\n|\
    line 1: syntax>H 0 c0.0 bytes hex:0\n|\
    line 1: syntax>H 0 c0.0 bytes hex:0A\n|\
    line 1: syntax>H 0 c0.0 length -1\n|\
    line 1: syntax>X r0.0 nomem\n|\
    line 1: syntax>X c0.0 contended\n|\
    line 1: syntax>X c0.0 contended 1\n|\
    line 1: syntax>X c0.0 contended 1/2/3\n|\
    line 1: syntax>X c0.0 unavailable stripe 0 missing\n|\
    line 1: syntax>X c0.0 unavailable stripe 0 missing 0/a1/0\n|\
    line 1: syntax>X c0.0 unavailable stripe 0 missing 0/1/u0\n|\
    line 1: syntax>X c0.0 rebuilt\n|\
    line 1: syntax>R c0.0 here\n|\
    line 1: syntax>R r0.0 away\n|\
    line 1: syntax>O c0.0 \n|\
    line 1: syntax>L A 0\n|\
    line 1: syntax>G c0.0 1\n|\
    line 1: syntax>G c0.0 1 0 0\n|\
    line 1: syntax>G c0.0 0 0\n|\
    line 1: syntax>T 1 0 0 0\n|\
    line 1: syntax>end\n";

const OUT_OF_ORDER: &[u8] = b"\
    line 2: syntax>H 1 c0.0 ok\nH 1 c0.1 ok\n|\
    line 2: syntax>X c0.0 nomem\nH 1 c0.1 ok\n|\
    line 2: syntax>X c1.0 nomem\nX c0.1 nomem\n|\
    line 2: syntax>X c1.1 nomem\nX c1.1 nomem\n|\
    line 2: syntax>O r0.0\nO c1.1\n|\
    line 3: syntax>L a 0\nL a 0\nO c0.0\n|\
    line 2: syntax>G c0.1 1 0\nG c0.0 0 1\n|\
    line 2: syntax>T 0 0 0 0\nT 0 0 0 0\n|\
    line 2: syntax>T 0 0 0 0\nend\n|\
    line 3: syntax>T 0 0 0 0\nT 1 0 0 0\nT 2 0 0 0\n|\
    line 4: syntax>T 0 0 0 0\nT 1 0 0 0\nend\n";

const WITHOUT_THE_LAST_LINE: &[u8] = b"\
    line 1: missing end>|\
    line 1: missing end>en|\
    line 1: missing end>end|\
    line 2: missing end>O c0.0\nO c0.1|\
    line 2: syntax>O c0.1\nO c0.0\nO c0|\
    line 2: syntax>end\nx|\
    line 2: syntax>end\n\n";

// Holds the text of each row of a table, with this behind it, against the fault of that row.
fn has_faults(
    alloc: Global,
    behind: &[u8],
    servers: u32,
    rows: usize,
    table: &[u8],
) -> Result<(), Fail> {
    let around = Around {
        before: b"",
        behind,
    };
    have_faults(alloc, Reader::Transcript(servers), around, rows, table)
}

#[test]
fn refuses_damaged_transcripts(rt: HostRuntime) -> Result<(), Fail> {
    has_faults(rt.alloc(), SERVERS, 2, 29, WITHOUT_THEIR_FORM)?;
    has_faults(rt.alloc(), SERVERS, 2, 11, OUT_OF_ORDER)?;
    has_faults(rt.alloc(), b"", 0, 7, WITHOUT_THE_LAST_LINE)?;
    let _empty = transcript_of(rt.alloc(), b"end\n", 0)?;
    Ok(())
}
