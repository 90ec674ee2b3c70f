//! Frames, read and answered one after another.
ghost use Rattle.std.specs.Prelude.{◌≡◌, ◌+◌, ◌<◌, ◌^◌, List, ℕ, length, OnOk, OnErr};
ghost use Rattle.clay_bytes.specs.Stream.{Rises, HandsOut, Accepts};
ghost use Rattle.clay_grid.specs.Shape.{chunk_count};
ghost use Rattle.session_rules.specs.State.{State};
ghost use Rattle.session_rules.specs.declared.session_ending.Ending.{Ending};
ghost use Rattle.session_store.specs.Standing.{StandsAt};
ghost use Rattle.frame_session.specs.Status.{status_of};
ghost use Rattle.frame_session.specs.Session.{IsSessionOf, IsSessionIn, IsGivenUp, IsWanting, IsCutShort};
ghost use Rattle.frame_session.specs.Serving.{ServesFrame, IsLater, IsReady, IsBeginning};

use crate::SessionStatus;
use crate::answering::answer_to;
use clay_bytes::{Sink, Source, WriteFault};
use clay_model::Coder;
use frame_bytes::{Next, most_input, read_frame, write_answer};
use session_store::SessionStore;
use std::alloc::Global;
use std::thread::Threads;

// Answers a frame, and writes the answer.
fn serve_frame<R: Threads + Sync, K: Sink, C: Coder>(
    rt: &R,
    alloc: Global,
    coder: &C,
    store: &mut SessionStore,
    servers: u32,
    frame: &[u8],
    sink: &mut K,
    block: &mut Vec<u8>,
) -> Result<(), WriteFault>
    requires few { store.old.served + 1 < 2 ^ 32 }
    requires servers { servers ≡ chunk_count store.old.geometry }
    requires short { length frame.now < 2 ^ 32 }
    requires ready { IsReady store.old }
    ensures serves { (before : State) → StandsAt store.old before →
        ServesFrame frame.now before store.new result (K.accepted sink.old) (K.written sink.old) (K.accepted sink.new) (K.written sink.new) }
    ensures later { IsLater store.old store.new }
    ensures ready { IsReady store.new }
    ensures cause { OnErr result (Rises (K.faults sink.old) (K.faults sink.new)) }
    ensures steady { OnOk result (K.faults sink.new ≡ K.faults sink.old) }
{
    let answer = answer_to(rt, alloc, coder, store, servers, frame);
    write_answer(sink, block, &answer)
}

/// Answers frames until the input ends, or until a read or a write fails or memory is wanting for a frame.
///
/// Answers are written through the block, so nothing but a frame and what a request needs takes memory.
pub(crate) fn serve_frames<R: Threads + Sync, S: Source, K: Sink, C: Coder>(
    rt: &R,
    alloc: Global,
    coder: &C,
    store: &mut SessionStore,
    servers: u32,
    source: &mut S,
    sink: &mut K,
    block: &mut Vec<u8>,
) -> SessionStatus
    requires begins { IsBeginning store.old }
    requires servers { servers ≡ chunk_count store.old.geometry }
    ensures session { (ending : Ending) → result ≡ status_of ending → (got : List ℕ) × (taken : List ℕ)
        × HandsOut (S.given source.old) (S.left source.old) got (S.given source.new) (S.left source.new)
        × Accepts (K.accepted sink.old) (K.written sink.old) taken (K.accepted sink.new) (K.written sink.new)
        × (IsSessionOf store.old.geometry store.old.max got (S.ended source.new) ending taken
        × IsSessionIn store.old.geometry store.old.max (S.left source.old) got ending taken) }
    ensures given_up { result ≡ SessionStatus.ReadFault → (got : List ℕ) × (taken : List ℕ)
        × HandsOut (S.given source.old) (S.left source.old) got (S.given source.new) (S.left source.new)
        × Accepts (K.accepted sink.old) (K.written sink.old) taken (K.accepted sink.new) (K.written sink.new)
        × IsGivenUp store.old.geometry store.old.max got taken }
    ensures wanting { result ≡ SessionStatus.OutOfMemory → (got : List ℕ) × (taken : List ℕ)
        × HandsOut (S.given source.old) (S.left source.old) got (S.given source.new) (S.left source.new)
        × Accepts (K.accepted sink.old) (K.written sink.old) taken (K.accepted sink.new) (K.written sink.new)
        × IsWanting store.old.geometry store.old.max got taken }
    ensures cut_off { result ≡ SessionStatus.WriteFault → (got : List ℕ) × (taken : List ℕ)
        × HandsOut (S.given source.old) (S.left source.old) got (S.given source.new) (S.left source.new)
        × Accepts (K.accepted sink.old) (K.written sink.old) taken (K.accepted sink.new) (K.written sink.new)
        × IsCutShort store.old.geometry store.old.max got taken }
    ensures which { result ≡ SessionStatus.Usage → ⊥ }
    ensures read_fault { result ≡ SessionStatus.ReadFault → Rises (S.faults source.old) (S.faults source.new) }
    ensures write_fault { result ≡ SessionStatus.WriteFault → Rises (K.faults sink.old) (K.faults sink.new) }
    ensures read_steady { (result ≡ SessionStatus.ReadFault → ⊥) → S.faults source.new ≡ S.faults source.old }
    ensures write_steady { (result ≡ SessionStatus.WriteFault → ⊥) → K.faults sink.new ≡ K.faults sink.old }
{
    let mut room = most_input();
    'frames: loop {
        let next = match read_frame(alloc, source, room) {
            Ok(next) => next,
            Err(fault) => return SessionStatus::of_fault(fault),
        };
        let frame = match next {
            Next::Frame(frame) => frame,
            Next::End(ending) => return SessionStatus::of_ending(ending),
        };
        room -= frame.len() as u64 + 4;
        match serve_frame(
            rt,
            alloc,
            coder,
            store,
            servers,
            frame.as_slice(),
            sink,
            block,
        ) {
            Ok(()) => {}
            Err(_) => return SessionStatus::WriteFault,
        }
    }
}
