//! The top call: from words, a source and a sink to a status.
ghost use Rattle.std.specs.Prelude.{◌≡◌, ◌⊎◌, ◌≤◌, List, ℕ, map, string_bytes};
ghost use Rattle.clay_bytes.specs.Stream.{Rises, HandsOut, Accepts};
ghost use Rattle.clay_grid.specs.Limits.{IsGeometry};
ghost use Rattle.session_rules.specs.declared.session_ending.Ending.{Ending};
ghost use Rattle.frame_session.specs.Status.{status_of};
ghost use Rattle.frame_session.specs.Words.{AskNothing, IfAsked};
ghost use Rattle.frame_session.specs.Session.{IsSessionOf, IsSessionIn, IsGivenUp, IsWanting, IsCutShort};

use crate::SessionStatus;
use crate::frame_serving::serve_frames;
use crate::session_words::{Asked, asked_by};
use clay_bytes::{Sink, Source};
use clay_model::Coder;
use session_store::SessionStore;
use std::alloc::Global;
use std::thread::Threads;

// Small pieces of an answer wait in so many bytes.
const BLOCK: usize = 65536;

// The session of a code, with objects of at most so many bytes.
fn serve_session<R: Threads + Sync, S: Source, K: Sink, C: Coder>(
    rt: &R,
    alloc: Global,
    coder: &C,
    asked: Asked,
    source: &mut S,
    sink: &mut K,
) -> SessionStatus
    requires geometry { IsGeometry asked.geometry }
    requires max { asked.max ≤ 1048576 }
    ensures session { (ending : Ending) → result ≡ status_of ending → (got : List ℕ) × (taken : List ℕ)
        × HandsOut (S.given source.old) (S.left source.old) got (S.given source.new) (S.left source.new)
        × Accepts (K.accepted sink.old) (K.written sink.old) taken (K.accepted sink.new) (K.written sink.new)
        × (IsSessionOf asked.geometry asked.max got (S.ended source.new) ending taken
        × IsSessionIn asked.geometry asked.max (S.left source.old) got ending taken) }
    ensures given_up { result ≡ SessionStatus.ReadFault → (got : List ℕ) × (taken : List ℕ)
        × HandsOut (S.given source.old) (S.left source.old) got (S.given source.new) (S.left source.new)
        × Accepts (K.accepted sink.old) (K.written sink.old) taken (K.accepted sink.new) (K.written sink.new)
        × IsGivenUp asked.geometry asked.max got taken }
    ensures wanting { result ≡ SessionStatus.OutOfMemory → (got : List ℕ) × (taken : List ℕ)
        × HandsOut (S.given source.old) (S.left source.old) got (S.given source.new) (S.left source.new)
        × Accepts (K.accepted sink.old) (K.written sink.old) taken (K.accepted sink.new) (K.written sink.new)
        × IsWanting asked.geometry asked.max got taken }
    ensures cut_off { result ≡ SessionStatus.WriteFault → (got : List ℕ) × (taken : List ℕ)
        × HandsOut (S.given source.old) (S.left source.old) got (S.given source.new) (S.left source.new)
        × Accepts (K.accepted sink.old) (K.written sink.old) taken (K.accepted sink.new) (K.written sink.new)
        × IsCutShort asked.geometry asked.max got taken }
    ensures which { result ≡ SessionStatus.Usage → ⊥ }
    ensures read_fault { result ≡ SessionStatus.ReadFault → Rises (S.faults source.old) (S.faults source.new) }
    ensures write_fault { result ≡ SessionStatus.WriteFault → Rises (K.faults sink.old) (K.faults sink.new) }
    ensures read_steady { (result ≡ SessionStatus.ReadFault → ⊥) → S.faults source.new ≡ S.faults source.old }
    ensures write_steady { (result ≡ SessionStatus.WriteFault → ⊥) → K.faults sink.new ≡ K.faults sink.old }
{
    let Asked { geometry, max } = asked;
    let mut block = match Vec::with_capacity(alloc, BLOCK) {
        Ok(block) => block,
        Err(_) => return SessionStatus::OutOfMemory,
    };
    let mut store = match SessionStore::new(alloc, geometry, max) {
        Ok(store) => store,
        Err(_) => return SessionStatus::OutOfMemory,
    };
    let servers = geometry.n();
    let status = serve_frames(
        rt, alloc, coder, &mut store, servers, source, sink, &mut block,
    );
    store.close();
    status
}

/// Serves the frames of an input by a store of its own, writes their answers, and says how that ended.
///
/// The words are those after the program's name: the three numbers of a code, and how many bytes an object may have. Other words
/// are no session's, and nothing is read or written for them.
pub fn frame_main<R: Threads + Sync, S: Source, K: Sink, C: Coder>(
    rt: &R,
    alloc: Global,
    words: &[String],
    source: &mut S,
    sink: &mut K,
    coder: &C,
) -> SessionStatus
    // Words that are no session's, and no others, are refused.
    ensures usage { AskNothing (map string_bytes words.now) → (result ≡ SessionStatus.Usage) × (source.new ≡ source.old) × (sink.new ≡ sink.old) }
    ensures usage_only { result ≡ SessionStatus.Usage → AskNothing (map string_bytes words.now) }

    // What the source handed out in this call and what the sink took in it are known of each source and sink, by their own answers.
    // To the ending of each input that begins with what was handed out, and of the one that the source told: the answers to all its
    // frames were taken, in order, as frames.
    ensures session { IfAsked (map string_bytes words.now) (λ g max. (ending : Ending) → result ≡ status_of ending → (got : List ℕ) × (taken : List ℕ)
        × HandsOut (S.given source.old) (S.left source.old) got (S.given source.new) (S.left source.new)
        × Accepts (K.accepted sink.old) (K.written sink.old) taken (K.accepted sink.new) (K.written sink.new)
        × (IsSessionOf g max got (S.ended source.new) ending taken × IsSessionIn g max (S.left source.old) got ending taken)) }

    // A read failed: the answers to all frames of what was handed out were taken, and it ends with a frame or inside one.
    ensures given_up { IfAsked (map string_bytes words.now) (λ g max. result ≡ SessionStatus.ReadFault → (got : List ℕ) × (taken : List ℕ)
        × HandsOut (S.given source.old) (S.left source.old) got (S.given source.new) (S.left source.new)
        × Accepts (K.accepted sink.old) (K.written sink.old) taken (K.accepted sink.new) (K.written sink.new)
        × IsGivenUp g max got taken) }

    // Memory was wanting outside a request: so it is too, and what was handed out ends with a frame's length, or is nothing.
    ensures wanting { IfAsked (map string_bytes words.now) (λ g max. result ≡ SessionStatus.OutOfMemory → (got : List ℕ) × (taken : List ℕ)
        × HandsOut (S.given source.old) (S.left source.old) got (S.given source.new) (S.left source.new)
        × Accepts (K.accepted sink.old) (K.written sink.old) taken (K.accepted sink.new) (K.written sink.new)
        × IsWanting g max got taken) }

    // A write failed: what was handed out are whole frames; the answers to all but the last were taken, then a prefix of that to the last.
    ensures cut_off { IfAsked (map string_bytes words.now) (λ g max. result ≡ SessionStatus.WriteFault → (got : List ℕ) × (taken : List ℕ)
        × HandsOut (S.given source.old) (S.left source.old) got (S.given source.new) (S.left source.new)
        × Accepts (K.accepted sink.old) (K.written sink.old) taken (K.accepted sink.new) (K.written sink.new)
        × IsCutShort g max got taken) }

    // A read or a write is blamed only where its count of faults rose; else that count is as it was.
    ensures read_fault { result ≡ SessionStatus.ReadFault → Rises (S.faults source.old) (S.faults source.new) }
    ensures write_fault { result ≡ SessionStatus.WriteFault → Rises (K.faults sink.old) (K.faults sink.new) }
    ensures read_steady { (result ≡ SessionStatus.ReadFault → ⊥) → S.faults source.new ≡ S.faults source.old }
    ensures write_steady { (result ≡ SessionStatus.WriteFault → ⊥) → K.faults sink.new ≡ K.faults sink.old }

    // Where no count rose the session comes to an ending, or memory was wanting outside a request.
    ensures complete { IfAsked (map string_bytes words.now) (λ g max.
        (Rises (S.faults source.old) (S.faults source.new) → ⊥) → (Rises (K.faults sink.old) (K.faults sink.new) → ⊥) →
        ((ending : Ending) × (result ≡ status_of ending)) ⊎ (result ≡ SessionStatus.OutOfMemory)) }
{
    match asked_by(words) {
        Some(asked) => serve_session(rt, alloc, coder, asked, source, sink),
        None => SessionStatus::Usage,
    }
}
