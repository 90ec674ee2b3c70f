//! What the definitions say, as functions that do nothing and whose contracts are the laws.

ghost use Rattle.std.specs.Prelude.{ℕ, List};
ghost use Rattle.chunk_server.specs.State.{Held};
ghost use Rattle.chunk_server.specs.Laws.{AddsOneChunk, RemovesOneChunk, SettlesOneChunk};
ghost use Rattle.chunk_server.specs.Rows.{AreRowsOfAServer};

/// Steps of a server with their answers.
pub fn rows_of_a_server()
    ensures { AreRowsOfAServer }
{}

/// A chunk that comes, is settled or goes changes what its version finds, and what no other finds.
pub fn steps_change_one_version()
    ensures adds { (chunk : Held) (chunks : List Held) → AddsOneChunk chunk chunks }
    ensures settles { (version : ℕ) (chunks : List Held) → SettlesOneChunk version chunks }
    ensures removes { (version : ℕ) (chunks : List Held) → RemovesOneChunk version chunks }
{}
