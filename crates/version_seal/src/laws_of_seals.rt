//! What the definitions say, as a function that does nothing and whose contract is the law.

ghost use Rattle.std.specs.Prelude.{ℕ, List};
ghost use Rattle.version_seal.specs.Chunk.{ArePartsOfTheChunk};

/// Subchunks have their width each, and those at all layers in order are the chunk.
pub fn subchunks_are_parts_of_the_chunk()
    ensures { (width count : ℕ) (bytes : List ℕ) → ArePartsOfTheChunk width count bytes }
{}
