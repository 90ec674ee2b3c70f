//! The command `gen`.
ghost use Rattle.std.specs.Prelude.{◌≡◌, ◌≤◌, IfOk};
ghost use Rattle.clay_gen.specs.Script.{generated};
ghost use Rattle.script_text.specs.Spelling.{spelling};

use clay_gen::generate;
use script_text::write_script;
use std::alloc::{AllocError, Global};

/// The text of the script that a number gives.
pub fn script_from(alloc: Global, start: u64, size: u32) -> Result<Vec<u8>, AllocError>
    requires { size ≤ 4096 }
    ensures { IfOk result (λ text. text.items ≡ spelling (generated start size)) }
{
    let script = generate(alloc, start, size)?;
    write_script(alloc, &script)
}
