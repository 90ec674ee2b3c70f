//! The code of a cut: the numbers that a command gives, and those that a file's length gives.
ghost use Rattle.std.specs.Prelude.{◌≡◌, ◌-◌, IfOk, IfErr};
ghost use Rattle.clay_aloof.specs.Limits.{IsAloof, IsFirstFault};
ghost use Rattle.share_run.specs.Code.{helpers_asked, code_with, IsForFile, IsCodeFor, least_width};

use clay_aloof::{AloofGeometry, BadAloof};

/// The numbers of a code as far as a command gives them.
#[derive(Clone, Copy)]
pub struct CodeAsked {
    pub k: u32,
    pub m: u32,
    pub helpers: Option<u32>,
    pub width: Option<u32>,
}

// The bytes of a page, and the most of a chunk.
const PAGE: u64 = 4096;

const MOST_CHUNK: u64 = 1 << 20;

impl CodeAsked {
    // How many chunks help.
    fn helpers(&self) -> u32
        ensures { result ≡ helpers_asked self.now }
    {
        match self.helpers {
            Some(helpers) => helpers,
            None => self.k.saturating_add(self.m).saturating_sub(1),
        }
    }

    // The code with subchunks of so many bytes.
    fn with_width(&self, width: u32) -> Result<AloofGeometry, BadAloof>
        ensures made { IfOk result (λ g. g ≡ code_with self.now width) }
        ensures geometry { IfOk result IsAloof }
        ensures refused { IfErr result (IsFirstFault (code_with self.now width)) }
    {
        AloofGeometry::new(self.k, self.m, self.helpers(), width)
    }

    // The bytes of a subchunk for a file of so many bytes. A stripe grows with them: `narrow` has one byte.
    fn width_for(&self, narrow: AloofGeometry, size: u64) -> u32
        requires { narrow ≡ code_with self.now 1 }
        ensures { IsForFile self.now size result }
    {
        let most = PAGE.min(MOST_CHUNK / u64::from(narrow.grid().alpha()));
        let wanted = size.div_ceil(u64::from(narrow.stripe_len()));
        wanted.min(most).max(1) as u32
    }
}

/// The code for a file of so many bytes. All other chunks help where no number of helpers is given. Where no width is given, the subchunks
/// are the narrowest with which the file is one stripe, or the widest that a page of memory and the limit of a chunk allow.
pub fn code_for(asked: CodeAsked, size: u64) -> Result<AloofGeometry, BadAloof>
    ensures code { IfOk result (IsCodeFor asked size) }
    ensures refused { IfErr result (IsFirstFault (code_with asked (least_width asked))) }
{
    if let Some(width) = asked.width {
        return asked.with_width(width);
    }
    let narrow = asked.with_width(1)?;
    asked.with_width(asked.width_for(narrow, size))
}
