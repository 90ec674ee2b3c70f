//! The names of the shares in a folder.
ghost use Rattle.std.specs.Prelude.{◌≡◌, ◌≢◌, ◌+◌, ◌≤◌, ◌<◌, ◌++◌, ◌/◌, ◌%◌, ℕ, IfOk, OnOk, IfSome, MatchOption, codes, decimal, string_bytes};
ghost use Rattle.share_run.specs.Names.{share_name, IsShareName, AreListed, IsOwn, IsOneOf, IsNoneListed, IsCutName};

use std::alloc::{AllocError, Allocator, Global};
use std::fs::{self, DirEntry, File};
use std::io::{self, ErrorKind};
use std::rt::Files;

// No code has more shares.
const MOST_SHARES: usize = 24;

fn digit(byte: u8) -> Option<usize>
    ensures { MatchOption result ((n : ℕ) → n ≤ 9 → byte ≢ 48 + n) (λ n. (n ≤ 9) × (byte ≡ 48 + n)) }
{
    if byte < b'0' || byte > b'9' {
        return None;
    }
    Some(usize::from(byte - b'0'))
}

// The number of two digits.
fn two_digits(digits: &[u8]) -> Option<usize>
    ensures { IfSome result (λ n. digits.now ≡ decimal (n / 10) ++ decimal (n % 10)) }
{
    match digits {
        [tens, ones] => Some(digit(*tens)? * 10 + digit(*ones)?),
        _ => None,
    }
}

// The cut's name and the number in a file's name, if that is a share's.
fn numbered(name: &str) -> Option<(&str, usize)>
    ensures { IfSome result (λ found. IsShareName name.now found.0.now found.1) }
{
    let (cut, digits) = name.strip_suffix(".clay")?.rsplit_once(".")?;
    let number = two_digits(digits.as_bytes())?;
    if number < MOST_SHARES {
        Some((cut, number))
    } else {
        None
    }
}

/// The names of a folder's shares. Those of another file end the list.
#[derive(Drop)]
pub struct ShareNames {
    /// What the file is called that was cut, where it is known.
    pub cut: Option<String>,
    /// By their numbers those of its shares.
    pub names: Vec<Option<String>>,
    /// One of another file's.
    pub other: Option<String>,
}

impl ShareNames {
    fn none(alloc: Global) -> Result<Self, AllocError>
        ensures { IfOk result AreListed }
    {
        let mut names = Vec::new(alloc);
        for _ in 0..MOST_SHARES {
            names.push(None)?;
        }
        Ok(ShareNames {
            cut: None,
            names,
            other: None,
        })
    }

    // Whether a cut is that of the listed shares. The first share's is.
    fn is_own(&mut self, alloc: Global, cut: &str) -> Result<bool, AllocError>
        ensures { IfOk result (IsOwn self.old self.new cut.now) }
    {
        if let Some(own) = &self.cut {
            return Ok(own.as_str() == cut);
        }
        self.cut = Some(String::from_str(alloc, cut)?);
        Ok(true)
    }

    // Notes a file's name, if it is a share's.
    fn note(&mut self, alloc: Global, file_name: &str) -> Result<(), AllocError>
        requires { AreListed self.old }
        ensures { OnOk result (AreListed self.new) }
    {
        let Some((cut, number)) = numbered(file_name) else {
            return Ok(());
        };
        let name = String::from_str(alloc, file_name)?;
        if self.is_own(alloc, cut)? {
            self.names[number] = Some(name);
        } else {
            self.other = Some(name);
        }
        Ok(())
    }

    // Notes a file of a folder.
    fn note_entry<R: Files + Drop, A: Allocator>(
        &mut self,
        alloc: Global,
        entry: io::Result<DirEntry<R, A>>,
    ) -> io::Result<()>
        requires { AreListed self.old }
        ensures { OnOk result (AreListed self.new) }
    {
        match entry {
            Ok(entry) => Ok(self.note(alloc, entry.file_name())?),
            // no share has a name that isn't text
            Err(error) if error.kind() == ErrorKind::InvalidFilename => Ok(()),
            Err(error) => Err(error),
        }
    }

    /// The name of a listed share, where there is one.
    pub fn first(&self) -> Option<&str>
        ensures { MatchOption result (IsNoneListed self.now) (λ name. IsOneOf self.now name.now) }
    {
        if let Some(name) = &self.other {
            return Some(name.as_str());
        }
        for held in &self.names {
            if let Some(name) = held {
                return Some(name.as_str());
            }
        }
        None
    }

    /// What the file is called that was cut, and nothing where it isn't known.
    pub fn cut_name(&self) -> &str
        ensures { IsCutName self.now result.now }
    {
        match &self.cut {
            Some(cut) => cut.as_str(),
            None => "",
        }
    }
}

// Notes the shares in a folder, up to the first of another file.
fn note_shares<R: Files<File = File> + AllocGlobal + Clone + Drop>(
    rt: &R,
    folder: &str,
    listed: &mut ShareNames,
) -> io::Result<()>
    requires { AreListed listed.old }
    ensures { OnOk result (AreListed listed.new) }
{
    for entry in fs::read_dir(rt, folder)? {
        listed.note_entry(rt.alloc(), entry)?;
        if listed.other.is_some() {
            return Ok(());
        }
    }
    Ok(())
}

/// The names of the shares in a folder, up to the first of another file. An error is the system's, or says that memory was wanting.
///
/// What a folder holds no contract of std tells, so none says here that all are listed.
pub fn list_shares<R: Files<File = File> + AllocGlobal + Clone + Drop>(
    rt: &R,
    folder: &str,
) -> io::Result<ShareNames>
    ensures { IfOk result AreListed }
{
    let mut listed = ShareNames::none(rt.alloc())?;
    note_shares(rt, folder, &mut listed)?;
    Ok(listed)
}

/// The path of the share of a number in a folder. The only error is want of memory.
pub fn share_path(
    alloc: Global,
    folder: &str,
    cut: &str,
    number: usize,
) -> Result<String, AllocError>
    ensures { IfOk result (λ path. string_bytes path ≡ folder.now ++ (codes "/" ++ share_name cut.now number)) }
{
    let tens = number / 10;
    let ones = number % 10;
    format!(in alloc; "{folder}/{cut}.{tens}{ones}.clay")
}
