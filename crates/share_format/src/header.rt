//! The header of a share file.
ghost use Rattle.std.specs.Prelude.{◌≡◌, ◌+◌, ◌≤◌, ◌<◌, ◌^◌, ◌++◌, length, drop, IfOk, IfErr, OnOk};
ghost use Rattle.byteorder.specs.Endian.{little_bytes, little_number};
ghost use Rattle.clay_aloof.specs.Shape.{all_chunks};
ghost use Rattle.clay_aloof.specs.Limits.{IsAloof};
ghost use Rattle.share_format.specs.Cut.{stripe_count};
ghost use Rattle.share_format.specs.Header.{IsIntact, IsHeader, header_with, header_bytes, header_in, told_bytes};
ghost use Rattle.share_format.specs.Faults.{IsFirstFault};

use crate::format_fault::BadHeader;
use byteorder::{ByteOrder, LittleEndian};
use clay_aloof::AloofGeometry;
use crc64::Crc64;
use std::alloc::{AllocError, Global};
use std::marker::Model;

/// The bytes of a header.
pub const HEADER_LEN: usize = 64;

// The bytes that a header's checksum is of.
const TOLD_LEN: usize = 56;

const MAGIC: u64 = 0x1A0A_0D59_414C_4389;

const VERSION: u32 = 1;

const MAX_SIZE: u64 = 1 << 56;

/// What the header of a share file tells: the code, the share's number, and the length and the checksum of the file.
#[derive(Clone, Copy, Debug, PartialEq, Eq)]
pub struct ShareHeader {
    geometry: AloofGeometry,
    share: u32,
    size: u64,
    checksum: u64,
}

impl Model for ShareHeader {
    ghost use Rattle.share_format.specs.Header.{Header, IsHeader, header_with};

    ghost Value = { Header };

    ghost view = { λ a. header_with a.geometry a.share a.size a.checksum };

    ghost invariant = { λ a. IsHeader (header_with a.geometry a.share a.size a.checksum) };

    ghost inverse = { λ h. record { geometry = h.shape; share = h.share; size = h.size; checksum = h.checksum } };

    ghost inverse_ok = { λ a h i. record { geometry = a.geometry; share = a.share; size = a.size; checksum = a.checksum } };
}

fn put_u32(bytes: &mut Vec<u8>, number: u32) -> Result<(), AllocError>
    ensures { OnOk result (bytes.new.items ≡ bytes.old.items ++ little_bytes 4 number) }
{
    let mut piece = [0u8; 4];
    LittleEndian::write_u32(&mut piece, number);
    bytes.extend_from_slice(&piece)
}

/// Puts a number behind some bytes, its lowest byte first.
pub fn put_u64(bytes: &mut Vec<u8>, number: u64) -> Result<(), AllocError>
    ensures { OnOk result (bytes.new.items ≡ bytes.old.items ++ little_bytes 8 number) }
{
    let mut piece = [0u8; 8];
    LittleEndian::write_u64(&mut piece, number);
    bytes.extend_from_slice(&piece)
}

// The stripes of a file of so many bytes.
fn stripes_of(geometry: AloofGeometry, size: u64) -> u64
    ensures { result ≡ stripe_count geometry size }
{
    size.div_ceil(u64::from(geometry.stripe_len()))
}

// All bytes of a header but its checksum.
fn told(
    alloc: Global,
    geometry: AloofGeometry,
    share: u32,
    size: u64,
    checksum: u64,
) -> Result<Vec<u8>, AllocError>
    ensures { IfOk result (λ bytes.
        bytes.items ≡ told_bytes (header_with geometry share size checksum)) }
{
    let mut bytes = Vec::with_capacity(alloc, HEADER_LEN)?;
    put_u64(&mut bytes, MAGIC)?;
    put_u32(&mut bytes, VERSION)?;
    put_u32(&mut bytes, geometry.k())?;
    put_u32(&mut bytes, geometry.m())?;
    put_u32(&mut bytes, geometry.d())?;
    put_u32(&mut bytes, geometry.w())?;
    put_u32(&mut bytes, share)?;
    put_u64(&mut bytes, size)?;
    put_u64(&mut bytes, stripes_of(geometry, size))?;
    put_u64(&mut bytes, checksum)?;
    Ok(bytes)
}

impl ShareHeader {
    /// The header of a share of a file of `size` bytes that has this checksum.
    pub fn new(geometry: AloofGeometry, share: u32, size: u64, checksum: u64) -> ShareHeader
        requires numbered { share < all_chunks geometry }
        requires bounded { size ≤ 2 ^ 56 }
        ensures { result ≡ header_with geometry share size checksum }
    {
        // the geometry's limits are known once it is read
        let _chunks = geometry.n();
        ShareHeader {
            geometry,
            share,
            size,
            checksum,
        }
    }

    /// The code, its helpers, and the bytes of a subchunk.
    pub fn geometry(&self) -> AloofGeometry
        ensures { result ≡ self.now.shape }
    {
        self.geometry
    }

    /// The share's number, from 0 on.
    pub fn share(&self) -> u32
        ensures { result ≡ self.now.share }
    {
        self.share
    }

    /// The bytes of the file.
    pub fn size(&self) -> u64
        ensures { result ≡ self.now.size }
    {
        self.size
    }

    /// The checksum of the file, which tells its shares from those of another.
    pub fn checksum(&self) -> u64
        ensures { result ≡ self.now.checksum }
    {
        self.checksum
    }

    /// The stripes of the file.
    pub fn stripe_count(&self) -> u64
        ensures count { result ≡ stripe_count self.now.shape self.now.size }
        ensures header { IsHeader self.now }
    {
        stripes_of(self.geometry, self.size)
    }

    /// The header's bytes. The only error is an allocation failure.
    pub fn bytes(&self, alloc: Global, crc: &Crc64) -> Result<Vec<u8>, AllocError>
        ensures { IfOk result (λ bytes. bytes.items ≡ header_bytes self.now) }
    {
        let mut bytes = told(alloc, self.geometry, self.share, self.size, self.checksum)?;
        let checksum = crc.checksum(&bytes);
        put_u64(&mut bytes, checksum)?;
        Ok(bytes)
    }
}

// The number in the four bytes from `at` on.
fn u32_at(bytes: &[u8], at: usize) -> u32
    requires { at + 4 ≤ length bytes.now }
    ensures { result ≡ little_number 4 (drop at bytes.now) }
{
    LittleEndian::read_u32(&bytes[at..])
}

/// The number in the eight bytes from `at` on.
pub fn u64_at(bytes: &[u8], at: usize) -> u64
    requires { at + 8 ≤ length bytes.now }
    ensures { result ≡ little_number 8 (drop at bytes.now) }
{
    LittleEndian::read_u64(&bytes[at..])
}

// Whether the bytes begin as a header of this version and end with the checksum of those before.
fn check(crc: &Crc64, bytes: &[u8]) -> Result<(), BadHeader>
    requires { length bytes.now ≡ 64 }
    ensures intact { OnOk result (IsIntact bytes.now) }
    ensures refused { IfErr result (IsFirstFault bytes.now) }
{
    if u64_at(bytes, 0) != MAGIC {
        return Err(BadHeader::Magic);
    }
    if u32_at(bytes, 8) != VERSION {
        return Err(BadHeader::Version);
    }
    let told = &bytes[..TOLD_LEN];
    let checksum = crc.checksum(told);
    if u64_at(bytes, TOLD_LEN) != checksum {
        return Err(BadHeader::Checksum);
    }
    Ok(())
}

// The code that intact bytes tell.
fn code_in(bytes: &[u8]) -> Result<AloofGeometry, BadHeader>
    requires size { length bytes.now ≡ 64 }
    requires intact { IsIntact bytes.now }
    ensures code { IfOk result (λ geometry. geometry ≡ (header_in bytes.now).shape) }
    ensures aloof { IfOk result IsAloof }
    ensures refused { IfErr result (IsFirstFault bytes.now) }
{
    let k = u32_at(bytes, 12);
    let m = u32_at(bytes, 16);
    let d = u32_at(bytes, 20);
    let w = u32_at(bytes, 24);
    match AloofGeometry::new(k, m, d, w) {
        Ok(geometry) => Ok(geometry),
        Err(fault) => Err(BadHeader::Code(fault)),
    }
}

/// The header that these bytes are: just that whose bytes they are.
pub fn read_header(crc: &Crc64, bytes: &[u8]) -> Result<ShareHeader, BadHeader>
    requires { length bytes.now ≡ 64 }
    ensures read { IfOk result (λ header. header_bytes header ≡ bytes.now) }
    ensures header { IfOk result IsHeader }
    ensures refused { IfErr result (IsFirstFault bytes.now) }
{
    check(crc, bytes)?;
    let geometry = code_in(bytes)?;
    let share = u32_at(bytes, 28);
    let size = u64_at(bytes, 32);
    let stripes = u64_at(bytes, 40);
    let checksum = u64_at(bytes, 48);
    if size > MAX_SIZE {
        return Err(BadHeader::Size);
    }
    if stripes != stripes_of(geometry, size) {
        return Err(BadHeader::Stripes);
    }
    if share >= geometry.n() {
        return Err(BadHeader::Share);
    }
    Ok(ShareHeader::new(geometry, share, size, checksum))
}
