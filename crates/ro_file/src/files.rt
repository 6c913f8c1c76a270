// Files that are opened by their digest, and read.
ghost use Rattle.std.specs.Prelude.{◌≡◌, ℕ, ◌≤◌, List, [], length, IfOk};
ghost use Rattle.host_traits.specs.Did.{Did};
ghost use Rattle.verity_path.specs.Range.{most_answers, IsForRead, RangeOutcome};
ghost use Rattle.ro_file.specs.Files.{IsReadable, layout_of};
ghost use Rattle.ro_file.specs.Holding.{FileOpens, FileReadIsRight};
ghost use Rattle.ro_file.specs.Opening.{IsDescriptorCall, OpenFileOutcome, Describes, opened};

use host_traits::{Host, HostError, Raw};
use mg_base::{Digest, Page};
use sha2::{Digest as _, Sha256};
use std::alloc::AllocError;
use std::marker::Model;
use verity_descriptor::{DescriptorFault, decode};
use verity_path::{Device, Layout, Measure, Served, WalkFault, read_range};

/// Why a file was not opened.
#[derive(Clone, Copy, Debug, PartialEq, Eq)]
pub enum RoFault {
    /// The call failed; how often calls had failed after it.
    Failed { faults: u64 },
    /// The answer had fewer bytes than a descriptor has.
    Short { asked: u64, got: u64 },
    /// The bytes have another digest than the file's.
    DigestMismatch { expected: Digest, found: Digest },
    /// The bytes break a rule of descriptors.
    Descriptor(DescriptorFault),
    /// The file has more than 2^32 bytes.
    TooLong { size: u64 },
    /// The host had no memory.
    Memory,
}

/// A file of the host that is only read, as its descriptor described it. Contracts see its number at the host, the digest by
/// which it was opened, its size, and the measure of its tree.
pub struct RoFile {
    file: u32,
    digest: Digest,
    size: u64,
    measure: Measure,
}

impl Model for RoFile {
    ghost use Rattle.ro_file.specs.Files.{MeasuredFile, IsReadable};

    ghost Value = { MeasuredFile };

    ghost view = { λ f. record { file = f.file; digest = f.digest; size = f.size; measure = f.measure } };

    ghost invariant = { λ f.
        IsReadable (record { file = f.file; digest = f.digest; size = f.size; measure = f.measure }) };

    ghost inverse = { λ f. record { file = f.file; digest = f.digest; size = f.size; measure = f.measure } };
}

impl Clone for RoFile {
    ghost is_clone = { λ x y. y ≡ x };

    fn clone(&self) -> Result<RoFile, AllocError> {
        Ok(*self)
    }
}

impl Copy for RoFile {}

// The file that the bytes of an answer describe.
fn described(file: u32, digest: &Digest, bytes: &[u8]) -> Result<RoFile, RoFault>
    requires { length bytes.now ≤ 256 }
    ensures answer { result ≡ opened file digest.now bytes.now }
    ensures describes { IfOk result (λ f. Describes file digest.now bytes.now f) }
{
    if bytes.len() < 256 {
        return Err(RoFault::Short {
            asked: 256,
            got: bytes.len() as u64,
        });
    }
    let mut all = [0; 256];
    all.copy_from_slice(bytes);
    let found = Digest(Sha256::digest(&all));
    if found != *digest {
        return Err(RoFault::DigestMismatch {
            expected: *digest,
            found,
        });
    }
    let descriptor = match decode(&all) {
        Ok(descriptor) => descriptor,
        Err(fault) => return Err(RoFault::Descriptor(fault)),
    };
    let size = descriptor.size;
    if size > RoFile::LIMIT {
        return Err(RoFault::TooLong { size });
    }
    Ok(RoFile {
        file,
        digest: *digest,
        size,
        measure: Measure {
            blocks: size.div_ceil(4096),
            salt: descriptor.salt,
            root: descriptor.root,
        },
    })
}

/// Opens the file of this number by its fs-verity digest. It makes one call, for the file's descriptor, and takes no memory.
/// The rules are in this order: 256 bytes came, their SHA-256 is the digest, they are a descriptor, and its size is at most
/// 2^32.
pub fn open_file<H: Host>(
    host: &mut H,
    file: u32,
    digest: &Digest,
    raw: &mut Raw,
) -> Result<RoFile, RoFault>
    // The one call, and what came of it.
    ensures did { Did (IsDescriptorCall file) 1 (H.told host.old) (H.told host.new)
        (OpenFileOutcome file digest.now result) }
    // Over a host that holds a file with this digest, where no call failed or it is honest, the file or want of memory.
    ensures held { FileOpens file digest.now (H.told host.old) (H.told host.new) result }
{
    match host.file_descriptor(file, raw) {
        Ok(()) => {}
        Err(HostError::Failed) => {
            let faults = host.faults();
            return Err(RoFault::Failed { faults });
        }
        Err(HostError::Memory) => return Err(RoFault::Memory),
    }
    described(file, digest, raw.layout())
}

impl RoFile {
    /// The most bytes of a file.
    pub const LIMIT: u64 = 4_294_967_296;

    /// How many bytes the file has.
    pub fn size(&self) -> u64
        ensures value { result ≡ self.now.size }
        ensures file { IsReadable self.now }
    {
        self.size
    }

    /// Adds the file's bytes from `at` on, at most `len` of them and cut at its end. It asks only for the blocks that the
    /// range touches and the pages above them, in rising order, of a last block only for the bytes that the file has in it.
    /// It takes no memory. After a fault some of the bytes may have been added.
    pub fn read<H: Host>(
        &self,
        host: &mut H,
        at: u64,
        len: u32,
        raw: &mut Raw,
        page: &mut Page,
        served: &mut Served,
    ) -> Result<(), WalkFault>
        requires empty { served.old ≡ [] }
        requires most { len ≤ 131072 }
        ensures did { Did (IsForRead (layout_of self.now) self.now.measure self.now.size at len)
            (most_answers self.now.measure self.now.size at len) (H.told host.old) (H.told host.new)
            (RangeOutcome (layout_of self.now) self.now.measure self.now.size at len
            served.new result) }
        // Over a host that holds the content, where no call failed or it is honest, its bytes or want of memory.
        ensures held { FileReadIsRight self.now at len
            (H.told host.old) (H.told host.new) served.new result }
    {
        let device = Device {
            measure: self.measure,
            layout: Layout::File {
                file: self.file,
                size: self.size,
            },
        };
        read_range(host, &device, self.size, at, len, raw, page, served)
    }
}
