// What a request asks, in words, numbers and bytes.
ghost use Rattle.std.specs.Prelude.{◌≤◌};

use fuse_codec::Body;

/// The operation's name in small letters.
pub fn word_of(body: &Body<'_>) -> &'static str {
    match body {
        Body::Init { .. } => "init",
        Body::Lookup { .. } => "lookup",
        Body::Forget { .. } => "forget",
        Body::BatchForget { .. } => "batch_forget",
        Body::Interrupt => "interrupt",
        Body::Getattr => "getattr",
        Body::Setattr { .. } => "setattr",
        Body::Open { .. } => "open",
        Body::Opendir => "opendir",
        Body::Read { .. } => "read",
        Body::Write { .. } => "write",
        Body::Flush { .. } => "flush",
        Body::Fsync { .. } => "fsync",
        Body::Release { .. } => "release",
        Body::Releasedir { .. } => "releasedir",
        Body::Readdir { .. } => "readdir",
        Body::Create { .. } => "create",
        Body::Mkdir { .. } => "mkdir",
        Body::Unlink { .. } => "unlink",
        Body::Rmdir { .. } => "rmdir",
        Body::Statfs => "statfs",
        Body::Destroy => "destroy",
    }
}

/// Its numbers in order, and how many there are.
pub fn fields_of(body: &Body<'_>) -> ([u64; 4], usize)
    ensures { result.1 ≤ 4 }
{
    match *body {
        Body::Init {
            major,
            minor,
            max_readahead,
            flags,
        } => (
            [
                u64::from(major),
                u64::from(minor),
                u64::from(max_readahead),
                u64::from(flags),
            ],
            4,
        ),
        Body::Forget { nlookup } => ([nlookup, 0, 0, 0], 1),
        Body::Setattr { valid, size } => ([u64::from(valid), size, 0, 0], 2),
        Body::Open { flags } => ([u64::from(flags), 0, 0, 0], 1),
        Body::Read { fh, offset, size } => ([fh, offset, u64::from(size), 0], 3),
        Body::Write { fh, offset, .. } => ([fh, offset, 0, 0], 2),
        Body::Flush { fh } => ([fh, 0, 0, 0], 1),
        Body::Fsync { fh } => ([fh, 0, 0, 0], 1),
        Body::Release { fh } => ([fh, 0, 0, 0], 1),
        Body::Releasedir { fh } => ([fh, 0, 0, 0], 1),
        Body::Readdir { fh, offset, size } => ([fh, offset, u64::from(size), 0], 3),
        _ => ([0, 0, 0, 0], 0),
    }
}

/// Its name, its pairs or the bytes that it writes, where it has any.
pub fn piece_of<'a>(body: &Body<'a>) -> Option<&'a [u8]> {
    match *body {
        Body::Lookup { name } => Some(name),
        Body::BatchForget { pairs } => Some(pairs),
        Body::Write { bytes, .. } => Some(bytes),
        Body::Create { name } => Some(name),
        Body::Mkdir { name } => Some(name),
        Body::Unlink { name } => Some(name),
        Body::Rmdir { name } => Some(name),
        _ => None,
    }
}
