// The error numbers of replies.
ghost use Rattle.std.specs.Prelude.{◌≡◌, pos};
ghost use Rattle.mg_base.specs.Errnos.{errno_number};

/// An error number of Linux (`asm-generic/errno-base.h` and `errno.h`).
#[derive(Clone, Copy, Debug, PartialEq, Eq, Drop)]
pub enum Errno {
    Enoent,
    Eio,
    Ebadf,
    Enomem,
    Eacces,
    Eexist,
    Enotdir,
    Eisdir,
    Einval,
    Efbig,
    Enospc,
    Enosys,
    Enotempty,
    Eproto,
}

impl Errno {
    /// The number, above zero.
    pub fn number(self) -> i32
        ensures { result ≡ pos (errno_number self) }
    {
        match self {
            Errno::Enoent => 2,
            Errno::Eio => 5,
            Errno::Ebadf => 9,
            Errno::Enomem => 12,
            Errno::Eacces => 13,
            Errno::Eexist => 17,
            Errno::Enotdir => 20,
            Errno::Eisdir => 21,
            Errno::Einval => 22,
            Errno::Efbig => 27,
            Errno::Enospc => 28,
            Errno::Enosys => 38,
            Errno::Enotempty => 39,
            Errno::Eproto => 71,
        }
    }
}
