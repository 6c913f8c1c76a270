// A lent record.

/// A record of a tape, with its bytes lent.
#[derive(Clone, Copy)]
pub enum Next<'a> {
    Failed,
    Done,
    Number(u64),
    Bytes(&'a [u8]),
}
