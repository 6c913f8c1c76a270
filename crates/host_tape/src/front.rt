// The record at the front of some bytes.
ghost use Rattle.std.specs.Prelude.{◌≡◌, ◌+◌, ◌<◌, ◌≤◌, length, drop, MatchOption, IfSome, Some, None};
ghost use Rattle.host_tape.specs.Next.{item_by};
ghost use Rattle.host_tape.specs.Reading.{record_of, behind_one};

use crate::next::Next;

/// The record at the front, and how many bytes it has.
#[tactic(auto, unfolding(crate::specs::Reading::record_of))]
pub(crate) fn front_record(rest: &[u8]) -> Option<(Next<'_>, usize)>
    ensures found { MatchOption result (record_of rest.now ≡ None)
        (λ x. record_of rest.now ≡ Some (item_by x.0, x.1)) }
    ensures some { IfSome result (λ x. 0 < x.1) }
    ensures within { IfSome result (λ x. x.1 ≤ length rest.now) }
{
    match rest {
        [] => None,
        [0, ..] => Some((Next::Failed, 1)),
        [1, ..] => Some((Next::Done, 1)),
        [2, number @ ..] => {
            if number.len() < 8 {
                return None;
            }
            let n = u64::from_le_bytes([
                number[0], number[1], number[2], number[3], number[4], number[5], number[6],
                number[7],
            ]);
            Some((Next::Number(n), 9))
        }
        [3, sized @ ..] => {
            if sized.len() < 4 {
                return None;
            }
            let len = u32::from_le_bytes([sized[0], sized[1], sized[2], sized[3]]) as usize;
            if 69_632 < len || sized.len() < 4 + len {
                return None;
            }
            Some((Next::Bytes(&sized[4..][..len]), 5 + len))
        }
        [_, ..] => None,
    }
}

/// The place behind the record that begins here; this place where none does.
pub(crate) fn behind(text: &[u8], at: usize) -> usize
    requires { at ≤ length text.now }
    ensures place { result ≡ behind_one (record_of (drop at text.now)) at }
    ensures within { result ≤ length text.now }
{
    match front_record(&text[at..]) {
        Some((_, n)) => at + n,
        None => at,
    }
}
