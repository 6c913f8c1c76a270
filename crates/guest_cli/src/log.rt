// The lines of the log.
ghost use Rattle.std.specs.Prelude.{◌≡◌, ◌≤◌, ◌++◌, ℕ, List, length, codes, Some};
ghost use Rattle.hex.specs.Hex.{encode_lower};
ghost use Rattle.session_frames.specs.Replies.{sent_if};
ghost use Rattle.guest_rules.specs.Run.{cause_words, log_head, log_line};

use fuse_codec::FuseReply;
use session_frames::ReplyFrame;
use text_lines::Line;
use verity_path::Cause;

// Adds the words of a tag.
fn put_tag(line: &mut Line, found: &[u8; 16])
    requires { length line.old ≤ 47 }
    ensures value { line.new ≡ line.old ++ (codes " tag " ++ encode_lower found.now) }
    ensures len { length line.new ≤ 84 }
{
    line.put(b" tag ");
    line.hex(found);
}

// Adds the words of a cause.
fn put_cause(line: &mut Line, cause: &Cause)
    requires { length line.old ≤ 47 }
    ensures value { line.new ≡ line.old ++ cause_words cause.now }
    ensures len { length line.new ≤ 243 }
{
    match cause {
        Cause::Mismatch(mismatch) => {
            line.put(b" mismatch ");
            line.number(mismatch.level as u64);
            line.put(b" ");
            line.number(mismatch.index);
            line.put(b" ");
            line.digest(&mismatch.expected);
            line.put(b" ");
            line.digest(&mismatch.found);
        }
        Cause::Short { asked, got } => {
            line.put(b" short ");
            line.number(*asked);
            line.put(b" ");
            line.number(*got);
        }
        Cause::Failed { faults } => {
            line.put(b" failed ");
            line.number(*faults);
        }
        Cause::Tag { found } => put_tag(line, found),
        Cause::Changed { sector } => {
            line.put(b" changed ");
            line.number(*sector);
        }
        Cause::Memory => line.put(b" memory"),
    }
}

// How the line of a reply with a cause begins.
fn put_head(line: &mut Line, at: u64, reply: &Option<ReplyFrame>)
    requires { length line.old ≡ 0 }
    ensures value { (served : List ℕ) → line.new ≡ log_head at (sent_if reply.now served) }
    ensures len { length line.new ≤ 47 }
{
    match reply {
        Some(ReplyFrame::Fuse(FuseReply::Written { unique: _, count })) => {
            line.put(b"short ");
            line.number(at);
            line.put(b" ");
            line.number(*count as u64);
        }
        _ => {
            line.put(b"eio ");
            line.number(at);
        }
    }
}

/// The line of a reply with a cause to the frame that begins at this offset: of a write that ended early, or of a failure.
pub fn cause_line(at: u64, reply: &Option<ReplyFrame>, cause: &Cause) -> Line
    ensures { (served : List ℕ) → result ≡ log_line at (sent_if reply.now served)
        (Some cause.now) }
{
    let mut line = Line::new();
    put_head(&mut line, at, reply);
    put_cause(&mut line, cause);
    line.put(b"\n");
    line
}
