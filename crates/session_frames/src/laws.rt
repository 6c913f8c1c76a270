// Laws of frames.
ghost use Rattle.session_frames.specs.Replies.{RepliesAreSent};
ghost use Rattle.session_frames.specs.Session.{OneWay};

/// A stream is frames and then a rest without one in one way alone: neither the frames nor the offset at which they end
/// depend on the pieces in which it came. Its contract is the law; it does nothing.
pub fn one_way()
    ensures { OneWay }
{}

/// What is sent for a reply to a message is the reply of its answer, which is never silent, and the frame has its bytes. Its
/// contract is the law; it does nothing.
pub fn replies_are_sent()
    ensures { RepliesAreSent }
{}
