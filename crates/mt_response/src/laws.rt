//! Laws: what bytes are as a reply is one thing.
ghost use Rattle.mt_response.specs.Replies.{HeadIsOne, ReplyIsOne};

/// Bytes begin with at most one reply, and with at most one head of a reply behind so many interim ones.
pub fn reply_is_one()
    ensures head { HeadIsOne }
    ensures reply { ReplyIsOne }
{}
