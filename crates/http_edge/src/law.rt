// What the definitions of requests and replies mean.
ghost use Rattle.http_edge.specs.Inputs.{GivesOneAnswer};
ghost use Rattle.http_edge.specs.Settled.{CauseExcludesReply, HasOneReply, GivesOneError};

/// All answers that one input gives to a reader agree, however much of the input each tells of: they are the same, or are
/// two of those that are left open.
pub fn request_law()
    ensures one_answer { GivesOneAnswer }
{}

/// The cause of an error and a reply exclude each other, also in each stream that goes on with more bytes, unless the
/// error is that the input ended. One stream begins with one reply. All causes of errors that one input has agree: the
/// errors are the same, or are two of those that are left open.
pub fn reply_law()
    ensures excluded { CauseExcludesReply }
    ensures one_reply { HasOneReply }
    ensures one_error { GivesOneError }
{}
