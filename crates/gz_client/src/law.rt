//! When calls end.
ghost use Rattle.gz_client.specs.Endings.{EndsExactly};

/// Of every trace that a client stands for: a put was answered short exactly where it stores its fragments first, asked no site
/// for its row, and lost so many fragments that too few are left; a call was answered for want of sites exactly where too few were left
/// and it was overtaken less often than it tries, and as contended exactly where it was overtaken as often as it
/// tries; a call that had sent a vote for its own value is unsure in both cases. A call that asked for a fragment of the value that
/// it learnt gathers on, and awaits no row, or ends with that value's bytes, or as incomplete.
pub fn ends_exactly()
    ensures { EndsExactly }
{}
