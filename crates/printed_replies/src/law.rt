//! The law that reading undoes printing.
ghost use Rattle.std.specs.Prelude.{List};
ghost use Rattle.printed_replies.specs.Printing.{IsReadBack};
ghost use Rattle.printed_replies.specs.Replies.{AnsweredLine};

/// Whatever the replies to lines contain, what is printed for them is read back: each line with its
/// own reply.
pub fn printed_is_read()
    ensures { (lines : List AnsweredLine) → IsReadBack lines }
{}
