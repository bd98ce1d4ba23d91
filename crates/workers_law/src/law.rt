//! The laws.
ghost use Rattle.workers_law.specs.SameScript.{IsReadTheSame};
ghost use Rattle.workers_law.specs.Workers.{HasSameText, HasWaitedText};

/// The text of a session that waits for each of its jobs is one function of its input and of the
/// width of its strip, the same with any number of workers.
pub fn same_with_workers()
    ensures { HasWaitedText }
{}

/// Without workers the text of such a session is the same function.
pub fn same_without_workers()
    ensures { HasSameText }
{}

/// A script that can be read for threads is also read in order, and says the same: the operator's
/// lines, and the items of each name.
pub fn read_the_same()
    ensures { IsReadTheSame }
{}
