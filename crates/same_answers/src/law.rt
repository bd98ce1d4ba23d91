//! The laws.
ghost use Rattle.same_answers.specs.InOrder.{HasTextInOrder};
ghost use Rattle.same_answers.specs.SameAnswers.{HasSameAnswers};

use workers_law::{read_the_same, same_with_workers, same_without_workers};

/// Without workers, a session that waits for each of its jobs is answered one function of its
/// items and of the width of its strip, if the other acts leave its tenancy alone.
pub fn same_in_order()
    ensures { HasTextInOrder }
{
    same_without_workers();
}

/// For one script, such a session's section of what is written has the same text without workers
/// and with any number of them.
pub fn same_answers()
    ensures { HasSameAnswers }
{
    same_in_order();
    same_with_workers();
    read_the_same();
}
