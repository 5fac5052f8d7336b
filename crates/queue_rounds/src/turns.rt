//! The turns of the jobs in a queue.

ghost use Rattle.std.specs.Prelude.{◌≡◌, [], slice_get, option_copied};
ghost use Rattle.queue_rounds.specs.Rounds.{behind_first, is_empty, waiting_or};

use crate::jobs::JobName;
use std::alloc::Global;

/// What came of the turn of a job.
#[derive(Clone, Copy)]
pub enum Turn {
    /// Its slice ran.
    Ran,
    /// It was granted all the instructions already that a job can be.
    Spent,
    /// Its slice did not run for another reason.
    PassedOver,
}

/// The jobs that wait for their slice of a round, in the order of the queue.
#[derive(Drop)]
pub struct Turns {
    waiting: Vec<JobName>,
}

impl Turns {
    /// No job waits: the queue is to be asked for.
    pub fn new(alloc: Global) -> Turns
        ensures { result.waiting.items ≡ [] }
    {
        Turns {
            waiting: Vec::new(alloc),
        }
    }

    /// Whether no job waits.
    pub fn is_over(&self) -> bool
        ensures { result ≡ is_empty self.now.waiting.items }
    {
        self.waiting.is_empty()
    }

    /// The job that has its slice next; without one the queue is to be asked for.
    pub fn next(&self) -> Option<&JobName>
        ensures { option_copied result ≡ slice_get self.now.waiting.items 0 }
    {
        self.waiting.first()
    }

    /// Begins a round with the jobs of the queue, if none waits.
    pub fn outcome_of_queue(&mut self, jobs: Vec<JobName>)
        ensures { self.new.waiting.items ≡ waiting_or self.old.waiting.items jobs.items }
    {
        if self.waiting.is_empty() {
            self.waiting = jobs;
        }
    }

    /// The first job that waited had its turn.
    pub fn outcome_of_slice(&mut self)
        ensures { self.new.waiting.items ≡ behind_first self.old.waiting.items }
    {
        if !self.waiting.is_empty() {
            self.waiting.remove(0);
        }
    }
}
