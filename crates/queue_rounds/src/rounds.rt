//! The rounds in which the queue of a bureau is run.

ghost use Rattle.std.specs.Prelude.{◌≡◌, ◌-◌, ◌||◌, if◌then◌else◌, option_copied, slice_get};
ghost use Rattle.queue_rounds.specs.Rounds.{after, idle_next, idle_rounds, ended, ended_next, failed, failed_next, has_run, is_last, is_passed_over, is_spent, listed, listed_next, next_after, one_less, spent_next, start, state_of, turn_of, turned, turned_next};
ghost use Rattle.queue_rounds.specs.declared.rounds.Next.TheVariants.{End, Pause};
ghost use Rattle.queue_rounds.specs.declared.rounds.Why.TheVariants as why;

use crate::jobs::JobName;
use crate::replies::{Outcome, Passed};
use crate::turns::{Turn, Turns};
use std::alloc::Global;

/// How often in a row a request that failed is made again.
pub const MOST_TRIES: u32 = 10;

/// After how many rounds in a row in which no slice ran the work ends.
const MOST_BARREN: u32 = 10;

/// Why the work ends.
#[derive(Clone, Copy)]
pub enum Why {
    /// The queue is empty.
    Empty,
    /// As many rounds were done as were asked for, and a slice ran in the last.
    Rounds,
    /// Each job in the queue was granted all the instructions that a job can be.
    Spent,
    /// No slice ran in the last rounds, though there were jobs that can be granted more. The rounds
    /// are [`MOST_BARREN`], or fewer if no more were asked for.
    Idle,
    /// A request failed, and failed again [`MOST_TRIES`] times.
    Away,
    /// What answers is no bureau.
    Foreign,
}

/// What is to be done after an answer.
#[derive(Clone, Copy)]
pub enum Next {
    /// The next request.
    GoOn,
    /// The next request, after a pause.
    Pause,
    /// Nothing more.
    End(Why),
}

/// The work on a queue. Which request is next, and when there is a pause or an end, follows from
/// the answers.
#[derive(Drop)]
pub struct Rounds {
    /// Whether the work is kept up when there is nothing to run.
    keeps: bool,
    turns: Turns,
    /// How many rounds may still be begun, if there is a limit.
    left: Option<u32>,
    /// Whether a slice of this round ran.
    ran: bool,
    /// Whether a job of this round was passed over that can be granted more.
    passed: bool,
    /// How many rounds in a row may still be without a slice that runs, though there are such jobs.
    patience: u32,
    /// How many requests in a row may still fail.
    tries: u32,
}

/// The number of the refusal of a slice whose job was granted all the instructions that a job can
/// be.
const TOO_MUCH: u32 = 28;

/// Whether a job was granted all the instructions that a job can be, by why its slice did not run.
pub fn is_spent(passed: Passed) -> bool
    ensures { result ≡ is_spent passed }
{
    match passed {
        Passed::Refused(number) => number == TOO_MUCH,
        _ => false,
    }
}

/// What came of a turn in which no slice ran.
fn turn_of(passed: Passed) -> Turn
    ensures { result ≡ turn_of passed }
{
    if is_spent(passed) {
        Turn::Spent
    } else {
        Turn::PassedOver
    }
}

/// A number of rounds less one.
fn one_less(left: Option<u32>) -> Option<u32>
    ensures { result ≡ one_less left }
{
    match left {
        Some(count) => Some(count.saturating_sub(1)),
        None => None,
    }
}

impl Rounds {
    /// No round was begun; so many may be, if there is a limit. Where the work is kept up, it goes
    /// on when there is nothing to run.
    pub fn new(alloc: Global, most: Option<u32>, keeps: bool) -> Rounds
        ensures { state_of result ≡ start most keeps }
    {
        Rounds {
            keeps,
            turns: Turns::new(alloc),
            left: most,
            ran: false,
            passed: false,
            patience: MOST_BARREN,
            tries: MOST_TRIES,
        }
    }

    /// What is to be asked for next: a slice of this job; without one the queue.
    pub fn next(&self) -> Option<&JobName>
        ensures { option_copied result ≡ slice_get (state_of self.now).waiting 0 }
    {
        self.turns.next()
    }

    /// Whether no other round may be begun.
    fn is_last(&self) -> bool
        ensures { result ≡ is_last self.now.left }
    {
        match self.left {
            Some(count) => count == 0,
            None => false,
        }
    }

    /// Begins a round with the jobs of a queue.
    fn begin(&mut self, jobs: Vec<JobName>) -> Next
        ensures state { state_of self.new ≡ listed (state_of self.old) jobs.items }
        ensures next { result ≡ listed_next (state_of self.old) jobs.items }
    {
        self.tries = MOST_TRIES;
        if !self.turns.is_over() {
            return Next::GoOn;
        }
        if jobs.is_empty() {
            return self.empty();
        }
        self.turns.outcome_of_queue(jobs);
        self.left = one_less(self.left);
        self.ran = false;
        self.passed = false;
        Next::GoOn
    }

    /// What follows on an empty queue.
    fn empty(&self) -> Next
        ensures { result ≡ (if self.now.keeps then Pause else End why.Empty) }
    {
        if self.keeps {
            Next::Pause
        } else {
            Next::End(Why::Empty)
        }
    }

    /// What follows on a round in which each job was granted all already.
    fn spent(&self) -> Next
        ensures { result ≡ spent_next (state_of self.now) }
    {
        if !self.keeps || self.is_last() {
            Next::End(Why::Spent)
        } else {
            Next::Pause
        }
    }

    /// Counts a round in which no slice ran, though there were jobs that can be granted more.
    fn idle(&mut self) -> Next
        ensures state { state_of self.new
            ≡ record (state_of self.old) { patience = (state_of self.old).patience - 1 } }
        ensures next { result ≡ idle_next (state_of self.old) }
    {
        self.patience = self.patience.saturating_sub(1);
        if self.patience == 0 || self.is_last() {
            Next::End(Why::Idle)
        } else {
            Next::Pause
        }
    }

    /// Ends a round.
    fn end_round(&mut self) -> Next
        ensures state { state_of self.new ≡ ended (state_of self.old) }
        ensures next { result ≡ ended_next (state_of self.old) }
    {
        if self.ran {
            self.patience = MOST_BARREN;
            return if self.is_last() {
                Next::End(Why::Rounds)
            } else {
                Next::GoOn
            };
        }
        if self.passed {
            return self.idle();
        }
        self.spent()
    }

    /// How many rounds in a row, up to now, were without a slice that ran, though there were jobs
    /// that can be granted more.
    pub fn idle_rounds(&self) -> u32
        ensures { result ≡ idle_rounds (state_of self.now) }
    {
        MOST_BARREN.saturating_sub(self.patience)
    }

    /// Notes what came of a turn of this round.
    fn note(&mut self, turn: Turn)
        ensures { state_of self.new ≡ record (state_of self.old) {
          ran = (state_of self.old).ran || has_run turn;
          passed = (state_of self.old).passed || is_passed_over turn;
        } }
    {
        match turn {
            Turn::Ran => self.ran = true,
            Turn::Spent => {}
            Turn::PassedOver => self.passed = true,
        }
    }

    /// The first job that waited had its turn.
    fn take_turn(&mut self, turn: Turn) -> Next
        ensures state { state_of self.new ≡ turned turn (state_of self.old) }
        ensures next { result ≡ turned_next turn (state_of self.old) }
    {
        self.tries = MOST_TRIES;
        if self.turns.is_over() {
            return Next::GoOn;
        }
        self.turns.outcome_of_slice();
        self.note(turn);
        if self.turns.is_over() {
            return self.end_round();
        }
        Next::GoOn
    }

    /// A request failed.
    fn fail(&mut self) -> Next
        ensures state { state_of self.new ≡ failed (state_of self.old) }
        ensures next { result ≡ failed_next (state_of self.old) }
    {
        if self.tries == 0 {
            return Next::End(Why::Away);
        }
        self.tries -= 1;
        Next::Pause
    }

    /// Goes on by what was answered to the request that was next. Returns what is to be done.
    pub fn advance(&mut self, outcome: Outcome) -> Next
        ensures state { state_of self.new ≡ after (state_of self.old) outcome }
        ensures next { result ≡ next_after (state_of self.old) outcome }
    {
        match outcome {
            Outcome::Listed(jobs) => self.begin(jobs),
            Outcome::Ran(_) => self.take_turn(Turn::Ran),
            Outcome::Passed(passed) => self.take_turn(turn_of(passed)),
            Outcome::Nothing => self.fail(),
            Outcome::Foreign => Next::End(Why::Foreign),
        }
    }
}
