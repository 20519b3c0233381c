//! The queue of jobs, from its first on.
ghost use Rattle.std.specs.Prelude.{◌≡◌, Some, length};
ghost use Rattle.ws_jobs.specs.Shorts.{job_in};
ghost use Rattle.ws_steps.specs.Promises as table;
ghost use Rattle.ws_steps.specs.declared.promises.Job.{Job as AnyJob};

use crate::promises::Promises;
use ws_jobs::Short;
use ws_slots::drop_job;
use ws_steps::Job;

impl Promises {
    /// Takes out the first job. The caller performs it; for a `Settle` it settles the promise that the job names.
    pub fn next_job(&mut self) -> Option<Job>
        ensures job { result ≡ table.next_job self.old.table }
        ensures table { self.new ≡ record self.old { table = table.after_next_job self.old.table } }
    {
        let job = self.first_job();
        self.drop_first_job();
        job
    }

    /// The first job of the queue. The caller performs it; for a `Settle` it settles the promise that the job names.
    pub fn first_job(&self) -> Option<Job>
        ensures { result ≡ table.next_job self.now.table }
    {
        self.jobs.first()
    }

    /// The first job in its short form, where it has one.
    #[inline(always)]
    pub fn first_short(&self) -> Short
        ensures { (job : AnyJob) → job_in result ≡ Some job → table.next_job self.now.table ≡ Some job }
    {
        self.jobs.first_short()
    }

    /// Drops the first job, which the caller has read.
    #[inline(always)]
    pub fn drop_first_job(&mut self)
        ensures { self.new ≡ record self.old { table = table.after_next_job self.old.table } }
    {
        drop_job(
            &mut self.slots,
            &mut self.waiting,
            &mut self.jobs,
            &mut self.reactions,
            &mut self.astray,
        );
    }

    /// How many jobs wait in the queue.
    pub fn queued(&self) -> usize
        ensures { result ≡ length self.now.table.jobs }
    {
        self.jobs.len()
    }
}
