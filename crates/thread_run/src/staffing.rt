//! The jobs of a run.

ghost use Rattle.std.specs.Prelude.{◌≡◌, ◌+◌, ◌<◌, ◌≤◌, ◌++◌, ◌∷◌, [], length, map, vec_capacity, vec_len};
ghost use Rattle.thread_run.specs.declared.job.Job.TheVariants as works;
ghost use Rattle.thread_run.specs.Staffing.{index_jobs, job_of, jobs_of, post_of};

use crate::Job;
use crate::beginning::Begun;
use crate::filling::push_within;
use run_plan::Asking;
use source_log::SourceLog;

/// The post of an indexer.
#[derive(Drop)]
pub enum Post<L: SourceLog> {
    /// It works.
    Working,
    /// It could not begin: its log failed, whose count of faults was this before and is this now.
    Failed { log: L, before: u64, after: u64 },
    /// It could not begin: there was no memory.
    Short(L),
}

// The post of an indexer, whose job is put behind the others where it is ready.
fn hire<L: SourceLog>(one: Begun<L>, jobs: &mut Vec<Job<L>>) -> Post<L>
    requires { vec_len jobs.old < vec_capacity jobs.old }
    ensures jobs { jobs.new.items ≡ jobs.old.items ++ job_of one }
    ensures room { vec_capacity jobs.old ≤ vec_capacity jobs.new }
    ensures post { result ≡ post_of one }
{
    match one {
        Begun::Ready(indexer) => {
            push_within(jobs, Job::Index(indexer));
            Post::Working
        }
        Begun::Failed { log, before, after } => Post::Failed { log, before, after },
        Begun::Short(log) => Post::Short(log),
    }
}

// The posts of indexers, and the jobs of those that are ready.
fn hire_indexers<L: SourceLog>(
    begun: Vec<Begun<L>>,
    jobs: &mut Vec<Job<L>>,
    posts: Vec<Post<L>>,
) -> Vec<Post<L>>
    requires jobs { (jobs.old.items ≡ []) × (vec_len begun ≤ vec_capacity jobs.old) }
    requires posts { (posts.items ≡ []) × (vec_len begun ≤ vec_capacity posts) }
    ensures jobs { jobs.new.items ≡ index_jobs begun.items }
    ensures room { (vec_len jobs.new ≤ vec_len begun) × (vec_capacity jobs.old ≤ vec_capacity jobs.new) }
    ensures posts { result.items ≡ map post_of begun.items }
{
    let mut posts = posts;
    for one in begun {
        push_within(&mut posts, hire(one, jobs));
    }
    posts
}

// The jobs of searchers, behind the others.
fn hire_searchers<L: SourceLog>(shares: Vec<Vec<Asking>>, jobs: &mut Vec<Job<L>>)
    requires { vec_len jobs.old + vec_len shares ≤ vec_capacity jobs.old }
    ensures jobs { jobs.new.items ≡ jobs.old.items ++ map (λ share. works.Answer share) shares.items }
    ensures room { vec_capacity jobs.old ≤ vec_capacity jobs.new }
{
    for askings in shares {
        push_within(jobs, Job::Answer(askings));
    }
}

/// The jobs of a run, and the posts of its indexers, of which those that are ready have a job. There is room for them.
pub fn jobs_of<L: SourceLog>(
    begun: Vec<Begun<L>>,
    shares: Vec<Vec<Asking>>,
    jobs: Vec<Job<L>>,
    posts: Vec<Post<L>>,
) -> (Vec<Job<L>>, Vec<Post<L>>)
    requires jobs { (jobs.items ≡ []) × (vec_len begun + vec_len shares + 3 ≤ vec_capacity jobs) }
    requires posts { (posts.items ≡ []) × (vec_len begun ≤ vec_capacity posts) }
    ensures jobs { result.0.items ≡ jobs_of begun.items shares.items }
    ensures posts { result.1.items ≡ map post_of begun.items }
{
    let mut jobs = jobs;
    let posts = hire_indexers(begun, &mut jobs, posts);
    hire_searchers(shares, &mut jobs);
    push_within(&mut jobs, Job::Merge);
    push_within(&mut jobs, Job::Delete);
    push_within(&mut jobs, Job::Collect);
    (jobs, posts)
}
