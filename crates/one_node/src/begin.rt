ghost use Rattle.std.specs.Prelude.{◌≡◌, IfOk, Some, []};
ghost use Rattle.ids.specs.Names.{house_of};
ghost use Rattle.agreement_laws.specs.Agreement.{TaskAgrees};
ghost use Rattle.one_node.specs.Runs.{own_grant, post_of, root_task, run_of, start_of};
ghost use Rattle.one_node.specs.Holding.{Holds};

use agreement_laws::{granted_content_agrees, root_content_agrees};
use ids::{Actor, Epoch, FrameNo, GrantId, Numbers, Place, Task};
use level_deques::{Post, Posts};
use serial_meaning::Job;
use std::alloc::{AllocError, Global};
use sub_rules::{Content, Readied, granted};

/// A run between its turns: what its subcomputation holds, and the posts of the ready frames.
#[derive(Drop)]
pub struct Run {
    pub content: Content,
    pub posts: Posts,
}

/// The run of a job before its first turn.
pub fn begun(alloc: Global, job: &Job) -> Result<Run, AllocError>
    ensures start { IfOk result (λ run. start_of job.now ≡ Some (run_of run)) }
    ensures holds { IfOk result (λ run. Holds job.now (run_of run)) }
{
    let _ = job.checked();
    granted_content_agrees();
    let content = granted(alloc, house(), root_task(alloc, job)?)?;
    let mut posts = Posts::new(alloc);
    posts.post(post_of(Readied {
        frame: FrameNo::of(0),
        level: content.task.place.level(),
    }))?;
    Ok(Run { content, posts })
}

/// The task of a job: at the root, thread `main` on the input.
fn root_task(alloc: Global, job: &Job) -> Result<Task, AllocError>
    ensures task { IfOk result (λ task. root_task job.now ≡ Some task) }
    ensures agrees { IfOk result (λ task. TaskAgrees job.now task) }
    ensures rooted { IfOk result (λ task. task.place ≡ []) }
{
    root_content_agrees();
    let _ = job.checked();
    Ok(Task {
        place: Place::root(alloc),
        thread: job.main(),
        numbers: Numbers::copy_of(alloc, job.input())?,
    })
}

/// The clearinghouse in its first epoch.
fn house() -> Actor
    ensures { result ≡ house_of 1 }
{
    Epoch::of(1).unwrap().house()
}

/// The name under which the frames of a run on one node are posted.
pub fn own_grant() -> GrantId
    ensures { result ≡ own_grant }
{
    GrantId::of(house(), 1).unwrap()
}

/// The post of a frame that became ready.
pub fn post_of(readied: Readied) -> Post
    ensures { result ≡ post_of readied }
{
    Post {
        level: readied.level,
        grant: own_grant(),
        frame: readied.frame,
    }
}
