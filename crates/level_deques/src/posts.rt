ghost use Rattle.std.specs.Prelude.{◌≡◌, ◌<◌, ◌+◌, ◌^◌, if◌then◌else◌, OnOk, OnErr, length, slice_get, []};
ghost use Rattle.level_deques.specs.Posts.{shallowest, deepest, is_post_of, withdrawn, without_post, taken, posted, by_depth};
ghost use Rattle.level_deques.specs.Levels.{AreLevels, AreRising, IsByLevel, IsParted, StandByLevel, all_posts};
ghost use Rattle.std.specs.List.{filter};

use crate::level::Level;
use ids::{FrameNo, GrantId};
use std::alloc::{AllocError, Global};
use std::collections::VecDeque;
use std::marker::Model;
use std::mem;

/// A ready frame, and the level of its place.
#[derive(Clone, Copy, PartialEq, Eq, Debug)]
pub struct Post {
    pub level: u16,
    pub grant: GrantId,
    pub frame: FrameNo,
}

/// A test of posts.
pub trait PostTest {
    ghost use Rattle.std.specs.Prelude.{Bool};
    ghost use Rattle.level_deques.specs.declared.posts.Post.{Post};

    ghost stays: { Self → Post → Bool };

    /// Whether a post stays; takes no memory.
    fn stays(&self, post: &Post) -> bool
        ensures { result ≡ stays self.now post.now };
}

/// The ready frames of a node, those of each level in a deque. Contracts see for each level, from
/// the least on, its posts, the newest last: one list of them all.
#[derive(Drop)]
pub struct Posts {
    alloc: Global,
    levels: Vec<Level>,
    // an empty deque, kept of a level that lost its last post: the next new level has it, and takes
    // no memory
    spare: VecDeque<Post>,
    count: usize,
}

impl Model for Posts {
    ghost use Rattle.std.specs.Prelude.{◌≡◌, List, [], length};
    ghost use Rattle.level_deques.specs.declared.posts.Post.{Post};
    ghost use Rattle.level_deques.specs.Levels.{AreLevels, all_posts};

    ghost Value = { List Post };

    ghost view = { λ p. all_posts p.levels.items };

    ghost invariant = { λ p. AreLevels p.levels.items × (p.spare.items ≡ []) × (p.count ≡ length (all_posts p.levels.items)) };
}

impl Posts {
    /// No posts; takes no memory.
    pub fn new(alloc: Global) -> Posts
        ensures { result ≡ [] }
    {
        Posts {
            alloc,
            levels: Vec::new(alloc),
            spare: VecDeque::new(alloc),
            count: 0,
        }
    }

    /// How many posts there are.
    pub fn len(&self) -> usize
        ensures { result ≡ length self.now }
    {
        self.count
    }

    /// The posts stand by rising level.
    pub fn law_stand_by_level(&self)
        ensures { IsByLevel self.now }
    {
        let _ = &self.levels;
    }

    /// Adds a post, the newest of its level; refused only when out of memory, which changes
    /// nothing.
    pub fn post(&mut self, post: Post) -> Result<(), AllocError>
        ensures ok { OnOk result (self.new ≡ posted post self.old) }
        ensures err { OnErr result (self.new ≡ self.old) }
    {
        let Some(count) = self.count.checked_add(1) else {
            return Err(AllocError);
        };
        put(self.alloc, &mut self.levels, &mut self.spare, post)?;
        self.count = count;
        Ok(())
    }

    /// The post that comes after so many others, from the deepest level on and in a level the
    /// newest first. Takes no memory.
    pub fn at(&self, index: usize) -> Option<Post>
        ensures { result ≡ slice_get (by_depth self.now) index }
    {
        at(&self.levels, index)
    }

    /// The newest post of the greatest level. Takes no memory.
    pub fn deepest(&self) -> Option<Post>
        ensures { result ≡ deepest self.now }
    {
        self.levels.last()?.newest()
    }

    /// The newest post of the least level. Takes no memory.
    pub fn shallowest(&self) -> Option<Post>
        ensures { result ≡ shallowest self.now }
    {
        self.levels.first()?.newest()
    }

    /// Takes the newest post of the greatest level away. Takes no memory.
    pub fn take_deepest(&mut self) -> Option<Post>
        ensures same { result ≡ deepest self.old }
        ensures gone { self.new ≡ taken result self.old }
    {
        let post = self.deepest()?;
        self.withdraw(post.grant, post.frame);
        Some(post)
    }

    /// Takes the newest post of the least level away. Takes no memory.
    pub fn take_shallowest(&mut self) -> Option<Post>
        ensures same { result ≡ shallowest self.old }
        ensures gone { self.new ≡ taken result self.old }
    {
        let post = self.shallowest()?;
        self.withdraw(post.grant, post.frame);
        Some(post)
    }

    /// Takes the newest of those posts away that are this one, found by its level. Takes no memory.
    pub fn take(&mut self, post: &Post)
        ensures { self.new ≡ without_post post.now self.old }
    {
        if take(&mut self.levels, &mut self.spare, post) {
            self.count -= 1;
        }
    }

    /// Takes the posts away that don't stay by a test. Takes no memory.
    pub fn retain<S: PostTest>(&mut self, test: &S)
        ensures { self.new ≡ filter (S.stays test.now) self.old }
    {
        self.count = retain(&mut self.levels, test);
        self.levels.retain(|level| 0 < level.len());
    }

    /// Takes the posts of a frame away. Takes no memory.
    pub fn withdraw(&mut self, grant: GrantId, frame: FrameNo)
        ensures { self.new ≡ withdrawn grant frame self.old }
    {
        self.retain(&OfOthers { grant, frame });
    }
}

/// The copy is equal.
impl Clone for Posts {
    ghost is_clone = { λ source copy. copy ≡ source };

    fn clone(&self) -> Result<Posts, AllocError> {
        Ok(Posts {
            alloc: self.alloc,
            levels: self.levels.clone()?,
            spare: VecDeque::new(self.alloc),
            count: self.count,
        })
    }
}

/// How many levels are less than this one, looked for from the greatest on.
fn levels_below(levels: &[Level], level: u16) -> usize
    requires { AreRising levels.now }
    ensures { IsParted level levels.now result }
{
    let mut count = levels.len();
    while 0 < count && level <= levels[count - 1].level() {
        count -= 1;
    }
    count
}

/// Puts a post behind those of its level; refused only when out of memory, which changes nothing. A
/// new level has the spare deque.
fn put(
    alloc: Global,
    levels: &mut Vec<Level>,
    spare: &mut VecDeque<Post>,
    post: Post,
) -> Result<(), AllocError>
    requires levels { AreLevels levels.old.items }
    requires empty { spare.old.items ≡ [] }
    ensures spare { spare.new.items ≡ [] }
    ensures ok { OnOk result (all_posts levels.new.items ≡ posted post (all_posts levels.old.items)) }
    ensures levels { AreLevels levels.new.items }
    ensures err { OnErr result (levels.new.items ≡ levels.old.items) }
{
    let below = levels_below(levels, post.level);
    if below < levels.len() && levels[below].level() == post.level {
        levels[below].post(post)?;
    } else {
        let deque = mem::replace(spare, VecDeque::new(alloc));
        levels.insert(below, Level::of(deque, post)?)?;
    }
    Ok(())
}

/// Takes the newest of those posts away that are this one, and says whether there was one. The
/// deque of a level that has none left is kept as the spare one.
fn take(levels: &mut Vec<Level>, spare: &mut VecDeque<Post>, post: &Post) -> bool
    requires levels { AreLevels levels.old.items }
    requires empty { spare.old.items ≡ [] }
    ensures spare { spare.new.items ≡ [] }
    ensures taken { all_posts levels.new.items ≡ without_post post.now (all_posts levels.old.items) }
    ensures levels { AreLevels levels.new.items }
    ensures count { length (all_posts levels.old.items) ≡ length (all_posts levels.new.items) +
        (if result then 1 else 0) }
{
    let below = levels_below(levels, post.level);
    if below == levels.len() || levels[below].level() != post.level {
        return false;
    }
    let before = levels[below].len();
    levels[below].take(post);
    let left = levels[below].len();
    if left == 0 {
        *spare = levels.remove(below).into_posts();
    }
    left < before
}

/// The post that comes after so many others, from the greatest level on and in a level the newest
/// first.
fn at(levels: &[Level], index: usize) -> Option<Post>
    ensures { result ≡ slice_get (by_depth (all_posts levels.now)) index }
{
    let mut index = index;
    let mut count = levels.len();
    while 0 < count {
        count -= 1;
        let level = &levels[count];
        let len = level.len();
        if index < len {
            return level.at(len - 1 - index);
        }
        index -= len;
    }
    None
}

/// Takes the posts away that don't stay by a test, and counts those that do.
fn retain<S: PostTest>(levels: &mut Vec<Level>, test: &S) -> usize
    requires counted { length (all_posts levels.old.items) < 2 ^ 64 }
    requires stand { StandByLevel levels.old.items }
    ensures stand { StandByLevel levels.new.items }
    ensures posts { all_posts levels.new.items ≡ filter (S.stays test.now) (all_posts levels.old.items) }
    ensures count { result ≡ length (all_posts levels.new.items) }
{
    let mut count = 0;
    for at in 0..levels.len() {
        levels[at].retain(test);
        count += levels[at].len();
    }
    count
}

/// The test of a post: it isn't that of a frame.
#[derive(Drop)]
struct OfOthers {
    grant: GrantId,
    frame: FrameNo,
}

impl PostTest for OfOthers {
    ghost use Rattle.std.specs.Prelude.{not};
    ghost use Rattle.level_deques.specs.Posts.{is_post_of};

    ghost stays = { λ t p. not (is_post_of t.grant t.frame p) };

    fn stays(&self, post: &Post) -> bool {
        !is_post_of(post, self.grant, self.frame)
    }
}

/// Whether a post is that of a frame.
fn is_post_of(post: &Post, grant: GrantId, frame: FrameNo) -> bool
    ensures { result ≡ is_post_of grant frame post.now }
{
    post.grant.minter().word() == grant.minter().word()
        && post.grant.number() == grant.number()
        && post.frame.number() == frame.number()
}
