ghost use Rattle.std.specs.Prelude.{◌≡◌, ◌<◌, OnOk, OnErr, IfOk, length, slice_get, [], ◌∷◌, ◌++◌};
ghost use Rattle.std.specs.List.{filter, remove};
ghost use Rattle.level_deques.specs.Levels.{newest};
ghost use Rattle.level_deques.specs.Posts.{is_post, without_post};

use crate::posts::{Post, PostTest};
use std::alloc::{AllocError, Global};
use std::collections::VecDeque;
use std::marker::Model;

/// The posts of one level. Contracts see the level and its posts, the newest last.
#[derive(Drop)]
pub struct Level {
    level: u16,
    posts: VecDeque<Post>,
}

impl Model for Level {
    ghost use Rattle.level_deques.specs.Levels.{LevelOf};

    ghost Value = { LevelOf };

    ghost view = { λ l. record { level = l.level; posts = l.posts.items } };
}

impl Level {
    /// One post, in a deque that is empty, and its level; refused only when out of memory.
    pub fn of(deque: VecDeque<Post>, post: Post) -> Result<Level, AllocError>
        requires { deque.items ≡ [] }
        ensures { IfOk result (λ l. l ≡ record { level = post.level; posts = post ∷ [] }) }
    {
        let level = post.level;
        let mut posts = deque;
        posts.push_back(post)?;
        Ok(Level { level, posts })
    }

    /// Its posts, in their deque.
    pub fn into_posts(self) -> VecDeque<Post>
        ensures { result.items ≡ self.posts }
    {
        self.posts
    }

    /// The level.
    pub fn level(&self) -> u16
        ensures { result ≡ self.now.level }
    {
        self.level
    }

    /// How many posts it has.
    pub fn len(&self) -> usize
        ensures { result ≡ length self.now.posts }
    {
        self.posts.len()
    }

    /// The newest post.
    pub fn newest(&self) -> Option<Post>
        ensures { result ≡ newest self.now.posts }
    {
        self.posts.back().copied()
    }

    /// The post of an index, counted from the oldest on.
    pub fn at(&self, index: usize) -> Option<Post>
        ensures { result ≡ slice_get self.now.posts index }
    {
        self.posts.get(index).copied()
    }

    /// Adds a post, the newest; refused only when out of memory, which changes nothing.
    pub fn post(&mut self, post: Post) -> Result<(), AllocError>
        ensures ok { OnOk result (self.new ≡ record self.old { posts = self.old.posts ++ post ∷ [] }) }
        ensures err { OnErr result (self.new ≡ self.old) }
    {
        self.posts.push_back(post)?;
        Ok(())
    }

    /// Takes the newest of those posts away that are this one. Takes no memory.
    pub fn take(&mut self, post: &Post)
        ensures { self.new ≡ record self.old { posts = without_post post.now self.old.posts } }
    {
        let mut left = self.posts.len();
        while 0 < left {
            left -= 1;
            if is_post(post, &self.posts[left]) {
                take_at(&mut self.posts, left);
                return;
            }
        }
    }

    /// Takes the posts away that don't stay by a test. Takes no memory.
    pub fn retain<S: PostTest>(&mut self, test: &S)
        ensures { self.new ≡ record self.old { posts = filter (S.stays test.now) self.old.posts } }
    {
        self.posts.retain(|post| test.stays(post));
    }
}

/// The copy is equal.
impl Clone for Level {
    ghost is_clone = { λ source copy. copy ≡ source };

    fn clone(&self) -> Result<Level, AllocError> {
        Ok(Level {
            level: self.level,
            posts: self.posts.clone()?,
        })
    }
}

/// Whether two posts are the same.
fn is_post(post: &Post, other: &Post) -> bool
    ensures { result ≡ is_post post.now other.now }
{
    other.level == post.level
        && other.grant.minter().word() == post.grant.minter().word()
        && other.grant.number() == post.grant.number()
        && other.frame.number() == post.frame.number()
}

/// Takes the post of an index away. Most often that is the newest, behind which none moves.
fn take_at(posts: &mut VecDeque<Post>, index: usize)
    requires { index < length posts.old.items }
    ensures { posts.new.items ≡ remove posts.old.items index }
{
    if index + 1 == posts.len() {
        posts.pop_back();
    } else {
        posts.remove(index);
    }
}
