//! The journal.
ghost use Rattle.std.specs.Prelude.{◌≡◌, ◌<◌, ◌^◌, ℕ, [], ◌∷◌, ◌++◌, length, take, OnOk, OnErr, IfSome, IsNone};
ghost use Rattle.grind_claims.specs.declared.claim.Claim.TheVariants.{Absurd};
ghost use Rattle.grind_journal.specs.Posts.{IsFirst, Stands, decisions_of, decision_count};

use grind_claims::{Claim, Rule};
use grind_cutsat_facts::is_same_claim;
use grind_outside::{List, Memory};
use grind_report_words::Post;
use std::alloc::Global;
use std::marker::Model;

/// The posts of a board, in order. Contracts see them as a list.
#[derive(Drop)]
pub struct Journal {
    posts: List<Post>,
}

impl Model for Journal {
    ghost use Rattle.std.specs.Prelude.{List};
    ghost use Rattle.grind_report_words.specs.declared.board.Post.{Post};

    ghost Value = { List Post };

    ghost view = { λ a. a.posts };
}

impl Journal {
    /// No posts. It takes no memory.
    pub fn new(alloc: Global) -> Journal
        ensures { result ≡ [] }
    {
        Journal {
            posts: List::new(alloc),
        }
    }

    /// Appends a post.
    ///
    /// # Errors
    ///
    /// `Memory` leaves the journal as it was.
    pub fn push(&mut self, post: Post) -> Result<(), Memory>
        ensures ok { OnOk result (self.new ≡ self.old ++ post ∷ []) }
        ensures err { OnErr result (self.new ≡ self.old) }
    {
        self.posts.push(post)
    }

    /// Takes away the posts from that number on.
    pub fn truncate(&mut self, len: u32)
        ensures { self.new ≡ take len self.old }
    {
        self.posts.truncate(len as usize);
    }

    /// The posts, in order.
    pub fn as_slice(&self) -> &[Post]
        ensures value { result.now ≡ self.now }
        ensures bound { length self.now < 2 ^ 32 }
    {
        self.posts.as_slice()
    }

    /// The number of the first post that makes the claim, if one does.
    pub fn find(&self, claim: &Claim) -> Option<u32>
        ensures found { IfSome result (λ n. IsFirst self.now claim.now n) }
        ensures none { IsNone result → ¬ Stands self.now claim.now }
    {
        find_among(self.posts.as_slice(), claim)
    }

    /// The number of the first post that is a contradiction, if one is.
    pub fn absurd(&self) -> Option<u32>
        ensures found { IfSome result (λ n. IsFirst self.now Absurd n) }
        ensures none { IsNone result → ¬ Stands self.now Absurd }
    {
        self.find(&Claim::Absurd)
    }

    /// How many decisions were made.
    pub fn decisions(&self) -> u32
        ensures { result ≡ decision_count self.now }
    {
        decisions_among(self.posts.as_slice())
    }
}

// The number of the first of these posts that makes the claim, if one does.
fn find_among(posts: &[Post], claim: &Claim) -> Option<u32>
    requires { length posts.now < 2 ^ 32 }
    ensures found { IfSome result (λ n. IsFirst posts.now claim.now n) }
    ensures none { IsNone result → ¬ Stands posts.now claim.now }
{
    let mut rest = posts;
    let mut number = 0;
    while let Some((post, tail)) = rest.split_first() {
        if is_same_claim(&post.claim, claim) {
            return Some(number);
        }
        number += 1;
        rest = tail;
    }
    None
}

// How many of these posts are decisions.
fn decisions_among(posts: &[Post]) -> u32
    requires { length posts.now < 2 ^ 32 }
    ensures { result ≡ decision_count posts.now }
{
    let mut rest = posts;
    let mut count = 0;
    while let Some((post, tail)) = rest.split_first() {
        count += decisions_by(&post.rule);
        rest = tail;
    }
    count
}

// How many decisions a post by this rule is: 1 or 0.
fn decisions_by(rule: &Rule) -> u32
    ensures { result ≡ decisions_of rule.now }
{
    match rule {
        Rule::Branch => 1,
        _ => 0,
    }
}
