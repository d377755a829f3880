//! What holds of the posts of a journal as they grow. Each law is a call without a body: its caller knows the law.
ghost use Rattle.grind_journal.specs.Laws.{NoPostsNoClasses, ClassesOfActivated, ClassesOfMerged, ClassesOfKnown, ClassesOfOther, JoinedStay, TypedStays, OneFirst};

use grind_claims::laws::formed_stays;
use grind_rules::laws::allowed_stays;

#[tactic(auto, using(crate::proofs::Growth::no_posts_no_classes))]
/// Where there are no posts and no active nodes, no classes are right.
pub fn no_posts_no_classes()
    ensures { NoPostsNoClasses }
{}

/// A node that becomes active is a class of its own.
pub fn classes_of_activated()
    ensures { ClassesOfActivated }
{}

/// A post that two active nodes are equal makes one class of theirs.
pub fn classes_of_merged()
    ensures { ClassesOfMerged }
{}

/// A post that two nodes of one class are equal leaves the classes.
pub fn classes_of_known()
    ensures { ClassesOfKnown }
{}

/// A post that claims something else leaves the classes.
pub fn classes_of_other()
    ensures { ClassesOfOther }
{}

#[tactic(auto, using(crate::proofs::Growth::joined_stay))]
/// Nodes that are joined stay so as nodes become active and posts are appended.
pub fn joined_stay()
    ensures { JoinedStay }
{}

/// A typed post stays so as terms are appended, nodes become active and posts are appended.
pub fn typed_stays()
    ensures { TypedStays }
{
    formed_stays();
    allowed_stays();
}

/// A claim has one first post.
pub fn one_first()
    ensures { OneFirst }
{}
