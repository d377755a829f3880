//! What is looked for, and where.
ghost use Rattle.std.specs.Prelude.{◌≡◌, ◌<◌, ◌^◌, Some, All, length, slice_get, IsTrue, ◌↔◌};
ghost use Rattle.grind_term_graph.specs.Terms.{sort_at};
ghost use Rattle.grind_classes.specs.Classes.{members_of, IsIn, IsActive};
ghost use Rattle.grind_ematch.specs.Matches.{IsScene, scene_of, generation_of};
ghost use Rattle.grind_ematch.specs.Partials.{query_of, IsQuery, AreTargets};

use grind_classes::Classes;
use grind_schemes::Scheme;
use grind_term_graph::{Node, NodeId, SortId, TermTable};
use std::marker::Model;

/// Terms, classes of the active ones and their generations, the sorts of the variables, and the greatest generation
/// that a match may have.
#[derive(Drop)]
pub struct Query<'a> {
    terms: &'a TermTable,
    classes: &'a Classes,
    generations: &'a [u32],
    vars: &'a [SortId],
    most: u32,
}

impl<'a> Model for Query<'a> {
    ghost use Rattle.grind_ematch.specs.Matches.{scene_of};
    ghost use Rattle.grind_ematch.specs.Partials.{QueryData, IsQuery, query_of};

    ghost Value = { QueryData };

    ghost view = { λ a. query_of (scene_of a.terms.now.nodes a.classes.now.lists a.generations.now) a.vars.now a.most };

    ghost invariant = { λ a. IsQuery (query_of (scene_of a.terms.now.nodes a.classes.now.lists a.generations.now) a.vars.now a.most) };
}

impl<'a> Query<'a> {
    /// The query of these parts.
    pub fn new(
        terms: &'a TermTable,
        classes: &'a Classes,
        generations: &'a [u32],
        vars: &'a [SortId],
        most: u32,
    ) -> Query<'a>
        requires { IsScene (scene_of terms.now.nodes classes.now.lists generations.now) }
        ensures value { result ≡ query_of (scene_of terms.now.nodes classes.now.lists generations.now) vars.now most }
        ensures keeps { IsQuery result }
    {
        let _active = classes.is_active(NodeId::TRUE);
        Query {
            terms,
            classes,
            generations,
            vars,
            most,
        }
    }

    /// The greatest generation that a match may have.
    pub fn most(&self) -> u32
        ensures { result ≡ self.now.most }
    {
        self.most
    }

    /// The sorts of the variables. Whoever asks for them learns what every query keeps.
    pub fn vars(&self) -> &[SortId]
        ensures value { result.now ≡ self.now.vars }
        ensures keeps { IsQuery self.now }
    {
        self.vars
    }

    /// How many nodes there are.
    pub fn len(&self) -> u32
        ensures { result ≡ length self.now.scene.nodes }
    {
        self.terms.len()
    }

    /// Whether a node is active.
    pub fn is_active(&self, n: NodeId) -> bool
        ensures { IsTrue result ↔ IsActive self.now.scene.classes n }
    {
        self.classes.is_active(n)
    }

    /// An active node.
    pub fn node(&self, n: NodeId) -> &Node
        requires { IsActive self.now.scene.classes n }
        ensures value { slice_get self.now.scene.nodes n ≡ Some result.now }
        ensures args { All (IsActive self.now.scene.classes) result.now.args }
    {
        self.terms.node(n)
    }

    /// Whether an active node is of the sort of a variable.
    pub fn fits(&self, n: NodeId, variable: u32) -> bool
        requires active { IsActive self.now.scene.classes n }
        requires within { variable < length self.now.vars }
        ensures { IsTrue result ↔ (sort_at self.now.scene.nodes n ≡ slice_get self.now.vars variable) }
    {
        self.node(n).sort == self.vars[variable as usize]
    }

    /// The generation of an active node.
    pub fn generation(&self, n: NodeId) -> u32
        requires { IsActive self.now.scene.classes n }
        ensures { result ≡ generation_of self.now.scene n }
    {
        self.generations[n.number() as usize]
    }

    /// The root of the class of an active node.
    pub fn root(&self, n: NodeId) -> NodeId
        requires { IsActive self.now.scene.classes n }
        ensures within { IsIn self.now.scene.classes result n }
        ensures own { IsIn self.now.scene.classes result result }
    {
        self.classes.root(n)
    }

    /// The nodes of the class of an active node at which the pattern has to be tried: all of them, and for a variable,
    /// which stands for the whole class, the root alone.
    pub fn targets(&self, pattern: &Scheme, id: NodeId) -> &[NodeId]
        requires { IsActive self.now.scene.classes id }
        ensures targets { AreTargets self.now.scene pattern.now id result.now }
        ensures keeps { IsQuery self.now }
    {
        let members = self.classes.members(self.classes.root(id));
        match pattern {
            Scheme::Var(_) => members.split_at(1).0,
            Scheme::Apply { .. } => members,
        }
    }
}
