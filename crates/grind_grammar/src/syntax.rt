//! The declarations of a theory file, as they are read. A name is kept as the place where it stands in the file.
use grind_outside::List;

/// A name: the offsets of its first byte and of the byte past its last one.
#[derive(Clone, Copy, Debug, PartialEq, Eq)]
pub struct Name {
    /// The offset of its first byte.
    pub start: u32,
    /// The offset past its last byte.
    pub end: u32,
}

/// A bound variable or a constant of a goal, and its sort.
#[derive(Clone, Copy, Debug, PartialEq, Eq)]
pub struct Binder {
    /// The name that is bound.
    pub name: Name,
    /// Its sort.
    pub sort: Name,
}

/// How the patterns of a theorem are found.
#[derive(Drop)]
pub enum Annot {
    /// `[=]`: the left side of the equation that is concluded.
    Left,
    /// `[=_]`: the right side of that equation.
    Right,
    /// `[->]`: the terms of the hypotheses.
    Hyps,
    /// `[<-]`: the terms of the conclusion.
    Concl,
    /// `[pattern ..]`: these terms.
    Pattern(List<Tree>),
}

/// An operator before one part.
#[derive(Clone, Copy, Debug, PartialEq, Eq)]
pub enum Unary {
    /// `~`
    Not,
    /// `-`
    Neg,
}

/// An operator between two parts.
#[derive(Clone, Copy, Debug, PartialEq, Eq)]
pub enum Binary {
    /// `<->`
    Iff,
    /// `->`
    Implies,
    /// `\/`
    Or,
    /// `/\`
    And,
    /// `=`
    Eq,
    /// `!=`
    Ne,
    /// `<`
    Lt,
    /// `<=`
    Le,
    /// `>`
    Gt,
    /// `>=`
    Ge,
    /// `+`
    Add,
    /// `-`
    Sub,
    /// `*`
    Mul,
}

/// A formula or a term. Parentheses make no tree of their own.
#[derive(Drop)]
pub enum Tree {
    /// `true`
    True,
    /// `false`
    False,
    /// A whole number.
    Number(i128),
    /// A name with its parts in order, none for a constant.
    Apply(Name, Vec<Tree>),
    /// An operator before one part.
    One(Unary, Box<Tree>),
    /// An operator between two parts.
    Two(Binary, Box<Tree>, Box<Tree>),
}

/// A declaration.
#[derive(Drop)]
pub enum Decl {
    /// `sort NAME`
    Sort {
        /// The name of the sort.
        name: Name,
    },
    /// `fun NAME(ARGS) : RESULT`
    Fun {
        /// The name of the function.
        name: Name,
        /// The sorts of its arguments, in order.
        args: List<Name>,
        /// The sort of its value.
        result: Name,
    },
    /// `theorem NAME(BINDERS) ANNOTS : BODY`
    Theorem {
        /// The name of the theorem.
        name: Name,
        /// Its variables, in order.
        binders: List<Binder>,
        /// How its patterns are found.
        annots: List<Annot>,
        /// What it says.
        body: Tree,
    },
    /// `goal NAME(BINDERS) : HYPS |- SHOW`
    Goal {
        /// The name of the goal.
        name: Name,
        /// Its constants, in order.
        binders: List<Binder>,
        /// The hypotheses, in order.
        hyps: List<Tree>,
        /// The conclusion.
        show: Tree,
    },
    /// `limit NAME VALUE`
    Limit {
        /// The name of the limit.
        name: Name,
        /// Its value.
        value: i128,
    },
}
