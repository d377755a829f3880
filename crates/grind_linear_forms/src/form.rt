//! A linear form.
ghost use Rattle.std.specs.Prelude.{◌≡◌, IfOk};
ghost use Rattle.grind_linear_forms.specs.Forms.{IsForm, number_form, node_form};

use grind_outside::{List, Memory};
use grind_term_graph::NodeId;
use std::alloc::Global;
use std::marker::Model;

/// Why a form was not made.
#[derive(Clone, Copy, Debug, PartialEq, Eq)]
pub enum FormRefusal {
    /// A product or a sum does not fit in 128 bits.
    Overflow,
    /// Out of memory.
    Memory,
}

impl From<Memory> for FormRefusal {
    ghost use Rattle.std.specs.Prelude.{◌≡◌};
    ghost use Rattle.grind_linear_forms.specs.declared.form.FormRefusal.{FormRefusal};

    ghost from_gives = { λ _ refusal. refusal ≡ FormRefusal.Memory };

    fn from(_want: Memory) -> FormRefusal {
        FormRefusal::Memory
    }
}

/// A node with its coefficient.
#[derive(Clone, Copy, Debug, PartialEq, Eq)]
pub struct Part {
    /// How often the node is taken.
    pub coefficient: i128,
    /// The node.
    pub node: NodeId,
}

/// A sum of nodes with coefficients, and a constant. No coefficient is 0, and the nodes rise strictly.
#[derive(Drop, Debug, PartialEq, Eq)]
pub struct Form {
    /// The nodes with their coefficients.
    pub parts: List<Part>,
    /// What is added to them.
    pub constant: i128,
}

impl Model for Form {
    ghost use Rattle.grind_linear_forms.specs.Forms.{FormData, IsForm, form_data};

    ghost Value = { FormData };

    ghost view = { λ a. form_data a.parts a.constant };

    ghost inverse = { λ d. record { parts = d.parts; constant = d.constant } };

    ghost invariant = { λ a. IsForm (form_data a.parts a.constant) };
}

impl Form {
    /// The nodes with their coefficients. Whoever asks for them learns what every form keeps.
    pub fn parts(&self) -> &[Part]
        ensures value { result.now ≡ self.now.parts }
        ensures keeps { IsForm self.now }
    {
        self.parts.as_slice()
    }

    /// What is added to the nodes.
    pub fn constant(&self) -> i128
        ensures { result ≡ self.now.constant }
    {
        self.constant
    }

    /// The number as a form.
    pub fn number(alloc: Global, number: i128) -> Form
        ensures { result ≡ number_form number }
    {
        Form {
            parts: List::new(alloc),
            constant: number,
        }
    }

    /// The node as a form.
    pub fn node(alloc: Global, node: NodeId) -> Result<Form, Memory>
        ensures { IfOk result (λ form. form ≡ node_form node) }
    {
        let mut parts = List::new(alloc);
        parts.push(Part {
            coefficient: 1,
            node,
        })?;
        Ok(Form { parts, constant: 0 })
    }

    /// The same form once more.
    pub fn copy(&self, alloc: Global) -> Result<Form, Memory>
        ensures { IfOk result (λ form. form ≡ self.now) }
    {
        let mut parts = List::new(alloc);
        parts.extend(self.parts())?;
        Ok(Form {
            parts,
            constant: self.constant,
        })
    }
}
