//! Terms read as linear forms.
ghost use Rattle.std.specs.Prelude.{◌≡◌, ◌<◌, ℕ, All, Contains, length, Some, None, IfOk, IsErrOf};
ghost use Rattle.grind_term_graph.specs.Terms.{int, sort_at};
ghost use Rattle.grind_reach.specs.Readings.{found};
ghost use Rattle.grind_linear_forms.specs.Readings.{form_operations, linear, product_form};

use crate::form::{Form, FormRefusal};
use crate::sum::{add_scaled, scale};
use grind_outside::{List, Memory};
use grind_reach::{Algebra, read_all, read_term};
use grind_term_graph::{NodeId, TermTable};
use std::alloc::Global;

#[tactic(auto, unfolding(crate::specs::Readings::linear))]
/// The reading of a term of whole numbers as a linear form. Each node that it needs is read once, and its reading is let
/// go after the last node that needs it is read.
///
/// # Errors
///
/// `Overflow` exactly where a number on the way does not fit in 128 bits.
pub fn linear_of(alloc: Global, table: &TermTable, id: NodeId) -> Result<Form, FormRefusal>
    requires { sort_at table.now.nodes id ≡ Some int }
    ensures ok { IfOk result (λ form. linear table.now.nodes id ≡ Some form) }
    ensures overflow { IsErrOf result FormRefusal.Overflow → linear table.now.nodes id ≡ None }
{
    let reading = read_term::<Form>(alloc, table, id)?;
    let Some(form) = reading else {
        return Err(FormRefusal::Overflow);
    };
    Ok(form)
}

#[tactic(auto, unfolding(crate::specs::Readings::linear))]
/// The readings of many terms of whole numbers, in one pass over the table. Each stands at the number of its node, and
/// there is none exactly where a number on the way does not fit in 128 bits.
///
/// # Errors
///
/// `Memory` if out of memory.
pub fn linear_of_all(
    alloc: Global,
    table: &TermTable,
    ids: &[NodeId],
) -> Result<List<Option<Form>>, Memory>
    requires { All (λ id. sort_at table.now.nodes id ≡ Some int) ids.now }
    ensures within { IfOk result (λ forms. All (λ id. id < length forms) ids.now) }
    ensures only { IfOk result (λ forms. (k : ℕ) (form : _) → found forms k ≡ Some form → Contains ids.now k) }
    ensures read { IfOk result (λ forms. All (λ id. found forms id ≡ linear table.now.nodes id) ids.now) }
{
    read_all::<Form>(alloc, table, ids)
}

impl Algebra for Form {
    ghost use Rattle.grind_linear_forms.specs.Readings.{form_operations};

    ghost operations = { form_operations };

    fn number(alloc: Global, number: i128) -> Result<Option<Form>, Memory> {
        Ok(Some(Form::number(alloc, number)))
    }

    fn atom(alloc: Global, node: NodeId) -> Result<Option<Form>, Memory> {
        let form = Form::node(alloc, node)?;
        Ok(Some(form))
    }

    fn sum(alloc: Global, a: &Form, b: &Form) -> Result<Option<Form>, Memory> {
        match add_scaled(alloc, a, 1, b, 1) {
            Ok(form) => Ok(Some(form)),
            Err(FormRefusal::Overflow) => Ok(None),
            Err(FormRefusal::Memory) => Err(Memory),
        }
    }

    fn negation(alloc: Global, a: &Form) -> Result<Option<Form>, Memory> {
        match scale(alloc, a, -1) {
            Ok(form) => Ok(Some(form)),
            Err(FormRefusal::Overflow) => Ok(None),
            Err(FormRefusal::Memory) => Err(Memory),
        }
    }

    fn product(alloc: Global, node: NodeId, a: &Form, b: &Form) -> Result<Option<Form>, Memory> {
        match product_of(alloc, node, a, b) {
            Ok(form) => Ok(Some(form)),
            Err(FormRefusal::Overflow) => Ok(None),
            Err(FormRefusal::Memory) => Err(Memory),
        }
    }
}

// The product of two forms one of which is a number, else the node itself.
fn product_of(alloc: Global, n: NodeId, a: &Form, b: &Form) -> Result<Form, FormRefusal>
    ensures ok { IfOk result (λ form. product_form n a.now b.now ≡ Some form) }
    ensures overflow { IsErrOf result FormRefusal.Overflow → product_form n a.now b.now ≡ None }
{
    if a.parts().is_empty() {
        let form = scale(alloc, b, a.constant)?;
        return Ok(form);
    }
    if b.parts().is_empty() {
        let form = scale(alloc, a, b.constant)?;
        return Ok(form);
    }
    let form = Form::node(alloc, n)?;
    Ok(form)
}
