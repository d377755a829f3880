//! A theorem that is made by hand.
ghost use Rattle.std.specs.Prelude.{◌≡◌};

use grind_outside::List;
use grind_schemes::{Scheme, Theorem};
use grind_term_graph::{Head, SortId};
use std::alloc::Global;
use std::test::Fail;

// says that truth holds, without variables and patterns
fn truth(alloc: Global, name: List<u8>) -> Theorem
    ensures { result.name ≡ name }
{
    let body = Scheme::Apply {
        head: Head::True,
        sort: SortId::PROP,
        args: Vec::new(alloc),
    };
    Theorem {
        name,
        vars: List::new(alloc),
        body,
        patterns: List::new(alloc),
    }
}

#[test]
fn a_theorem_without_variables(rt: HostRuntime) -> Result<(), Fail> {
    let mut name = List::new(rt.alloc());
    name.push(b't')?;
    let theorem = truth(rt.alloc(), name);
    assert_eq!(rt; theorem.name(), b"t".as_slice());
    Ok(())
}
