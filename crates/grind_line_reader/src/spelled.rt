//! Claims and lines from the words by which reports spell them, for tests that keep lines as text.
use crate::terms::{form_in, integer_of, number_of, poly_in};
use grind_outside::{List, Memory};
use grind_proof_kernel::{Claim, Line, Rule};
use grind_term_graph::NodeId;
use std::alloc::Global;

/// The words of a text, between which white space stands.
fn words_in<'a>(alloc: Global, text: &'a str) -> Result<List<&'a str>, Memory> {
    let mut words = List::new(alloc);
    for word in text.split_whitespace() {
        words.push(word)?;
    }
    Ok(words)
}

/// The numbers that words spell.
fn numbers_of(alloc: Global, words: &[&str]) -> Result<Option<List<u32>>, Memory> {
    let mut numbers = List::new(alloc);
    for word in words {
        let Some(number) = number_of(word) else {
            return Ok(None);
        };
        numbers.push(number)?;
    }
    Ok(Some(numbers))
}

/// The nodes of these numbers.
pub fn nodes_of(alloc: Global, numbers: &[u32]) -> Result<List<NodeId>, Memory> {
    let mut nodes = List::new(alloc);
    for number in numbers {
        nodes.push(NodeId::new(*number))?;
    }
    Ok(nodes)
}

/// The claim of a word at these numbers of nodes.
fn claim_of(word: &str, numbers: &[u32]) -> Option<Claim> {
    if let [node] = numbers {
        return literal_of(word, NodeId::new(*node));
    }
    if let [left, right] = numbers {
        return relation_of(word, NodeId::new(*left), NodeId::new(*right));
    }
    if word.as_bytes() == b"absurd".as_slice() {
        return Some(Claim::Absurd);
    }
    None
}

fn literal_of(word: &str, node: NodeId) -> Option<Claim> {
    match word.as_bytes() {
        b"holds" => Some(Claim::Holds(node)),
        b"fails" => Some(Claim::Fails(node)),
        _ => None,
    }
}

fn relation_of(word: &str, left: NodeId, right: NodeId) -> Option<Claim> {
    match word.as_bytes() {
        b"same" => Some(Claim::Same(left, right)),
        b"differ" => Some(Claim::Differ(left, right)),
        _ => None,
    }
}

/// The claim that words spell.
fn claim_in(alloc: Global, words: &[&str]) -> Result<Option<Claim>, Memory> {
    let Some((word, rest)) = words.split_first() else {
        return Ok(None);
    };
    match word.as_bytes() {
        b"atmost" => bound_in(alloc, rest),
        b"zero" => equation_in(alloc, rest),
        _ => node_claim_in(alloc, word, rest),
    }
}

/// The claim that a form is at most 0.
fn bound_in(alloc: Global, words: &[&str]) -> Result<Option<Claim>, Memory> {
    let Some(form) = form_in(alloc, words)? else {
        return Ok(None);
    };
    Ok(Some(Claim::AtMost(form)))
}

/// The claim that a polynomial is 0.
fn equation_in(alloc: Global, words: &[&str]) -> Result<Option<Claim>, Memory> {
    let Some((poly, rest)) = poly_in(alloc, words)? else {
        return Ok(None);
    };
    if rest.len() > 0 {
        return Ok(None);
    }
    Ok(Some(Claim::Zero(poly)))
}

/// The claim of a word, at nodes.
fn node_claim_in(alloc: Global, word: &str, rest: &[&str]) -> Result<Option<Claim>, Memory> {
    let Some(numbers) = numbers_of(alloc, rest)? else {
        return Ok(None);
    };
    Ok(claim_of(word, numbers.as_slice()))
}

/// The rule of a word that takes no number.
fn plain_rule(word: &str) -> Option<Rule> {
    match word.as_bytes() {
        b"negated" => Some(Rule::Negated),
        b"branch" => Some(Rule::Branch),
        b"refl" => Some(Rule::Refl),
        b"sym" => Some(Rule::Sym),
        b"trans" => Some(Rule::Trans),
        b"cong" => Some(Rule::Cong),
        b"eq" => Some(Rule::Eq),
        b"back" => Some(Rule::Back),
        b"truth" => Some(Rule::Truth),
        b"untruth" => Some(Rule::Untruth),
        b"read" => Some(Rule::Read),
        b"write" => Some(Rule::Write),
        b"line" => Some(Rule::Line),
        b"poly" => Some(Rule::Poly),
        b"pinch" => Some(Rule::Pinch),
        b"strict" => Some(Rule::Strict),
        b"equal" => Some(Rule::Equal),
        b"apart" => Some(Rule::Apart),
        b"clash" => Some(Rule::Clash),
        _ => None,
    }
}

/// A rule, and the premises after it.
#[derive(Drop)]
struct Step {
    rule: Rule,
    premises: List<u32>,
}

fn step_of(alloc: Global, rule: Rule, from: &[u32]) -> Result<Option<Step>, Memory> {
    let mut premises = List::new(alloc);
    premises.extend(from)?;
    Ok(Some(Step { rule, premises }))
}

/// The rule `table`, from the number of its free nodes, these nodes, and the premises.
fn table_of(alloc: Global, numbers: &[u32]) -> Result<Option<Step>, Memory> {
    let Some((count, rest)) = numbers.split_first() else {
        return Ok(None);
    };
    let count = *count as usize;
    if count > rest.len() {
        return Ok(None);
    }
    let (free, from) = rest.split_at(count);
    let free = nodes_of(alloc, free)?;
    step_of(alloc, Rule::Table(free), from)
}

/// The rule `hyp`, from the number of a hypothesis and the premises.
fn hyp_of(alloc: Global, numbers: &[u32]) -> Result<Option<Step>, Memory> {
    let Some((number, from)) = numbers.split_first() else {
        return Ok(None);
    };
    step_of(alloc, Rule::Hyp(*number), from)
}

/// The rule `inst`, from the number of a theorem and nodes.
fn inst_of(alloc: Global, numbers: &[u32]) -> Result<Option<Step>, Memory> {
    let Some((number, nodes)) = numbers.split_first() else {
        return Ok(None);
    };
    let rule = Rule::Inst {
        theorem: *number,
        subst: nodes_of(alloc, nodes)?,
    };
    step_of(alloc, rule, &[])
}

/// The rule of a word at these numbers.
fn rule_of(alloc: Global, word: &str, numbers: &[u32]) -> Result<Option<Step>, Memory> {
    if let Some(rule) = plain_rule(word) {
        return step_of(alloc, rule, numbers);
    }
    match word.as_bytes() {
        b"hyp" => hyp_of(alloc, numbers),
        b"inst" => inst_of(alloc, numbers),
        b"table" => table_of(alloc, numbers),
        _ => Ok(None),
    }
}

/// The rule and the premises that words spell.
fn step_in(alloc: Global, words: &[&str]) -> Result<Option<Step>, Memory> {
    let Some((word, rest)) = words.split_first() else {
        return Ok(None);
    };
    match word.as_bytes() {
        b"combine" => combine_in(alloc, rest),
        b"ideal" => ideal_in(alloc, rest),
        _ => numbered_in(alloc, word, rest),
    }
}

/// The rule of a word, and its numbers.
fn numbered_in(alloc: Global, word: &str, rest: &[&str]) -> Result<Option<Step>, Memory> {
    let Some(numbers) = numbers_of(alloc, rest)? else {
        return Ok(None);
    };
    rule_of(alloc, word, numbers.as_slice())
}

/// The rule `combine`, from its divisor, and each factor before its premise.
fn combine_in(alloc: Global, words: &[&str]) -> Result<Option<Step>, Memory> {
    let Some((divisor, mut rest)) = words.split_first() else {
        return Ok(None);
    };
    let Some(divisor) = integer_of(divisor) else {
        return Ok(None);
    };
    let mut factors = List::new(alloc);
    let mut premises = List::new(alloc);
    for _ in 0..words.len() {
        let Some((factor, behind)) = rest.split_first() else {
            break;
        };
        let Some((premise, tail)) = behind.split_first() else {
            return Ok(None);
        };
        let (Some(factor), Some(premise)) = (integer_of(factor), number_of(premise)) else {
            return Ok(None);
        };
        factors.push(factor)?;
        premises.push(premise)?;
        rest = tail;
    }
    let rule = Rule::Combine { divisor, factors };
    Ok(Some(Step { rule, premises }))
}

/// The rule `ideal`, from its divisor, and each premise before its factor.
fn ideal_in(alloc: Global, words: &[&str]) -> Result<Option<Step>, Memory> {
    let Some((divisor, mut rest)) = words.split_first() else {
        return Ok(None);
    };
    let Some(divisor) = integer_of(divisor) else {
        return Ok(None);
    };
    let mut factors = List::new(alloc);
    let mut premises = List::new(alloc);
    for _ in 0..words.len() {
        let Some((premise, behind)) = rest.split_first() else {
            break;
        };
        let Some(premise) = number_of(premise) else {
            return Ok(None);
        };
        let Some((factor, tail)) = poly_in(alloc, behind)? else {
            return Ok(None);
        };
        factors.push(factor)?;
        premises.push(premise)?;
        rest = tail;
    }
    let rule = Rule::Ideal { divisor, factors };
    Ok(Some(Step { rule, premises }))
}

/// The line of a branch whose further words stand on both sides of the colon.
fn line_in(
    alloc: Global,
    branch: u32,
    before: &[&str],
    behind: &[&str],
) -> Result<Option<Line>, Memory> {
    let Some(step) = step_in(alloc, before)? else {
        return Ok(None);
    };
    let Some(claim) = claim_in(alloc, behind)? else {
        return Ok(None);
    };
    let Step { rule, premises } = step;
    Ok(Some(Line {
        branch,
        rule,
        premises,
        claim,
    }))
}

/// The line that a text spells, as `1 trans 9 4 : same 13 10`, without the number of the line: its branch, its rule,
/// and after a colon its claim. None where it spells no line.
pub fn line_of(alloc: Global, text: &str) -> Result<Option<Line>, Memory> {
    let Some((before, behind)) = text.split_once(':') else {
        return Ok(None);
    };
    let before = words_in(alloc, before)?;
    let behind = words_in(alloc, behind)?;
    let Some((branch, rest)) = before.as_slice().split_first() else {
        return Ok(None);
    };
    let Some(branch) = number_of(branch) else {
        return Ok(None);
    };
    line_in(alloc, branch, rest, behind.as_slice())
}

/// The claim that a text spells, as `same 2 3`, or none.
pub fn claim_from(alloc: Global, text: &str) -> Result<Option<Claim>, Memory> {
    let words = words_in(alloc, text)?;
    claim_in(alloc, words.as_slice())
}
