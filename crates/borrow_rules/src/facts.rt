//! What is known of each parameter by itself.
ghost use Rattle.std.specs.Prelude.{◌≡◌, ◌++◌, OnOk, IfOk, map};
ghost use Rattle.typed_tree.specs.View.{body_of, param_tree};
ghost use Rattle.typing_rules.specs.Replaced as rules;
ghost use Rattle.borrow_rules.specs.View.{fact_in, facts_with, tree_in};

use crate::passings::{Passing, passings, stores};
use mir_base::{Key, List, NoMemory};
use std::alloc::Global;
use typed_tree::{Node, Param, TBody, nodes_of};

/// A parameter by its body and its number there.
#[derive(Clone, Copy, PartialEq, Eq, Hash)]
pub struct ParamNo {
    pub body: u32,
    pub number: u32,
}

/// Whether its body stores into exactly what a parameter names, and for what it passes the parameter on.
#[derive(Drop)]
pub struct ParameterFact {
    pub param: ParamNo,
    pub is_stored: bool,
    pub passed: List<Passing>,
}

/// What is known of a parameter, by the nodes of its body.
fn fact_of(
    alloc: Global,
    nodes: &[&Node],
    body: u32,
    number: u32,
    param: &Param,
) -> Result<ParameterFact, NoMemory>
    ensures { IfOk result (λ fact. fact_in fact ≡ facts_with (map tree_in nodes.now) body number (param_tree param.now)) }
{
    let key = Key(param.pattern.id.0);
    let stores = stores(alloc, key, nodes)?;
    let passed = passings(alloc, key, nodes)?;
    Ok(ParameterFact {
        param: ParamNo { body, number },
        is_stored: !stores.is_empty(),
        passed,
    })
}

/// What is known of the parameters of a body.
fn add_facts(alloc: Global, body: &TBody, facts: &mut List<ParameterFact>) -> Result<(), NoMemory>
    ensures { OnOk result (map fact_in facts.new ≡
        map fact_in facts.old ++ rules.facts_from (body_of body.now) 0 (body_of body.now).params) }
{
    let nodes = nodes_of(alloc, &body.block)?;
    let mut number: u32 = 0;
    for param in body.params.as_slice() {
        let fact = fact_of(alloc, nodes.as_slice(), body.number, number, param)?;
        facts.push(fact)?;
        let Some(next) = number.checked_add(1) else {
            return Err(NoMemory::past_32_bits());
        };
        number = next;
    }
    Ok(())
}

/// What is known of all parameters.
pub fn all_facts(alloc: Global, bodies: &[TBody]) -> Result<List<ParameterFact>, NoMemory>
    ensures { IfOk result (λ facts. map fact_in facts ≡ rules.all_facts (map body_of bodies.now)) }
{
    let mut facts = List::new(alloc);
    for body in bodies {
        add_facts(alloc, body, &mut facts)?;
    }
    Ok(facts)
}
