//! The code of nodes, form by form. Each function puts it behind what stands there.
ghost use Rattle.std.specs.Prelude.{◌≡◌, IfOk, OnOk, map};
ghost use Rattle.cfg_graph.specs.Places.{named};
ghost use Rattle.src_meaning.specs.Shape.{shape_of};
ghost use Rattle.typed_tree.specs.View.{tree_of, form_of, nodes_from, fields_from, field_of, maybe_of};
ghost use Rattle.lower_code.specs.Forms as forms;
ghost use Rattle.lower_code.specs.Groups.{IsCodeIn, is_statement};
ghost use Rattle.lower_forms.specs.Parted.{is_part, is_reaching, reaches_any, is_unary, uses_one, is_binary, is_any_operator, is_call, is_made, takes_any, is_condition, is_on_pattern, is_plain_loop, is_while_let, is_jump};
ghost use Rattle.lower_forms.specs.Scoped.{may_be_scope, IsScopedIn};
ghost use Rattle.lower_code.specs.Ops.{onto, arm_onto, arms_onto};
ghost use Rattle.lower_code.specs.View.{ops_of, around_of, head_of, wanted_of, destination_of, form_code};
ghost use Rattle.lower_code.specs.Wanted.{code_for, codes_for};

use crate::arrays::array_around;
use cfg_graph::{Place, Stmt};
use lower_code::{
    Action, Built, Category, Code, CodeWord, Context, Destination, Exit, LoopsAndGuards, NodeHead,
    ScopeAt, assigning, bind, borrow_scrutinee, borrowing, built_of_keys, call_body,
    called_virtual, coerced_to, comparing, computing, conditional, declare_bindings,
    destination_in, destination_of_loop, dropping, element, ends_loop, enter_statement_value,
    finish_node, head_at, in_guard, in_loop, in_own_scope, is_one_name, is_own_scope, join_codes,
    jump, keys_behind, keys_of, leaf_code, let_name, let_parts, make_adt, moved_from, names_taken,
    on_one, on_two, one_gives_unit, otherwise_leaves, own_destination, place_of, place_under,
    put_unit, result_place, shortcut, taken_arm, taken_if, unit_unless_never,
};
use mir_base::{Key, NoMemory};
use mir_ty::Items;
use pattern_lower::bindings;
use std::alloc::Global;
use typed_tree::{Form, Node, NumberedField};

/// The code of a node, for what it is wanted.
#[cycle(forms)]
pub fn node_code(
    alloc: Global,
    items: &Items,
    node: &Node,
    around: LoopsAndGuards,
    wanted: Category,
    code: &mut Code,
) -> Result<(), NoMemory>
    ensures { OnOk result (ops_of code.new ≡ onto
        (code_for (wanted_of wanted) (forms.code items.now (tree_of node.now)) (around_of around.entry)) (ops_of code.old)) }
{
    let at = Context {
        head: head_at(node),
        around,
        own: is_own_scope(wanted),
        to: own_destination(items, node, destination_in(wanted, node.id)),
    };
    form_words(alloc, items, &node.form, at, code)?;
    finish_node(alloc, items, node, around, wanted, code)
}

/// The code of a form, in a context. One that is evaluated nowhere, as a pattern, has none.
#[cycle(forms)]
fn form_words(
    alloc: Global,
    items: &Items,
    form: &Form,
    at: Context,
    code: &mut Code,
) -> Result<(), NoMemory>
    ensures { OnOk result (ops_of code.new ≡ onto (form_code items.now (form_of form.now) at.entry) (ops_of code.old)) }
{
    if leaf_code(alloc, items, form, at, code)? {
        return Ok(());
    }
    if place_code(alloc, items, form, at, code)? {
        return Ok(());
    }
    if operator_code(alloc, items, form, at, code)? {
        return Ok(());
    }
    if operands_code(alloc, items, form, at, code)? {
        return Ok(());
    }
    if scoped_code(alloc, items, form, at, code)? {
        return Ok(());
    }
    if statement_code(alloc, items, form, at, code)? {
        return Ok(());
    }
    code.push(CodeWord::Nothing)
}

/// Of places, and of what reaches a place.
#[cycle(forms)]
fn place_code(
    alloc: Global,
    items: &Items,
    form: &Form,
    at: Context,
    code: &mut Code,
) -> Result<bool, NoMemory>
    ensures { IfOk result (λ is. IsCodeIn reaches_any items.now (form_of form.now) at.entry code.old code.new is) }
{
    let is_made = part_code(alloc, items, form, at, code)?
        || reaching_code(alloc, items, form, at, code)?;
    Ok(is_made)
}

/// Of parts of places.
#[cycle(forms)]
fn part_code(
    alloc: Global,
    items: &Items,
    form: &Form,
    at: Context,
    code: &mut Code,
) -> Result<bool, NoMemory>
    ensures { IfOk result (λ is. IsCodeIn is_part items.now (form_of form.now) at.entry code.old code.new is) }
{
    let around = at.around;
    match form {
        Form::Field { base, .. } | Form::Deref(base) => {
            node_code(alloc, items, base, around, Category::AsPlace, code)?;
        }
        Form::Index {
            base,
            index,
            length,
        } => {
            let base: &Node = base;
            let index: &Node = index;
            node_code(alloc, items, base, around, Category::AsPlace, code)?;
            node_code(alloc, items, index, around, Category::UnderOwnKey, code)?;
            let place = place_of(alloc, items, base, around.aliases)?;
            let array = array_around(alloc, &place)?;
            element(alloc, at.head.id, index.id, array, *length, code)?;
        }
        _ => return Ok(false),
    }
    Ok(true)
}

/// Of what borrows a place, or stores into it.
#[cycle(forms)]
fn reaching_code(
    alloc: Global,
    items: &Items,
    form: &Form,
    at: Context,
    code: &mut Code,
) -> Result<bool, NoMemory>
    ensures { IfOk result (λ is. IsCodeIn is_reaching items.now (form_of form.now) at.entry code.old code.new is) }
{
    let around = at.around;
    match form {
        Form::Borrow { unique, base } => {
            node_code(alloc, items, base, around, Category::AsPlace, code)?;
            let place = place_of(alloc, items, base, around.aliases)?;
            borrowing(alloc, at, base.id, *unique, place, code)?;
        }
        Form::Assign { place, value } => {
            node_code(alloc, items, value, around, Category::AsOperand, code)?;
            node_code(alloc, items, place, around, Category::AsPlace, code)?;
            let to = place_of(alloc, items, place, around.aliases)?;
            let drops = items.needs_drop(place.ty);
            assigning(alloc, at, drops, place.id, to, value.id, code)?;
        }
        _ => return Ok(false),
    }
    Ok(true)
}

/// Of operators, and of what else has one or two operands.
#[cycle(forms)]
fn operator_code(
    alloc: Global,
    items: &Items,
    form: &Form,
    at: Context,
    code: &mut Code,
) -> Result<bool, NoMemory>
    ensures { IfOk result (λ is. IsCodeIn is_any_operator items.now (form_of form.now) at.entry code.old code.new is) }
{
    let is_made = unary_code(alloc, items, form, at, code)?
        || using_code(alloc, items, form, at, code)?
        || binary_code(alloc, items, form, at, code)?;
    Ok(is_made)
}

/// Of what makes a value of one operand.
#[cycle(forms)]
fn unary_code(
    alloc: Global,
    items: &Items,
    form: &Form,
    at: Context,
    code: &mut Code,
) -> Result<bool, NoMemory>
    ensures { IfOk result (λ is. IsCodeIn is_unary items.now (form_of form.now) at.entry code.old code.new is) }
{
    let around = at.around;
    match form {
        Form::Not(operand) => {
            node_code(alloc, items, operand, around, Category::AsOperand, code)?;
            let stmt = Stmt::Not(result_place(alloc, at.to), moved_from(alloc, operand.id));
            on_one(alloc, at, operand.id, Action::Stmt(stmt), code)?;
        }
        Form::Negate(operand) => {
            node_code(alloc, items, operand, around, Category::AsOperand, code)?;
            let to = result_place(alloc, at.to);
            let of = moved_from(alloc, operand.id);
            on_one(alloc, at, operand.id, Action::Negate { to, of }, code)?;
        }
        Form::NewBox(content) => {
            node_code(alloc, items, content, around, Category::AsOperand, code)?;
            let stmt = Stmt::NewBox(result_place(alloc, at.to), moved_from(alloc, content.id));
            on_one(alloc, at, content.id, Action::Stmt(stmt), code)?;
        }
        Form::Unsize { trait_no, operand } => {
            let to = coerced_to(operand.id, *trait_no, at.to);
            let wanted = Category::Value { own: at.own, to };
            node_code(alloc, items, operand, around, wanted, code)?;
        }
        _ => return Ok(false),
    }
    Ok(true)
}

/// Of what uses one operand up, and gives `()`.
#[cycle(forms)]
fn using_code(
    alloc: Global,
    items: &Items,
    form: &Form,
    at: Context,
    code: &mut Code,
) -> Result<bool, NoMemory>
    ensures { IfOk result (λ is. IsCodeIn uses_one items.now (form_of form.now) at.entry code.old code.new is) }
{
    let around = at.around;
    match form {
        Form::Print(operand) => {
            node_code(alloc, items, operand, around, Category::AsOperand, code)?;
            let stmt = Stmt::Print(moved_from(alloc, operand.id));
            one_gives_unit(alloc, at, operand.id, Action::Stmt(stmt), code)?;
        }
        Form::Forget(operand) => {
            node_code(alloc, items, operand, around, Category::AsOperand, code)?;
            let stmt = Stmt::Forget(moved_from(alloc, operand.id));
            one_gives_unit(alloc, at, operand.id, Action::Stmt(stmt), code)?;
        }
        Form::DropValue(operand) => {
            node_code(alloc, items, operand, around, Category::AsOperand, code)?;
            dropping(alloc, at, code)?;
        }
        _ => return Ok(false),
    }
    Ok(true)
}

/// Of what makes a value of two operands.
#[cycle(forms)]
fn binary_code(
    alloc: Global,
    items: &Items,
    form: &Form,
    at: Context,
    code: &mut Code,
) -> Result<bool, NoMemory>
    ensures { IfOk result (λ is. IsCodeIn is_binary items.now (form_of form.now) at.entry code.old code.new is) }
{
    let around = at.around;
    match form {
        Form::Arithmetic {
            operator,
            left,
            right,
        } => {
            node_code(alloc, items, left, around, Category::AsOperand, code)?;
            node_code(alloc, items, right, around, Category::AsOperand, code)?;
            let action = computing(alloc, at.to, *operator, left.id, right.id);
            on_two(alloc, at, left.id, right.id, action, code)?;
        }
        Form::Comparison {
            operator,
            left,
            right,
        } => {
            node_code(alloc, items, left, around, Category::AsOperand, code)?;
            node_code(alloc, items, right, around, Category::AsOperand, code)?;
            let action = comparing(alloc, at.to, *operator, left.id, right.id);
            on_two(alloc, at, left.id, right.id, action, code)?;
        }
        _ => return Ok(false),
    }
    Ok(true)
}

/// Of calls, and of values that are made of any number of operands.
#[cycle(forms)]
fn operands_code(
    alloc: Global,
    items: &Items,
    form: &Form,
    at: Context,
    code: &mut Code,
) -> Result<bool, NoMemory>
    ensures { IfOk result (λ is. IsCodeIn takes_any items.now (form_of form.now) at.entry code.old code.new is) }
{
    let is_made = call_code(alloc, items, form, at, code)?
        || make_code(alloc, items, form, at, code)?;
    Ok(is_made)
}

/// Of calls.
#[cycle(forms)]
fn call_code(
    alloc: Global,
    items: &Items,
    form: &Form,
    at: Context,
    code: &mut Code,
) -> Result<bool, NoMemory>
    ensures { IfOk result (λ is. IsCodeIn is_call items.now (form_of form.now) at.entry code.old code.new is) }
{
    let around = at.around;
    match form {
        Form::Call { body, args } => {
            let args = args.as_slice();
            nodes_code(alloc, items, args, around, Category::AsOperand, code)?;
            let keys = keys_of(alloc, args)?;
            call_body(alloc, at, *body, keys, code)?;
        }
        Form::MethodCall {
            body,
            receiver: first,
            args,
        }
        | Form::ClosureCall {
            body,
            callee: first,
            args,
        } => {
            let first: &Node = first;
            let args = args.as_slice();
            node_code(alloc, items, first, around, Category::AsOperand, code)?;
            nodes_code(alloc, items, args, around, Category::AsOperand, code)?;
            code.push(CodeWord::Then)?;
            let keys = keys_behind(alloc, first.id, args)?;
            call_body(alloc, at, *body, keys, code)?;
        }
        Form::VirtualCall {
            trait_no,
            method,
            receiver,
            args,
        } => {
            let receiver: &Node = receiver;
            let args = args.as_slice();
            node_code(alloc, items, receiver, around, Category::AsOperand, code)?;
            nodes_code(alloc, items, args, around, Category::AsOperand, code)?;
            code.push(CodeWord::Then)?;
            let keys = keys_behind(alloc, receiver.id, args)?;
            called_virtual(alloc, at, *trait_no, *method, keys, code)?;
        }
        _ => return Ok(false),
    }
    Ok(true)
}

/// Of values that are made of any number of operands.
#[cycle(forms)]
fn make_code(
    alloc: Global,
    items: &Items,
    form: &Form,
    at: Context,
    code: &mut Code,
) -> Result<bool, NoMemory>
    ensures { IfOk result (λ is. IsCodeIn is_made items.now (form_of form.now) at.entry code.old code.new is) }
{
    let around = at.around;
    match form {
        Form::Make {
            adt,
            variant,
            fields,
        } => {
            let fields = fields.as_slice();
            fields_code(alloc, items, fields, around, code)?;
            make_adt(alloc, at, *adt, *variant, fields, code)?;
        }
        Form::Tuple(parts) => {
            let parts = parts.as_slice();
            nodes_code(alloc, items, parts, around, Category::AsOperand, code)?;
            let keys = keys_of(alloc, parts)?;
            built_of_keys(alloc, at, Built::Tuple, keys, code)?;
        }
        Form::Array(elements) => {
            let elements = elements.as_slice();
            nodes_code(alloc, items, elements, around, Category::AsOperand, code)?;
            let keys = keys_of(alloc, elements)?;
            built_of_keys(alloc, at, Built::Array, keys, code)?;
        }
        Form::Closure { closure, captures } => {
            let captures = captures.as_slice();
            nodes_code(alloc, items, captures, around, Category::AsOperand, code)?;
            let keys = keys_of(alloc, captures)?;
            built_of_keys(alloc, at, Built::Closure(*closure), keys, code)?;
        }
        _ => return Ok(false),
    }
    Ok(true)
}

/// Of branches, loops, and the ways out of loops and bodies: each may be a scope of its own.
#[cycle(forms)]
fn scoped_code(
    alloc: Global,
    items: &Items,
    form: &Form,
    at: Context,
    code: &mut Code,
) -> Result<bool, NoMemory>
    ensures { IfOk result (λ is. IsCodeIn may_be_scope items.now (form_of form.now) at.entry code.old code.new is) }
{
    let is_made = condition_code(alloc, items, form, at, code)?
        || pattern_code(alloc, items, form, at, code)?
        || loop_code(alloc, items, form, at, code)?
        || while_let_code(alloc, items, form, at, code)?
        || jump_code(alloc, items, form, at, code)?;
    if is_made {
        in_own_scope(at.head.id, at.own, code)?;
    }
    Ok(is_made)
}

/// Of branches on truth values, within their scope.
#[cycle(forms)]
fn condition_code(
    alloc: Global,
    items: &Items,
    form: &Form,
    at: Context,
    code: &mut Code,
) -> Result<bool, NoMemory>
    ensures { IfOk result (λ is. IsScopedIn is_condition items.now (form_of form.now) at.entry code.old code.new is) }
{
    let around = at.around;
    let alone = Category::Alone(at.to);
    match form {
        Form::And { left, right } => {
            node_code(alloc, items, left, around, Category::AloneUnderOwnKey, code)?;
            node_code(alloc, items, right, around, alone, code)?;
            shortcut(alloc, at, false, code)?;
            conditional(left.id, code)?;
        }
        Form::Or { left, right } => {
            node_code(alloc, items, left, around, Category::AloneUnderOwnKey, code)?;
            shortcut(alloc, at, true, code)?;
            node_code(alloc, items, right, around, alone, code)?;
            conditional(left.id, code)?;
        }
        Form::If {
            condition,
            then,
            otherwise,
        } => {
            node_code(
                alloc,
                items,
                condition,
                around,
                Category::AloneUnderOwnKey,
                code,
            )?;
            node_code(alloc, items, then, around, alone, code)?;
            otherwise_code(alloc, items, otherwise, at, code)?;
            conditional(condition.id, code)?;
        }
        _ => return Ok(false),
    }
    Ok(true)
}

/// Of branches on patterns, within their scope.
#[cycle(forms)]
fn pattern_code(
    alloc: Global,
    items: &Items,
    form: &Form,
    at: Context,
    code: &mut Code,
) -> Result<bool, NoMemory>
    ensures { IfOk result (λ is. IsScopedIn is_on_pattern items.now (form_of form.now) at.entry code.old code.new is) }
{
    let around = at.around;
    match form {
        Form::IfLet {
            pattern,
            scrutinee,
            then,
            otherwise,
        } => {
            node_code(alloc, items, scrutinee, around, Category::AsPlace, code)?;
            names_taken(alloc, items, pattern, scrutinee, around, code)?;
            node_code(alloc, items, then, around, Category::Alone(at.to), code)?;
            otherwise_leaves(code)?;
            otherwise_code(alloc, items, otherwise, at, code)?;
            taken_if(alloc, items, at.head.id, pattern, scrutinee, around, code)?;
        }
        Form::Match { scrutinee, arms } => {
            let scrutinee: &Node = scrutinee;
            node_code(alloc, items, scrutinee, around, Category::AsPlace, code)?;
            let place = place_of(alloc, items, scrutinee, around.aliases)?;
            borrow_scrutinee(alloc, items, scrutinee, &place, code)?;
            code.push(CodeWord::BeforeArms)?;
            arms_code(alloc, items, arms.as_slice(), &place, around, at.to, code)?;
            drop(place);
            code.push(CodeWord::Matches(at.head.id))?;
            code.push(CodeWord::Then)?;
        }
        _ => return Ok(false),
    }
    Ok(true)
}

/// Of loops without a pattern, within their scope.
#[cycle(forms)]
fn loop_code(
    alloc: Global,
    items: &Items,
    form: &Form,
    at: Context,
    code: &mut Code,
) -> Result<bool, NoMemory>
    ensures { IfOk result (λ is. IsScopedIn is_plain_loop items.now (form_of form.now) at.entry code.old code.new is) }
{
    let id = at.head.id;
    match form {
        Form::Loop(body) => {
            let loops = in_loop(alloc, id, at.to, at.around.loops)?;
            let inner = LoopsAndGuards {
                loops: loops.as_slice(),
                ..at.around
            };
            node_code(alloc, items, body, inner, Category::AloneUnderOwnKey, code)?;
            code.push(CodeWord::Loops(id))?;
        }
        Form::While { condition, body } => {
            let loops = in_loop(alloc, id, at.to, at.around.loops)?;
            let inner = LoopsAndGuards {
                loops: loops.as_slice(),
                ..at.around
            };
            node_code(
                alloc,
                items,
                condition,
                inner,
                Category::AloneUnderOwnKey,
                code,
            )?;
            node_code(alloc, items, body, inner, Category::AloneUnderOwnKey, code)?;
            drop(loops);
            ends_loop(alloc, id, at.to, code)?;
            conditional(condition.id, code)?;
            code.push(CodeWord::Loops(id))?;
        }
        _ => return Ok(false),
    }
    Ok(true)
}

/// Of loops on a pattern, within their scope.
#[cycle(forms)]
fn while_let_code(
    alloc: Global,
    items: &Items,
    form: &Form,
    at: Context,
    code: &mut Code,
) -> Result<bool, NoMemory>
    ensures { IfOk result (λ is. IsScopedIn is_while_let items.now (form_of form.now) at.entry code.old code.new is) }
{
    let id = at.head.id;
    match form {
        Form::WhileLet {
            pattern,
            scrutinee,
            body,
        } => {
            let loops = in_loop(alloc, id, at.to, at.around.loops)?;
            let inner = LoopsAndGuards {
                loops: loops.as_slice(),
                ..at.around
            };
            node_code(alloc, items, scrutinee, inner, Category::AsPlace, code)?;
            names_taken(alloc, items, pattern, scrutinee, inner, code)?;
            node_code(alloc, items, body, inner, Category::AloneUnderOwnKey, code)?;
            otherwise_leaves(code)?;
            ends_loop(alloc, id, at.to, code)?;
            taken_if(alloc, items, id, pattern, scrutinee, inner, code)?;
            code.push(CodeWord::Loops(id))?;
        }
        _ => return Ok(false),
    }
    Ok(true)
}

/// Of the ways out of loops and bodies, within their scope.
#[cycle(forms)]
fn jump_code(
    alloc: Global,
    items: &Items,
    form: &Form,
    at: Context,
    code: &mut Code,
) -> Result<bool, NoMemory>
    ensures { IfOk result (λ is. IsScopedIn is_jump items.now (form_of form.now) at.entry code.old code.new is) }
{
    let id = at.head.id;
    match form {
        Form::Break { from, value } => {
            let to = destination_of_loop(*from, at.around.loops);
            value_of_jump(alloc, items, value, Context { to, ..at }, code)?;
            jump(id, Exit::Breaks(*from), code)?;
        }
        Form::Return(value) => {
            let to = at.around.answer;
            value_of_jump(alloc, items, value, Context { to, ..at }, code)?;
            jump(id, Exit::Returns, code)?;
        }
        _ => return Ok(false),
    }
    Ok(true)
}

/// Of blocks and statements.
#[cycle(forms)]
fn statement_code(
    alloc: Global,
    items: &Items,
    form: &Form,
    at: Context,
    code: &mut Code,
) -> Result<bool, NoMemory>
    ensures { IfOk result (λ is. IsCodeIn is_statement items.now (form_of form.now) at.entry code.old code.new is) }
{
    let id = at.head.id;
    let around = at.around;
    match form {
        Form::Block { statements, tail } => {
            nodes_code(
                alloc,
                items,
                statements.as_slice(),
                around,
                Category::UnderOwnKey,
                code,
            )?;
            tail_code(alloc, items, tail, at, code)?;
            code.push(CodeWord::Then)?;
            code.push(CodeWord::InScope {
                node: id,
                for_temporaries: at.own,
            })?;
        }
        Form::Let {
            pattern,
            initialiser,
        } => let_code(alloc, items, initialiser, pattern, at, code)?,
        Form::Evaluate(expression) => {
            node_code(
                alloc,
                items,
                expression,
                around,
                Category::UnderOwnKey,
                code,
            )?;
            enter_statement_value(id, expression, code)?;
        }
        _ => return Ok(false),
    }
    Ok(true)
}

/// Of a `let`.
#[cycle(forms)]
fn let_code(
    alloc: Global,
    items: &Items,
    initialiser: &Option<Box<Node, Global>>,
    pattern: &Node,
    at: Context,
    code: &mut Code,
) -> Result<(), NoMemory>
    ensures { OnOk result (ops_of code.new ≡ onto
        (forms.letting items.now (head_of at.entry.head) (forms.code items.now (tree_of pattern.now))
        (forms.code_if_any items.now (maybe_of initialiser.now)) (around_of at.entry.around)) (ops_of code.old)) }
{
    match initialiser {
        None => {
            let place = place_under(alloc, Key(0), &[])?;
            let names = bindings(alloc, pattern, &place)?;
            declare_bindings(items, names.as_slice(), code)
        }
        Some(value) if is_one_name(items, pattern) => {
            let to = Destination::Into(Key(pattern.id.0));
            let wanted = Category::Value { own: false, to };
            node_code(alloc, items, value, at.around, wanted, code)?;
            let_name(at.head.id, pattern, code)
        }
        Some(value) => {
            let value: &Node = value;
            node_code(alloc, items, value, at.around, Category::AsPlace, code)?;
            let place = place_of(alloc, items, value, at.around.aliases)?;
            let names = bindings(alloc, pattern, &place)?;
            let_parts(alloc, items, at.head.id, value, names.as_slice(), code)
        }
    }
}

/// Of what happens otherwise; `()` stands for it where it is missing.
#[cycle(forms)]
fn otherwise_code(
    alloc: Global,
    items: &Items,
    otherwise: &Option<Box<Node, Global>>,
    at: Context,
    code: &mut Code,
) -> Result<(), NoMemory>
    ensures { OnOk result (ops_of code.new ≡ onto
        (forms.branch (around_of at.entry.around) (destination_of at.entry.to)
        (forms.code_if_any items.now (maybe_of otherwise.now))
        (forms.put_unit at.entry.head.id.0 (destination_of at.entry.to))) (ops_of code.old)) }
{
    match otherwise {
        Some(node) => node_code(alloc, items, node, at.around, Category::Alone(at.to), code),
        None => put_unit(alloc, at.head.id, at.to, code),
    }
}

/// Of the value of a `break` or a `return`, and `()` where it is missing.
#[cycle(forms)]
fn value_of_jump(
    alloc: Global,
    items: &Items,
    value: &Option<Box<Node, Global>>,
    at: Context,
    code: &mut Code,
) -> Result<(), NoMemory>
    ensures { OnOk result (ops_of code.new ≡ onto
        (forms.value_of_jump at.entry.head.id.0 (forms.code_if_any items.now (maybe_of value.now))
        (around_of at.entry.around) (destination_of at.entry.to)) (ops_of code.old)) }
{
    match value {
        Some(node) => {
            let wanted = Category::Value {
                own: false,
                to: at.to,
            };
            node_code(alloc, items, node, at.around, wanted, code)
        }
        None => put_unit(alloc, at.head.id, at.to, code),
    }
}

/// Of the tail of a block.
#[cycle(forms)]
fn tail_code(
    alloc: Global,
    items: &Items,
    tail: &Option<Box<Node, Global>>,
    at: Context,
    code: &mut Code,
) -> Result<(), NoMemory>
    ensures { OnOk result (ops_of code.new ≡ onto
        (forms.tail_of items.now (head_of at.entry.head) (forms.code_if_any items.now (maybe_of tail.now))
        (around_of at.entry.around) (destination_of at.entry.to)) (ops_of code.old)) }
{
    match tail {
        Some(node) => node_code(alloc, items, node, at.around, Category::Alone(at.to), code),
        None => unit_unless_never(alloc, items, at.head, at.to, code),
    }
}

/// Of nodes, one after the other.
#[cycle(forms)]
fn nodes_code(
    alloc: Global,
    items: &Items,
    nodes: &[Node],
    around: LoopsAndGuards,
    wanted: Category,
    code: &mut Code,
) -> Result<(), NoMemory>
    ensures { OnOk result (ops_of code.new ≡ onto
        (codes_for (wanted_of wanted) (forms.codes items.now (nodes_from (map tree_of nodes.now))) (around_of around.entry))
        (ops_of code.old)) }
{
    for node in nodes {
        node_code(alloc, items, node, around, wanted, code)?;
    }
    join_codes(nodes.len(), code)
}

/// Of the values of fields, one after the other, as operands.
#[cycle(forms)]
fn fields_code(
    alloc: Global,
    items: &Items,
    fields: &[NumberedField],
    around: LoopsAndGuards,
    code: &mut Code,
) -> Result<(), NoMemory>
    ensures { OnOk result (ops_of code.new ≡ onto
        (forms.operands (around_of around.entry) (forms.codes_of_fields items.now (fields_from (map field_of fields.now))))
        (ops_of code.old)) }
{
    for field in fields {
        node_code(
            alloc,
            items,
            &field.value,
            around,
            Category::AsOperand,
            code,
        )?;
    }
    join_codes(fields.len(), code)
}

/// Of the arms of a match in order, given the place that is matched.
#[cycle(forms)]
fn arms_code(
    alloc: Global,
    items: &Items,
    arms: &[Node],
    matched: &Place,
    around: LoopsAndGuards,
    to: Destination,
    code: &mut Code,
) -> Result<(), NoMemory>
    ensures { OnOk result (ops_of code.new ≡ arms_onto
        (forms.arms (forms.codes items.now (nodes_from (map tree_of arms.now))) (named matched.now) (around_of around.entry)
        (destination_of to)) (ops_of code.old)) }
{
    for arm in arms {
        arm_code(
            alloc,
            items,
            &arm.form,
            head_at(arm),
            matched,
            around,
            to,
            code,
        )?;
    }
    Ok(())
}

/// Of an arm; a node that is none is taken, and does nothing.
#[cycle(forms)]
fn arm_code(
    alloc: Global,
    items: &Items,
    form: &Form,
    head: NodeHead,
    matched: &Place,
    around: LoopsAndGuards,
    to: Destination,
    code: &mut Code,
) -> Result<(), NoMemory>
    ensures { OnOk result (ops_of code.new ≡ arm_onto
        (forms.arm_by (forms.code_of_form items.now (form_of form.now) (head_of head)
        (shape_of items.now (form_of form.now) (head_of head))) (named matched.now) (around_of around.entry) (destination_of to))
        (ops_of code.old)) }
{
    match form {
        Form::Arm {
            pattern,
            guard,
            body,
        } => {
            let names = bindings(alloc, pattern, matched)?;
            let key = match guard {
                Some(guard) => {
                    let aliases = in_guard(alloc, names.as_slice(), around.aliases)?;
                    let inner = LoopsAndGuards {
                        aliases: aliases.as_slice(),
                        ..around
                    };
                    node_code(alloc, items, guard, inner, Category::AloneUnderOwnKey, code)?;
                    Some(Key(guard.id.0))
                }
                None => None,
            };
            bind(alloc, ScopeAt::Innermost, names.as_slice(), code)?;
            drop(names);
            node_code(alloc, items, body, around, Category::Alone(to), code)?;
            taken_arm(alloc, items, head.id, pattern, matched, key, code)
        }
        _ => code.push(CodeWord::EmptyArm),
    }
}
