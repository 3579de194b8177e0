// The first tree of a form. Each function is of a part of a unit: the place of the first tree of a
// wanted form in it.
#![tactic(auto, using(crate::proofs::Walked::walked_rules))]

ghost use Rattle.std.specs.List.{flat_map};
ghost use Rattle.std.specs.Prelude.{◌≡◌, if◌then◌else◌, List, Some, map};
ghost use Rattle.mm_syntax.specs.View.{expr_view, exprs_view, maybe_view, declarator_view, variables_view, start_view, stmt_view, stmts_view, maybe_stmt_view, init_view, body_view, maybe_body_view, function_view, item_view, class_view, decl_view, unit_view};
ghost use Rattle.mm_syntax.specs.Forms.{Mark, only, is_among, new_form, unary_marks, expr_marks, exprs_marks, type_marks, maybe_marks, mark_or, declarator_marks, variables_marks, start_marks, stmt_marks, stmts_marks, param_marks, head_marks, init_marks, body_marks, maybe_body_marks, maybe_block_marks, method_form, function_marks, item_marks, class_marks, decl_marks, unit_marks, first_of};

use crate::decl::{
    ClassDecl, ClassDeclKind, ConstructorBody, Decl, DeclKind, FnDecl, FnDeclKind, Head, Init,
    Member, Param, Unit,
};
use crate::expr::{Expr, ExprKind, TypeName, TypeNameKind};
use crate::form::{Form, Forms};
use crate::name::{DeclaratorMark, UnaryOperator};
use crate::stmt::{Declarator, ForStart, Initializer, Stmt, StmtKind, Variables};
use mm_base::place::Place;

/// Of a tree of this form, where what stands inside it gives this.
fn formed(wanted: Forms, own: Form, place: Place, inside: Option<Place>) -> Option<Place>
    ensures { result ≡ (if is_among wanted own then Some place else inside) }
{
    if wanted.has(own) { Some(place) } else { inside }
}

/// Of an operator before its operand, where the operand gives this.
fn unary(
    wanted: Forms,
    operator: UnaryOperator,
    place: Place,
    operand: Option<Place>,
) -> Option<Place>
    ensures { (marks : List Mark) → operand ≡ first_of wanted marks
        → result ≡ first_of wanted (unary_marks operator place marks) }
{
    match operator {
        UnaryOperator::Indirection | UnaryOperator::AddressOf => {
            formed(wanted, Form::Object, place, operand)
        }
        _ => operand,
    }
}

fn form_of_new(arguments: &[Expr]) -> Form
    ensures { result ≡ new_form (exprs_view arguments.now) }
{
    match arguments {
        [] => Form::Object,
        _ => Form::Construct,
    }
}

#[cycle(walk)]
fn expr(wanted: Forms, tree: &Expr) -> Option<Place>
    ensures { result ≡ first_of wanted (expr_marks (expr_view tree.now)) }
{
    let place = tree.place;
    match &tree.kind {
        ExprKind::Number(_) | ExprKind::True | ExprKind::False | ExprKind::Name(_) => None,
        ExprKind::This => formed(wanted, Form::Object, place, None),
        ExprKind::Scoped(_, _) => formed(wanted, Form::Object, place, None),
        ExprKind::Cast(_, operand) => {
            formed(wanted, Form::Cast, place, expr(wanted, operand.get()))
        }
        ExprKind::Unary(operator, operand) => {
            unary(wanted, *operator, place, expr(wanted, operand.get()))
        }
        ExprKind::Step(operand, _, _) => expr(wanted, operand.get()),
        ExprKind::Binary(left, _, _, right) => {
            expr(wanted, left.get()).or(expr(wanted, right.get()))
        }
        ExprKind::Choose(condition, _, chosen, other) => {
            let branches = expr(wanted, chosen.get()).or(expr(wanted, other.get()));
            expr(wanted, condition.get()).or(branches)
        }
        ExprKind::Assign(left, _, _, right) => {
            expr(wanted, left.get()).or(expr(wanted, right.get()))
        }
        ExprKind::New(_) => formed(wanted, Form::Object, place, None),
        ExprKind::Make(_, arguments) => {
            let inside = exprs(wanted, arguments.as_slice());
            formed(wanted, form_of_new(arguments.as_slice()), place, inside)
        }
        ExprKind::Call(callee, arguments) => {
            expr(wanted, callee.get()).or(exprs(wanted, arguments.as_slice()))
        }
        ExprKind::Member(object, _, _, _, _) => {
            formed(wanted, Form::Object, place, expr(wanted, object.get()))
        }
    }
}

#[cycle(walk)]
fn exprs(wanted: Forms, list: &[Expr]) -> Option<Place>
    ensures { result ≡ first_of wanted (exprs_marks (exprs_view list.now)) }
{
    let mut first = None;
    for tree in list {
        first = first.or(expr(wanted, tree));
    }
    first
}

fn optional_expr(wanted: Forms, tree: &Option<Expr>) -> Option<Place>
    ensures { result ≡ first_of wanted (maybe_marks (maybe_view tree.now)) }
{
    match tree {
        Some(tree) => expr(wanted, tree),
        None => None,
    }
}

fn type_name(wanted: Forms, tree: &TypeName) -> Option<Place>
    ensures { result ≡ first_of wanted (type_marks tree.now) }
{
    match &tree.kind {
        TypeNameKind::Class(_) => formed(wanted, Form::Object, tree.place, None),
        _ => None,
    }
}

fn mark_place(mark: &Option<DeclaratorMark>, name: Place) -> Place
    ensures { result ≡ mark_or mark.now name }
{
    match mark {
        Some(mark) => mark.place,
        None => name,
    }
}

fn declarator(wanted: Forms, tree: &Declarator) -> Option<Place>
    ensures { result ≡ first_of wanted (declarator_marks (declarator_view tree.now)) }
{
    match &tree.initializer {
        Initializer::Nothing => None,
        Initializer::Value(value) => expr(wanted, value),
        Initializer::Arguments(arguments) => {
            let place = mark_place(&tree.mark, tree.name.place);
            let inside = exprs(wanted, arguments.as_slice());
            formed(wanted, Form::Construct, place, inside)
        }
    }
}

fn declarators(wanted: Forms, list: &[Declarator]) -> Option<Place>
    ensures { result
        ≡ first_of wanted (flat_map declarator_marks (map declarator_view list.now)) }
{
    let mut first = None;
    for tree in list {
        first = first.or(declarator(wanted, tree));
    }
    first
}

fn variables(wanted: Forms, tree: &Variables) -> Option<Place>
    ensures { result ≡ first_of wanted (variables_marks (variables_view tree.now)) }
{
    type_name(wanted, &tree.type_name).or(declarators(wanted, tree.names.as_slice()))
}

fn for_start(wanted: Forms, tree: &ForStart) -> Option<Place>
    ensures { result ≡ first_of wanted (start_marks (start_view tree.now)) }
{
    match tree {
        ForStart::Nothing => None,
        ForStart::Expr(tree) => expr(wanted, tree),
        ForStart::Variables(tree) => variables(wanted, tree),
    }
}

#[cycle(walk_stmt)]
fn stmt(wanted: Forms, tree: &Stmt) -> Option<Place>
    ensures { result ≡ first_of wanted (stmt_marks (stmt_view tree.now)) }
{
    match &tree.kind {
        StmtKind::Block(list) => stmts(wanted, list.as_slice()),
        StmtKind::Empty | StmtKind::Break | StmtKind::Continue => None,
        StmtKind::Expr(tree) => expr(wanted, tree),
        StmtKind::Variables(tree) => variables(wanted, tree),
        StmtKind::If(condition, body) => expr(wanted, condition).or(stmt(wanted, body.get())),
        StmtKind::Choose(condition, body, other) => {
            let branches = stmt(wanted, body.get()).or(stmt(wanted, other.get()));
            expr(wanted, condition).or(branches)
        }
        StmtKind::While(condition, body) => expr(wanted, condition).or(stmt(wanted, body.get())),
        StmtKind::Do(body, condition) => stmt(wanted, body.get()).or(expr(wanted, condition)),
        StmtKind::For(start, condition, step, body) => {
            let repeated = optional_expr(wanted, step).or(stmt(wanted, body.get()));
            let rest = optional_expr(wanted, condition).or(repeated);
            for_start(wanted, start).or(rest)
        }
        StmtKind::Return(value) => optional_expr(wanted, value),
    }
}

#[cycle(walk_stmt)]
fn stmts(wanted: Forms, list: &[Stmt]) -> Option<Place>
    ensures { result ≡ first_of wanted (stmts_marks (stmts_view list.now)) }
{
    let mut first = None;
    for tree in list {
        first = first.or(stmt(wanted, tree));
    }
    first
}

fn optional_block(wanted: Forms, tree: &Option<Stmt>) -> Option<Place>
    ensures { result ≡ first_of wanted (maybe_block_marks (maybe_stmt_view tree.now)) }
{
    match tree {
        Some(tree) => stmt(wanted, tree),
        None => None,
    }
}

fn param(wanted: Forms, tree: &Param) -> Option<Place>
    ensures { result ≡ first_of wanted (param_marks tree.now) }
{
    let inside = type_name(wanted, &tree.type_name);
    match tree.virtual_at {
        Some(place) => formed(wanted, Form::Open, place, inside),
        None => inside,
    }
}

fn params(wanted: Forms, list: &[Param]) -> Option<Place>
    ensures { result ≡ first_of wanted (flat_map param_marks list.now) }
{
    let mut first = None;
    for tree in list {
        first = first.or(param(wanted, tree));
    }
    first
}

fn head(wanted: Forms, tree: &Head) -> Option<Place>
    ensures { result ≡ first_of wanted (head_marks tree.now) }
{
    type_name(wanted, &tree.type_name).or(params(wanted, tree.params.list.as_slice()))
}

fn init(wanted: Forms, tree: &Init) -> Option<Place>
    ensures { result ≡ first_of wanted (init_marks (init_view tree.now)) }
{
    exprs(wanted, tree.arguments.as_slice())
}

fn inits(wanted: Forms, list: &[Init]) -> Option<Place>
    ensures { result ≡ first_of wanted (flat_map init_marks (map init_view list.now)) }
{
    let mut first = None;
    for tree in list {
        first = first.or(init(wanted, tree));
    }
    first
}

fn constructor_body(wanted: Forms, tree: &ConstructorBody) -> Option<Place>
    ensures { result ≡ first_of wanted (body_marks (body_view tree.now)) }
{
    inits(wanted, tree.inits.as_slice()).or(stmt(wanted, &tree.block))
}

fn optional_body(wanted: Forms, tree: &Option<ConstructorBody>) -> Option<Place>
    ensures { result ≡ first_of wanted (maybe_body_marks (maybe_body_view tree.now)) }
{
    match tree {
        Some(tree) => constructor_body(wanted, tree),
        None => None,
    }
}

fn form_of_method(virtual_at: Option<Place>) -> Form
    ensures { result ≡ method_form virtual_at }
{
    match virtual_at {
        Some(_) => Form::Virtual,
        None => Form::Object,
    }
}

fn function(wanted: Forms, tree: &FnDecl) -> Option<Place>
    ensures { result ≡ first_of wanted (function_marks (function_view tree.now)) }
{
    let place = tree.place;
    match &tree.kind {
        FnDeclKind::Declaration(tree) => head(wanted, tree),
        FnDeclKind::Definition(tree, body) => head(wanted, tree).or(stmt(wanted, body)),
        FnDeclKind::MemberDefinition(_, tree, body) => {
            let inside = head(wanted, tree).or(stmt(wanted, body));
            formed(wanted, Form::Object, place, inside)
        }
        FnDeclKind::ConstructorDefinition(_, _, list, body) => {
            let inside = params(wanted, list.list.as_slice()).or(constructor_body(wanted, body));
            formed(wanted, Form::Construct, place, inside)
        }
        FnDeclKind::Method(virtual_at, tree, body) => {
            let inside = head(wanted, tree).or(optional_block(wanted, body));
            formed(wanted, form_of_method(*virtual_at), place, inside)
        }
        FnDeclKind::Destructor(_, _, _) => formed(wanted, Form::Object, place, None),
        FnDeclKind::Constructor(_, list, body) => {
            let inside = params(wanted, list.list.as_slice()).or(optional_body(wanted, body));
            formed(wanted, Form::Construct, place, inside)
        }
    }
}

fn member(wanted: Forms, tree: &Member) -> Option<Place>
    ensures { result ≡ first_of wanted (item_marks (item_view tree.now)) }
{
    match tree {
        Member::Access(_) => None,
        Member::Fields(tree, _) => type_name(wanted, tree),
        Member::Function(tree) => function(wanted, tree),
    }
}

fn members(wanted: Forms, list: &[Member]) -> Option<Place>
    ensures { result ≡ first_of wanted (flat_map item_marks (map item_view list.now)) }
{
    let mut first = None;
    for tree in list {
        first = first.or(member(wanted, tree));
    }
    first
}

fn class(wanted: Forms, tree: &ClassDecl) -> Option<Place>
    ensures { result ≡ first_of wanted (class_marks (class_view tree.now)) }
{
    let inside = match &tree.kind {
        ClassDeclKind::Declaration(_, _) => None,
        ClassDeclKind::Definition(_, _, _, list, _) => members(wanted, list.as_slice()),
    };
    formed(wanted, Form::Object, tree.place, inside)
}

fn decl(wanted: Forms, tree: &Decl) -> Option<Place>
    ensures { result ≡ first_of wanted (decl_marks (decl_view tree.now)) }
{
    match &tree.kind {
        DeclKind::Class(tree) => class(wanted, tree),
        DeclKind::Function(tree) => function(wanted, tree),
    }
}

fn decls(wanted: Forms, list: &[Decl]) -> Option<Place>
    ensures { result ≡ first_of wanted (flat_map decl_marks (map decl_view list.now)) }
{
    let mut first = None;
    for tree in list {
        first = first.or(decl(wanted, tree));
    }
    first
}

/// The place of the first token of the first tree of this form in the order of the text, a tree
/// coming before those inside it.
pub fn walk(unit: &Unit, form: Form) -> Option<Place>
    ensures { result ≡ first_of (only form) (unit_marks (unit_view unit.now)) }
{
    walk_any(unit, Forms::only(form))
}

/// The same of the first tree whose form is one of these.
pub fn walk_any(unit: &Unit, forms: Forms) -> Option<Place>
    ensures { result ≡ first_of forms (unit_marks (unit_view unit.now)) }
{
    decls(forms, unit.decls.as_slice())
}
